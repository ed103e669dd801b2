//! Replay of held runs: the moves of a host as values and as text, and the run that they make.
//!
//! - In: a shell, moves or their text, and an output.
//! - Out: `replay` and, if the host answers for natives, `replay_hosted`: the run after the moves, with its trace
//!   written. `play` makes moves of a run that is already held. `history` writes a move as text. `moves_of` reads the
//!   moves of a text, or returns its first `MovesFault`.
//! - Callers rely on: trace and run are the same as the abstract blackboard machine's for the same history. A host that
//!   keeps its moves can therefore restore its run, with its agenda and all numbers. What `history` writes is read as
//!   the same moves, also if the texts of many moves are put together.
//! - Cases: `moves`, `moves_full`, `moves_refused`.
#![tactic(auto)]

mod asks;
mod fault;
mod keyword;
mod moves;
mod orderly;
mod reading;
mod replaying;
mod telling;
mod values;
mod words;
mod writing;

pub use bb_run_held::{Pause, Running};
pub use bb_schema::{Schema, SchemaFault};
pub use bb_shell::{
    Ask, Board, Closed, Finish, Halt, HostedShell, InputFault, NativeSource, Out, Pipe, Shell,
    Text, Texts, UnitId, Value, View,
};
pub use fault::{MovesFault, MovesFlaw};
pub use moves::Move;
pub use orderly::histories_are_orderly;
pub use reading::moves_of;
pub use replaying::{play, replay, replay_hosted};
pub use writing::history;
