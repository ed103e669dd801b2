//! A run that its host holds. It makes a part of the run and returns; then the host can read the blackboard, post what
//! happened outside, continue the run, or end it.
//!
//! - In: a shell (bb_shell), moves in sequence, and an output for each.
//! - Out: the state of the run after each move, with its trace written; at the end, the blackboard.
//! - Callers rely on: each move emits what the abstract blackboard machine emits there (`specs/Moves`), and the trace
//!   does not show the points at which `advance` returned to the host.
#![tactic(auto)]

mod beginning;
mod orderly;
mod pause;
mod running;

pub use bb_run::{
    Act, Activation, Agenda, Ask, Board, ClassPlace, Classes, ClauseList, ClausePlace, Closed,
    Closing, DimValue, DocumentPlace, End, Finish, Halt, ListItem, ListKey, NativeSource, Node,
    OperandKind, Out, Pattern, Pipe, Plan, Query, Relation, Roster, RuleFault, SOURCE_LIMIT,
    SharedSchema, Source, Start, UnitsFault, UnitsFlaw, View, close_each, put_all, run_to_end,
    runs_are_orderly,
};
pub use orderly::moves_are_orderly;
pub use pause::Pause;
pub use running::Running;
