//! A run held by a host in another language. It can be dropped, keeps the trace until it is read, and gathers asks
//! until they are posted.
//!
//! - In: the bytes of an input, moves, asks, and buffers to read into.
//! - Out: the state of the run after each move; its trace; and on request the blackboard, the agenda, the native that
//!   is due, and the possible costs of its sources. `why_refused`: why an input is refused.
//! - Histories: `Held::told` returns the text of a move before it is made, and `Held::resume` makes the moves of such
//!   texts again.
//! - Callers rely on: reads return the bytes that the moves emit (`bb_run_held/specs/Moves`), in order, every byte
//!   once.
//! - Family: bb_run_held is the run, bb_c has the calls for C.
//! - Tests: bb_main_tests.
#![tactic(auto)]

mod agenda;
mod costs;
mod held;
mod looking;
mod no_native;
mod refusal;
mod resuming;
mod slot_kind;
mod stands;
mod telling;
mod trace;

pub use agenda::Waits;
pub use bb_run_held::Pause;
pub use bb_shell::{Ask, Memory, Text, Value};
pub use held::{Held, OpenFault};
pub use looking::fill;
pub use no_native::NoNative;
pub use refusal::{Refusal, why_refused};
pub use resuming::ResumeFault;
pub use slot_kind::SlotKind;
pub use stands::Stands;
pub use telling::{Step, TellFault};
