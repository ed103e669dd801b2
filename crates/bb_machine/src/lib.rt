//! The defensive machine: executes any code, accepted or not, and checks everything that could go wrong.
//!
//! `Machine` is the state of an execution: the index of its next op, its locals and its stack. `execute` applies every
//! op to it and to the blackboard, and returns the answer, or a `Stop` with the reason.
//!
//! Its definitions (specs/Step.antt) state what every op does. bb_theorem_machine proves that accepted codes are never
//! stuck. bb_exec, which executes them in a run, has the same outcome, steps and blackboard unless memory runs out. It
//! also uses the types of outcomes, texts and sequences, and the functions that compute results, such as `calculated`.
#![tactic(auto)]

mod arithmetic;
mod changing;
mod execution;
mod halt;
mod jumping;
mod machine;
mod outcome;
mod reading;
mod sequence;
mod step;
mod text_ref;
mod value;

pub use arithmetic::{bound_of, calculated, combined, compared, divided};
pub use bb_board::{Board, Reason, Said};
pub use bb_units::CreateFault;
pub use execution::execute;
pub use halt::Halt;
pub use machine::Machine;
pub use outcome::{Answer, Entry, Outcome, Stop, Stuck};
pub use sequence::Sequence;
pub use text_ref::TextRef;
pub use value::Value;
