//! The run of a blackboard: events trigger sources, activations are pending on the agenda, and a cycle executes the
//! best one.
//!
//! - In: a `Plan`, a `Board` and a roster of natives (`Start`), a limit of cycles and an output.
//! - Out: `run_to_end`, which writes the trace to the output, closes every native once, and returns how the run ended.
//! - Callers rely on: the trace is the abstract blackboard machine's (`specs/Run`), regardless of what the sources do.
//! - Cases: `runs`, `triggers`, `foci`, `floors`, `limits_of_runs`, `model-runs`; tests in bb_shell_tests.
#![tactic(auto)]

mod asking;
mod calling;
mod cycles;
mod ending;
mod execution;
mod finish;
mod noting;
mod orderly;
mod processing;
mod reacting;
mod runner;
mod state;
mod triggering;
mod whole;

pub use bb_agenda::{Activation, Agenda};
pub use bb_run_plan::{Plan, SOURCE_LIMIT};
pub use bb_trace::{
    Act, Ask, Board, ClassPlace, Classes, ClauseList, ClausePlace, Closed, Closing, Denial,
    DimValue, DocumentPlace, End, EndKind, Halt, ListItem, ListKey, NativeSource, Node,
    OperandKind, Out, Page, Pattern, Pipe, Query, Refusal, Relation, Roster, RuleFault,
    SharedSchema, Source, UnitsFault, UnitsFlaw, View, close_each, put_all,
};
pub use cycles::choose;
pub use finish::Finish;
pub use orderly::runs_are_orderly;
pub use runner::Runner;
pub use state::{Start, State};
pub use whole::{first_state, run_to_end};
