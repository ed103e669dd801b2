//! Executions of a code, as lines: by the machine that tests each op and, if the code is accepted, by the machine for
//! verified code, with a line if the two differ. Cases of codes and tables of runs (bb_cases) ask for them.
//!
//! - In: a code, accepted or not, the entry that it is executed for, and two equal blackboards.
//! - Out: how it ends and what it notes, as `add_execution` appends it.
//! - Family: bb_machine and bb_exec have the machines, bb_cases_format the first difference of two texts.

mod accepted;
mod both;
mod executions;
mod fitting;
mod pictures;

pub use bb_machine::Entry;
pub use both::{Boards, add_execution};
pub use executions::Asked;
