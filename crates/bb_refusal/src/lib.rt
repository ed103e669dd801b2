//! Why an input is refused: the fault of the first step that refuses it, the line that programs write for it, and the
//! sentence for people.
//!
//! - In: the faults of all crates below.
//! - Out: `InputFault`, its numbers and its sentence.
//! - Callers rely on: every refusal but out of memory has a line of numbers, which names the step, the location and the
//!   fault (docs/users/REFUSALS.md).
//! - Family: bb_diag shows the text at the location of a fault, in the pieces of bb_diag_text.
//! - Cases: `refusals`, `sentences`; tests in bb_shell_tests.
#![tactic(auto)]

mod input_fault;
mod sentence;

pub use input_fault::InputFault;
