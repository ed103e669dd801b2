//! Messages on a source's text: syntax errors, with what was found, what was expected, and the fix, also for habits
//! from other languages; and `scope`, the names and kinds at a statement, for messages on what does not compile.
//!
//! - In: a text of sources, and its fault.
//! - Out: `explain`, the message, if there is anything to add to the fault's number; `explain_operator`, the message on
//!   an operator of another language.
//! - Callers rely on: messages are for people. Only lack of memory makes it fail.
//! - Family: bb_diag_text gives what could come at a location; bb_diag_meaning writes messages from `scope`.
//! - Cases: `sentences`.
#![tactic(auto)]

mod characters;
mod explaining;
mod limits;
mod order;
pub mod scope;
mod slips;
mod statement_slips;
mod tokens;
mod value_slips;
mod words;

pub use explaining::{explain, explain_operator};
