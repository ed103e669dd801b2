//! Messages on refused inputs: the sentence of the fault and, below it, notes with names and text from its location.
//!
//! - In: the sections of an input, and its fault.
//! - Out: `report`, the message, and `brief`, its first line; `report_input`, the message on an input without sections;
//!   `read_first_units`, what the initial units note, or why they are refused.
//! - Callers rely on: messages are for people. A fault has its location only as numbers; notes are therefore looked up
//!   in the input, which is read again.
//! - Family: bb_diag_source and bb_diag_meaning write the messages on texts, bb_diag_input the notes on documents;
//!   bb_diag_input shows pieces of an input; bb_main prints reports.
//! - Cases: `sentences`.
#![tactic(auto)]

mod bundle_notes;
mod code_notes;
mod due;
mod first_units;
mod heading;
mod input_report;
mod kinds;
mod others;
mod reporting;
mod rule_notes;

pub use first_units::{FirstUnits, read_first_units};
pub use input_report::report_input;
pub use reporting::{Input, brief, report};
