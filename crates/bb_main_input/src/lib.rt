//! The input of the program: reads its bytes, and cuts them into sections.
//!
//! - In: a reader, as `In`.
//! - Out: `read_input`, all bytes; `Sections::of_bytes`, the texts between the header lines, or the first fault.
//! - Callers rely on: at most one byte more than `INPUT_LIMIT` is taken, and then the input is refused; a section is
//!   its text byte for byte.
//! - Family: bb_main serves the sections.
//! - Cases: `program`, `sentences`, `limits`; tests in bb_main_tests.
#![tactic(auto)]

mod input;
mod read;
mod section_fault;
mod section_report;
mod sections;

pub use input::{In, Intake};
pub use read::{INPUT_LIMIT, ReadFault, read_input};
pub use section_fault::SectionFault;
pub use section_report::SectionReport;
pub use sections::Sections;
