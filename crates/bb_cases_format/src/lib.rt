//! Files of cases: headers and texts, their inserts and rows, the meaning of names, and the report on cases that do not
//! hold.
//!
//! - In: the files of `data/` of bb_cases, as docs/contributors/CASES.md describes them.
//! - Out: `Entries`, `expanded` and `rows_of`, which read files; `Names`; `Difference` and `Report`.
//! - Family: bb_cases and bb_cases_parts run the cases.
#![tactic(auto)]

mod codes;
mod difference;
mod fault;
mod files;
mod header;
mod inserts;
mod names;
mod parts;
mod pieces;
mod report;
mod rows;

pub use bb_code_asm::{Code, CodeFault, Kind, write_kind};
pub use codes::code_of;
pub use difference::Difference;
pub use fault::Fault;
pub use files::{is_shared, named_files};
pub use header::{Header, number};
pub use inserts::{Scope, expanded, expanded_text};
pub use names::{Meaning, Names, Scene};
pub use parts::{Entries, Entry, Line, Part};
pub use report::{Report, Spot};
pub use rows::{Row, rows_of};
