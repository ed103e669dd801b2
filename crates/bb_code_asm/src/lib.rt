//! Codes as text, for people, cases and examples: one statement a line, with ops by name. bbasm and the cases
//! (bb_cases_format) call `assemble` and `disassemble`; bbasm also prints a `listing`. Callers rely on: `assemble`
//! makes the same code of the text that `disassemble` wrote.
#![tactic(auto)]

mod annotated;
mod draft;
mod fault;
mod labels;
mod names;
mod op;
mod operands;
mod pattern;
mod statement;
mod text;
mod text_table;
mod words;
mod writing;

pub use annotated::listing;
pub use bb_code::{Code, CodeFault, Kind};
pub use draft::assemble;
pub use fault::{AsmFault, Slip};
pub use text::disassemble;
pub use writing::{write_kind, write_op};
