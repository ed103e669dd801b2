//! Locations of messages in an input, with excerpts: a caret, quoted names, and the byte at which a document stops
//! being JSON; and `documents`, the notes on refused documents.
//!
//! - In: texts of an input, and the line and column, or the byte, of a fault.
//! - Out: `write_excerpt`, `write_quoted` and others, which append to a message; `Section` and `SectionLine`, the
//!   beginning of a message; `fault_at`, the first byte at which a document stops being JSON; the notes of `documents`.
//! - Callers rely on: control characters of an input are shown as blanks.
//! - Family: bb_diag_text adds tokens, and hands these on.
//! - Cases: `sentences`.
#![tactic(auto)]

pub mod documents;
mod excerpt;
mod scan;
mod section;
mod words;

pub use excerpt::{line_at, write_excerpt, write_excerpt_at, write_whole_line};
pub use scan::fault_at;
pub use section::{Section, SectionLine, note_header};
pub use words::{begin_line, write_note, write_phrase, write_quoted, write_shown};
