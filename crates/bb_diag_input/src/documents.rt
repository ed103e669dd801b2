//! Notes on refused documents: the schema and the initial units. They have the names at the entry with the fault, and
//! what is wrong there.
//!
//! - In: a section of an input, and the fault of its document.
//! - Out: `note_schema` and `note_units`, which append the notes; `json_place`, the location at which a document stops
//!   being JSON; `json_of` and `text_at`, to read one.
//! - Callers rely on: messages are for people. A fault has its location only as numbers. Notes are therefore looked up
//!   in the document, which is read again.
//! - Family: bb_diag writes the reports that these notes end.
//! - Cases: `sentences`.

mod dimension_notes;
mod entry;
mod json_notes;
mod schema_notes;
mod shape_notes;
mod slot_kind;
mod units_notes;

pub use entry::text_at;
pub use json_notes::{json_of, json_place};
pub use schema_notes::note_schema;
pub use units_notes::note_units;
