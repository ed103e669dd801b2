//! The scope of a statement of a source's text, for messages: its tokens, the names in scope and what they hold, the
//! kind of a value, and the names of a schema.
//!
//! - In: a schema, and the tokens of a source.
//! - Out: `Statement`, the tokens of one; `Judge`, the scope before it; `kind_of`; lists of names.
//! - Callers rely on: this is for messages. The compiler (bb_compile_scope) decides what a name holds; here it is read
//!   from the tokens, as far as they show it.
//! - Family: bb_diag_meaning writes messages from it.
//! - Cases: `sentences`.

mod judge;
mod kinds;
mod names;
mod owning;
mod statement;

pub use judge::{Deletion, Judge, Known};
pub use kinds::{COMPARISONS, LOGIC, SUMS, kind_of, position_of, write_kind, write_value};
pub use names::{
    admitted_names, class_names, dim_names, label_names, slot_names, space_names, write_names,
};
pub use owning::owning_path;
pub use statement::{Statement, until_end, word_at};
