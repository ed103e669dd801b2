//! The tokens of a text of sources, for messages, and what the grammar expects at a location.
//!
//! - In: a text of sources, and the line and column of a fault.
//! - Out: `look`, a `Spot`: the tokens around a location, the tokens expected there, the open brackets, and the parts
//!   that the source has so far; `list_sources` and `source_tokens`, the tokens of sources; `Pieces`, a text cut at the
//!   beginning of each source; `Operators`, the operators of other languages in a piece; `FirstFocus`, a focus among
//!   the initial units.
//! - Callers rely on: the parser (bb_lang) decides how a text is read; the grammar here only serves messages, and a
//!   `Spot` expects nothing if this grammar lacks the tokens before it.
//! - Family: bb_diag_input shows pieces of an input, and is re-exported here; bb_diag_source writes sentences from a
//!   `Spot`; bb_diag_source and bb_lint_parts find locations by tokens.
//! - Cases: `sentences`.
#![tactic(auto)]

mod first_focus;
mod listed;
mod operators;
mod outer_rules;
mod pattern_rules;
mod pieces;
mod spot;
mod statement_rules;
mod symbol;
mod token;
mod value_rules;
mod walk;

pub use bb_diag_input::{
    Section, SectionLine, begin_line, fault_at, line_at, note_header, write_excerpt,
    write_excerpt_at, write_note, write_phrase, write_quoted, write_shown, write_whole_line,
};
pub use first_focus::FirstFocus;
pub use listed::{ListedSource, SourceTokens, list_sources, source_line, source_tokens};
pub use operators::Operators;
pub use pieces::{Piece, Pieces};
pub use spot::{Bracket, Spot, look};
pub use symbol::{Due, RESERVED, is_reserved};
pub use token::{Token, TokenKind};
