//! The blackboard: its units, their links, their spaces, what happens on it, and the document of its initial units.
//!
//! - In: a `Schema`, the text of a document of initial units, and changes.
//! - Out: `Board::load`, or the first `UnitsFault` with the position of its entry; and the notes of each change.
//! - Callers rely on: a blackboard always fits its schema (definition `Fits`): links have both ends, no deleted unit is
//!   linked or in a space, and values have their slots' kinds. Each change is the definition's, or it is refused and
//!   changes nothing.
//! - Parts: `state` has the contents of a blackboard, and each change is a step of it (`state`, `links`, `members`,
//!   `deleting`). `board` adds the schema, and refuses every change once memory was refused to one.
//! - Cases: `units`, `links`, `linking`, `spaces`, `values`, `documents` (initial units); tests in bb_board_tests and
//!   bb_board_parts_tests.
#![tactic(auto)]

mod board;
mod deleting;
mod event;
mod found;
mod links;
mod loader;
mod members;
mod note;
mod reason;
mod state;
mod unit_names;
mod units_fault;
mod values;

pub use bb_query::{DimValue, Query};
pub use bb_schema::SharedSchema;
pub use bb_schema_form::{DocumentPlace, ListItem, ListKey};
pub use board::Board;
pub use event::{Change, ChangeKind, Event};
pub use note::{Note, Said};
pub use reason::Reason;
pub use state::State;
pub use units_fault::{UnitsFault, UnitsFlaw};
