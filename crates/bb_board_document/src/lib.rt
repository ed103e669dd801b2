//! Writes the contents of a blackboard as a document of initial units.
//!
//! - In: a `View` of a blackboard.
//! - Out: `units_document`, a text that `Board::load` reads.
//! - Callers rely on: a blackboard of the same schema that loads the text has the same units, links and members of
//!   spaces, renumbered without gaps.
#![tactic(auto)]

mod document;
mod given;
mod link;
mod listing;
mod value;

pub use document::units_document;
