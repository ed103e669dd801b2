//! The pieces of advice on accepted sources: the locations of ops, clauses and parts, the changes that a run can have,
//! and the costs of parts.
//!
//! - In: a schema, sources with the section of their text, and the notes of the initial units.
//! - Out: a `Site` for each op, clause and part, which writes its location; `Possible`, which reports whether a run can
//!   have a kind of change for a class; `Crowds`, which spaces can hold many units; `write_costs`, which appends a
//!   table of costs, and a line for every cost that no budget shows.
//! - Callers rely on: nothing impossible happens in any run of these sources from these initial units; anything
//!   possible may still never happen. The compiler keeps no locations; they are therefore read from the tokens again: a
//!   site in a text is the location of the statement with the op, or else of the word of its part; a site in bytecode
//!   is the op.
//! - Family: bb_lint writes warnings from these; bb_diag_text has the tokens.
//! - Cases: `advice`.
#![tactic(auto)]

mod adding;
mod cost_notes;
mod costs;
mod crowds;
mod existence;
mod op_sites;
mod outline;
mod outlining;
mod possible;
mod site;
mod source_sites;
mod spot;
mod widths;

pub use costs::{Costed, write_costs};
pub use crowds::Crowds;
pub use op_sites::OpSites;
pub use possible::Possible;
pub use site::{Origin, Site, Subject};
pub use source_sites::{SourceSites, Texts};
pub use spot::Spot;
