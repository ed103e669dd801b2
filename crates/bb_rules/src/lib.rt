//! Sources whose names are looked up and whose codes are accepted, and the events they respond to.
//!
//! - In: a source of a bundle, with `Lowered` codes, and a schema.
//! - Out: `Source::new`, the source, or the first `RuleFault` with the clause or class at fault.
//! - Callers rely on: each code was accepted for its part; codes of parts other than `do` cannot write; whether an
//!   event matches a list of clauses is looked up by the event's kind and class. `most_steps` and `creates` return what
//!   a source may cost.
//! - Cases: `triggers`, `bundles`; tests in bb_rules_tests.
#![tactic(auto)]

mod clause;
mod clauses;
mod codes;
mod cost;
mod fault;
mod found;
mod ids_by;
mod kind_index;
mod own;
mod parts;
mod place;
mod question;
mod resolve;
mod source;

pub use clause::Clause;
pub use clauses::Clauses;
pub use fault::RuleFault;
pub use kind_index::KindIndex;
pub use place::{ClassPlace, ClauseList, ClausePlace};
pub use question::Question;
pub use resolve::Classes;
pub use source::{Act, Reaction, Source, SourceParts};
