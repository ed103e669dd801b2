//! Messages on statements that do not compile and on clauses that do not fit: unknown names and the known ones, kinds
//! that do not match, units that may be gone, classes that do not fit, and limits.
//!
//! - In: a schema, a text of sources, the name of the source, and its fault.
//! - Out: `explain_statement`, and `explain_clause` for a clause: the message, if there is anything to add to the
//!   fault's number; `explain_clauses`, the message on the first clause of a source that does not fit.
//! - Callers rely on: messages are for people. The statement is examined again, by its tokens and by what the names
//!   before it hold; if no fault is found, no message is returned.
//! - Family: bb_diag_source has the facts known at a statement; bb_compile_scope has the rules of slots and kinds.
//! - Cases: `sentences`.
#![tactic(auto)]

mod clauses;
mod explaining;
mod mismatch;
mod operations;
mod others;
mod units;
mod unknown;

pub use clauses::{Clause, Reason, explain_clause, explain_clauses};
pub use explaining::{Found, explain_statement};
