//! Lints for accepted inputs: warnings about definite mistakes, then the cost of each part. Nothing is refused.
//!
//! - In: `Accepted`: a schema, sources with the section of their text, what the initial units note, and a floor.
//! - Out: `advice`, the lines.
//! - Callers rely on: a warning is given only if it is certain, for a run of this very input.
//! - Family: bb_lint_parts has locations, the changes that can happen, and costs; bb_diag_text shows pieces of the
//!   input.
//! - Cases: `advice`.
#![tactic(auto)]

mod advising;
mod finds;
mod first_foci;
mod linked;
mod mistaken;
mod rating;
mod repeating;
mod reserved;
mod sentence;
mod source_sentence;
mod triggered;
mod unused;
mod vain;
mod warning;

pub use advising::{Accepted, advice};
