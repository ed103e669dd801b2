//! The agenda of a blackboard: which activations are pending, what became of the others, how foci rate them, and which
//! one a cycle executes.
//!
//! - In: activations, foci, and what events do to pending activations.
//! - Out: `Agenda`, which numbers and rates activations and returns the next one to execute. The part `focusing` has
//!   the ratings: which activations a focus matches, and what its weight adds.
//! - Callers rely on: the chosen activation is the best, and of equals the first (`chosen_is_best`). An activation that
//!   was executed or obviated is never pending again (`what_is_over_stays_over`).
//! - Cases: `foci`, `floors`; tests in bb_rules_tests.
#![tactic(auto)]

mod agenda;
mod choice;
mod choosing;
mod fault;
pub mod focusing;
mod history;
mod lists;
mod number_set;
mod numbers;
mod order;
mod rank;
mod status;
mod waiting;

pub use agenda::{Agenda, NUMBER_LIMIT, PENDING_LIMIT};
pub use choice::chosen_is_best;
pub use fault::AddFault;
pub use focusing::{Activation, Focus, RatedSource};
pub use history::what_is_over_stays_over;
pub use numbers::Numbers;
pub use status::Status;
