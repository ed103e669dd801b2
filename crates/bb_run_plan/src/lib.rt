//! The plan of a run: the schema, the sources in order, the floor, and which sources an event concerns. Also the foci
//! of the blackboard.
//!
//! - In: a schema, and sources made under it.
//! - Out: a `Plan`, which finds the sources that an event concerns by the event's kind. `tell_all` and `tell_notes`
//!   report to an agenda which foci a blackboard has.
//! - Callers rely on: every code of a source was accepted, and the sources that a plan names for an event are those
//!   with a clause of its kind, in order.
//! - Cases: `runs` and `model-runs`.
#![tactic(auto)]

mod concerned;
mod foci;
mod plan;

pub use foci::{rated_sources, tell_all, tell_notes};
pub use plan::{Plan, SOURCE_LIMIT};
