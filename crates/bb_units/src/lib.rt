//! The units of a blackboard: which numbers are live, with their classes and values.
//!
//! - In: created and deleted units, and slot values that fit the class.
//! - Out: `Units`, a finite map from unit numbers to a class and its values.
//! - Callers rely on: a number is given to one unit only, and at most `UNIT_LIMIT` units are live.
//! - Cases: `units`, `values`, and `documents` (initial units).
#![tactic(auto)]

mod block;
mod fault;
mod layout;
mod numbered;
mod unit;
mod units;
mod values;

pub use bb_schema::UnitId;
pub use fault::CreateFault;
pub use units::{UNIT_LIMIT, Units};
