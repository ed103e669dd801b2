//! The number of a unit. The crates above use it.

/// The number of a unit, from 1. Numbers are never reused, and 0 refers to no unit.
pub type UnitId = u64;
