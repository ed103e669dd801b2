//! An activation: a source to be executed on a unit. The agenda keeps the pending ones.

use bb_schema::UnitId;

/// A source to be executed on a unit (GBBopen Reference Manual, KSAs; Hayes-Roth 1985, KSARs).
#[derive(Clone, Copy, Debug, PartialEq, Eq)]
pub struct Activation {
    /// The number of the activation, from 1.
    pub number: u64,
    /// The index of the source.
    pub source: u16,
    /// The unit of the event that triggered the source, or 0 if the event had none.
    pub unit: UnitId,
    /// The rating before foci count.
    pub base: i64,
}
