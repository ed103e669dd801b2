//! Positions of faults in a source, for `RuleFault`.

/// A list of clauses of a source.
#[derive(Clone, Copy, Debug, PartialEq, Eq)]
pub enum ClauseList {
    /// The clauses that trigger the source.
    Triggers,
    /// The clauses of `obviate`.
    Obviate,
    /// The clauses of `retrigger`.
    Retrigger,
}

/// A clause of a source: its list, and its index in the list, from 0.
#[derive(Clone, Copy, Debug, PartialEq, Eq)]
pub struct ClausePlace {
    pub list: ClauseList,
    pub index: usize,
}

/// Where a source names a class.
#[derive(Clone, Copy, Debug, PartialEq, Eq)]
pub enum ClassPlace {
    /// The class of the units that the source works on.
    Source,
    /// The class after `obviate`.
    Obviate,
    /// The class after `retrigger`.
    Retrigger,
    /// The class in a clause.
    Clause(ClausePlace),
}
