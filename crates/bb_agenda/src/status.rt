//! What became of an activation. The agenda returns it.

/// What became of an activation that was given.
#[derive(Clone, Copy, Debug, PartialEq, Eq)]
pub enum Status {
    /// No cycle has chosen the activation yet.
    Pending,
    /// A cycle has executed the activation.
    Executed,
    /// The activation was obviated before a cycle chose it.
    Obviated,
}
