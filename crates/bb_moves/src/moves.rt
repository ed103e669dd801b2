//! The moves of a host, as values. Hosts keep them as they make them, and `replay` makes them again.

use bb_shell::Ask;

/// What a host lets a run do between its start and its finish.
#[derive(Debug, PartialEq, Drop)]
pub enum Move {
    /// A cycle, or quiescence if nothing can be chosen.
    Turn,
    /// Up to this many more cycles, then quiescence if nothing can be chosen.
    Advance(u32),
    /// Asks about what happened outside.
    Post(Vec<Ask>),
    /// The asks of the native that is due.
    Answer(Vec<Ask>),
}
