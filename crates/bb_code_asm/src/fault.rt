//! Faults of the text of a code. Callers of `assemble` report them with their line.

use std::alloc::{AllocError, AllocFailed};
use thiserror::Error;

/// The fault of a statement.
#[derive(Clone, Copy, Debug, PartialEq, Eq, Error)]
pub enum Slip {
    /// No op and no table has the name.
    #[error("no op and no table has this name")]
    Name,
    /// An operand is missing.
    #[error("an operand is missing")]
    Missing,
    /// There are more operands than the statement needs.
    #[error("there are too many operands")]
    TooMany,
    /// An operand is not a number in its range, or not a truth value if one is expected.
    #[error("a number in its range is due")]
    Number,
    /// An op index is neither a number nor a label.
    #[error("no such place")]
    Place,
    /// Two op indexes have the same label, or a label is not a name.
    #[error("a label is due that no other place has")]
    Label,
    /// A text is not written as in JSON.
    #[error("a text as in JSON is due")]
    Text,
    /// A word is not a kind.
    #[error("a kind is due")]
    Kind,
    /// A pattern is not well-formed.
    #[error("a pattern is due")]
    Pattern,
    /// A loop is not well-formed.
    #[error("a loop is its head, `-` and its end")]
    Loop,
    /// The number of locals comes after a frame.
    #[error("the number of locals comes first")]
    Late,
    /// A frame doesn't have one kind for each local.
    #[error("a frame has a kind for each local")]
    Locals,
    /// A count is outside its limits.
    #[error("a limit of codes is passed")]
    Limit,
}

/// The first fault of a text that is not a code.
#[derive(Clone, Copy, Debug, PartialEq, Eq, Error)]
pub enum AsmFault {
    /// The fault of a statement, and its line, from 1.
    #[error("line {line}: {slip}")]
    At { line: u32, slip: Slip },
    /// Memory ran out.
    #[error("out of memory")]
    Memory,
}

impl AsmFault {
    /// Returns the line of the fault, from 1, or 0 if memory ran out.
    pub fn line(&self) -> u32 {
        match self {
            AsmFault::At { line, slip: _ } => *line,
            AsmFault::Memory => 0,
        }
    }
}

impl From<AllocError> for AsmFault {
    fn from(_error: AllocError) -> AsmFault {
        AsmFault::Memory
    }
}

impl<T: Drop> From<AllocFailed<T>> for AsmFault {
    fn from(_error: AllocFailed<T>) -> AsmFault {
        AsmFault::Memory
    }
}

/// The reason why the reading of a statement stopped.
#[derive(Clone, Copy, Debug, PartialEq, Eq)]
pub(crate) enum StatementFault {
    Slip(Slip),
    Memory,
}

impl StatementFault {
    /// Makes the fault of a text from the fault of a statement in a line.
    pub(crate) fn at(self, line: u32) -> AsmFault {
        match self {
            StatementFault::Slip(slip) => AsmFault::At { line, slip },
            StatementFault::Memory => AsmFault::Memory,
        }
    }
}

impl From<Slip> for StatementFault {
    fn from(slip: Slip) -> StatementFault {
        StatementFault::Slip(slip)
    }
}

impl From<AllocError> for StatementFault {
    fn from(_error: AllocError) -> StatementFault {
        StatementFault::Memory
    }
}

impl<T: Drop> From<AllocFailed<T>> for StatementFault {
    fn from(_error: AllocFailed<T>) -> StatementFault {
        StatementFault::Memory
    }
}
