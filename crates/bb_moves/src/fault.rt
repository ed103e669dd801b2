//! Why a text is not a history. Hosts that read one show it.

ghost use Rattle.std.specs.Prelude.{◌≡◌, ◌+◌, ◌<◌, ◌^◌};
ghost use Rattle.bb_basis.specs.Results.{map_err};
ghost use Rattle.bb_moves.specs.Faults.{fault_at, flaw_number};
ghost use Rattle.bb_moves.specs.declared.fault.Slip.TheVariants.{Memory as OutOfMemory};

use std::alloc::{AllocError, AllocFailed};
use thiserror::Error;

/// What is wrong with a line of a history.
#[derive(Clone, Copy, Debug, PartialEq, Eq, Error)]
pub enum MovesFlaw {
    /// The first word of the line begins neither a move nor an ask, or a word follows `turn`, `post`, `answer` or
    /// `end`.
    #[error("the line is neither a move nor an ask")]
    Word,
    /// The line is a move inside a post or an answer, or an ask or `end` outside one.
    #[error("a move stands inside a post or an answer, or an ask or `end` outside one")]
    Place,
    /// A name is expected: of a class, a slot or a space.
    #[error("a name is due: a letter from a to z, then letters, digits and `_`, at most 31 in all")]
    Name,
    /// A number is expected: of a unit, 64 bits, or of cycles, 32 bits.
    #[error("a whole number is due, of at most 64 bits for a unit, and 32 for cycles")]
    Number,
    /// A value is expected.
    #[error("a value is due: a number of 64 bits, a truth, a text in quotes, an interval, or SET:LABEL")]
    Value,
    /// The schema has no such label set, or the set has no such label.
    #[error("the schema has no such label")]
    Label,
    /// The text ends inside a post or an answer. The line is the one after the last.
    #[error("the text ends inside a post or an answer")]
    End,
}

impl MovesFlaw {
    /// Returns the number of the flaw, from 1 to 7.
    pub fn number(self) -> u8
        ensures { result ≡ flaw_number self }
    {
        match self {
            MovesFlaw::Word => 1,
            MovesFlaw::Place => 2,
            MovesFlaw::Name => 3,
            MovesFlaw::Number => 4,
            MovesFlaw::Value => 5,
            MovesFlaw::Label => 6,
            MovesFlaw::End => 7,
        }
    }
}

/// Why a text is not a history: the first fault from the top.
#[derive(Clone, Copy, Debug, PartialEq, Eq, Error)]
pub enum MovesFault {
    /// A line is wrong. Lines count from 1, including blank lines and comments.
    #[error("line {line}: {flaw}")]
    At { line: u64, flaw: MovesFlaw },
    /// Memory ran out.
    #[error("out of memory")]
    Memory,
}

/// Why a line can't be read, without its number.
#[derive(Clone, Copy, Debug, PartialEq, Eq)]
pub(crate) enum Slip {
    /// The line is wrong.
    Flaw(MovesFlaw),
    /// Memory ran out.
    Memory,
}

impl Slip {
    // The fault of a line that has `before` lines before it.
    fn at(self, before: u64) -> MovesFault
        requires { before + 1 < 2 ^ 64 }
        ensures { result ≡ fault_at before self }
    {
        match self {
            Slip::Flaw(flaw) => MovesFault::At {
                line: before + 1,
                flaw,
            },
            Slip::Memory => MovesFault::Memory,
        }
    }
}

/// Returns the outcome of a line that has `before` lines before it.
pub(crate) fn placed(answer: Result<(), Slip>, before: u64) -> Result<(), MovesFault>
    requires { before + 1 < 2 ^ 64 }
    ensures { result ≡ map_err (fault_at before) answer }
{
    match answer {
        Ok(()) => Ok(()),
        Err(slip) => Err(slip.at(before)),
    }
}

impl From<AllocError> for Slip {
    ghost from_gives = { λ _ e. e ≡ OutOfMemory };

    fn from(_refused: AllocError) -> Slip {
        Slip::Memory
    }
}

impl<T: Drop> From<AllocFailed<T>> for Slip {
    ghost from_gives = { λ _ e. e ≡ OutOfMemory };

    fn from(_refused: AllocFailed<T>) -> Slip {
        Slip::Memory
    }
}
