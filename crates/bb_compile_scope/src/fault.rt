//! Faults of sources in the compiler. Refusal lines have their numbers.

ghost use Rattle.std.specs.Prelude.{◌≡◌};
ghost use Rattle.bb_compile_scope.specs.declared.fault.CompileFault.TheVariants.{Memory as OutOfMemory};
ghost use Rattle.bb_compile_scope.specs.Faults.{flaw_number, fault_number, lowest};

use bb_lang_tree::Place;
use std::alloc::{AllocError, AllocFailed};
use thiserror::Error;

/// What is wrong with a statement, a part or a clause.
#[derive(Clone, Copy, Debug, PartialEq, Eq, Error)]
pub enum TextFlaw {
    /// A name, class, slot, space or label that does not exist, or a dimension that does not exist for the relation.
    #[error("a name that is not there")]
    Unknown,
    /// A value or a slot of a wrong kind.
    #[error("a value or a slot of a wrong kind")]
    Kind,
    /// A unit that may have been deleted, although a live one is needed.
    #[error("a unit that may be deleted")]
    DeadName,
    /// The link slot cannot link units of the unit's class.
    #[error("a unit whose class the link does not lead to")]
    LinkClass,
    /// The space does not admit the unit's class.
    #[error("a space that does not admit the unit")]
    Space,
    /// A change outside `do`.
    #[error("a change outside `do`")]
    Effect,
    /// A statement that ends a different part, a statement after one that always ends, or a part that can run past its
    /// end.
    #[error("an end that does not belong there, or none")]
    NoEnd,
    /// The code would exceed one of its limits.
    #[error("the code would be too large")]
    Limit,
}

impl TextFlaw {
    /// Returns the number of the flaw, from 1 to 8. If a statement has several flaws, the lowest is reported.
    pub fn number(self) -> u8
        ensures { result ≡ flaw_number self }
    {
        match self {
            TextFlaw::Unknown => 1,
            TextFlaw::Kind => 2,
            TextFlaw::DeadName => 3,
            TextFlaw::LinkClass => 4,
            TextFlaw::Space => 5,
            TextFlaw::Effect => 6,
            TextFlaw::NoEnd => 7,
            TextFlaw::Limit => 8,
        }
    }
}

/// Returns the flaw with the lower number: the lowest seen so far in a statement, or another.
#[tactic(auto, unfolding(crate::specs::Faults::lowest))]
pub fn lowest(seen: Option<TextFlaw>, flaw: TextFlaw) -> TextFlaw
    ensures { result ≡ lowest seen flaw }
{
    match seen {
        None => flaw,
        Some(first) => {
            if first.number() < flaw.number() {
                return first;
            }
            flaw
        }
    }
}

/// What is wrong with a source: the flaw at the first location and, of several there, the one with the lowest number.
#[derive(Clone, Copy, Debug, PartialEq, Eq, Error)]
pub enum CompileFault {
    /// A flaw of the statement, part or clause that begins at the location.
    #[error("line {line}, column {column}: {flaw}", line = .place.line, column = .place.column)]
    At { flaw: TextFlaw, place: Place },
    /// Memory ran out.
    #[error("out of memory")]
    Memory,
}

impl CompileFault {
    /// Returns the number of the fault in a refusal line, from 1 to 9.
    pub fn number(self) -> u8
        ensures { result ≡ fault_number self }
    {
        match self {
            CompileFault::At { flaw, .. } => flaw.number(),
            CompileFault::Memory => 9,
        }
    }
}

impl From<AllocError> for CompileFault {
    ghost from_gives = { λ _ e. e ≡ OutOfMemory };

    fn from(_refused: AllocError) -> CompileFault {
        CompileFault::Memory
    }
}

impl<T: Drop> From<AllocFailed<T>> for CompileFault {
    ghost from_gives = { λ _ e. e ≡ OutOfMemory };

    fn from(_refused: AllocFailed<T>) -> CompileFault {
        CompileFault::Memory
    }
}
