//! Faults of sources, with their positions. Refusal lines have their numbers.

ghost use Rattle.std.specs.Prelude.{◌≡◌};
ghost use Rattle.bb_basis.specs.Results.{map_err};
ghost use Rattle.bb_rules.specs.declared.fault.RuleFault.TheVariants.{Memory as OutOfMemory};
ghost use Rattle.bb_rules.specs.Faults.{at_clause, fault_number};

use crate::place::{ClassPlace, ClausePlace};
use std::alloc::{AllocError, AllocFailed};
use thiserror::Error;

/// Why a source does not fit a schema, or the sources before it.
#[derive(Clone, Copy, Debug, PartialEq, Eq, Error)]
pub enum RuleFault {
    /// The class of the clause at this position has no slot of that name and sort.
    #[error("a clause names a slot that its class has not")]
    Slot { place: ClausePlace },
    /// No space has the name in the clause at this position.
    #[error("a clause names a space that is not there")]
    Space { place: ClausePlace },
    /// A part was checked as another part, or for other classes.
    #[error("a part was checked for something else")]
    Part,
    /// Memory ran out.
    #[error("out of memory")]
    Memory,
    /// No class has the name at this position, or the class of the clause there does not descend from the class of its
    /// source or reaction.
    #[error("a class that is unknown or outside that of the source")]
    Class { place: ClassPlace },
    /// An earlier source has the name of the source at this index, from 0.
    #[error("source {place} has the name of an earlier one")]
    Twice { place: u64 },
    /// 256 sources come before the source at this index, from 0.
    #[error("source {place} is one too many")]
    Limit { place: u64 },
    /// No native has the name of the source at this index, from 0.
    #[error("there is no native for source {place}")]
    Native { place: u64 },
}

impl RuleFault {
    /// Returns the number of the fault in a refusal line, from 1 to 8.
    pub fn number(self) -> u8
        ensures { result ≡ fault_number self }
    {
        match self {
            RuleFault::Slot { .. } => 1,
            RuleFault::Space { .. } => 2,
            RuleFault::Part => 3,
            RuleFault::Memory => 4,
            RuleFault::Class { .. } => 5,
            RuleFault::Twice { .. } => 6,
            RuleFault::Limit { .. } => 7,
            RuleFault::Native { .. } => 8,
        }
    }
}

impl From<AllocError> for RuleFault {
    ghost from_gives = { λ _ e. e ≡ OutOfMemory };

    fn from(_refused: AllocError) -> RuleFault {
        RuleFault::Memory
    }
}

impl<T: Drop> From<AllocFailed<T>> for RuleFault {
    ghost from_gives = { λ _ e. e ≡ OutOfMemory };

    fn from(_refused: AllocFailed<T>) -> RuleFault {
        RuleFault::Memory
    }
}

/// What is wrong with a clause, without its position.
#[derive(Clone, Copy, Debug, PartialEq, Eq)]
pub(crate) enum ClauseFlaw {
    /// The class of the clause has no slot of that name and sort.
    Slot,
    /// No space has the name.
    Space,
    /// No class has the name, or the class does not descend from the class of the source or reaction.
    Class,
}

impl ClauseFlaw {
    /// Returns the fault of the clause at a position that has this flaw.
    pub(crate) fn at(self, place: ClausePlace) -> RuleFault
        ensures { result ≡ at_clause place.list place.index self }
    {
        match self {
            ClauseFlaw::Slot => RuleFault::Slot { place },
            ClauseFlaw::Space => RuleFault::Space { place },
            ClauseFlaw::Class => RuleFault::Class {
                place: ClassPlace::Clause(place),
            },
        }
    }
}

/// Turns the flaw of the clause at a position into the fault there.
pub(crate) fn placed<T>(answer: Result<T, ClauseFlaw>, place: ClausePlace) -> Result<T, RuleFault>
    ensures { result ≡ map_err (at_clause place.list place.index) answer }
{
    match answer {
        Ok(value) => Ok(value),
        Err(flaw) => Err(flaw.at(place)),
    }
}
