//! Why a document of initial units is refused. `Board::load` returns it, and a refusal line has its number (bb_shell).

ghost use Rattle.std.specs.Prelude.{◌≡◌};
ghost use Rattle.bb_basis.specs.Results.{map_err};
ghost use Rattle.bb_board.specs.declared.units_fault.UnitsFault.TheVariants.{Memory as OutOfMemory};
ghost use Rattle.bb_board.specs.UnitsFaults.{flaw_number, fault_number, is_memory};
ghost use Rattle.bb_board.specs.UnitsFaults.{here, inside, of_create_fault, of_reason};

use crate::reason::Reason;
use bb_schema_form::{DocumentPlace, ListKey};
use bb_units::CreateFault;
use std::alloc::{AllocError, AllocFailed};
use thiserror::Error;

/// What is wrong with a document of initial units, or with an entry of it.
#[derive(Clone, Copy, Debug, PartialEq, Eq, Error)]
pub enum UnitsFlaw {
    /// The text is not JSON.
    #[error("the units document is not JSON")]
    Json,
    /// The JSON does not have the form of initial units: another key, a missing one, or a value of another form.
    #[error("the units document has not the form of first units")]
    Shape,
    /// An entry refers to something that does not exist.
    #[error("a reference to what is not there")]
    Unknown,
    /// Two units have the same name.
    #[error("two units have one name")]
    Twice,
    /// A value does not fit its slot.
    #[error("a value does not fit its slot")]
    Kind,
    /// A unit is not of the class that a link slot asks for.
    #[error("a unit is not of the class that a link slot asks for")]
    LinkClass,
    /// A unit has a class that a space does not accept.
    #[error("a unit is of a class that a space does not take")]
    Space,
    /// No more units can be created.
    #[error("no more units")]
    Full,
}

impl UnitsFlaw {
    /// Returns the flaw's number in a refusal line, from 1 to 8.
    pub fn number(self) -> u8
        ensures { result ≡ flaw_number self }
    {
        match self {
            UnitsFlaw::Json => 1,
            UnitsFlaw::Shape => 2,
            UnitsFlaw::Unknown => 3,
            UnitsFlaw::Twice => 4,
            UnitsFlaw::Kind => 5,
            UnitsFlaw::LinkClass => 6,
            UnitsFlaw::Space => 7,
            UnitsFlaw::Full => 8,
        }
    }
}

/// Why a document of initial units is refused: the first flaw met in reading it, and the position of the flawed entry.
#[derive(Clone, Copy, Debug, PartialEq, Eq, Error)]
pub enum UnitsFault {
    /// The flaw of the entry at the position. A text that is not JSON has its flaw at the whole document.
    #[error("{flaw}")]
    At {
        flaw: UnitsFlaw,
        place: DocumentPlace,
    },
    /// Memory ran out.
    #[error("out of memory")]
    Memory,
}

impl UnitsFault {
    /// Returns the fault's number in a refusal line, from 1 to 9.
    pub fn number(self) -> u8
        ensures { result ≡ fault_number self }
    {
        match self {
            UnitsFault::At { flaw, place: _ } => flaw.number(),
            UnitsFault::Memory => 9,
        }
    }

    /// Tests whether memory ran out.
    pub(crate) fn is_memory(self) -> bool
        ensures { result ≡ is_memory self }
    {
        matches!(self, UnitsFault::Memory)
    }

    /// Makes a fault of the value that is read, as a whole.
    pub(crate) fn here(flaw: UnitsFlaw) -> UnitsFault
        ensures { result ≡ here flaw }
    {
        UnitsFault::At {
            flaw,
            place: DocumentPlace::Whole,
        }
    }

    // Turns the fault of an entry into one whose place is seen from the value that lists the entry.
    fn inside(self, list: ListKey, index: usize) -> UnitsFault
        ensures { result ≡ inside list index self }
    {
        match self {
            UnitsFault::At { flaw, place } => UnitsFault::At {
                flaw,
                place: place.inside(list, index),
            },
            UnitsFault::Memory => UnitsFault::Memory,
        }
    }
}

/// Returns the answer for an entry of a list, with the position of a fault seen from the value that has the list.
pub(crate) fn placed<T>(
    answer: Result<T, UnitsFault>,
    list: ListKey,
    index: usize,
) -> Result<T, UnitsFault>
    ensures { result ≡ map_err (inside list index) answer }
{
    match answer {
        Ok(value) => Ok(value),
        Err(fault) => Err(fault.inside(list, index)),
    }
}

impl From<AllocError> for UnitsFault {
    ghost from_gives = { λ _ e. e ≡ OutOfMemory };

    fn from(_refused: AllocError) -> UnitsFault {
        UnitsFault::Memory
    }
}

impl<T: Drop> From<AllocFailed<T>> for UnitsFault {
    ghost from_gives = { λ _ e. e ≡ OutOfMemory };

    fn from(_refused: AllocFailed<T>) -> UnitsFault {
        UnitsFault::Memory
    }
}

impl From<CreateFault> for UnitsFault {
    ghost from_gives = { λ fault e. e ≡ of_create_fault fault };

    fn from(fault: CreateFault) -> UnitsFault {
        match fault {
            CreateFault::Full => UnitsFault::here(UnitsFlaw::Full),
            CreateFault::Memory => UnitsFault::Memory,
        }
    }
}

impl From<Reason> for UnitsFault {
    ghost from_gives = { λ reason e. e ≡ of_reason reason };

    fn from(reason: Reason) -> UnitsFault {
        match reason {
            Reason::Deleted | Reason::Slot => UnitsFault::here(UnitsFlaw::Unknown),
            Reason::Kind => UnitsFault::here(UnitsFlaw::Kind),
            Reason::LinkClass => UnitsFault::here(UnitsFlaw::LinkClass),
            Reason::Space => UnitsFault::here(UnitsFlaw::Space),
        }
    }
}
