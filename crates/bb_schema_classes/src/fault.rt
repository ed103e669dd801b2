//! Why a document does not declare a schema. `Walked::of` returns this. `Schema::read` of `bb_schema` also returns it,
//! and adds the faults of the form and of spaces.

ghost use Rattle.std.specs.Prelude.{◌≡◌};
ghost use Rattle.bb_basis.specs.Results.{map_err};
ghost use Rattle.bb_schema_classes.specs.declared.fault.SchemaFault.TheVariants.{Memory as OutOfMemory};
ghost use Rattle.bb_schema_classes.specs.Faults.{flaw_number, fault_number, here, inside};

use bb_schema_form::{DocumentPlace, ListKey};
use std::alloc::{AllocError, AllocFailed};
use thiserror::Error;

/// What is wrong with a document or one of its entries.
#[derive(Clone, Copy, Debug, PartialEq, Eq, Error)]
pub enum SchemaFlaw {
    /// The text is not JSON.
    #[error("the schema is not JSON")]
    Json,
    /// The JSON does not have the form of a schema: an unknown key, a missing one, or a value of another form.
    #[error("the schema has not the form of a schema")]
    Shape,
    /// An entry declares a text that is not a name.
    #[error("a declared name is not a name")]
    Name,
    /// An entry declares a name that is already declared, or a space lists a class twice.
    #[error("a name is declared twice")]
    Twice,
    /// An entry refers to something that is not declared.
    #[error("a reference to what is not declared")]
    Unknown,
    /// The inverse of a link slot does not point back to it, or the slot owns and its inverse is plural or owns too.
    #[error("the inverse of a link slot does not point back")]
    Inverse,
    /// A class of a space lacks a slot for a dimension.
    #[error("a class of a space lacks a slot of a dimension")]
    Dimension,
    /// The entry is past a limit: of its list, of the slots of a class or of all classes, or of a text.
    #[error("too many entries")]
    Limit,
}

impl SchemaFlaw {
    /// Returns the flaw's number in refusal lines, from 1 to 8.
    pub fn number(self) -> u8
        ensures { result ≡ flaw_number self }
    {
        match self {
            SchemaFlaw::Json => 1,
            SchemaFlaw::Shape => 2,
            SchemaFlaw::Name => 3,
            SchemaFlaw::Twice => 4,
            SchemaFlaw::Unknown => 5,
            SchemaFlaw::Inverse => 6,
            SchemaFlaw::Dimension => 7,
            SchemaFlaw::Limit => 8,
        }
    }
}

/// Why a document does not declare a schema: the first flaw in reading order, and the entry that has it.
#[derive(Clone, Copy, Debug, PartialEq, Eq, Error)]
pub enum SchemaFault {
    /// The flaw of the entry at the location. For a text that is not JSON, the location is the whole document.
    #[error("{flaw}")]
    At {
        flaw: SchemaFlaw,
        place: DocumentPlace,
    },
    /// Memory ran out.
    #[error("out of memory")]
    Memory,
}

impl SchemaFault {
    /// Returns the fault's number in refusal lines, from 1 to 9.
    pub fn number(self) -> u8
        ensures { result ≡ fault_number self }
    {
        match self {
            SchemaFault::At { flaw, place: _ } => flaw.number(),
            SchemaFault::Memory => 9,
        }
    }

    /// Makes the fault of the value that is being read, not of an entry of one of its lists.
    pub fn here(flaw: SchemaFlaw) -> SchemaFault
        ensures { result ≡ here flaw }
    {
        SchemaFault::At {
            flaw,
            place: DocumentPlace::Whole,
        }
    }

    /// Returns the fault of an entry, with its location seen from the value that lists the entry.
    pub fn inside(self, list: ListKey, index: usize) -> SchemaFault
        ensures { result ≡ inside list index self }
    {
        match self {
            SchemaFault::At { flaw, place } => SchemaFault::At {
                flaw,
                place: place.inside(list, index),
            },
            SchemaFault::Memory => SchemaFault::Memory,
        }
    }
}

/// Returns the result of reading an entry of a list, with a fault at the entry's location in that list.
pub fn placed<T>(
    answer: Result<T, SchemaFault>,
    list: ListKey,
    index: usize,
) -> Result<T, SchemaFault>
    ensures { result ≡ map_err (inside list index) answer }
{
    match answer {
        Ok(value) => Ok(value),
        Err(fault) => Err(fault.inside(list, index)),
    }
}

impl From<AllocError> for SchemaFault {
    ghost from_gives = { λ _ e. e ≡ OutOfMemory };

    fn from(_refused: AllocError) -> SchemaFault {
        SchemaFault::Memory
    }
}

impl<T: Drop> From<AllocFailed<T>> for SchemaFault {
    ghost from_gives = { λ _ e. e ≡ OutOfMemory };

    fn from(_refused: AllocFailed<T>) -> SchemaFault {
        SchemaFault::Memory
    }
}
