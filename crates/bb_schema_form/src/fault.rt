//! Why a text is not a document. The readers of both documents return it.

ghost use Rattle.std.specs.Prelude.{◌≡◌};
ghost use Rattle.bb_schema_form.specs.declared.fault.DocumentFault.TheVariants.{Memory as OutOfMemory};
ghost use Rattle.bb_basis.specs.Results.{map_err};
ghost use Rattle.bb_schema_form.specs.Faults.{inside, misshapen};

use crate::place::{DocumentPlace, ListKey};
use std::alloc::{AllocError, AllocFailed};
use thiserror::Error;

/// Why a text is not a document of a schema or of initial units.
#[derive(Clone, Copy, Debug, PartialEq, Eq, Error)]
pub enum DocumentFault {
    /// The text is not JSON.
    #[error("the document is not JSON")]
    Json,
    /// The JSON does not have the form of the document: an unknown key, a missing one, or a value of another form. The
    /// location is the first entry, in reading order, with a wrong form.
    #[error("the document does not have the form that it should have")]
    Shape { place: DocumentPlace },
    /// Memory ran out.
    #[error("out of memory")]
    Memory,
}

impl DocumentFault {
    /// Makes the fault of a value whose own form is wrong, not the form of an entry of one of its lists.
    pub(crate) fn misshapen() -> DocumentFault
        ensures { result ≡ misshapen }
    {
        DocumentFault::Shape {
            place: DocumentPlace::Whole,
        }
    }

    /// Returns the fault of an entry, with its location seen from the value that lists the entry.
    pub(crate) fn inside(self, list: ListKey, index: usize) -> DocumentFault
        ensures { result ≡ inside list index self }
    {
        match self {
            DocumentFault::Json => DocumentFault::Json,
            DocumentFault::Shape { place } => DocumentFault::Shape {
                place: place.inside(list, index),
            },
            DocumentFault::Memory => DocumentFault::Memory,
        }
    }
}

/// Returns the result of reading an entry of a list, with a fault at the entry's location in that list.
pub(crate) fn placed<T>(
    answer: Result<T, DocumentFault>,
    list: ListKey,
    index: usize,
) -> Result<T, DocumentFault>
    ensures { result ≡ map_err (inside list index) answer }
{
    match answer {
        Ok(value) => Ok(value),
        Err(fault) => Err(fault.inside(list, index)),
    }
}

impl From<AllocError> for DocumentFault {
    ghost from_gives = { λ _ e. e ≡ OutOfMemory };

    fn from(_refused: AllocError) -> DocumentFault {
        DocumentFault::Memory
    }
}

impl<T: Drop> From<AllocFailed<T>> for DocumentFault {
    ghost from_gives = { λ _ e. e ≡ OutOfMemory };

    fn from(_refused: AllocFailed<T>) -> DocumentFault {
        DocumentFault::Memory
    }
}
