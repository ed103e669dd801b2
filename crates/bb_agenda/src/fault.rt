//! Why an activation could not be added. `Agenda::add` returns it.

ghost use Rattle.std.specs.Prelude.{◌≡◌};
ghost use Rattle.bb_agenda.specs.declared.fault.AddFault.TheVariants.{Memory as OutOfMemory};

use std::alloc::{AllocError, AllocFailed};
use thiserror::Error;

/// Why an activation could not be added. The activations given and pending are as before.
#[derive(Clone, Copy, Debug, PartialEq, Eq, Error)]
pub enum AddFault {
    /// The maximum number of activations are pending, or all numbers are used.
    #[error("the agenda is full")]
    Full,
    /// Memory ran out.
    #[error("out of memory")]
    Memory,
}

impl From<AllocError> for AddFault {
    ghost from_gives = { λ _ e. e ≡ OutOfMemory };

    fn from(_refused: AllocError) -> AddFault {
        AddFault::Memory
    }
}

impl<T: Drop> From<AllocFailed<T>> for AddFault {
    ghost from_gives = { λ _ e. e ≡ OutOfMemory };

    fn from(_refused: AllocFailed<T>) -> AddFault {
        AddFault::Memory
    }
}
