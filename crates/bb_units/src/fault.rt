//! Why a unit could not be created. `Units::create` returns it.

ghost use Rattle.std.specs.Prelude.{◌≡◌};
ghost use Rattle.bb_units.specs.declared.fault.CreateFault.TheVariants.{Memory as OutOfMemory};

use std::alloc::{AllocError, AllocFailed};
use thiserror::Error;

/// Why a unit could not be created. The units are unchanged.
#[derive(Clone, Copy, Debug, PartialEq, Eq, Error)]
pub enum CreateFault {
    /// 65,536 units are live, or all numbers are used.
    #[error("no more units")]
    Full,
    /// Memory ran out.
    #[error("out of memory")]
    Memory,
}

impl From<AllocError> for CreateFault {
    ghost from_gives = { λ _ e. e ≡ OutOfMemory };

    fn from(_refused: AllocError) -> CreateFault {
        CreateFault::Memory
    }
}

impl<T: Drop> From<AllocFailed<T>> for CreateFault {
    ghost from_gives = { λ _ e. e ≡ OutOfMemory };

    fn from(_refused: AllocFailed<T>) -> CreateFault {
        CreateFault::Memory
    }
}
