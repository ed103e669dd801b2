//! Why a run is cut short. The page and the parts of the run return it.

ghost use Rattle.std.specs.Prelude.{◌≡◌};
ghost use Rattle.bb_trace.specs.declared.halt.Halt.TheVariants.{Memory as OutOfMemory};

use std::alloc::{AllocError, AllocFailed};

/// Why a run is cut short.
#[derive(Clone, Copy, Debug, PartialEq, Eq)]
pub enum Halt {
    /// Memory ran out.
    Memory,
    /// The output failed.
    Write,
}

impl From<AllocError> for Halt {
    ghost from_gives = { λ _ halt. halt ≡ OutOfMemory };

    fn from(_refused: AllocError) -> Halt {
        Halt::Memory
    }
}

impl<T: Drop> From<AllocFailed<T>> for Halt {
    ghost from_gives = { λ _ halt. halt ≡ OutOfMemory };

    fn from(_refused: AllocFailed<T>) -> Halt {
        Halt::Memory
    }
}
