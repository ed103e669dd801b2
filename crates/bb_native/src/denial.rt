//! The reasons why an ask of a native is not applied. `apply` returns them.

ghost use Rattle.std.specs.Prelude.{◌≡◌};
ghost use Rattle.bb_native.specs.declared.denial.Denial.TheVariants.{Memory as OutOfMemory};
ghost use Rattle.bb_native.specs.Refusals.{denial_of, denial_of_create};

use crate::refusal::Refusal;
use bb_board::Reason;
use bb_units::CreateFault;
use std::alloc::{AllocError, AllocFailed};

/// Why an ask was not applied.
#[derive(Clone, Copy, Debug, PartialEq, Eq)]
pub enum Denial {
    /// The ask is refused.
    Refused(Refusal),
    /// The ask creates a unit, and no more units can be created.
    Full,
    /// Memory ran out.
    Memory,
}

impl From<AllocError> for Denial {
    ghost from_gives = { λ _ denial. denial ≡ OutOfMemory };

    fn from(_refused: AllocError) -> Denial {
        Denial::Memory
    }
}

impl<T: Drop> From<AllocFailed<T>> for Denial {
    ghost from_gives = { λ _ denial. denial ≡ OutOfMemory };

    fn from(_refused: AllocFailed<T>) -> Denial {
        Denial::Memory
    }
}

impl From<Reason> for Denial {
    ghost from_gives = { λ reason denial. denial ≡ denial_of reason };

    fn from(reason: Reason) -> Denial {
        Denial::Refused(Refusal::from(reason))
    }
}

impl From<CreateFault> for Denial {
    ghost from_gives = { λ fault denial. denial ≡ denial_of_create fault };

    fn from(fault: CreateFault) -> Denial {
        match fault {
            CreateFault::Full => Denial::Full,
            CreateFault::Memory => Denial::Memory,
        }
    }
}
