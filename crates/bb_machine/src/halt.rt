//! Why an op ends an execution. Ops return it, and `execute` converts it to the outcome.

ghost use Rattle.std.specs.Prelude.{◌≡◌};
ghost use Rattle.bb_machine.specs.declared.halt.Halt.TheVariants.{Memory};

use crate::outcome::{Answer, Stuck};
use std::alloc::{AllocError, AllocFailed};

/// Why no op follows.
#[derive(Clone, Copy, Debug, PartialEq, Eq)]
pub enum Halt {
    /// The op ends the execution.
    Answered(Answer),
    /// No more units can be created.
    Full,
    /// The op cannot be done.
    Stuck(Stuck),
    /// Memory ran out.
    Memory,
}

impl From<AllocError> for Halt {
    ghost from_gives = { λ _ halt. halt ≡ Memory };

    fn from(_error: AllocError) -> Halt {
        Halt::Memory
    }
}

impl<T: Drop> From<AllocFailed<T>> for Halt {
    ghost from_gives = { λ _ halt. halt ≡ Memory };

    fn from(_error: AllocFailed<T>) -> Halt {
        Halt::Memory
    }
}
