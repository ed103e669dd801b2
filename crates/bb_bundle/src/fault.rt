//! Faults of bundles. Refusal lines have their numbers.

ghost use Rattle.std.specs.Prelude.{◌≡◌};
ghost use Rattle.bb_bundle.specs.declared.fault.BundleFault.TheVariants.{Memory as OutOfMemory};
ghost use Rattle.bb_bundle.specs.Faults.{fault_number};

use bb_code::CodeFault;
use std::alloc::{AllocError, AllocFailed};
use thiserror::Error;

/// What is wrong with a bundle: the first fault from the top. Lines count from 1, empty lines included.
#[derive(Clone, Copy, Debug, PartialEq, Eq, Error)]
pub enum BundleFault {
    /// The line is not one of a bundle, or does not belong there. If the text ends inside a source, `line` is the
    /// number after the last line's.
    #[error("line {line} is not a line of a bundle, or does not belong there")]
    Line { line: u64 },
    /// The code is not in hex digits, two for each byte.
    #[error("line {line} is not in hex digits")]
    Hex { line: u64 },
    /// The bytes are not a code.
    #[error("the bytes of line {line} are no code")]
    Code { line: u64, fault: CodeFault },
    /// Memory ran out.
    #[error("out of memory")]
    Memory,
}

impl BundleFault {
    /// Returns the number of the fault in a refusal line, from 1 to 4.
    pub fn number(self) -> u8
        ensures { result ≡ fault_number self }
    {
        match self {
            BundleFault::Line { .. } => 1,
            BundleFault::Hex { .. } => 2,
            BundleFault::Code { .. } => 3,
            BundleFault::Memory => 4,
        }
    }
}

impl From<AllocError> for BundleFault {
    ghost from_gives = { λ _ e. e ≡ OutOfMemory };

    fn from(_refused: AllocError) -> BundleFault {
        BundleFault::Memory
    }
}

impl<T: Drop> From<AllocFailed<T>> for BundleFault {
    ghost from_gives = { λ _ e. e ≡ OutOfMemory };

    fn from(_refused: AllocFailed<T>) -> BundleFault {
        BundleFault::Memory
    }
}
