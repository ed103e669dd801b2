//! Why bytes are not a code. Refusal lines give the fault's number.

ghost use Rattle.std.specs.Prelude.{◌≡◌};
ghost use Rattle.bb_code.specs.CodeFault.{fault_number};
ghost use Rattle.bb_code.specs.declared.fault.CodeFault.TheVariants.{Memory};

use std::alloc::{AllocError, AllocFailed};
use thiserror::Error;

/// The first fault of bytes that are not a code. Only `Memory` says nothing about them.
#[derive(Clone, Copy, Debug, PartialEq, Eq, Error)]
pub enum CodeFault {
    /// One of the first three bytes differs from the bytes that begin every code.
    #[error("this is no code")]
    Magic,
    /// The version is neither 1 nor 2.
    #[error("the code has another version")]
    Version,
    /// The bytes end, but more are needed.
    #[error("the code ends too early")]
    Short,
    /// No op has this number.
    #[error("an op is unknown")]
    Opcode,
    /// A text is not UTF-8, an op has an operand that it may not have, or a byte is not a truth value, a kind, or a
    /// node of a pattern.
    #[error("an operand or a text is wrong")]
    Operand,
    /// A count is above its maximum or below its minimum.
    #[error("a count is outside its limits")]
    Limit,
    /// Bytes follow the last op.
    #[error("bytes follow the code")]
    Trailing,
    /// Memory ran out.
    #[error("out of memory")]
    Memory,
}

impl CodeFault {
    /// Returns the number of the fault in refusal lines, from 1 to 8.
    pub fn number(self) -> u8
        ensures { result ≡ fault_number self }
    {
        match self {
            CodeFault::Magic => 1,
            CodeFault::Version => 2,
            CodeFault::Short => 3,
            CodeFault::Opcode => 4,
            CodeFault::Operand => 5,
            CodeFault::Limit => 6,
            CodeFault::Trailing => 7,
            CodeFault::Memory => 8,
        }
    }
}

impl From<AllocError> for CodeFault {
    ghost from_gives = { λ _ fault. fault ≡ Memory };

    fn from(_error: AllocError) -> CodeFault {
        CodeFault::Memory
    }
}

impl<T: Drop> From<AllocFailed<T>> for CodeFault {
    ghost from_gives = { λ _ fault. fault ≡ Memory };

    fn from(_error: AllocFailed<T>) -> CodeFault {
        CodeFault::Memory
    }
}
