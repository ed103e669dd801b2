//! Faults of source texts. Refusal lines have their numbers.

ghost use Rattle.std.specs.Prelude.{◌≡◌};
ghost use Rattle.bb_lang_tree.specs.declared.fault.LangFault.TheVariants.{Memory as OutOfMemory};
ghost use Rattle.bb_lang_tree.specs.Faults.{fault_number};

use crate::place::Place;
use std::alloc::{AllocError, AllocFailed};
use thiserror::Error;

/// What is wrong with a text: the fault at the first location and, of several there, the one with the lowest number.
#[derive(Clone, Copy, Debug, PartialEq, Eq, Error)]
pub enum LangFault {
    /// No token begins like this. A text constant that does not end, or has a wrong escape or a control character, is
    /// at fault at its opening quote.
    #[error("no token begins so")]
    Character { place: Place },
    /// The grammar does not allow the token there. The end of the input is located one past the last character.
    #[error("this token does not belong there")]
    Token { place: Place },
    /// With this bracket, more than 64 are open.
    #[error("more than 64 brackets are open")]
    Nesting { place: Place },
    /// Another source has the name, or the declared name is in scope already.
    #[error("the name is there already")]
    Twice { place: Place },
    /// A number, a text constant or a name is too large, a divisor is 0, or there are more than 256 sources.
    #[error("too large, a division by 0, or one source too many")]
    Limit { place: Place },
    /// Memory ran out.
    #[error("out of memory")]
    Memory,
}

impl LangFault {
    /// Returns the number of the fault in a refusal line, from 1 to 6.
    pub fn number(self) -> u8
        ensures { result ≡ fault_number self }
    {
        match self {
            LangFault::Character { .. } => 1,
            LangFault::Token { .. } => 2,
            LangFault::Nesting { .. } => 3,
            LangFault::Twice { .. } => 4,
            LangFault::Limit { .. } => 5,
            LangFault::Memory => 6,
        }
    }
}

impl From<AllocError> for LangFault {
    ghost from_gives = { λ _ e. e ≡ OutOfMemory };

    fn from(_refused: AllocError) -> LangFault {
        LangFault::Memory
    }
}

impl<T: Drop> From<AllocFailed<T>> for LangFault {
    ghost from_gives = { λ _ e. e ≡ OutOfMemory };

    fn from(_refused: AllocFailed<T>) -> LangFault {
        LangFault::Memory
    }
}
