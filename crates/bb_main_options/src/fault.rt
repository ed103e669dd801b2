//! Why words give no options. `options` returns these faults, and programs print their text.

ghost use Rattle.std.specs.Prelude.{◌≡◌};
ghost use Rattle.bb_main_options.specs.declared.fault.OptionsFault.TheVariants.{Memory as OutOfMemory};
ghost use Rattle.bb_main_options.specs.Faults.{fault_number};

use std::alloc::AllocError;
use thiserror::Error;

/// Why the words of a command line give no options.
#[derive(Debug, Drop, Error)]
pub enum OptionsFault {
    /// The words ask for help or the version; this text is the reply.
    #[error("{0}")]
    Help(String),
    /// The words do not fit the command; this text says why.
    #[error("{0}")]
    Words(String),
    /// Memory ran out.
    #[error("out of memory")]
    Memory,
}

impl OptionsFault {
    /// Returns the number of the fault, from 1 to 3.
    pub fn number(&self) -> u8
        ensures { result ≡ fault_number self.now }
    {
        match self {
            OptionsFault::Help(_) => 1,
            OptionsFault::Words(_) => 2,
            OptionsFault::Memory => 3,
        }
    }
}

impl From<AllocError> for OptionsFault {
    ghost from_gives = { λ _ e. e ≡ OutOfMemory };

    fn from(_refused: AllocError) -> OptionsFault {
        OptionsFault::Memory
    }
}
