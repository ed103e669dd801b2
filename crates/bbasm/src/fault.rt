//! Why the program has no answer. `main` prints it.

use bb_code::CodeFault;
use bb_code_asm::AsmFault;
use bb_schema::SchemaFault;
use std::alloc::AllocError;
use thiserror::Error;

/// What is wrong with the input, or with the schema.
#[derive(Debug, Drop, Error)]
pub(crate) enum Fault {
    /// The text is not a code.
    #[error("{0}")]
    Text(AsmFault),
    /// The input is not pairs of hex digits.
    #[error("the input is not pairs of hex digits")]
    Hex,
    /// The bytes are not a code.
    #[error("{0}")]
    Code(CodeFault),
    /// The schema can't be read.
    #[error("the file of the schema can't be read")]
    File,
    /// The document is not a schema.
    #[error("the schema is refused: {0}")]
    Schema(SchemaFault),
    /// Memory ran out.
    #[error("out of memory")]
    Memory,
}

impl From<AsmFault> for Fault {
    fn from(fault: AsmFault) -> Fault {
        Fault::Text(fault)
    }
}

impl From<CodeFault> for Fault {
    fn from(fault: CodeFault) -> Fault {
        Fault::Code(fault)
    }
}

impl From<SchemaFault> for Fault {
    fn from(fault: SchemaFault) -> Fault {
        Fault::Schema(fault)
    }
}

impl From<AllocError> for Fault {
    fn from(_error: AllocError) -> Fault {
        Fault::Memory
    }
}
