//! Why a case can't be run. Functions that read files and make calls return it, and the report prints it.

use bb_code_asm::AsmFault;
use std::alloc::{AllocError, AllocFailed};
use thiserror::Error;

/// What is wrong with a case or with its file.
#[derive(Clone, Copy, Debug, PartialEq, Eq, Error)]
pub enum Fault {
    /// A file can't be read.
    #[error("the file can't be read")]
    File,
    /// A line is indented by something other than nothing or four spaces, or has only spaces.
    #[error("a line of spaces alone, or one indented by fewer than four")]
    Indent,
    /// A text is above the first header.
    #[error("a text has no header above it")]
    NoHeader,
    /// A header begins with no kind of entry.
    #[error("no kind of entries has this name")]
    Kind,
    /// A second header is present although none or another one is expected.
    #[error("`gives` or `rows` stands behind no case that has it")]
    Second,
    /// A second header is missing.
    #[error("what it gives is not said")]
    NoSecond,
    /// A word is not a name.
    #[error("a name of letters, digits and `_` is due")]
    Name,
    /// A name is given twice, or is a word of inserts.
    #[error("this name stands for something already")]
    Taken,
    /// Nothing of its kind has the name.
    #[error("no text or board has this name")]
    Unknown,
    /// An option is missing, unknown, or has no value.
    #[error("an option that this kind has not, one without a value, or a mode that is none")]
    Options,
    /// A word is not a number, or is out of its range.
    #[error("a number in its range is due")]
    Number,
    /// A word is not a part of a source.
    #[error("a part is due, as `do:1`")]
    Part,
    /// A parenthesis of an insert is not closed.
    #[error("an insert has no end")]
    Open,
    /// A line continues after `$(join)`.
    #[error("`$(join)` stands at the end of a line")]
    Join,
    /// An insert has no meaning at its location.
    #[error("no such insert")]
    Insert,
    /// Inserts are nested deeper than the limit.
    #[error("inserts are too deep in each other")]
    Depth,
    /// A word is not bytes in hex.
    #[error("bytes in hex are due")]
    Hex,
    /// Bytes that are used as a text are not UTF-8.
    #[error("a text is not UTF-8")]
    Utf8,
    /// A row does not have two sides, or lines are above the first row.
    #[error("a row has `|` between what is wanted and what is given")]
    Row,
    /// A text is not a code.
    #[error("in its code, {0}")]
    Assembly(AsmFault),
    /// A code that is written out and read again has other bytes.
    #[error("a code, written out and read again, has other bytes")]
    Spelling,
    /// A document is not a schema.
    #[error("the schema is refused")]
    Schema,
    /// A document is not one of initial units.
    #[error("the document of units is refused")]
    Units,
    /// The unit to delete does not exist.
    #[error("the unit to delete is not there")]
    Delete,
    /// A history has no line `%moves`, or its text of moves is refused.
    #[error("moves are due, below a line `%moves`")]
    Moves,
    /// The input of a history is refused.
    #[error("the input is refused")]
    Input,
    /// A line asks for an unknown call.
    #[error("no call of a schema is written so")]
    Call,
    /// Memory ran out.
    #[error("out of memory")]
    Memory,
}

impl From<AllocError> for Fault {
    fn from(_error: AllocError) -> Fault {
        Fault::Memory
    }
}

impl<T: Drop> From<AllocFailed<T>> for Fault {
    fn from(_error: AllocFailed<T>) -> Fault {
        Fault::Memory
    }
}

impl From<AsmFault> for Fault {
    fn from(fault: AsmFault) -> Fault {
        match fault {
            AsmFault::Memory => Fault::Memory,
            _ => Fault::Assembly(fault),
        }
    }
}
