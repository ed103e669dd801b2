//! Codes of cases: from text to bytes and back. Inserts and the tables of bb_cases get their codes here.

use crate::fault::Fault;
use bb_code_asm::{Code, CodeFault, assemble, disassemble};
use std::alloc::Global;

/// Returns the code of a text, decoded from its bytes, after a check that it survives being written out and read again.
pub fn code_of(alloc: Global, text: &str) -> Result<Code, Fault> {
    let bytes = assemble(alloc, text)?.encode(alloc)?;
    match Code::decode(alloc, &bytes) {
        Ok(code) => respelled(alloc, code, &bytes),
        Err(CodeFault::Memory) => Err(Fault::Memory),
        Err(_) => Err(Fault::Spelling),
    }
}

/// Returns the bytes of the code of a text, in hex.
pub(crate) fn hex_of(alloc: Global, text: &str) -> Result<String, Fault> {
    let code = code_of(alloc, text)?;
    Ok(hex::encode(alloc, code.encode(alloc)?)?)
}

// Returns the code of some bytes, if the bytes are its encoding and its text has the same bytes.
fn respelled(alloc: Global, code: Code, bytes: &[u8]) -> Result<Code, Fault> {
    if code.encode(alloc)?.as_slice() != bytes {
        return Err(Fault::Spelling);
    }
    let text = disassemble(alloc, &code)?;
    if assemble(alloc, text.as_str())?.encode(alloc)?.as_slice() != bytes {
        return Err(Fault::Spelling);
    }
    Ok(code)
}
