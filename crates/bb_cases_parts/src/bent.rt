//! The neighbours of a code: its prefixes, and the bytes that differ from its own in one byte. Cases of codes ask for
//! them.

use crate::executions::add_on_scene;
use crate::machines::Asked;
use bb_cases_format::{Fault, Scene};
use bb_code::{Code, CodeFault, Flaw, VerifyFault};
use bb_schema::Schema;
use bb_verify::{Part, verify};
use std::alloc::Global;
use std::fmt::Write;

/// How bytes that are a code are tried: verified for a part, and executed on a scene.
#[derive(Clone, Copy)]
pub(crate) struct Bending<'a> {
    pub alloc: Global,
    pub schema: &'a Schema,
    pub scene: &'a Scene,
    pub part: Part,
    pub asked: Asked,
}

impl Bending<'_> {
    /// Appends a line for every prefix that is not too short and for every changed byte with a wrong outcome, and then
    /// the number of prefixes of the code and the number of variants with another byte.
    pub fn add(self, text: &mut String, code: &Code) -> Result<(), Fault> {
        let bytes = code.encode(self.alloc)?;
        let mut others = 0u64;
        for place in 0..bytes.len() {
            let front = Code::decode(self.alloc, &bytes[..place]).err();
            if front != Some(CodeFault::Short) {
                writeln!(text, "the front of {place} bytes is not Short")?;
            }
            others = others.saturating_add(self.add_others(text, &bytes, place)?);
        }
        let fronts = bytes.len();
        writeln!(text, "{fronts} fronts, {others} with another byte")?;
        Ok(())
    }

    // Tries every other value of the byte at an index, and returns how many there are.
    fn add_others(self, text: &mut String, bytes: &[u8], place: usize) -> Result<u64, Fault> {
        let mut bent = bytes.to_vec(self.alloc)?;
        let mut others = 0u64;
        for byte in 0..=255u8 {
            if bytes.get(place).copied() == Some(byte) {
                continue;
            }
            if place < bent.len() {
                bent[place] = byte;
            }
            let mut lines = String::new(self.alloc);
            self.add_wrong(&mut lines, &bent)?;
            for line in lines.lines() {
                writeln!(text, "byte {place} as {byte}: {line}")?;
            }
            others = others.saturating_add(1);
        }
        Ok(others)
    }

    // Appends what is wrong with the outcome of bytes. Right is: they are not a code, or are the encoding of the code
    // they decode to; and an accepted code is never stuck, and both machines execute it alike.
    fn add_wrong(self, lines: &mut String, bytes: &[u8]) -> Result<(), Fault> {
        let code = match Code::decode(self.alloc, bytes) {
            Ok(code) => code,
            Err(CodeFault::Memory) => return Err(Fault::Memory),
            Err(_) => return Ok(()),
        };
        if code.encode(self.alloc)?.as_slice() != bytes {
            lines.push_str("it is spelled otherwise\n")?;
        }
        match verify(self.alloc, self.schema, self.part, code) {
            Ok(checked) => self.add_wrong_ends(lines, checked.code()),
            Err(
                VerifyFault {
                    place: _,
                    flaw: Flaw::Memory,
                },
            ) => Err(Fault::Memory),
            Err(_) => Ok(()),
        }
    }

    // Appends the lines of an execution that no accepted code may have.
    fn add_wrong_ends(self, lines: &mut String, code: &Code) -> Result<(), Fault> {
        let mut ended = String::new(self.alloc);
        add_on_scene(self.alloc, &mut ended, self.scene, code, self.asked)?;
        for line in ended.lines() {
            if line.starts_with("stuck ") || line.starts_with("verified code gives ") {
                writeln!(lines, "{line}")?;
            }
        }
        Ok(())
    }
}
