//! The first difference between the wanted and the given text. A case that does not hold has one.

use std::alloc::{AllocError, Global};
use std::fmt::Write;

// The maximum number of bytes of a line that are shown.
const SHOWN_LIMIT: usize = 300;

/// The first difference of the given text from the wanted one.
#[derive(Drop)]
pub struct Difference {
    /// The number of the line, from 1, or 0 if the status differs.
    pub line: usize,
    /// What is wanted, as a report shows it.
    pub wanted: String,
    /// What is given instead.
    pub given: String,
}

impl Difference {
    /// Returns the first difference between two texts, or `None` if they are equal.
    pub fn of(
        alloc: Global,
        wanted: &[u8],
        given: &[u8],
    ) -> Result<Option<Difference>, AllocError> {
        let mut others = given.split(|byte| *byte == b'\n');
        let mut line = 0usize;
        for part in wanted.split(|byte| *byte == b'\n') {
            line = line.saturating_add(1);
            let other = others.next();
            if other != Some(part) {
                return Ok(Some(Difference {
                    line,
                    wanted: shown(alloc, Some(part))?,
                    given: shown(alloc, other)?,
                }));
            }
        }
        match others.next() {
            None => Ok(None),
            other => Ok(Some(Difference {
                line: line.saturating_add(1),
                wanted: shown(alloc, None)?,
                given: shown(alloc, other)?,
            })),
        }
    }
}

// Returns the start of a line in quotes, with numbers for bytes that are not plain characters, or the end of a text.
fn shown(alloc: Global, line: Option<&[u8]>) -> Result<String, AllocError> {
    let Some(bytes) = line else {
        return String::from_str(alloc, "the end");
    };
    let mut text = String::from_str(alloc, "\"")?;
    for byte in bytes.iter().copied().take(SHOWN_LIMIT) {
        match byte {
            b'"' => text.push_str("\\\"")?,
            b'\\' => text.push_str("\\\\")?,
            b' '..=b'~' => text.push(char::from(byte))?,
            _ => write!(text, "\\x{byte:02x}")?,
        }
    }
    text.push_str("\"")?;
    if bytes.len() > SHOWN_LIMIT {
        text.push_str("..")?;
    }
    Ok(text)
}
