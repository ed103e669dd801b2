//! The location at which a document stops being JSON. `serde_json` reports no certain location. It is therefore
//! searched for here. The notes on both documents call this.

use crate::{Section, fault_at, line_at, note_header, write_excerpt};
use bb_basis::Memory;
use serde_json::Value;
use std::alloc::{AllocError, Global};

/// Parses a document as JSON; `None` if it is not JSON.
pub fn json_of(alloc: Global, document: &str) -> Result<Option<Value>, Memory> {
    match Value::from_str(alloc, document) {
        Ok(value) => Ok(Some(value)),
        Err(error) if error.is_memory() => Err(AllocError),
        Err(_) => Ok(None),
    }
}

/// Returns the line and column at which a document stops being JSON. If its tokens are in order, the fault is a number
/// that is too large or half a surrogate pair, and has no location.
pub fn json_place(alloc: Global, document: &str) -> Result<Option<(u64, u64)>, Memory> {
    match fault_at(alloc, document)? {
        None => Ok(None),
        Some(byte) => Ok(Some(place_of(document, byte))),
    }
}

/// Appends the line in which a document stops being JSON, with a caret; nothing if that has no location.
pub(crate) fn note_json(
    alloc: Global,
    text: &mut String,
    section: Section<'_>,
) -> Result<(), Memory> {
    let document = section.text;
    let Some((line, column)) = json_place(alloc, document)? else {
        return Ok(());
    };
    section.line(line).note(text, "")?;
    write_excerpt(text, document, line, column)?;
    note_header(text, line_at(document, line))
}

// Returns the line and column of a byte, both from 1. Columns count characters.
fn place_of(document: &str, byte: usize) -> (u64, u64) {
    let (mut line, mut column) = (1u64, 1u64);
    for (at, c) in document.char_indices() {
        if at >= byte {
            break;
        }
        if c == '\n' {
            line = line.saturating_add(1);
            column = 1;
        } else {
            column = column.saturating_add(1);
        }
    }
    (line, column)
}
