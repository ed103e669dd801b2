//! Shows the line of a text that has a fault, with a caret under the column. Reports write it below the sentence.

use crate::words::{MORE, begin_line};
use bb_basis::Memory;
use std::fmt::Write;

// The maximum number of characters of a line that are shown.
const WIDTH: usize = 160;

// How many of the shown characters are before the fault, if the line continues at both ends.
const BEFORE: usize = 80;

// How many bytes of a line are examined before and after a location: more than are shown.
const REACH: usize = 1_024;

/// Appends a line of a text and, below it, a caret under a column. Line and column count from 1; columns count
/// characters.
pub fn write_excerpt(
    text: &mut String,
    source: &str,
    line: u64,
    column: u64,
) -> Result<(), Memory> {
    let column = usize::try_from(column.saturating_sub(1)).unwrap_or(usize::MAX);
    let line = line_at(source, line);
    let start = start_of(line, column);
    write_line(text, line, start)?;
    begin_line(text)?;
    let front = if start > 0 { MORE.len() } else { 0 };
    let indent = front.saturating_add(column.saturating_sub(start));
    write!(text, "{:indent$}^", "")
}

/// Appends the line of a text that has a byte and, below it, a caret under the character that begins there. Examines
/// only the part of the line near the byte, however long the text is.
pub fn write_excerpt_at(text: &mut String, source: &str, at: usize) -> Result<(), Memory> {
    let bytes = source.as_bytes();
    let front = source.get(first_near(bytes, at)..at).unwrap_or("");
    let behind = source.get(at..last_near(bytes, at)).unwrap_or("");
    let mut line = String::from_str(*text.allocator(), front)?;
    line.push_str(behind)?;
    let column = front.chars().count().saturating_add(1);
    write_excerpt(text, line.as_str(), 1, column as u64)
}

// Returns whether a byte is not the first byte of a character.
fn is_inner(byte: u8) -> bool {
    byte >= 0x80 && byte < 0xc0
}

// Returns where the line of a byte begins, or the start of a character of it that is far enough before the byte.
fn first_near(bytes: &[u8], at: usize) -> usize {
    let mut first = at.min(bytes.len());
    for turn in 0..bytes.len() {
        let Some(before) = first.checked_sub(1) else {
            return first;
        };
        match bytes.get(before) {
            Some(b'\n') | None => return first,
            Some(byte) if turn > REACH && !is_inner(*byte) => return before,
            Some(_) => first = before,
        }
    }
    first
}

// Returns the position after the line of a byte, or the start of a character of it that is far enough after the byte.
fn last_near(bytes: &[u8], at: usize) -> usize {
    let behind = bytes.get(at..).unwrap_or(&[]);
    for (turn, byte) in behind.iter().enumerate() {
        if *byte == b'\n' {
            return at.saturating_add(turn).saturating_add(1);
        }
        if turn > REACH && !is_inner(*byte) {
            return at.saturating_add(turn);
        }
    }
    bytes.len()
}

/// Appends a line of a text, by its number from 1, without a caret.
pub fn write_whole_line(text: &mut String, source: &str, line: u64) -> Result<(), Memory> {
    write_line(text, line_at(source, line), 0)
}

/// Returns a line of a text by its number, from 1, without its line end; empty if the text has fewer lines.
pub fn line_at(source: &str, line: u64) -> &str {
    let index = usize::try_from(line.saturating_sub(1)).unwrap_or(usize::MAX);
    source.lines().nth(index).unwrap_or("")
}

// Returns the first character to show, so that the column is among the shown ones.
fn start_of(line: &str, column: usize) -> usize {
    let length = line.chars().count();
    column
        .saturating_sub(BEFORE)
        .min(length.saturating_sub(WIDTH))
}

// Writes the shown part of a line. A tab or another control character becomes a blank, so that columns keep their
// positions and an untrusted text can't affect a terminal.
fn write_line(text: &mut String, line: &str, start: usize) -> Result<(), Memory> {
    begin_line(text)?;
    if start > 0 {
        text.push_str(MORE)?;
    }
    for c in line.chars().skip(start).take(WIDTH) {
        text.push(if c.is_control() { ' ' } else { c })?;
    }
    if line.chars().nth(start.saturating_add(WIDTH)).is_some() {
        text.push_str(MORE)?;
    }
    Ok(())
}
