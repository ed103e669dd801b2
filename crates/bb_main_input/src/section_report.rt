//! The report on bytes without sections: the sentence of the fault and, below it, the first wrong line. Refusals
//! (bb_main) print it.

use crate::section_fault::SectionFault;
use crate::sections::{Header, header_of};
use std::fmt::{self, Display, Formatter, Write};
use std::str;

// The maximum number of characters of a line that are shown.
const SHOWN: usize = 40;

/// A fault of the sections of an input. It displays as the fault's sentence and, if the sections are out of order, a
/// note on the first wrong line.
#[derive(Clone, Copy, Debug)]
pub struct SectionReport<'a> {
    /// Why the input has no sections.
    pub fault: SectionFault,
    /// All bytes of the input.
    pub bytes: &'a [u8],
}

impl Display for SectionReport<'_> {
    fn fmt<W: Write>(&self, f: &mut Formatter<W>) -> fmt::Result {
        write!(f, "{}", self.fault)?;
        match (self.fault, str::from_utf8(self.bytes)) {
            (SectionFault::Sections, Ok(input)) => write_note(f, input),
            _ => Ok(()),
        }
    }
}

// Writes the note on the first wrong line.
fn write_note<W: Write>(f: &mut Formatter<W>, input: &str) -> fmt::Result {
    write!(f, "\n  | ")?;
    let first = input.lines().next().unwrap_or("");
    if header_of(first) != Some(Header::Schema) {
        return write_first(f, input, first);
    }
    let mut last = Header::Schema;
    for (index, line) in input.lines().enumerate() {
        let Some(header) = header_of(line) else {
            continue;
        };
        if index > 0 && header.rank() <= last.rank() {
            return write_disorder(f, input, index, header, last);
        }
        last = header;
    }
    Ok(())
}

// Writes what is wrong with the first line if it is not `%schema`.
fn write_first<W: Write>(f: &mut Formatter<W>, input: &str, first: &str) -> fmt::Result {
    if input.is_empty() {
        return write!(f, "it is empty: \"%schema\" is due in line 1");
    }
    write!(f, "line 1: ")?;
    if first.starts_with("\u{feff}") {
        write!(f, "a byte-order mark, U+FEFF, stands before \"%schema\"")
    } else if first.trim() == "%schema" {
        write!(f, "a blank stands beside \"%schema\"")
    } else if first.trim().is_empty() {
        write!(f, "it is blank, and \"%schema\" is due there")
    } else if first.eq_ignore_ascii_case("%schema") {
        write!(f, "\"%schema\" has small letters")
    } else if let Some(header) = header_of(first) {
        write!(f, "\"{}\" stands before \"%schema\"", header.word())
    } else {
        write!(f, "\"%schema\" is due there, not \"")?;
        write_shown(f, first)?;
        write!(f, "\"")
    }
}

// Writes what is wrong with a header line at an index, from 0, that follows the header of section `last`.
fn write_disorder<W: Write>(
    f: &mut Formatter<W>,
    input: &str,
    index: usize,
    header: Header,
    last: Header,
) -> fmt::Result {
    let line = index.saturating_add(1);
    let word = header.word();
    let first = input
        .lines()
        .position(|line| header_of(line) == Some(header));
    match first {
        Some(first) if first < index => {
            let first = first.saturating_add(1);
            write!(
                f,
                "line {line}: \"{word}\" is there twice, first in line {first}"
            )
        }
        _ => write!(
            f,
            "line {line}: \"{word}\" stands after \"{}\", and is due before it",
            last.word()
        ),
    }
}

// Writes the first characters of a line, with a blank for each control character, so that an untrusted text can't
// affect a terminal.
fn write_shown<W: Write>(f: &mut Formatter<W>, line: &str) -> fmt::Result {
    for c in line.chars().take(SHOWN) {
        f.write_char(if c.is_control() { ' ' } else { c })?;
    }
    if line.chars().nth(SHOWN).is_some() {
        f.write_str("..")?;
    }
    Ok(())
}
