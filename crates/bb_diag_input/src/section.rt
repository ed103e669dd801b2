//! A section of an input, and the locations of messages about it. A message begins with the line of the whole input, as
//! editors read it; a note has the line of the section.

use crate::words::{begin_line, write_quoted, write_shown};
use bb_basis::Memory;
use std::fmt::Write;

/// A section of an input: its text, its header line, and the whole input if that is known.
#[derive(Clone, Copy, Debug)]
pub struct Section<'a> {
    pub text: &'a str,
    pub header: &'static str,
    pub whole: Option<&'a str>,
}

impl Section<'_> {
    /// Returns the number of lines of the input before the section, including its header line, if that is known.
    pub fn lines_before(self) -> Option<u64> {
        let header = self.whole?.lines().position(|line| line == self.header)?;
        Some((header as u64).saturating_add(1))
    }

    /// Returns a line of the section, from 1, with the values needed to show its number.
    pub fn line(self, line: u64) -> SectionLine {
        SectionLine {
            header: self.header,
            lines_before: self.lines_before(),
            line,
        }
    }
}

/// A line of a section: the section's header line, the number of lines of the input before the section if that is
/// known, and the line, from 1.
#[derive(Clone, Copy, Debug)]
pub struct SectionLine {
    pub header: &'static str,
    pub lines_before: Option<u64>,
    pub line: u64,
}

impl SectionLine {
    /// Appends the location of the line: its number in the input, or its number in the section if the input is not
    /// known.
    pub fn write_place(self, text: &mut String) -> Result<(), Memory> {
        match self.lines_before {
            Some(before) => write!(text, "input:{}", self.line.saturating_add(before)),
            None => write!(text, "{}:{}", self.header, self.line),
        }
    }

    /// Appends, on a separate line, what the line belongs to, if that has a name, and the number of the line in the
    /// section, unless `write_place` shows that one.
    pub fn note(self, text: &mut String, called: &str) -> Result<(), Memory> {
        if called.is_empty() && self.lines_before.is_none() {
            return Ok(());
        }
        begin_line(text)?;
        write_shown(text, called)?;
        if self.lines_before.is_none() {
            return Ok(());
        }
        if !called.is_empty() {
            text.push_str(", ")?;
        }
        write!(text, "line {} of {}", self.line, self.header)
    }
}

/// Appends that a line is not a header line, if it begins like one.
pub fn note_header(text: &mut String, line: &str) -> Result<(), Memory> {
    if !line.starts_with("%") {
        return Ok(());
    }
    begin_line(text)?;
    write_quoted(text, line)?;
    text.push_str(" is no header line: these are %schema, %units, %sources and %bundle")
}
