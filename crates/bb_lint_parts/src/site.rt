//! Where the subject of a line of advice is, and how the line shows that. Warnings (bb_lint) and the lines on costs
//! begin and end with sites.

use crate::spot::Spot;
use bb_basis::Memory;
use bb_code::{Op, Place};
use bb_code_asm::write_op;
use bb_diag_text::{SectionLine, write_excerpt_at};
use std::fmt::Write;

/// A text of sources, and the number of lines of the input before it, if known.
#[derive(Clone, Copy, Debug)]
pub struct Origin<'a> {
    pub text: &'a str,
    pub header: &'static str,
    pub lines_before: Option<u64>,
}

/// What a line of advice is about.
#[derive(Clone, Copy, Debug)]
pub struct Subject<'a> {
    /// What the line is, as editors read it: `warning[rate]`, `note[cost]`.
    pub kind: &'static str,
    /// The name of the source.
    pub source: &'a str,
    /// The word of the part; empty if the whole source is meant.
    pub part: &'a str,
}

impl Subject<'_> {
    // Appends the names of the source and its part.
    fn write_names(self, text: &mut String) -> Result<(), Memory> {
        let Subject { source, part, .. } = self;
        write!(text, "source {source}")?;
        if part.is_empty() {
            return Ok(());
        }
        write!(text, ", {part}")
    }
}

/// Where something of a source is.
#[derive(Clone, Copy, Debug)]
pub enum Site<'a> {
    /// At a location of the text of sources.
    Text { origin: Origin<'a>, spot: Spot },
    /// At an op of a code that came as bytecode.
    Op { place: Place, op: Op },
    /// In a source or part that came as bytecode, at no op.
    Bytecode,
}

impl Site<'_> {
    /// Begins a line of advice: its location, its kind, and, if no text follows, the names of the source and its part.
    pub fn begin(self, text: &mut String, subject: Subject<'_>) -> Result<(), Memory> {
        match self {
            Site::Text { .. } => self.write_head(text, subject.kind),
            _ => self.begin_in_line(text, subject),
        }
    }

    /// Begins the same with the names of the source and its part, for lines with no text below.
    pub fn begin_in_line(self, text: &mut String, subject: Subject<'_>) -> Result<(), Memory> {
        self.write_head(text, subject.kind)?;
        subject.write_names(text)?;
        if let Site::Op { place, op } = self {
            write_op_place(text, place, op)?;
        }
        text.push_str(": ")
    }

    // Appends where the line is, as editors read it, and what it is.
    fn write_head(self, text: &mut String, kind: &str) -> Result<(), Memory> {
        match self {
            Site::Text { origin, spot } => {
                origin.line(spot).write_place(text)?;
                write!(text, ":{}", spot.column)?;
            }
            _ => text.push_str("input")?,
        }
        write!(text, ": {kind}: ")
    }

    /// Ends a line of advice: below it are the names of the source and its part, the line of the section, and that line
    /// with a caret.
    pub fn end(self, text: &mut String, subject: Subject<'_>) -> Result<(), Memory> {
        if let Site::Text { origin, spot } = self {
            let mut called = String::new(*text.allocator());
            subject.write_names(&mut called)?;
            origin.line(spot).note(text, called.as_str())?;
            write_excerpt_at(text, origin.text, spot.start)?;
        }
        text.push_str("\n")
    }
}

impl Origin<'_> {
    // Returns the line of a spot.
    fn line(self, spot: Spot) -> SectionLine {
        SectionLine {
            header: self.header,
            lines_before: self.lines_before,
            line: spot.line,
        }
    }
}

// Appends an op and its index.
fn write_op_place(text: &mut String, place: Place, op: Op) -> Result<(), Memory> {
    write!(text, ", op {place} \"")?;
    write_op(text, op)?;
    text.push_str("\"")
}
