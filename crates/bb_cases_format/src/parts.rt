//! Files of cases: their entries, each a header with the lines of its text, and possibly a second header with lines.
//! The suite (bb_cases) runs them.

use crate::fault::Fault;
use crate::header::Header;
use std::alloc::{AllocError, Global};

/// A line of a file, without its line end.
#[derive(Clone, Copy)]
pub struct Line<'a> {
    /// The number of the line, from 1.
    pub number: usize,
    /// The text of the line, without its indent.
    pub text: &'a str,
}

/// A header and the lines below it, without their indent.
#[derive(Drop)]
pub struct Part<'a> {
    /// The line of the header.
    pub number: usize,
    /// The words of the header.
    pub header: Header<'a>,
    /// The lines of the text.
    pub lines: Vec<Line<'a>>,
}

impl Part<'_> {
    /// Returns the lines as one text.
    pub fn text(&self, alloc: Global) -> Result<String, AllocError> {
        let mut text = String::new(alloc);
        for line in &self.lines {
            text.push_str(line.text)?;
            text.push_str("\n")?;
        }
        Ok(text)
    }
}

/// An entry of a file.
#[derive(Drop)]
pub struct Entry<'a> {
    /// What the entry gives, or its rows.
    pub first: Part<'a>,
    /// What the entry gives, or its rows.
    pub second: Option<Part<'a>>,
}

impl<'a> Entry<'a> {
    /// Returns the second part, which has to begin with `word`. `NoSecond`: it is missing. `Second`: it begins with
    /// another word.
    pub fn second(&self, word: &str) -> Result<&Part<'a>, Fault> {
        let second = self.second.as_ref().ok_or(Fault::NoSecond)?;
        if second.header.kind == word {
            Ok(second)
        } else {
            Err(Fault::Second)
        }
    }

    /// Returns the part with the rows of a table. `Second`: there is a second part.
    pub fn rows(&self) -> Result<&Part<'a>, Fault> {
        if self.second.is_some() {
            return Err(Fault::Second);
        }
        Ok(&self.first)
    }
}

/// The entries of a file so far.
#[derive(Drop)]
pub struct Entries<'a> {
    /// The allocator of the entries.
    pub alloc: Global,
    /// The entries, in the order of the file.
    pub list: Vec<Entry<'a>>,
    /// The number of the line that is read, from 1.
    pub number: usize,
}

impl<'a> Entries<'a> {
    /// Reads a file. After a failure, `number` is the number of the faulty line.
    pub fn read(&mut self, text: &'a str) -> Result<(), Fault> {
        for line in text.split('\n') {
            self.number = self.number.saturating_add(1);
            match line.strip_prefix("    ") {
                _ if line.is_empty() || line.starts_with('#') => {}
                Some(text) => self.add_text(text)?,
                None => self.add_header(line)?,
            }
        }
        Ok(())
    }

    fn add_text(&mut self, text: &'a str) -> Result<(), Fault> {
        if text.trim().is_empty() {
            return Err(Fault::Indent);
        }
        let number = self.number;
        let entry = self.list.last_mut().ok_or(Fault::NoHeader)?;
        let part = match &mut entry.second {
            Some(second) => second,
            None => &mut entry.first,
        };
        part.lines.push(Line { number, text })?;
        Ok(())
    }

    fn add_header(&mut self, line: &'a str) -> Result<(), Fault> {
        if line.starts_with(' ') {
            return Err(Fault::Indent);
        }
        let first = Part {
            number: self.number,
            header: Header::of(self.alloc, line)?,
            lines: Vec::new(self.alloc),
        };
        if first.header.kind != "gives" && first.header.kind != "rows" {
            let second = None;
            self.list.push(Entry { first, second })?;
            return Ok(());
        }
        match self.list.last_mut() {
            Some(entry) if entry.second.is_none() => entry.second = Some(first),
            _ => return Err(Fault::Second),
        }
        Ok(())
    }
}
