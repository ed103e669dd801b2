//! The statements of a text: the words of each, and its line. The assembler reads them twice: once for the labels and
//! once for everything else.

use crate::words::words_of;
use std::alloc::{AllocError, Global};

/// A statement: its words and its line.
#[derive(Drop)]
pub(crate) struct Statement<'a> {
    /// The line of the statement, from 1.
    pub line: u32,
    /// The label before the statement, without its `:`.
    pub label: Option<&'a str>,
    /// The op or the table; empty if there is only a label.
    pub name: &'a str,
    /// The words after the name.
    pub operands: Vec<&'a str>,
}

// The names of statements that are not ops.
const TABLES: [&str; 6] = ["version", "locals", "text", "query", "frame", "loop"];

// The label at the start of some words, if the first one ends with `:`.
fn label_of<'a>(words: &[&'a str]) -> Option<&'a str> {
    let first = words.first()?;
    first.strip_suffix(':')
}

impl<'a> Statement<'a> {
    // Makes a statement of some words.
    fn of(alloc: Global, line: u32, words: &[&'a str]) -> Result<Statement<'a>, AllocError> {
        let label = label_of(words);
        let before = usize::from(label.is_some());
        let name = words.get(before).copied().unwrap_or("");
        let operands = words.iter().skip(before).skip(1).copied().collect(alloc)?;
        Ok(Statement {
            line,
            label,
            name,
            operands,
        })
    }

    /// Returns whether the statement is meant as an op.
    pub fn is_op(&self) -> bool {
        !self.name.is_empty() && !TABLES.contains(&self.name)
    }
}

// Appends the statements of a line.
fn add_line<'a>(
    alloc: Global,
    statements: &mut Vec<Statement<'a>>,
    number: u32,
    line: &'a str,
) -> Result<(), AllocError> {
    let words = words_of(alloc, line)?;
    for part in words.split(|word| *word == ";") {
        if !part.is_empty() {
            statements.push(Statement::of(alloc, number, part)?)?;
        }
    }
    Ok(())
}

/// Splits a text into statements.
pub(crate) fn statements_of(alloc: Global, text: &str) -> Result<Vec<Statement<'_>>, AllocError> {
    let mut statements = Vec::new(alloc);
    let mut number = 0u32;
    for line in text.lines() {
        number = number.saturating_add(1);
        add_line(alloc, &mut statements, number, line)?;
    }
    Ok(statements)
}
