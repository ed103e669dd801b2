//! The words of a line. Statements (`statement.rt`) consist of them.

use std::alloc::{AllocError, Global};

// The state of the scan of a line. A number is the position at which the word began.
#[derive(Clone, Copy)]
enum Reading {
    Between,
    Word(usize),
    Quoted(usize),
    // After a `\` in a quoted text.
    Escaped(usize),
}

// Whether a character is always a separate word.
fn is_mark(ch: char) -> bool {
    matches!(ch, ';' | '(' | ')' | ',' | '/')
}

// Appends the word between two positions of a line.
fn add<'a>(
    words: &mut Vec<&'a str>,
    line: &'a str,
    from: usize,
    to: usize,
) -> Result<(), AllocError> {
    if let Some(word) = line.get(from..to) {
        words.push(word)?;
    }
    Ok(())
}

/// Splits a line into words, up to its comment: a quoted text, a mark, or anything else between blanks and marks.
pub(crate) fn words_of(alloc: Global, line: &str) -> Result<Vec<&str>, AllocError> {
    let mut words = Vec::new(alloc);
    let mut reading = Reading::Between;
    for (at, ch) in line.char_indices() {
        reading = match reading {
            Reading::Escaped(from) => Reading::Quoted(from),
            Reading::Quoted(from) => match ch {
                '\\' => Reading::Escaped(from),
                '"' => {
                    add(&mut words, line, from, at.saturating_add(1))?;
                    Reading::Between
                }
                _ => Reading::Quoted(from),
            },
            Reading::Word(from) if !ch.is_whitespace() && !is_mark(ch) && ch != '#' => {
                Reading::Word(from)
            }
            before => {
                if let Reading::Word(from) = before {
                    add(&mut words, line, from, at)?;
                }
                match ch {
                    '#' => return Ok(words),
                    '"' => Reading::Quoted(at),
                    ch if is_mark(ch) => {
                        add(&mut words, line, at, at.saturating_add(1))?;
                        Reading::Between
                    }
                    ch if ch.is_whitespace() => Reading::Between,
                    _ => Reading::Word(at),
                }
            }
        };
    }
    match reading {
        Reading::Between => {}
        Reading::Word(from) | Reading::Quoted(from) | Reading::Escaped(from) => {
            add(&mut words, line, from, line.len())?;
        }
    }
    Ok(words)
}
