//! The message on a character that begins no token: its name, and the text to write instead.

use crate::slips::write_slip;
use bb_basis::Memory;
use bb_diag_text::{Spot, line_at};
use std::fmt::Write;

/// Appends why no token begins at a location.
pub(crate) fn write_character(
    text: &mut String,
    spot: &Spot<'_>,
    source: &str,
) -> Result<(), Memory> {
    let Some(c) = spot.at.text.chars().next() else {
        return Ok(());
    };
    if c == '"' {
        let column = usize::try_from(spot.at.column).unwrap_or(usize::MAX);
        return write_text(text, line_at(source, spot.at.line), column);
    }
    if c.is_ascii_uppercase() {
        return write_capital(text, spot, source);
    }
    if write_slip(text, spot)? {
        return Ok(());
    }
    write_name(text, c)?;
    text.push_str(" begins no token")?;
    match mend_of(c) {
        "" => Ok(()),
        mend => write!(text, ": {mend}"),
    }
}

// Appends why a text constant is invalid. Its characters after the quote begin at a column of a line, from 0.
fn write_text(text: &mut String, line: &str, column: usize) -> Result<(), Memory> {
    let mut is_escaped = false;
    for c in line.chars().skip(column) {
        if is_escaped && !matches!(c, '"' | '\\' | 'n' | 't') {
            text.push_str("there is no escape ")?;
            return write_escape(text, c);
        }
        if c.is_control() {
            text.push_str("a text has no control character in it")?;
            return text.push_str(if c == '\t' { ": write \\t" } else { "" });
        }
        is_escaped = !is_escaped && c == '\\';
    }
    text.push_str("the text that begins here has no end in its line")
}

// Appends an invalid escape, and the valid ones.
fn write_escape(text: &mut String, c: char) -> Result<(), Memory> {
    text.push_str("\\")?;
    text.push(if c.is_control() { ' ' } else { c })?;
    text.push_str(": a text has \\\", \\\\, \\n and \\t")
}

// Appends that names have small letters, with the whole word, which may begin before the capital.
fn write_capital(text: &mut String, spot: &Spot<'_>, source: &str) -> Result<(), Memory> {
    let mut column = usize::try_from(spot.at.column.saturating_sub(1)).unwrap_or(usize::MAX);
    if spot.at.is_joined && is_word(spot.before.text) {
        column = column.saturating_sub(spot.before.text.len());
    }
    text.push_str("a name has small letters: write \"")?;
    let line = line_at(source, spot.at.line);
    let mut is_inner = false;
    for c in line.chars().skip(column).take_while(is_word_char) {
        if is_inner && c.is_ascii_uppercase() {
            text.push_str("_")?;
        }
        is_inner = c.is_ascii_lowercase();
        text.push(c.to_ascii_lowercase())?;
    }
    text.push_str("\"")
}

fn is_word_char(c: &char) -> bool {
    c.is_ascii_alphanumeric() || *c == '_'
}

fn is_word(text: &str) -> bool {
    !text.is_empty() && text.chars().all(|c| is_word_char(&c))
}

// Appends a character: in quotes if it is visible ASCII, else by its number, with its name.
fn write_name(text: &mut String, c: char) -> Result<(), Memory> {
    if c.is_ascii() && !c.is_control() {
        return write!(text, "\"{c}\"");
    }
    let number = c as u32;
    write!(text, "U+{number:04X}")?;
    match called(c) {
        "" if c.is_alphanumeric() => write!(text, ", \"{c}\","),
        "" => Ok(()),
        name => write!(text, ", {name},"),
    }
}

// Returns the name of a character that looks like another one.
fn called(c: char) -> &'static str {
    match c {
        '\u{a0}' | '\u{2007}' | '\u{202f}' => "a blank that does not break",
        '\u{2000}'..='\u{2006}' | '\u{2008}'..='\u{200a}' | '\u{3000}' =>
            "a blank of another width",
        '\u{200b}'..='\u{200f}' | '\u{2060}' => "a character without a width",
        '\u{feff}' => "a byte-order mark",
        '\u{2018}' | '\u{2019}' | '\u{201a}' => "a curly quote",
        '\u{201c}' | '\u{201d}' | '\u{201e}' => "a curly quote",
        '\u{ab}' | '\u{bb}' => "an angular quote",
        '\u{2010}'..='\u{2015}' | '\u{2212}' => "a dash",
        '\u{2026}' => "three dots in one",
        '\u{37e}' => "a Greek question mark",
        '\u{d7}' | '\u{f7}' | '\u{2264}' | '\u{2265}' | '\u{2260}' => "a sign of arithmetic",
        _ => "",
    }
}

// Returns what to write instead of a character.
fn mend_of(c: char) -> &'static str {
    match c {
        '\'' | '`' => "a text stands in \"double quotes\"",
        '\u{2018}'..='\u{201e}' | '\u{ab}' | '\u{bb}' =>
            "a text stands in straight \"double quotes\"",
        '#' => "a comment begins with \"//\"",
        '|' => "write \"or\"",
        '?' => "write if .. { .. } else { .. }",
        '^' => "there are no powers",
        '~' => "write not(..)",
        '_' => "a name begins with a letter",
        '@' | '$' => "a name is letters from a to z, digits and \"_\"",
        '\\' => "an escape stands in a text alone",
        '\u{a0}' | '\u{2000}'..='\u{200a}' | '\u{202f}' | '\u{3000}' => "write a plain blank",
        '\u{200b}'..='\u{200f}' | '\u{2060}' | '\u{feff}' => "delete it",
        '\u{2010}'..='\u{2015}' | '\u{2212}' => "write \"-\"",
        '\u{37e}' => "write \";\"",
        '\u{d7}' => "write \"*\"",
        '\u{f7}' => "write \"/\"",
        '\u{2264}' => "write \"<=\"",
        '\u{2265}' => "turn it round, \"b <= a\"",
        '\u{2260}' => "write not(a = b)",
        _ if c.is_alphanumeric() => "a name is letters from a to z, digits and \"_\"",
        _ => "",
    }
}
