//! How names of an input are shown, and how a note begins. All notes (bb_diag) use these functions.

use bb_basis::Memory;

// The margin of each line below a sentence.
const MARGIN: &str = "\n  | ";

// The maximum number of characters of a name that are shown.
const SHOWN: usize = 64;

/// The mark of a text that continues.
pub(crate) const MORE: &str = "..";

/// Begins a line below the sentence.
pub fn begin_line(text: &mut String) -> Result<(), Memory> {
    text.push_str(MARGIN)
}

/// Appends a name, cut if it is long. A control character becomes a blank, so that an untrusted text can't affect a
/// terminal.
pub fn write_shown(text: &mut String, name: &str) -> Result<(), Memory> {
    for c in name.chars().take(SHOWN) {
        text.push(if c.is_control() { ' ' } else { c })?;
    }
    if name.chars().nth(SHOWN).is_some() {
        text.push_str(MORE)?;
    }
    Ok(())
}

/// Appends a name in quotes, as `write_shown` shows it.
pub fn write_quoted(text: &mut String, name: &str) -> Result<(), Memory> {
    text.push_str("\"")?;
    write_shown(text, name)?;
    text.push_str("\"")
}

/// Appends a phrase, and then a name in quotes.
pub fn write_phrase(text: &mut String, phrase: &str, name: &str) -> Result<(), Memory> {
    text.push_str(phrase)?;
    text.push_str(" ")?;
    write_quoted(text, name)
}

/// Appends a note: the description of something and its flaw, separated by a colon if both are present. Appends nothing
/// if both are empty.
pub fn write_note(text: &mut String, called: &str, flaw: &str) -> Result<(), Memory> {
    if called.is_empty() && flaw.is_empty() {
        return Ok(());
    }
    begin_line(text)?;
    text.push_str(called)?;
    if !called.is_empty() && !flaw.is_empty() {
        text.push_str(": ")?;
    }
    text.push_str(flaw)
}
