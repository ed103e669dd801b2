//! The messages on names already taken, on nested brackets, and on exceeded limits.

use bb_basis::{Memory, NAME_LIMIT};
use bb_diag_text::{Spot, TokenKind, source_line, write_phrase};
use bb_lang_tree::TEXT_LIMIT;
use std::fmt::Write;

/// Appends which name is taken already.
pub(crate) fn write_twice(text: &mut String, spot: &Spot<'_>, source: &str) -> Result<(), Memory> {
    let name = spot.at.text;
    if spot.before.is("source") {
        write_phrase(text, "a source", name)?;
        text.push_str(" is there already")?;
        return match source_line(source, name) {
            None => Ok(()),
            Some(line) => write!(text, ", in line {line}"),
        };
    }
    write_phrase(text, "the name", name)?;
    text.push_str(" is taken already: ")?;
    if spot.before.is("let") {
        return write!(text, "{name} = E; gives it another value");
    }
    text.push_str("choose another one")
}

/// Appends the number of open brackets, in all and by kind, and how to have fewer.
pub(crate) fn write_nesting(text: &mut String, spot: &Spot<'_>) -> Result<(), Memory> {
    let count = spot.open.len();
    let blocks = spot.open.iter().filter(|it| it.token.is("{")).count();
    let others = count.saturating_sub(blocks);
    write!(
        text,
        "{count} brackets are open here, as many as there may be: {blocks} \"{{\""
    )?;
    if others > 0 {
        write!(text, " and {others} \"(\" or \"[\"")?;
    }
    if spot.at.is("{") {
        return text.push_str("; join tests by \"and\", or have another source do a part");
    }
    text.push_str("; name a part of the value by let n = E; before the statement")
}

/// Appends the limit that is exceeded at the location.
pub(crate) fn write_limit(text: &mut String, spot: &Spot<'_>) -> Result<(), Memory> {
    match spot.at.kind {
        TokenKind::Int => write_number(text, spot),
        TokenKind::Text => write!(text, "this text has more than {TEXT_LIMIT} bytes"),
        TokenKind::Word if spot.at.is("source") => {
            text.push_str("256 sources stand before this one, as many as there may be")
        }
        TokenKind::Word => {
            let len = spot.at.text.len();
            write!(
                text,
                "this name has {len} bytes, and {NAME_LIMIT} are allowed"
            )
        }
        _ => Ok(()),
    }
}

// Appends why a number may not occur there.
fn write_number(text: &mut String, spot: &Spot<'_>) -> Result<(), Memory> {
    if spot.at.text.bytes().all(|byte| byte == b'0') {
        return text.push_str("a divisor is a written number from 1 on");
    }
    if spot.before.is("-") {
        return text.push_str("the least number is -9223372036854775808");
    }
    text.push_str("the greatest number is 9223372036854775807")
}
