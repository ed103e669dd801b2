//! The message on a token that the grammar does not allow: what was found, and what was expected.

use crate::order::write_order;
use crate::slips::write_slip;
use crate::words::mend_of;
use bb_basis::Memory;
use bb_diag_text::{
    Bracket, Due, Spot, Token, TokenKind, is_reserved, write_phrase, write_quoted, write_shown,
};
use std::fmt::Write;

/// Appends the token at the location, and the tokens expected there.
pub(crate) fn write_token(text: &mut String, spot: &Spot<'_>) -> Result<(), Memory> {
    if spot.due.is_empty() {
        return Ok(());
    }
    if write_order(text, spot)? || write_foreign(text, spot)? || write_slip(text, spot)? {
        return Ok(());
    }
    if write_closing(text, spot)? || write_reserved(text, spot)? || write_end_of_line(text, spot)? {
        return Ok(());
    }
    write_due(text, &spot.due)?;
    text.push_str(" is due, ")?;
    write_standing(text, spot.at)
}

fn is_due(spot: &Spot<'_>, what: &str) -> bool {
    spot.due.iter().any(|due| due.is(what))
}

// Appends what to write instead of a statement of another language, if one begins just before the location.
fn write_foreign(text: &mut String, spot: &Spot<'_>) -> Result<bool, Memory> {
    let word = spot.before;
    let begins = matches!(spot.first.text, "{" | "}" | ";");
    if !begins || !is_due(spot, "=") || spot.at.is("=") {
        return Ok(false);
    }
    if let Some(mend) = mend_of(word.text) {
        write_phrase(text, "no statement begins with", word.text)?;
        write!(text, ": {mend}")?;
        return Ok(true);
    }
    let is_call = spot.at.is("(");
    if is_call || (spot.at.kind == TokenKind::Word && !is_reserved(spot.at.text)) {
        write_phrase(text, "no statement begins with", word.text)?;
        text.push_str(if is_call {
            ": there are no functions"
        } else {
            ""
        })?;
        return Ok(true);
    }
    Ok(false)
}

// Returns whether a token can only come after the end of a block.
fn is_outside(token: Token<'_>) -> bool {
    token.kind == TokenKind::End
        || matches!(
            token.text,
            "source" | "when" | "require" | "obviate" | "retrigger" | "revalidate" | "do"
        )
}

// Appends that a bracket is not closed, or was not opened.
fn write_closing(text: &mut String, spot: &Spot<'_>) -> Result<bool, Memory> {
    let Some(bracket) = spot.open.last() else {
        return write_too_many(text, spot);
    };
    let close = closing(bracket.token.text);
    if !is_due(spot, close) {
        return write_wrong_close(text, spot);
    }
    let is_brace = close == "}";
    if (is_brace && is_outside(spot.at)) || (!is_brace && ends_statement(spot.at)) {
        write_quoted(text, close)?;
        text.push_str(" is due")?;
        write_before(text, spot.at)?;
        write_open(text, *bracket)?;
        return Ok(true);
    }
    write_wrong_close(text, spot)
}

// Returns whether a token ends what is in round or square brackets.
fn ends_statement(token: Token<'_>) -> bool {
    token.kind == TokenKind::End || matches!(token.text, ";" | "{" | "}" | "]" | ")")
}

// Appends that there is a closing bracket too many, if none is open.
fn write_too_many(text: &mut String, spot: &Spot<'_>) -> Result<bool, Memory> {
    if !matches!(spot.at.text, "}" | ")" | "]") {
        return Ok(false);
    }
    write_phrase(text, "there is one", spot.at.text)?;
    text.push_str(" too many: no bracket is open")?;
    Ok(true)
}

// Appends that there is a round or square bracket too many, if none of its kind is open.
fn write_wrong_close(text: &mut String, spot: &Spot<'_>) -> Result<bool, Memory> {
    if !matches!(spot.at.text, ")" | "]") {
        return Ok(false);
    }
    if spot
        .open
        .iter()
        .any(|it| closing(it.token.text) == spot.at.text)
    {
        return Ok(false);
    }
    write_phrase(text, "there is one", spot.at.text)?;
    text.push_str(" too many")?;
    Ok(true)
}

fn closing(open: &str) -> &'static str {
    match open {
        "(" => ")",
        "[" => "]",
        _ => "}",
    }
}

// Appends which bracket is open.
fn write_open(text: &mut String, bracket: Bracket<'_>) -> Result<(), Memory> {
    let line = bracket.token.line;
    let column = bracket.token.column;
    if bracket.token.text != "{" {
        let sign = bracket.token.text;
        return write!(text, ": \"{sign}\" in line {line}, column {column} is open");
    }
    let head = bracket.head;
    match head {
        "do" | "require" | "revalidate" | "else" => {
            write!(text, ": \"{head} {{\" in line {line} is open")
        }
        _ => write!(text, ": \"{head} .. {{\" in line {line} is open"),
    }
}

// Appends that a word is reserved, if a name was expected.
fn write_reserved(text: &mut String, spot: &Spot<'_>) -> Result<bool, Memory> {
    if spot.at.kind != TokenKind::Word || !is_reserved(spot.at.text) {
        return Ok(false);
    }
    let Some(name) = spot.due.iter().find(|due| due.is_name()) else {
        return Ok(false);
    };
    write_quoted(text, spot.at.text)?;
    text.push_str(" is a reserved word, and ")?;
    match name.called() {
        "a statement" => text.push_str("begins no statement")?,
        "a value" => text.push_str("begins no value")?,
        called => write!(text, "{called} is due")?,
    }
    Ok(true)
}

// Appends that `;` was expected, if the token begins something else or is in a later line.
fn write_end_of_line(text: &mut String, spot: &Spot<'_>) -> Result<bool, Memory> {
    let is_later = spot.at.line > spot.before.line;
    if !is_due(spot, ";") || !(is_later || begins_next(spot.at)) {
        return Ok(false);
    }
    text.push_str("\";\" is due")?;
    if is_later {
        write!(text, " at the end of line {}", spot.before.line)?;
    } else {
        write_before(text, spot.at)?;
    }
    Ok(true)
}

// Returns whether a token ends a block, or begins a statement or a part.
fn begins_next(token: Token<'_>) -> bool {
    const WORDS: &str =
        "{ } let if with for new set link unlink enter leave delete say rate answer decline when require obviate retrigger revalidate do native else";
    WORDS.split(' ').any(|word| token.is(word))
}

// Appends what follows the expected token.
fn write_before(text: &mut String, token: Token<'_>) -> Result<(), Memory> {
    if token.kind == TokenKind::End {
        return text.push_str(", where the text ends");
    }
    write_phrase(text, " before", token.text)
}

// Appends what is at the location.
fn write_standing(text: &mut String, token: Token<'_>) -> Result<(), Memory> {
    if token.kind == TokenKind::End {
        return text.push_str("and the text ends");
    }
    if token.kind == TokenKind::Text {
        write_shown(text, token.text)?;
    } else {
        write_quoted(text, token.text)?;
    }
    text.push_str(" stands here")
}

// Appends everything that was expected, each once. Operators are listed only if nothing else is.
fn write_due(text: &mut String, due: &[Due]) -> Result<(), Memory> {
    let count = (0..due.len()).filter(|index| is_told(due, *index)).count();
    let mut told: usize = 0;
    for (index, one) in due.iter().enumerate() {
        if is_told(due, index) {
            told = told.saturating_add(1);
            if told > 1 {
                text.push_str(if told == count { " or " } else { ", " })?;
            }
            match one.word() {
                Some(word) => write_quoted(text, word)?,
                None => text.push_str(one.called())?,
            }
        }
    }
    Ok(())
}

// Returns whether the item at an index is listed: no item before it has its name, and it is not an operator among other
// items.
fn is_told(due: &[Due], index: usize) -> bool {
    let Some(one) = due.get(index) else {
        return false;
    };
    if one.word().is_some() {
        return true;
    }
    let called = one.called();
    if called == "an operator" && due.iter().any(|it| it.called() != called) {
        return false;
    }
    !due.iter().take(index).any(|it| it.called() == called)
}
