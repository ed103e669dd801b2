//! Common mistakes, as rows of tables: how the tokens around a fault look, and the message for that. Messages on tokens
//! and characters check these first.
//!
//! A row is `HEAD | BEFORE @ AT | DUE | SENTENCE`. HEAD is the first word of the construct with the fault, DUE
//! something that could come there; `*` for either matches anything. BEFORE are the tokens before the fault, AT the
//! token at the fault and the ones after it: words and symbols as written, or NAME, WORD, INT, TEXT, ANY. In a sentence
//! `$at`, `$before`, `$first` and `$third` mean the token at the fault and the ones before it, the nearest first;
//! `$behind` and `$last` mean the ones after it.

use crate::statement_slips::{OUTER_SLIPS, STATEMENT_SLIPS};
use crate::value_slips::{PATTERN_SLIPS, VALUE_SLIPS};
use bb_basis::Memory;
use bb_diag_text::{Spot, Token, TokenKind, is_reserved, write_shown};

// A row of a table.
#[derive(Clone, Copy)]
struct Slip {
    head: &'static str,
    before: &'static str,
    at: &'static str,
    due: &'static str,
    says: &'static str,
}

impl Slip {
    // Parses a row, if it is one.
    fn of(row: &'static str) -> Option<Slip> {
        let (head, rest) = row.split_once(" | ")?;
        let (tokens, rest) = rest.split_once(" | ")?;
        let (due, says) = rest.split_once(" | ")?;
        let (before, at) = tokens.split_once("@ ")?;
        Some(Slip {
            head,
            before,
            at,
            due,
            says,
        })
    }

    fn fits(&self, spot: &Spot<'_>) -> bool {
        (self.head == "*" || self.head == spot.head)
            && (self.due == "*" || spot.due.iter().any(|due| due.is(self.due)))
            && are_before(self.before, spot)
            && are_from(self.at, spot)
    }
}

// Returns whether the tokens before the location match a row.
fn are_before(words: &str, spot: &Spot<'_>) -> bool {
    for (back, word) in words.trim_end_matches(' ').rsplit(' ').enumerate() {
        match [spot.before, spot.first, spot.third].get(back) {
            Some(token) if word.is_empty() || is_like(*token, word) => {}
            _ => return false,
        }
    }
    true
}

// Returns whether the tokens from the location on match a row.
fn are_from(words: &str, spot: &Spot<'_>) -> bool {
    let tokens = [spot.at, spot.behind, spot.last];
    for (ahead, word) in words.split(' ').enumerate() {
        match tokens.get(ahead) {
            Some(token) if is_like(*token, word) => {}
            _ => return false,
        }
    }
    true
}

// Returns whether a token matches a word of a row.
fn is_like(token: Token<'_>, word: &str) -> bool {
    match word {
        "ANY" => token.kind != TokenKind::End,
        "NAME" => token.kind == TokenKind::Word && !is_reserved(token.text),
        "WORD" => token.kind == TokenKind::Word,
        "INT" => token.kind == TokenKind::Int,
        "TEXT" => token.kind == TokenKind::Text,
        _ => token.is(word),
    }
}

// Returns the sentence of the first row of a table that fits.
fn found_in(table: &'static str, spot: &Spot<'_>) -> Option<&'static str> {
    for row in table.lines() {
        if let Some(slip) = Slip::of(row) {
            if slip.fits(spot) {
                return Some(slip.says);
            }
        }
    }
    None
}

/// Appends the sentence of the first row that fits, and returns whether one does.
pub(crate) fn write_slip(text: &mut String, spot: &Spot<'_>) -> Result<bool, Memory> {
    for table in [PATTERN_SLIPS, OUTER_SLIPS, STATEMENT_SLIPS, VALUE_SLIPS] {
        if let Some(says) = found_in(table, spot) {
            fill(text, says, spot)?;
            return Ok(true);
        }
    }
    Ok(false)
}

// Appends a sentence, with its `$` words replaced by their tokens.
fn fill(text: &mut String, says: &str, spot: &Spot<'_>) -> Result<(), Memory> {
    for (index, piece) in says.split('$').enumerate() {
        match named(piece, spot) {
            Some((token, rest)) if index > 0 => {
                write_shown(text, token.text)?;
                text.push_str(rest)?;
            }
            _ => text.push_str(piece)?,
        }
    }
    Ok(())
}

// Returns the token named by the word that a piece begins with, and what follows the word.
fn named<'a, 'p>(piece: &'p str, spot: &Spot<'a>) -> Option<(Token<'a>, &'p str)> {
    for (word, token) in [
        ("at", spot.at),
        ("before", spot.before),
        ("first", spot.first),
        ("third", spot.third),
        ("behind", spot.behind),
        ("last", spot.last),
    ] {
        if let Some(rest) = piece.strip_prefix(word) {
            return Some((token, rest));
        }
    }
    None
}
