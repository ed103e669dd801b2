//! Operators of other languages in a text of sources: `!=`, `>`, `+=`, `&&` and others, and comments after `#`. They
//! are found anywhere, and read as their counterparts in the language, so that the text after them is understood.

use crate::pieces::Piece;
use crate::spot::{Spot, View};
use crate::token::{Token, TokenKind};
use bb_basis::Memory;
use std::alloc::Global;

// How an operator of another language is read.
#[derive(Clone, Copy, Debug)]
struct Reading {
    // The word or symbol instead of it; empty if there is none.
    word: &'static str,
    // Whether it consists of two tokens.
    is_double: bool,
}

/// The operators of other languages in a piece of a text, one after the other.
#[derive(Drop)]
pub struct Operators<'a> {
    alloc: Global,
    view: View<'a>,
    // The number of bytes of the piece.
    end: usize,
    // How the one that was returned last is read.
    reading: Option<Reading>,
}

impl<'a> Operators<'a> {
    /// Begins before the first one of a piece.
    pub fn of(alloc: Global, piece: Piece<'a>) -> Result<Operators<'a>, Memory> {
        Ok(Operators {
            alloc,
            view: View::of(alloc, piece)?,
            end: piece.own().len(),
            reading: None,
        })
    }

    /// Goes to the next one, and returns its token; `None` after the last one.
    pub fn take(&mut self) -> Result<Option<Token<'a>>, Memory> {
        if let Some(reading) = self.reading {
            self.leave(reading)?;
        }
        for _turn in 0..self.end {
            let at = self.view.at;
            if at.kind == TokenKind::End || at.start >= self.end {
                return Ok(None);
            }
            self.reading = self.reading_of(at)?;
            if self.reading.is_some() {
                return Ok(Some(at));
            }
            if is_quote(at) {
                self.view.tokens.pass_line();
            }
            self.view.pass(at)?;
        }
        Ok(None)
    }

    /// Returns the spot of the last one that `take` returned.
    pub fn spot(&self) -> Result<Spot<'a>, Memory> {
        self.view.spot(self.alloc)
    }

    // Passes the one that was returned last.
    fn leave(&mut self, reading: Reading) -> Result<(), Memory> {
        self.reading = None;
        if self.view.at.is("#") {
            self.view.tokens.pass_line();
        }
        if reading.is_double {
            let _second = self.view.tokens.take();
        }
        if reading.word.is_empty() {
            self.view.move_on();
            return Ok(());
        }
        let at = self.view.at;
        self.view.pass(at.read_as(reading.word))
    }

    // Returns how a token is read, if it begins an operator of another language.
    fn reading_of(&self, at: Token<'a>) -> Result<Option<Reading>, Memory> {
        let mut tokens = self.view.tokens;
        let behind = tokens.take();
        let second = if behind.is_joined { behind.text } else { "" };
        if at.kind == TokenKind::Other {
            let is_test = self.view.is_due(self.alloc, "a relation")?;
            return Ok(if is_test {
                in_test(at, second)
            } else {
                in_value(at, second)
            });
        }
        if second == "=" && is_sign(at) && self.view.may_come(self.alloc, "=")? {
            return Ok(double("="));
        }
        let before = self.view.before;
        if at.is("=") && at.is_joined && (before.is("=") || is_sign(before)) {
            return Ok(single(""));
        }
        Ok(None)
    }
}

// Returns whether a token is a quote that begins no text.
fn is_quote(token: Token<'_>) -> bool {
    token.kind == TokenKind::Other
        && matches!(
            token.text,
            "\"" | "'" | "`" | "\u{2018}" | "\u{2019}" | "\u{201c}" | "\u{201d}" | "\u{201e}"
        )
}

// Returns whether a token is a sign that other languages join with `=`.
fn is_sign(token: Token<'_>) -> bool {
    matches!(token.text, "+" | "-" | "*" | "/" | "%" | ":")
}

fn single(word: &'static str) -> Option<Reading> {
    Some(Reading {
        word,
        is_double: false,
    })
}

fn double(word: &'static str) -> Option<Reading> {
    Some(Reading {
        word,
        is_double: true,
    })
}

// Returns how a token and the one joined to it are read where the relation of a pattern is expected.
fn in_test(at: Token<'_>, second: &str) -> Option<Reading> {
    match (at.text, second) {
        (">", "=") => double("more"),
        (">", _) => single("more"),
        ("!", "=") => double("within"),
        _ => in_value(at, second),
    }
}

// Returns how a token and the one joined to it are read elsewhere.
fn in_value(at: Token<'_>, second: &str) -> Option<Reading> {
    match (at.text, second) {
        (">", "=") => double("<="),
        (">", ">") => double("<"),
        (">", _) => single("<"),
        ("!", "=") => double("="),
        ("!", _) => single("not"),
        ("&", "&") => double("and"),
        ("&", _) => single("and"),
        ("|", "|") => double("or"),
        ("|", _) => single("or"),
        ("#", _) => single(""),
        _ => None,
    }
}
