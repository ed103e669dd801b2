//! A text of sources, cut at the beginning of each, so that each can be read by itself, regardless of faults in the
//! others.

use crate::symbol::is_reserved;
use crate::token::{Token, TokenKind, Tokens};

/// A part of a text: a source and what follows it, up to the next source, or what precedes the first source.
#[derive(Clone, Copy, Debug)]
pub struct Piece<'a> {
    /// The text from the piece on, to the end of the whole text.
    pub text: &'a str,
    /// Where the piece begins in the whole text. Line and column count from 1, columns in characters.
    pub line: u64,
    pub column: u64,
    // The number of bytes of the piece.
    len: usize,
}

impl<'a> Piece<'a> {
    /// Returns a whole text as one piece.
    pub fn whole(text: &'a str) -> Piece<'a> {
        Piece {
            text,
            line: 1,
            column: 1,
            len: text.len(),
        }
    }

    /// Returns only the text of the piece.
    pub fn own(self) -> &'a str {
        self.text.get(..self.len).unwrap_or(self.text)
    }

    /// Returns the line and column in the whole text of a line and column in the piece.
    pub fn located(self, line: u64, column: u64) -> (u64, u64) {
        if line <= 1 {
            return (
                self.line,
                self.column.saturating_add(column.saturating_sub(1)),
            );
        }
        (self.line.saturating_add(line.saturating_sub(1)), column)
    }
}

/// The pieces of a text that are still to come.
#[derive(Clone, Copy, Debug)]
pub struct Pieces<'a> {
    text: &'a str,
    tokens: Tokens<'a>,
}

impl<'a> Pieces<'a> {
    /// Returns the pieces of a text, in order.
    pub fn of(text: &'a str) -> Pieces<'a> {
        Pieces {
            text,
            tokens: Tokens::of(Piece::whole(text)),
        }
    }

    /// Returns an upper bound on the number of pieces left.
    pub fn left(&self) -> usize {
        self.tokens.left()
    }

    /// Takes the next piece, or returns `None` after the last one.
    pub fn take(&mut self) -> Option<Piece<'a>> {
        let first = self.tokens.take();
        if first.kind == TokenKind::End {
            return None;
        }
        let mut nest = Nest::of(first);
        for _turn in 0..self.tokens.left() {
            let next = self.tokens;
            let token = self.tokens.take();
            if nest.ends_before(token, self.tokens) {
                self.tokens = next;
                return Some(self.piece(first, token.start));
            }
            nest.pass(token);
        }
        Some(self.piece(first, self.text.len()))
    }

    // Returns the piece from a token to a byte.
    fn piece(&self, first: Token<'a>, end: usize) -> Piece<'a> {
        Piece {
            text: self.text.get(first.start..).unwrap_or(""),
            line: first.line,
            column: first.column,
            len: end.saturating_sub(first.start),
        }
    }
}

// What is known between two tokens: how many braces are open, and the token before.
#[derive(Clone, Copy)]
struct Nest<'a> {
    depth: usize,
    before: Token<'a>,
}

impl<'a> Nest<'a> {
    fn of(first: Token<'a>) -> Nest<'a> {
        let mut nest = Nest {
            depth: 0,
            before: first,
        };
        nest.pass(first);
        nest
    }

    fn pass(&mut self, token: Token<'a>) {
        if token.is("{") {
            self.depth = self.depth.saturating_add(1);
        } else if token.is("}") {
            self.depth = self.depth.saturating_sub(1);
        }
        self.before = token;
    }

    // Returns whether a token, given the ones after it, begins a source. In braces, of which one may lack its end, it
    // has to look like the head of one.
    fn ends_before(&self, token: Token<'a>, behind: Tokens<'a>) -> bool {
        token.is("source")
            && !self.before.is(".")
            && !self.before.is("source")
            && (self.depth == 0 || is_head(behind))
    }
}

// Returns whether a name and `on` come next.
fn is_head(tokens: Tokens<'_>) -> bool {
    let mut tokens = tokens;
    let name = tokens.take();
    name.kind == TokenKind::Word && !is_reserved(name.text) && tokens.take().is("on")
}
