//! The tokens of any text, valid or not: if the language has no token at a character, the character is one.

use crate::pieces::Piece;
use std::str::from_utf8;

/// The kinds of token.
#[derive(Clone, Copy, Debug, PartialEq, Eq)]
pub enum TokenKind {
    /// A name, or a reserved word.
    Word,
    /// Digits.
    Int,
    /// A text constant in its quotes.
    Text,
    /// One of the symbols of the language.
    Symbol,
    /// A character that begins no token, or a quote that begins no valid text constant.
    Other,
    /// The end of the text, and anything before its start.
    End,
}

/// A token and the location of its beginning. Line and column count from 1, columns in characters.
#[derive(Clone, Copy, Debug)]
pub struct Token<'a> {
    pub kind: TokenKind,
    pub text: &'a str,
    pub line: u64,
    pub column: u64,
    /// How many bytes of the text, or of its piece, are before it.
    pub start: usize,
    /// Whether it follows the token before it without a blank.
    pub is_joined: bool,
}

impl<'a> Token<'a> {
    /// Returns the token before the first one.
    pub(crate) fn none() -> Token<'a> {
        Token {
            kind: TokenKind::End,
            text: "",
            line: 1,
            column: 1,
            start: 0,
            is_joined: false,
        }
    }

    /// Returns whether its text is this word or symbol.
    pub fn is(&self, word: &str) -> bool {
        self.text == word
    }

    /// Returns the token that another word or symbol would be here.
    pub(crate) fn read_as(self, text: &'static str) -> Token<'a> {
        let kind = match text.as_bytes() {
            [first, ..] if first.is_ascii_lowercase() => TokenKind::Word,
            _ => TokenKind::Symbol,
        };
        Token {
            kind,
            text,
            line: self.line,
            column: self.column,
            start: self.start,
            is_joined: self.is_joined,
        }
    }

    /// Returns whether it begins at a location or after it.
    pub(crate) fn is_from(&self, line: u64, column: u64) -> bool {
        self.line > line || (self.line == line && self.column >= column)
    }
}

/// The tokens of a text, or of a piece of one, that are still to come.
#[derive(Clone, Copy, Debug)]
pub(crate) struct Tokens<'a> {
    rest: &'a [u8],
    line: u64,
    column: u64,
    start: usize,
}

impl<'a> Tokens<'a> {
    /// Returns the tokens from the beginning of a piece to the end of its text.
    pub(crate) fn of(piece: Piece<'a>) -> Tokens<'a> {
        Tokens {
            rest: piece.text.as_bytes(),
            line: piece.line,
            column: piece.column,
            start: 0,
        }
    }

    /// Passes the rest of the line.
    pub(crate) fn pass_line(&mut self) {
        let len = self.rest.iter().take_while(|byte| **byte != b'\n').count();
        let _passed = self.pass(len);
    }

    /// Returns how many bytes are left.
    pub(crate) fn left(&self) -> usize {
        self.rest.len()
    }

    /// Takes the next token.
    pub(crate) fn take(&mut self) -> Token<'a> {
        let blanks = self.pass(blank_len(self.rest));
        let (line, column, start) = (self.line, self.column, self.start);
        let (kind, len) = shape_of(self.rest);
        let bytes = self.pass(len);
        Token {
            kind,
            text: from_utf8(bytes).unwrap_or(""),
            line,
            column,
            start,
            is_joined: blanks.is_empty(),
        }
    }

    // Passes `len` bytes, and returns them.
    fn pass(&mut self, len: usize) -> &'a [u8] {
        let (passed, rest) = match self.rest.split_at_checked(len) {
            Some(parts) => parts,
            None => (self.rest, b"".as_slice()),
        };
        self.rest = rest;
        self.start = self.start.saturating_add(passed.len());
        for byte in passed {
            self.count(*byte);
        }
        passed
    }

    // Moves the location past a byte.
    fn count(&mut self, byte: u8) {
        if byte == b'\n' {
            self.line = self.line.saturating_add(1);
            self.column = 1;
        } else if !is_inner(byte) {
            self.column = self.column.saturating_add(1);
        }
    }
}

// Returns whether a byte is not the first byte of a character.
fn is_inner(byte: u8) -> bool {
    byte >= 0x80 && byte < 0xc0
}

// Returns whether a byte can occur in a name.
fn is_name_byte(byte: u8) -> bool {
    byte.is_ascii_lowercase() || byte.is_ascii_digit() || byte == b'_'
}

fn is_symbol(byte: u8) -> bool {
    b"{}()[];,.:=<+-*/%".contains(&byte)
}

// Returns the number of bytes of blanks and comments that come first.
fn blank_len(bytes: &[u8]) -> usize {
    let mut in_comment = false;
    for (at, byte) in bytes.iter().enumerate() {
        if in_comment {
            in_comment = *byte != b'\n';
        } else if *byte == b'/' && bytes.get(at.saturating_add(1)) == Some(&b'/') {
            in_comment = true;
        } else if !matches!(*byte, b' ' | b'\t' | b'\r' | b'\n') {
            return at;
        }
    }
    bytes.len()
}

// Returns the number of bytes of a text constant after its opening quote, if it is one.
fn text_len(bytes: &[u8]) -> Option<usize> {
    let mut is_escaped = false;
    for (at, byte) in bytes.iter().enumerate() {
        if is_escaped {
            if !matches!(*byte, b'"' | b'\\' | b'n' | b't') {
                return None;
            }
            is_escaped = false;
        } else if *byte == b'"' {
            return Some(at.saturating_add(1));
        } else if *byte < b' ' {
            return None;
        } else {
            is_escaped = *byte == b'\\';
        }
    }
    None
}

// Returns the number of bytes of a character, by its first byte.
fn char_len(first: u8) -> usize {
    match first {
        0..0x80 => 1,
        0x80..0xe0 => 2,
        0xe0..0xf0 => 3,
        _ => 4,
    }
}

// Returns the kind of the token that comes first, and its number of bytes.
fn shape_of(bytes: &[u8]) -> (TokenKind, usize) {
    let [first, behind @ ..] = bytes else {
        return (TokenKind::End, 0);
    };
    if first.is_ascii_lowercase() {
        let is_part = |byte: &&u8| is_name_byte(**byte);
        return (TokenKind::Word, bytes.iter().take_while(is_part).count());
    }
    if first.is_ascii_digit() {
        let is_part = |byte: &&u8| byte.is_ascii_digit();
        return (TokenKind::Int, bytes.iter().take_while(is_part).count());
    }
    if *first == b'"' {
        return match text_len(behind) {
            Some(len) => (TokenKind::Text, len.saturating_add(1)),
            None => (TokenKind::Other, 1),
        };
    }
    if bytes.starts_with(b"<=") {
        return (TokenKind::Symbol, 2);
    }
    if is_symbol(*first) {
        return (TokenKind::Symbol, 1);
    }
    (TokenKind::Other, char_len(*first))
}
