//! A statement, among the tokens of its source. All messages read its tokens.

use bb_compile_scope::Place;
use bb_diag_text::{Token, TokenKind};

/// A statement, or the head of one, with the tokens of its source.
#[derive(Clone, Copy)]
pub struct Statement<'a, 't> {
    source: &'t [Token<'a>],
    start: usize,
}

// Whether a token ends a statement, or its head.
fn is_end(token: &Token<'_>) -> bool {
    token.is(";") || token.is("{") || token.is("}")
}

impl<'a, 't> Statement<'a, 't> {
    /// Returns the statement that begins at a location, if a token does.
    pub fn at(source: &'t [Token<'a>], place: Place) -> Option<Statement<'a, 't>> {
        let start = source
            .iter()
            .position(|it| it.line == place.line && it.column == place.column)?;
        Some(Statement { source, start })
    }

    /// Returns the tokens of the source before it.
    pub fn before(self) -> &'t [Token<'a>] {
        self.source.get(..self.start).unwrap_or(&[])
    }

    /// Returns its tokens, without the `;`, or up to its block.
    pub fn tokens(self) -> &'t [Token<'a>] {
        until_end(self.source.get(self.start..).unwrap_or(&[]))
    }

    /// Returns the tokens from its first one on.
    pub fn rest(self) -> &'t [Token<'a>] {
        self.source.get(self.start..).unwrap_or(&[])
    }

    /// Returns the text of one of its tokens; empty if it has no such token or the token is a text constant.
    pub fn word(self, index: usize) -> &'a str {
        word_at(self.tokens(), index)
    }
}

/// Returns the tokens up to the end of a statement or of its head.
pub fn until_end<'a, 't>(tokens: &'t [Token<'a>]) -> &'t [Token<'a>] {
    let len = tokens.iter().take_while(|it| !is_end(it)).count();
    tokens.get(..len).unwrap_or(tokens)
}

/// Returns the text of a token of a list; empty if the token is missing or is a text constant.
pub fn word_at<'a>(tokens: &[Token<'a>], index: usize) -> &'a str {
    match tokens.get(index) {
        Some(token) if token.kind == TokenKind::Text => "",
        Some(token) => token.text,
        None => "",
    }
}
