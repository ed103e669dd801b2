//! A location in a text of sources. Outlines record these, and sites write them.

use bb_diag_text::Token;

/// Where a token begins: line and column, from 1, and the number of bytes before it.
#[derive(Clone, Copy, Debug)]
pub struct Spot {
    pub line: u64,
    pub column: u64,
    pub start: usize,
}

impl Spot {
    /// Returns the start location of a token.
    pub fn of(token: Token<'_>) -> Spot {
        Spot {
            line: token.line,
            column: token.column,
            start: token.start,
        }
    }
}
