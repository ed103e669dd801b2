//! The sources of a text by name: the beginning and the tokens of each. Messages on names search here, and crates that
//! locate something in an accepted text (bb_lint_parts) do too.

use crate::pieces::Piece;
use crate::token::{Token, TokenKind, Tokens};
use bb_basis::Memory;
use std::alloc::Global;

/// A source of a text, with its name.
#[derive(Clone, Copy, Debug)]
pub struct ListedSource<'a> {
    pub name: Token<'a>,
    /// The tokens after the name.
    pub behind: SourceTokens<'a>,
}

/// The tokens of a source that are still to come.
#[derive(Clone, Copy, Debug)]
pub struct SourceTokens<'a> {
    tokens: Tokens<'a>,
    is_slot: bool,
}

impl<'a> SourceTokens<'a> {
    // The tokens after the name of a source.
    fn behind(tokens: Tokens<'a>) -> SourceTokens<'a> {
        SourceTokens {
            tokens,
            is_slot: false,
        }
    }

    /// Takes the next token, or returns `None` after the last one of the source.
    pub fn take(&mut self) -> Option<Token<'a>> {
        let token = self.tokens.take();
        if token.kind == TokenKind::End || (token.is("source") && !self.is_slot) {
            return None;
        }
        self.is_slot = token.is(".");
        Some(token)
    }

    /// Returns an upper bound on the number of tokens left.
    pub fn left(&self) -> usize {
        self.tokens.left()
    }
}

// Continues after the name of the next source, and returns the token of that name.
fn next_name<'a>(tokens: &mut Tokens<'a>) -> Option<Token<'a>> {
    let mut before = [Token::none(); 2];
    for _turn in 0..tokens.left() {
        let token = tokens.take();
        if token.kind == TokenKind::End {
            return None;
        }
        if before[0].is("source") && !before[1].is(".") {
            return Some(token);
        }
        before = [token, before[0]];
    }
    None
}

// Returns the first source with a name, from the beginning of a piece on.
fn find<'a>(piece: Piece<'a>, name: &str) -> Option<ListedSource<'a>> {
    let mut tokens = Tokens::of(piece);
    for _turn in 0..tokens.left() {
        let token = next_name(&mut tokens)?;
        if token.is(name) {
            let behind = SourceTokens::behind(tokens);
            return Some(ListedSource {
                name: token,
                behind,
            });
        }
    }
    None
}

/// Lists the sources of a text, in order.
pub fn list_sources(alloc: Global, text: &str) -> Result<Vec<ListedSource<'_>>, Memory> {
    let mut list = Vec::new(alloc);
    let mut tokens = Tokens::of(Piece::whole(text));
    for _turn in 0..text.len() {
        let Some(name) = next_name(&mut tokens) else {
            return Ok(list);
        };
        let behind = SourceTokens::behind(tokens);
        list.push(ListedSource { name, behind })?;
    }
    Ok(list)
}

/// Returns the line of the first beginning of a source with a name in a text.
pub fn source_line(text: &str, name: &str) -> Option<u64> {
    let source = find(Piece::whole(text), name)?;
    Some(source.name.line)
}

/// Lists the tokens of a source after its name: of the first one with the name from the beginning of a piece on; empty
/// if the source is missing.
pub fn source_tokens<'a>(
    alloc: Global,
    piece: Piece<'a>,
    name: &str,
) -> Result<Vec<Token<'a>>, Memory> {
    let mut list = Vec::new(alloc);
    let Some(source) = find(piece, name) else {
        return Ok(list);
    };
    let mut behind = source.behind;
    for _turn in 0..piece.text.len() {
        match behind.take() {
            None => return Ok(list),
            Some(token) => list.push(token)?,
        }
    }
    Ok(list)
}
