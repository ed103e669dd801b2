//! What is known at a location of a text. Messages (bb_diag_source) are written from it.

use crate::pieces::Piece;
use crate::symbol::Due;
use crate::token::{Token, Tokens};
use crate::walk::Walk;
use bb_basis::Memory;
use std::alloc::Global;

// The maximum number of brackets that the parser lets be open. Beyond it nothing is known.
const MOST_OPEN: usize = 64;

/// An open bracket, and the first word of the construct it belongs to: `do`, `if`, `source`.
#[derive(Clone, Copy, Debug)]
pub struct Bracket<'a> {
    pub token: Token<'a>,
    pub head: &'a str,
}

/// A location of a text and its context.
#[derive(Drop)]
pub struct Spot<'a> {
    /// The token at the location.
    pub at: Token<'a>,
    /// The token before it, and the two before that one, the nearest first.
    pub before: Token<'a>,
    pub first: Token<'a>,
    pub third: Token<'a>,
    /// The token after it, and the one after that.
    pub behind: Token<'a>,
    pub last: Token<'a>,
    /// What could come instead of the token; empty if the grammar does not have the tokens before it.
    pub due: Vec<Due>,
    /// The first word of the construct that continues here; empty outside.
    pub head: &'a str,
    /// The open brackets, the innermost last.
    pub open: Vec<Bracket<'a>>,
    /// The parts that the source has before the location, by their words.
    pub parts: Vec<&'a str>,
}

/// A path through the tokens of a piece, with the context of each.
#[derive(Drop)]
pub(crate) struct View<'a> {
    walk: Walk<'a>,
    // Whether the grammar allows all tokens so far.
    is_known: bool,
    // The token before, and the two before that one, the nearest first.
    pub(crate) before: Token<'a>,
    first: Token<'a>,
    third: Token<'a>,
    pub(crate) at: Token<'a>,
    pub(crate) tokens: Tokens<'a>,
}

impl<'a> View<'a> {
    /// Begins at the first token of a piece.
    pub(crate) fn of(alloc: Global, piece: Piece<'a>) -> Result<View<'a>, Memory> {
        let mut tokens = Tokens::of(piece);
        Ok(View {
            walk: Walk::begin(alloc)?,
            is_known: true,
            before: Token::none(),
            first: Token::none(),
            third: Token::none(),
            at: tokens.take(),
            tokens,
        })
    }

    /// Passes the token, which is read as `read`.
    pub(crate) fn pass(&mut self, read: Token<'a>) -> Result<(), Memory> {
        self.is_known = self.is_known && self.walk.depth() <= MOST_OPEN && self.walk.take(read)?;
        self.move_on();
        Ok(())
    }

    /// Passes the token as if it were a blank.
    pub(crate) fn move_on(&mut self) {
        self.third = self.first;
        self.first = self.before;
        self.before = self.at;
        self.at = self.tokens.take();
    }

    /// Returns whether `what` could come next, or nothing is known of that.
    pub(crate) fn may_come(&self, alloc: Global, what: &str) -> Result<bool, Memory> {
        Ok(!self.is_known || self.is_due(alloc, what)?)
    }

    /// Returns whether the grammar allows all tokens so far, and `what` could come next.
    pub(crate) fn is_due(&self, alloc: Global, what: &str) -> Result<bool, Memory> {
        Ok(self.due(alloc)?.iter().any(|due| due.is(what)))
    }

    // Lists what could come next; nothing if the grammar does not allow the tokens so far.
    fn due(&self, alloc: Global) -> Result<Vec<Due>, Memory> {
        if self.is_known {
            self.walk.due(alloc)
        } else {
            Ok(Vec::new(alloc))
        }
    }

    /// Returns the spot of the token.
    pub(crate) fn spot(&self, alloc: Global) -> Result<Spot<'a>, Memory> {
        let mut tokens = self.tokens;
        Ok(Spot {
            at: self.at,
            before: self.before,
            first: self.first,
            third: self.third,
            behind: tokens.take(),
            last: tokens.take(),
            due: self.due(alloc)?,
            head: self.walk.head(),
            open: self.walk.open(alloc)?,
            parts: self.walk.parts(alloc)?,
        })
    }
}

/// Returns the spot of a location of a text: the location of a token in a piece of it. Line and column are counted in
/// the whole text. `Memory`: memory ran out.
pub fn look<'a>(
    alloc: Global,
    piece: Piece<'a>,
    line: u64,
    column: u64,
) -> Result<Spot<'a>, Memory> {
    let mut view = View::of(alloc, piece)?;
    for _turn in 0..piece.text.len() {
        let at = view.at;
        if at.is_from(line, column) {
            break;
        }
        view.pass(at)?;
    }
    view.spot(alloc)
}
