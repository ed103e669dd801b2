//! The state of parsing: the current token, the text after it, and the names declared so far. Every reader of the
//! grammar works on it: it checks the current token, and consumes it by advancing to the next.

ghost use Rattle.std.specs.Prelude.{◌≡◌, ◌+◌, ◌<◌, ◌^◌, [], ◌∷◌, ◌++◌, length, take, false, OnOk};
ghost use Rattle.std.specs.List.{list_any};
ghost use Rattle.std.specs.Str.{bytes_eq};
ghost use Rattle.bb_basis.specs.Results.{Gives};
ghost use Rattle.bb_lang_tree.specs.declared.fault.LangFault.TheVariants.{Memory as OutOfMemory};
ghost use Rattle.bb_lang_tree.specs.State.{before, next, at, skip, left};

use crate::fault::LangFault;
use crate::place::Place;
use crate::scan::{TokenKind, blank_len, token_at};
use crate::scope::Scope;
use bb_basis::{Memory, Names};
use std::alloc::Global;
use std::marker::Model;

/// The current token, the text after it, the declared names, and how many more brackets may be opened. Tokens are
/// scanned one at a time.
#[derive(Drop)]
pub struct Parser<'a> {
    alloc: Global,
    kind: TokenKind,
    token: &'a [u8],
    place: Place,
    rest: &'a [u8],
    scope: Scope,
    sources: Names,
    nesting: usize,
}

impl<'a> Model for Parser<'a> {
    ghost use Rattle.std.specs.Prelude.{◌+◌, ◌<◌, ◌^◌, length};
    ghost use Rattle.bb_lang_tree.specs.State.{Parsing};
    ghost use Rattle.bb_lang_tree.specs.proving.Placed.{IsPlaced};

    ghost Value = { Parsing };

    ghost view = { λ p. record {
      state = record {
        kind = p.kind;
        token = p.token.now;
        place = p.place;
        rest = p.rest.now;
        scope = p.scope;
        sources = p.sources;
      };
      nesting = p.nesting;
    } };

    ghost invariant = { λ p. IsPlaced p.place (length p.token.now + length p.rest.now) };
}

impl<'a> Parser<'a> {
    /// Creates a parser before the first token of a text. No bracket may be opened until `set_nesting` allows it.
    pub fn new(alloc: Global, text: &'a [u8]) -> Parser<'a>
        ensures { result ≡ record { state = before text.now; nesting = 0 } }
    {
        Parser {
            alloc,
            kind: TokenKind::End,
            token: b"",
            place: Place::start(),
            rest: text,
            scope: Scope::new(alloc),
            sources: Names::new(alloc),
            nesting: 0,
        }
    }

    /// Returns the allocator of everything that is read.
    pub fn alloc(&self) -> Global {
        self.alloc
    }

    /// Advances to the next token. `Character`: no token begins there.
    #[tactic(auto, unfolding(crate::specs::State::next, crate::specs::State::at_token))]
    pub fn advance(&mut self) -> Result<(), LangFault>
        ensures read { Gives OutOfMemory (λ _. self.new.state) result (next self.old.state) }
        ensures nesting { OnOk result (self.new.nesting ≡ self.old.nesting) }
    {
        let rest = self.rest;
        let behind = self.place.after(self.token);
        let (blanks, bytes) = rest.split_at(blank_len(rest));
        let place = behind.after(blanks);
        let (kind, len) = token_at(bytes).ok_or(LangFault::Character { place })?;
        let (token, rest) = bytes.split_at(len);
        self.kind = kind;
        self.token = token;
        self.place = place;
        self.rest = rest;
        Ok(())
    }

    /// Returns the location of the token.
    pub fn place(&self) -> Place
        ensures { result ≡ self.now.state.place }
    {
        self.place
    }

    /// Returns whether the token is this symbol or word.
    pub fn at(&self, word: &str) -> bool
        ensures { result ≡ at word.now self.now.state }
    {
        self.token == word.as_bytes()
    }

    /// Consumes this symbol or word. `Token`: the token is another one.
    #[tactic(auto, unfolding(crate::specs::State::skip))]
    pub fn skip(&mut self, word: &str) -> Result<(), LangFault>
        ensures read { Gives OutOfMemory (λ _. self.new.state) result (skip word.now self.old.state) }
        ensures nesting { OnOk result (self.new.nesting ≡ self.old.nesting) }
    {
        if !self.at(word) {
            return Err(LangFault::Token {
                place: self.place(),
            });
        }
        self.advance()
    }

    /// Returns the number of bytes left, including the token's bytes.
    pub fn left(&self) -> usize
        ensures { result ≡ left self.now.state }
    {
        self.token.len() + self.rest.len()
    }

    /// Returns the kind of the token.
    pub fn kind(&self) -> TokenKind
        ensures { result ≡ self.now.state.kind }
    {
        self.kind
    }

    /// Returns the bytes of the token.
    pub(crate) fn token(&self) -> &[u8]
        ensures { result.now ≡ self.now.state.token }
    {
        self.token
    }

    /// Returns whether a name is in scope.
    pub(crate) fn in_scope(&self, name: &str) -> bool
        ensures { result ≡ list_any (bytes_eq name.now) self.now.state.scope }
    {
        self.scope.contains(name)
    }

    /// Adds a name to the scope.
    pub(crate) fn declare(&mut self, name: &str) -> Result<(), Memory>
        requires { list_any (bytes_eq name.now) self.old.state.scope ≡ false }
        ensures read { OnOk result
            (self.new.state ≡ record self.old.state { scope = self.old.state.scope ++ name.now ∷ [] }) }
        ensures nesting { OnOk result (self.new.nesting ≡ self.old.nesting) }
    {
        self.scope.declare(self.alloc, name)
    }

    /// Returns the number of names in scope.
    pub fn scope_len(&self) -> usize
        ensures { result ≡ length self.now.state.scope }
    {
        self.scope.len()
    }

    /// Keeps only the first `len` names in scope.
    pub fn leave_scope(&mut self, len: usize)
        ensures read { self.new.state ≡ record self.old.state { scope = take len self.old.state.scope } }
        ensures nesting { self.new.nesting ≡ self.old.nesting }
    {
        self.scope.truncate(len);
    }

    /// Returns the number of sources so far.
    pub fn source_count(&self) -> usize
        ensures { result ≡ length self.now.state.sources }
    {
        self.sources.len()
    }

    /// Returns whether a source has the name.
    pub fn has_source(&self, name: &str) -> bool
        ensures { result ≡ list_any (bytes_eq name.now) self.now.state.sources }
    {
        self.sources.contains(name)
    }

    /// Adds the name of a source.
    pub fn add_source(&mut self, name: &str) -> Result<(), Memory>
        requires { list_any (bytes_eq name.now) self.old.state.sources ≡ false }
        ensures read { OnOk result
            (self.new.state ≡ record self.old.state { sources = self.old.state.sources ++ name.now ∷ [] }) }
        ensures nesting { OnOk result (self.new.nesting ≡ self.old.nesting) }
    {
        self.sources.insert(self.alloc, name)?;
        Ok(())
    }
    /// Returns how many more brackets may be opened.
    pub fn nesting(&self) -> usize
        ensures { result ≡ self.now.nesting }
    {
        self.nesting
    }

    /// Sets how many more brackets may be opened.
    pub fn set_nesting(&mut self, nesting: usize)
        ensures read { self.new.state ≡ self.old.state }
        ensures nesting { self.new.nesting ≡ nesting }
    {
        self.nesting = nesting;
    }
}
