//! The texts of a code that is being emitted. The buffer contains them.

ghost use Rattle.std.specs.Prelude.{◌≡◌, ◌<◌, ◌≤◌, [], ◌∷◌, ◌++◌, length, position, None, IfSome, OnOk};
ghost use Rattle.std.specs.Str.{bytes_eq};
ghost use Rattle.bb_code.specs.declared.parts.TheConstants.{TEXT_COUNT_LIMIT};

use bb_basis::{Items, Names, Text};
use bb_code::TEXT_COUNT_LIMIT;
use std::alloc::{AllocError, Global};
use std::marker::Model;

/// At most `TEXT_COUNT_LIMIT` different texts, in the order of first use, with an index, so that lookups do not scan.
/// Contracts see them as a list.
pub struct Texts {
    alloc: Global,
    texts: Vec<Text>,
    names: Names,
}

// Written by hand, so that a proof meets one call when texts are dropped, not the parts of an index.
impl Drop for Texts {
    fn drop(self) {
        let Texts {
            alloc: _,
            texts: _,
            names: _,
        } = self;
    }
}

impl Model for Texts {
    ghost use Rattle.std.specs.Prelude.{◌≡◌, ◌≤◌, List, ℕ, length};

    ghost Value = { List (List ℕ) };

    ghost view = { λ t. t.texts.items };

    ghost invariant = { λ t. (t.names ≡ t.texts.items) × (length t.texts.items ≤ 1024) };
}

impl Texts {
    /// Creates an empty list. Allocates nothing.
    pub fn new(alloc: Global) -> Texts
        ensures { result ≡ [] }
    {
        Texts {
            alloc,
            texts: Vec::new(alloc),
            names: Names::new(alloc),
        }
    }

    /// Returns the allocator of the texts.
    pub fn alloc(&self) -> Global {
        self.alloc
    }

    /// Returns the number of texts.
    pub fn len(&self) -> u16
        ensures { result ≡ length self.now }
    {
        self.texts.len() as u16
    }

    /// Returns the index of a text, if it is in the list.
    pub fn index_of(&self, text: &str) -> Option<u16>
        ensures { result ≡ position (bytes_eq text.now) self.now }
    {
        let index = self.names.index_of(text)?;
        Some(index as u16)
    }

    /// Appends a text that is not in the list yet. It must fit.
    pub fn push(&mut self, text: &str) -> Result<(), AllocError>
        requires room { length self.old < TEXT_COUNT_LIMIT }
        requires fresh { position (bytes_eq text.now) self.old ≡ None }
        ensures { OnOk result (self.new ≡ self.old ++ text.now ∷ []) }
    {
        let copy = Text::from_str(self.alloc, text)?;
        self.texts.reserve(1)?;
        self.names.insert(self.alloc, text)?;
        self.texts.push_reserved(copy);
        Ok(())
    }

    /// Returns the texts.
    pub fn into_items(self) -> Items<Text>
        ensures { result ≡ self }
    {
        let Texts {
            alloc: _,
            texts,
            names: _,
        } = self;
        Items::from(texts)
    }
}
