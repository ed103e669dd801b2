//! Lists of kinds, as declared frames have them for their locals and their stack.

ghost use Rattle.std.specs.Prelude.{◌≡◌, [], ◌∷◌, ◌++◌, length, OnOk, OnErr};

use crate::frame::Kind;
use smallvec::SmallVec;
use std::alloc::{AllocError, Global};
use std::marker::Model;

/// A list of kinds. Contracts see it as a list.
///
/// Up to four kinds are stored inline. Most frames therefore allocate no memory for them.
pub struct Kinds {
    inner: SmallVec<Kind, 4>,
}

// Written by hand, so that a proof meets one call where it is dropped, rather than each of its parts.
impl Drop for Kinds {
    fn drop(self) {
        let Kinds { inner: _ } = self;
    }
}

impl Model for Kinds {
    ghost use Rattle.std.specs.Prelude.{List};
    ghost use Rattle.bb_code.specs.declared.frame.Kind.{Kind};

    ghost Value = { List Kind };

    ghost view = { λ k. k.inner.items };
}

impl Kinds {
    /// Creates an empty list.
    pub fn new(alloc: Global) -> Kinds
        ensures { result ≡ [] }
    {
        Kinds {
            inner: SmallVec::new(alloc),
        }
    }

    /// Returns the kinds.
    pub fn as_slice(&self) -> &[Kind]
        ensures { result.now ≡ self.now }
    {
        self.inner.as_slice()
    }

    /// Returns the number of kinds.
    pub fn len(&self) -> usize
        ensures { result ≡ length self.now }
    {
        self.inner.len()
    }

    /// Appends a kind. An error changes nothing.
    pub fn push(&mut self, kind: Kind) -> Result<(), AllocError>
        ensures ok { OnOk result (self.new ≡ self.old ++ kind ∷ []) }
        ensures err { OnErr result (self.new ≡ self.old) }
    {
        self.inner.push(kind)?;
        Ok(())
    }
}
