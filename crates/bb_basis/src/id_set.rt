//! An ordered set of 16-bit numbers. A schema keeps the classes of a space in one.

ghost use Rattle.std.specs.Prelude.{◌≡◌, ◌==◌, [], ◌∷◌, ◌++◌, length, OnOk, OnErr, false};
ghost use Rattle.std.specs.List.{list_any};

use indexmap::IndexSet;
use std::alloc::{AllocError, Global};
use std::marker::Model;

/// Distinct numbers in insertion order, each found without a scan. Contracts see a list of numbers.
pub struct IdSet {
    set: IndexSet<u16>,
}

// By hand, so that proofs see a drop as one call, not one per part.
impl Drop for IdSet {
    fn drop(self) {
        let IdSet { set: _ } = self;
    }
}

impl Model for IdSet {
    ghost use Rattle.std.specs.Prelude.{List, ℕ};

    ghost Value = { List ℕ };

    ghost view = { λ s. s.set.keys };
}

impl PartialEq for IdSet {
    ghost use Rattle.std.specs.Prelude.{nat_eq};
    ghost use Rattle.std.specs.Cmp.{partial_equiv_from_equiv};
    ghost use Rattle.std.specs.Cmp.Lexicographic.{pointwise, nat_list_eq_equiv};

    ghost eq = { pointwise nat_eq };

    ghost laws = { partial_equiv_from_equiv nat_list_eq_equiv };

    fn eq(&self, other: &Self) -> bool {
        self.as_slice() == other.as_slice()
    }
}

impl IdSet {
    /// Returns an empty set. Allocates nothing.
    pub fn new(alloc: Global) -> IdSet
        ensures { result ≡ [] }
    {
        IdSet {
            set: IndexSet::new(alloc),
        }
    }

    /// Returns the numbers, in insertion order.
    pub fn as_slice(&self) -> &[u16]
        ensures { result.now ≡ self.now }
    {
        self.set.as_slice()
    }

    /// Returns the count of numbers.
    pub fn len(&self) -> usize
        ensures { result ≡ length self.now }
    {
        self.set.len()
    }

    /// Returns whether a number is in the set.
    pub fn contains(&self, id: u16) -> bool
        ensures { result ≡ list_any (λ d. d == id) self.now }
    {
        self.set.contains(&id)
    }

    /// Appends a number that is not yet in the set. On an error, nothing changes.
    pub fn push(&mut self, id: u16) -> Result<(), AllocError>
        requires { list_any (λ d. d == id) self.old ≡ false }
        ensures ok { OnOk result (self.new ≡ self.old ++ id ∷ []) }
        ensures err { OnErr result (self.new ≡ self.old) }
    {
        self.set.insert(id)?;
        Ok(())
    }
}
