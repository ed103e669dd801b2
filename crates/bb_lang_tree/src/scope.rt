//! The names in scope. The parser declares one name at a time and removes the names of a block at its end.

ghost use Rattle.std.specs.Prelude.{◌≡◌, [], ◌∷◌, ◌++◌, ◌-◌, false, length, take, OnOk, OnErr, IfOk};
ghost use Rattle.std.specs.List.{list_any};
ghost use Rattle.std.specs.Str.{bytes_eq};

use bb_basis::Memory;
use std::alloc::Global;
use std::collections::BTreeSet;
use std::marker::Model;

/// Distinct names, in the order of declaration. Names are looked up in an ordered set, not by a hash; therefore no
/// choice of names makes it slow. Contracts see the list.
pub(crate) struct Scope {
    names: Vec<String>,
    found: BTreeSet<String>,
}

// Written by hand, so that a proof meets one call when names are dropped, not the parts of a tree.
impl Drop for Scope {
    fn drop(self) {
        let Scope { names: _, found: _ } = self;
    }
}

impl Model for Scope {
    ghost use Rattle.std.specs.Prelude.{List, ℕ, map, string_bytes};
    ghost use Rattle.bb_lang_tree.specs.proving.Scopes.{IsScope};

    ghost Value = { List (List ℕ) };

    ghost view = { λ s. map string_bytes s.names.items };

    ghost invariant = { λ s. IsScope (map string_bytes s.names.items) s.found };
}

impl Scope {
    /// Creates an empty scope. Allocates nothing.
    pub(crate) fn new(alloc: Global) -> Scope
        ensures { result ≡ [] }
    {
        Scope {
            names: Vec::new(alloc),
            found: BTreeSet::new(alloc),
        }
    }

    /// Returns the number of names.
    pub(crate) fn len(&self) -> usize
        ensures { result ≡ length self.now }
    {
        self.names.len()
    }

    /// Returns whether a name is in scope.
    pub(crate) fn contains(&self, name: &str) -> bool
        ensures { result ≡ list_any (bytes_eq name.now) self.now }
    {
        self.found.contains(name)
    }

    /// Adds a name that is not in scope. An error changes nothing.
    pub(crate) fn declare(&mut self, alloc: Global, name: &str) -> Result<(), Memory>
        requires { list_any (bytes_eq name.now) self.old ≡ false }
        ensures ok { OnOk result (self.new ≡ self.old ++ name.now ∷ []) }
        ensures err { OnErr result (self.new ≡ self.old) }
    {
        let listed = String::from_str(alloc, name)?;
        let key = String::from_str(alloc, name)?;
        self.names.reserve(1)?;
        self.found.insert(key)?;
        self.names.push_reserved(listed);
        Ok(())
    }

    /// Keeps the first `len` names.
    pub(crate) fn truncate(&mut self, len: usize)
        ensures { self.new ≡ take len self.old }
    {
        while self.len() > len {
            self.forget();
        }
    }

    // Removes the last name, if there is one.
    fn forget(&mut self)
        ensures { self.new ≡ take (length self.old - 1) self.old }
    {
        if let Some(name) = self.names.pop() {
            self.found.remove(name.as_str());
        }
    }
}
