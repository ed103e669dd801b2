//! Names, each found by its text. Readers that add names one by one and look them up keep them here.

ghost use Rattle.std.specs.Prelude.{◌≡◌, [], ◌∷◌, ◌++◌, length, position, slice_get, option_map, IsTrue, OnErr, IfOk};
ghost use Rattle.std.specs.Prelude.{not, if◌then◌else◌};
ghost use Rattle.std.specs.List.{list_any};
ghost use Rattle.std.specs.Str.{bytes_eq};

use indexmap::IndexSet;
use std::alloc::{AllocError, Global};
use std::marker::Model;

/// Distinct names in insertion order, each found by its text without a scan.
pub struct Names {
    set: IndexSet<String>,
}

// By hand, so that proofs see a drop as one call, not one per part of the index.
impl Drop for Names {
    fn drop(self) {
        let Names { set: _ } = self;
    }
}

impl Model for Names {
    ghost use Rattle.std.specs.Prelude.{List, ℕ, map, string_bytes};

    ghost Value = { List (List ℕ) };

    ghost view = { λ n. map string_bytes n.set.keys };
}

impl Names {
    /// Returns an empty list of names. Allocates nothing.
    pub fn new(alloc: Global) -> Names
        ensures { result ≡ [] }
    {
        Names {
            set: IndexSet::new(alloc),
        }
    }

    /// Returns the number of names.
    pub fn len(&self) -> usize
        ensures { result ≡ length self.now }
    {
        self.set.len()
    }

    /// Returns the index of a name, if the list has it.
    pub fn index_of(&self, name: &str) -> Option<usize>
        ensures { result ≡ position (bytes_eq name.now) self.now }
    {
        self.set.get_index_of(name)
    }

    /// Returns whether the list has a name.
    pub fn contains(&self, name: &str) -> bool
        ensures { result ≡ list_any (bytes_eq name.now) self.now }
    {
        self.set.contains(name)
    }

    /// Appends a name unless the list has it, and returns whether it was new. A name that was present keeps its index.
    /// On an error, nothing changes.
    pub fn insert(&mut self, alloc: Global, name: &str) -> Result<bool, AllocError>
        ensures fresh { IfOk result (λ fresh. fresh ≡ not (list_any (bytes_eq name.now) self.old)) }
        ensures added { IfOk result (λ fresh. self.new ≡ if fresh then self.old ++ name.now ∷ [] else self.old) }
        ensures err { OnErr result (self.new ≡ self.old) }
    {
        if self.contains(name) {
            return Ok(false);
        }
        self.set.insert(String::from_str(alloc, name)?)?;
        Ok(true)
    }
}
