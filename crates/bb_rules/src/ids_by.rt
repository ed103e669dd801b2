//! Sets of numbers by slot, or by space, for `KindIndex`.

ghost use Rattle.std.specs.Prelude.{◌≡◌, ◌==◌, ℕ, [], IsSome, OnOk};
ghost use Rattle.std.specs.Option.{option_map_or};
ghost use Rattle.std.specs.Ordering.{nat_cmp};
ghost use Rattle.std.specs.BTreeMap.{get};
ghost use Rattle.bb_rules.specs.KindIndex.{ids_at, put, put_if};

use bb_basis::IdSet;
use std::alloc::{AllocError, Global};
use std::collections::BTreeMap;

/// A set of numbers for each slot, or for each space.
pub(crate) struct IdsBy {
    alloc: Global,
    sets: BTreeMap<u16, IdSet>,
}

// Written by hand, so that a proof meets one call when it is dropped, not each of its parts.
impl Drop for IdsBy {
    fn drop(self) {
        let IdsBy { alloc: _, sets: _ } = self;
    }
}

impl IdsBy {
    /// Creates an empty map. Allocates nothing.
    pub(crate) fn new(alloc: Global) -> IdsBy
        ensures { (n : ℕ) → ids_at result.sets n ≡ [] }
    {
        IdsBy {
            alloc,
            sets: BTreeMap::new(alloc),
        }
    }

    /// Returns the numbers for a slot or space, if there are any.
    pub(crate) fn at(&self, key: u16) -> Option<&IdSet>
        ensures { option_map_or (λ set. set.now) result [] ≡ ids_at self.now.sets key }
    {
        self.sets.get(&key)
    }

    /// Appends a number for a slot or space, unless the set has it.
    pub(crate) fn add(&mut self, key: u16, id: u16) -> Result<(), AllocError>
        ensures { OnOk result ((n : ℕ) →
            ids_at self.new.sets n ≡ put_if (key == n) (ids_at self.old.sets n) id) }
    {
        if self.sets.contains_key(&key) {
            return add_at(&mut self.sets, key, id);
        }
        let mut set = IdSet::new(self.alloc);
        set.push(id)?;
        self.sets.insert(key, set)?;
        Ok(())
    }
}

// Appends a number to the set of a slot or space, which must exist.
fn add_at(sets: &mut BTreeMap<u16, IdSet>, key: u16, id: u16) -> Result<(), AllocError>
    requires { IsSome (get nat_cmp sets.old key) }
    ensures { OnOk result ((n : ℕ) → ids_at sets.new n ≡ put_if (key == n) (ids_at sets.old n) id) }
{
    match sets.get_mut(&key) {
        None => unreachable!(),
        Some(set) => include(set, id),
    }
}

/// Appends a number to a set, unless the set has it.
pub(crate) fn include(set: &mut IdSet, id: u16) -> Result<(), AllocError>
    ensures { OnOk result (set.new ≡ put set.old id) }
{
    if set.contains(id) {
        return Ok(());
    }
    set.push(id)
}
