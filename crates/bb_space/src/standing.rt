//! The spaces that each unit is in. `spaces.rt` keeps them consistent with the members, so that no call searches all
//! spaces for one unit.

ghost use Rattle.std.specs.Prelude.{◌≡◌, ℕ, [], nat_lt, position, OnOk, OnErr, IsSome};
ghost use Rattle.std.specs.Ordering.{nat_cmp};
ghost use Rattle.std.specs.BTreeMap.{get};
ghost use Rattle.bb_space.specs.proving.Standing.{listed, rank, one_more, one_less, none_left};

use bb_basis::Memory;
use bb_schema::{SpaceId, UnitId};
use std::alloc::{AllocError, Global};
use std::collections::BTreeMap;

/// By unit, the spaces that it is in, ascending.
#[derive(Drop)]
pub(crate) struct Standing {
    alloc: Global,
    lists: BTreeMap<UnitId, Vec<SpaceId>>,
}

// The index of the first larger number.
fn first_above(list: &[SpaceId], space: SpaceId) -> Option<usize>
    ensures { result ≡ position (λ other. nat_lt space other) list.now }
{
    list.iter().position(|other| space < *other)
}

// The index at which a space belongs in an ascending list.
fn rank(list: &[SpaceId], space: SpaceId) -> usize
    ensures { result ≡ rank space list.now }
{
    first_above(list, space).unwrap_or(list.len())
}

// Adds a space to a unit's list, which is not empty.
fn put_at(
    lists: &mut BTreeMap<UnitId, Vec<SpaceId>>,
    unit: UnitId,
    space: SpaceId,
) -> Result<(), Memory>
    requires { IsSome (get nat_cmp lists.old unit) }
    ensures ok { OnOk result ((n : ℕ) → listed lists.new n ≡ one_more lists.old unit space n) }
    ensures err { OnErr result ((n : ℕ) → listed lists.new n ≡ listed lists.old n) }
{
    match lists.get_mut(&unit) {
        None => unreachable!(),
        Some(list) => {
            let at = rank(list, space);
            list.insert(at, space)?;
            Ok(())
        }
    }
}

// Removes a space from a unit's list.
fn remove_at(lists: &mut BTreeMap<UnitId, Vec<SpaceId>>, unit: UnitId, space: SpaceId)
    ensures { (n : ℕ) → listed lists.new n ≡ one_less lists.old unit space n }
{
    match lists.get_mut(&unit) {
        None => (),
        Some(list) => list.retain(|other| *other != space),
    }
}

impl Standing {
    /// Creates the lists, with no unit in a space and without allocating.
    pub(crate) fn new(alloc: Global) -> Standing
        ensures { (n : ℕ) → listed result.lists n ≡ [] }
    {
        Standing {
            alloc,
            lists: BTreeMap::new(alloc),
        }
    }

    /// Returns the spaces of a unit, ascending.
    pub(crate) fn of(&self, unit: UnitId) -> &[SpaceId]
        ensures { result.now ≡ listed self.now.lists unit }
    {
        match self.lists.get(&unit) {
            None => &[],
            Some(list) => list,
        }
    }

    /// Adds a space to a unit's list. An error changes nothing.
    pub(crate) fn put(&mut self, unit: UnitId, space: SpaceId) -> Result<(), Memory>
        ensures ok { OnOk result ((n : ℕ) → listed self.new.lists n ≡ one_more self.old.lists unit space n) }
        ensures err { OnErr result ((n : ℕ) → listed self.new.lists n ≡ listed self.old.lists n) }
    {
        if self.lists.contains_key(&unit) {
            return put_at(&mut self.lists, unit, space);
        }
        let mut list = Vec::new(self.alloc);
        list.push(space)?;
        self.lists.insert(unit, list)?;
        Ok(())
    }

    /// Removes a space from a unit's list.
    pub(crate) fn remove(&mut self, unit: UnitId, space: SpaceId)
        ensures { (n : ℕ) → listed self.new.lists n ≡ one_less self.old.lists unit space n }
    {
        remove_at(&mut self.lists, unit, space);
    }

    /// Removes and returns all spaces of a unit.
    pub(crate) fn take(&mut self, unit: UnitId) -> Vec<SpaceId>
        ensures list { result.items ≡ listed self.old.lists unit }
        ensures others { (n : ℕ) → listed self.new.lists n ≡ none_left self.old.lists unit n }
    {
        match self.lists.remove(&unit) {
            None => Vec::new(self.alloc),
            Some(list) => list,
        }
    }
}
