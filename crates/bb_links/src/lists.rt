//! A list of numbers for each unit. `couples.rt` stores, for each unit, the couples that may have a pair with the unit.

ghost use Rattle.std.specs.Prelude.{◌≡◌, ℕ, [], OnOk, OnErr, IsSome};
ghost use Rattle.std.specs.Ordering.{nat_cmp};
ghost use Rattle.std.specs.BTreeMap.{get};
ghost use Rattle.bb_links.specs.proving.Lists.{listed, one_more, none_left};

use bb_schema::UnitId;
use std::alloc::{AllocError, Global};
use std::collections::BTreeMap;

/// A list of numbers for each unit, in order of addition.
#[derive(Drop)]
pub(crate) struct Lists {
    alloc: Global,
    lists: BTreeMap<UnitId, Vec<u64>>,
}

impl Lists {
    /// Creates an empty list for each unit, without allocating.
    pub(crate) fn new(alloc: Global) -> Lists
        ensures { (n : ℕ) → listed result.lists n ≡ [] }
    {
        Lists {
            alloc,
            lists: BTreeMap::new(alloc),
        }
    }

    /// Returns the list of a unit.
    pub(crate) fn of(&self, unit: UnitId) -> &[u64]
        ensures { result.now ≡ listed self.now.lists unit }
    {
        match self.lists.get(&unit) {
            None => &[],
            Some(list) => list,
        }
    }

    /// Appends a number to the list of a unit. An error changes nothing.
    pub(crate) fn add(&mut self, unit: UnitId, number: u64) -> Result<(), AllocError>
        ensures ok { OnOk result ((n : ℕ) → listed self.new.lists n ≡ one_more self.old.lists unit number n) }
        ensures err { OnErr result ((n : ℕ) → listed self.new.lists n ≡ listed self.old.lists n) }
    {
        if self.lists.contains_key(&unit) {
            return push_at(&mut self.lists, unit, number);
        }
        let mut list = Vec::new(self.alloc);
        list.push(number)?;
        self.lists.insert(unit, list)?;
        Ok(())
    }

    /// Removes and returns all numbers of a unit.
    pub(crate) fn take(&mut self, unit: UnitId) -> Vec<u64>
        ensures list { result.items ≡ listed self.old.lists unit }
        ensures others { (n : ℕ) → listed self.new.lists n ≡ none_left self.old.lists unit n }
    {
        match self.lists.remove(&unit) {
            None => Vec::new(self.alloc),
            Some(list) => list,
        }
    }
}

// Appends a number to the list of a unit that already has numbers.
fn push_at(
    lists: &mut BTreeMap<UnitId, Vec<u64>>,
    unit: UnitId,
    number: u64,
) -> Result<(), AllocError>
    requires { IsSome (get nat_cmp lists.old unit) }
    ensures ok { OnOk result ((n : ℕ) → listed lists.new n ≡ one_more lists.old unit number n) }
    ensures err { OnErr result ((n : ℕ) → listed lists.new n ≡ listed lists.old n) }
{
    match lists.get_mut(&unit) {
        None => unreachable!(),
        Some(list) => {
            list.push(number)?;
            Ok(())
        }
    }
}
