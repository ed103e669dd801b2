//! The members of one space. `spaces.rt` keeps one `Members` for each space.

ghost use Rattle.std.specs.Prelude.{◌≡◌, [], IfOk, IfSome, OnOk, OnErr, not, option_map, filter, length};
ghost use Rattle.std.specs.Option.{unwrap_or};
ghost use Rattle.std.specs.FinMap as map;
ghost use Rattle.bb_space.specs.Spaces.{entered, left, moved};
ghost use Rattle.bb_space.specs.Candidates.{candidates_of};
ghost use Rattle.bb_space.specs.Passing.{passes, passes_one, HaveAllPassing};
ghost use Rattle.bb_space.specs.proving.Entries.{members_of_entries};
ghost use Rattle.bb_space.specs.index.proving.Places.{ArePut, AreIn, AreTaken};
ghost use Rattle.bb_space.specs.proving.Indexed.{membership, IsIndexed};

use crate::index::{
    CLOSE_NUMBERS, FEW_UNITS, Leaf, MARKED_NUMBERS, Place, collect_near, count_passing, few_by_two,
    is_few, put_all, rise, take_all, thin_all,
};
use crate::passing::{passing, room};
use bb_basis::{Items, Memory};
use bb_pattern::DimValue;
use bb_schema::UnitId;
use std::alloc::{AllocError, Global};
use std::collections::{BTreeMap, BTreeSet};
use std::mem;

/// The members of a space, each with its values on the dimensions in order, and the key of each value in the index.
#[derive(Drop)]
pub(crate) struct Members {
    values: BTreeMap<UnitId, Items<DimValue>>,
    places: BTreeSet<Place>,
}

// Swaps the values of a member with others, or does nothing if the unit is not a member.
fn exchange(values: &mut BTreeMap<UnitId, Items<DimValue>>, unit: UnitId, new: &mut Items<DimValue>)
    ensures moved { members_of_entries values.new.entries
        ≡ moved unit new.old (members_of_entries values.old.entries) }
    ensures had { new.new ≡ unwrap_or (map.get (members_of_entries values.old.entries) unit) new.old }
{
    match values.get_mut(&unit) {
        None => {}
        Some(found) => mem::swap(found, new),
    }
}

// The keys, ascending.
fn keys_of(alloc: Global, values: &BTreeMap<UnitId, Items<DimValue>>) -> Result<Vec<UnitId>, Memory>
    ensures { IfOk result (λ list. list.items ≡ map.keys (members_of_entries values.now.entries)) }
{
    let mut list = Vec::new(alloc);
    for unit in values.keys() {
        list.push(*unit)?;
    }
    Ok(list)
}

// The number of keys.
fn count(values: &BTreeMap<UnitId, Items<DimValue>>) -> usize
    ensures { result ≡ map.len (members_of_entries values.now.entries) }
{
    values.len()
}

// The number of marks for some units, or 0 if the units are few or close together, or would need too many.
fn room_for_marks(among: &[UnitId]) -> usize {
    if among.len() < FEW_UNITS || room(among, CLOSE_NUMBERS) > 0 {
        return 0;
    }
    room(among, MARKED_NUMBERS)
}

impl Members {
    /// Creates the members of a space: none, without allocating.
    pub(crate) fn new(alloc: Global) -> Members
        ensures none { membership result ≡ map.empty }
        ensures indexed { IsIndexed result }
    {
        Members {
            values: BTreeMap::new(alloc),
            places: BTreeSet::new(alloc),
        }
    }

    /// Returns whether a unit is a member.
    pub(crate) fn contains(&self, unit: UnitId) -> bool
        ensures { result ≡ map.contains_key (membership self.now) unit }
    {
        self.values.contains_key(&unit)
    }

    /// Returns the values of a member.
    pub(crate) fn values(&self, unit: UnitId) -> Option<&[DimValue]>
        ensures { option_map (λ v. v.now) result ≡ map.get (membership self.now) unit }
    {
        match self.values.get(&unit) {
            None => None,
            Some(values) => Some(values.as_slice()),
        }
    }

    /// Adds the index keys of values that a unit is about to get, except keys of its present values. An error may leave
    /// some of the new keys in the index.
    pub(crate) fn prepare(&mut self, unit: UnitId, values: &[DimValue]) -> Result<(), Memory>
        ensures same { self.new.values ≡ self.old.values }
        ensures put { ArePut unit values.now self.old.places self.new.places }
        ensures all { OnOk result (AreIn unit values.now
            (unwrap_or (map.get (membership self.old) unit) []) self.new.places) }
    {
        match self.values.get(&unit) {
            None => put_all(&mut self.places, unit, values, &[]),
            Some(present) => put_all(&mut self.places, unit, values, present.as_slice()),
        }
    }

    /// Swaps the values of a member with others whose keys are in the index, or does nothing if the unit is not a
    /// member.
    pub(crate) fn exchange(&mut self, unit: UnitId, values: &mut Items<DimValue>)
        ensures same { self.new.places ≡ self.old.places }
        ensures moved { membership self.new ≡ moved unit values.old (membership self.old) }
        ensures had { values.new ≡ unwrap_or (map.get (membership self.old) unit) values.old }
    {
        exchange(&mut self.values, unit, values);
    }

    /// Removes the index keys of values, except keys of the unit's present values.
    pub(crate) fn settle(&mut self, unit: UnitId, values: &[DimValue])
        ensures same { self.new.values ≡ self.old.values }
        ensures taken { AreTaken unit values.now (unwrap_or (map.get (membership self.old) unit) [])
            self.old.places self.new.places }
    {
        match self.values.get(&unit) {
            None => take_all(&mut self.places, unit, values, &[]),
            Some(present) => take_all(&mut self.places, unit, values, present.as_slice()),
        }
    }

    /// Adds a unit with these values, and returns whether it was not a member. A member stays unchanged. An error
    /// changes nothing.
    pub(crate) fn enter(&mut self, unit: UnitId, values: Items<DimValue>) -> Result<bool, Memory>
        requires { IsIndexed self.old }
        ensures new { IfOk result (λ new. new ≡ not (map.contains_key (membership self.old) unit)) }
        ensures entered { OnOk result (membership self.new ≡ entered unit values (membership self.old)) }
        ensures err { OnErr result (membership self.new ≡ membership self.old) }
        ensures indexed { IsIndexed self.new }
    {
        if self.contains(unit) {
            return Ok(false);
        }
        if self.prepare(unit, values.as_slice()).is_err() {
            self.settle(unit, values.as_slice());
            return Err(AllocError);
        }
        match self.values.insert(unit, values) {
            Ok(_) => Ok(true),
            Err(refused) => {
                let (_, values) = refused.value;
                self.settle(unit, values.as_slice());
                Err(AllocError)
            }
        }
    }

    /// Removes a unit, and returns whether it was a member.
    pub(crate) fn leave(&mut self, unit: UnitId) -> bool
        requires { IsIndexed self.old }
        ensures was { result ≡ map.contains_key (membership self.old) unit }
        ensures left { membership self.new ≡ left unit (membership self.old) }
        ensures indexed { IsIndexed self.new }
    {
        match self.values.remove(&unit) {
            None => false,
            Some(values) => {
                self.settle(unit, values.as_slice());
                true
            }
        }
    }

    /// Gives a member other values. Does nothing if the unit is not a member. An error changes nothing.
    pub(crate) fn moved(&mut self, unit: UnitId, values: Items<DimValue>) -> Result<(), Memory>
        requires { IsIndexed self.old }
        ensures moved { OnOk result (membership self.new ≡ moved unit values (membership self.old)) }
        ensures err { OnErr result (membership self.new ≡ membership self.old) }
        ensures indexed { IsIndexed self.new }
    {
        let mut values = values;
        if self.prepare(unit, values.as_slice()).is_err() {
            self.settle(unit, values.as_slice());
            return Err(AllocError);
        }
        self.exchange(unit, &mut values);
        self.settle(unit, values.as_slice());
        Ok(())
    }

    /// Returns the number of members.
    pub(crate) fn count(&self) -> usize
        ensures { result ≡ map.len (membership self.now) }
    {
        count(&self.values)
    }

    /// Returns the members with their values.
    pub(crate) fn told(&self) -> &BTreeMap<UnitId, Items<DimValue>>
        ensures { members_of_entries result.now.entries ≡ membership self.now }
    {
        &self.values
    }

    /// Returns the members, ascending.
    pub(crate) fn list(&self, alloc: Global) -> Result<Vec<UnitId>, Memory>
        ensures { IfOk result (λ list. list.items ≡ map.keys (membership self.now)) }
    {
        keys_of(alloc, &self.values)
    }

    /// Returns the members whose value can pass a test, ascending.
    pub(crate) fn candidates(&self, alloc: Global, leaf: &Leaf) -> Result<Vec<UnitId>, Memory>
        requires { IsIndexed self.now }
        ensures { IfOk result (λ list. list.items ≡ candidates_of (membership self.now) leaf.now) }
    {
        let mut found = Vec::new(alloc);
        collect_near(&self.places, leaf, &mut found)?;
        rise(&mut found);
        Ok(found)
    }

    /// Returns the members whose value can pass a test, ascending, or `None` if more than `most` intervals or labels
    /// can.
    pub(crate) fn few(
        &self,
        alloc: Global,
        leaf: &Leaf,
        most: usize,
    ) -> Result<Option<Vec<UnitId>>, Memory>
        requires { IsIndexed self.now }
        ensures { IfOk result (λ few. IfSome few (λ list.
            list.items ≡ candidates_of (membership self.now) leaf.now)) }
    {
        if !is_few(&self.places, leaf, most) {
            return Ok(None);
        }
        Ok(Some(self.candidates(alloc, leaf)?))
    }

    /// Returns the number of members whose values pass a test, if the index determines it.
    pub(crate) fn count_passing(&self, leaf: &Leaf) -> Option<usize>
        requires { IsIndexed self.now }
        ensures { IfSome result (λ n.
            n ≡ length (filter (passes_one (membership self.now) leaf.now) (map.keys (membership self.now)))) }
    {
        count_passing(&self.places, leaf)
    }

    /// Returns members, ascending, including all whose values pass all of some tests, by two tests of neighbouring
    /// dimensions. `None` if no two such tests exist, or more than `most` values can pass both.
    pub(crate) fn few_passing(
        &self,
        alloc: Global,
        tests: &[Leaf],
        most: usize,
    ) -> Result<Option<Vec<UnitId>>, Memory>
        requires { IsIndexed self.now }
        ensures { IfOk result (λ few. IfSome few (λ list.
            HaveAllPassing (membership self.now) tests.now list.items)) }
    {
        few_by_two(alloc, &self.places, tests, most)
    }

    /// Returns the units of a list that are members and whose values pass all of some tests, in the order of the list.
    pub(crate) fn passing(
        &self,
        alloc: Global,
        tests: &[Leaf],
        among: &[UnitId],
    ) -> Result<Vec<UnitId>, Memory>
        requires { IsIndexed self.now }
        ensures { IfOk result (λ list.
            list.items ≡ filter (passes (membership self.now) tests.now) among.now) }
    {
        let room = room_for_marks(among);
        if room == 0 {
            return passing(alloc, &self.values, tests, among);
        }
        let list = thin_all(alloc, &self.places, tests, room, among)?;
        passing(alloc, &self.values, tests, &list)
    }
}
