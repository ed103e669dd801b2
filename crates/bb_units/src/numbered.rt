//! The live units: a slab stores them, and a list gives each number its key in the slab. `units.rt` creates, changes
//! and deletes units here.

ghost use Rattle.std.specs.Prelude.{◌≡◌, ◌<◌, ◌^◌, None, IfSome, IfOk, OnOk, OnErr, IsTrue, option_map};
ghost use Rattle.std.specs.FinMap as map;
ghost use Rattle.std.specs.List.{filter_map};
ghost use Rattle.bb_units.specs.proving.Numbered.{number_if_used};
ghost use Rattle.bb_units.specs.proving.Numbered.{none_given, one_given, one_gone, one_set};
ghost use Rattle.bb_units.specs.proving.Numbered.{Rise, IsAt, place_in, key_in, with_entry, slab_set, HaveSame};

use crate::unit::Unit;
use bb_basis::Memory;
use bb_schema::UnitId;
use bb_schema_classes::{SlotId, Value};
use slab::Slab;
use std::alloc::Global;
use std::marker::Model;

// Gaps in a list of at most this length are not closed.
const FEW: usize = 32;

/// The live units by their numbers, which are given out here. A unit stays at one index in the slab, and a separate
/// list maps numbers to keys. The numbers in the list rise. A deleted unit leaves a gap in it; therefore most look-ups
/// go straight to their position. Once there are more gaps than live units in a list that is not short, all gaps are
/// closed at once.
#[derive(Drop)]
pub(crate) struct Numbered {
    // The number of the next unit, above that of each entry.
    next: UnitId,
    // Each number with the key of its unit, or `None` if the unit was deleted. The numbers rise.
    entries: Vec<(UnitId, Option<usize>)>,
    // The live units, each under its key.
    units: Slab<Unit>,
}

impl Model for Numbered {
    ghost use Rattle.bb_units.specs.proving.Numbered.{Given, units_in, AreNumbered};
    ghost use Rattle.bb_units.specs.proving.Codes.{given_code};

    ghost Value = { Given };

    ghost coded = { given_code };

    ghost view = { λ n. record { next = n.next; units = units_in n.units n.entries.items } };

    ghost invariant = { λ n. AreNumbered n.next n.entries.items n.units };
}

// Returns a place, if the entry there has this number.
fn tried(entries: &[(UnitId, Option<usize>)], place: usize, unit: UnitId) -> Option<usize>
    ensures { IfSome result (λ place. IsAt entries.now place unit) }
{
    if entries.get(place)?.0 != unit {
        return None;
    }
    Some(place)
}

// The place of a number, if no number is missing between the first one and it. A smaller number gives a place outside.
fn place_from_first(entries: &[(UnitId, Option<usize>)], unit: UnitId) -> Option<usize>
    ensures { IfSome result (λ place. IsAt entries.now place unit) }
{
    let first = entries.first()?.0;
    tried(entries, unit.wrapping_sub(first) as usize, unit)
}

// The place of a number, if no number is missing between it and the last one. A larger number gives a place outside.
fn place_from_last(entries: &[(UnitId, Option<usize>)], unit: UnitId) -> Option<usize>
    ensures { IfSome result (λ place. IsAt entries.now place unit) }
{
    let last = entries.last()?.0;
    let behind = last.wrapping_sub(unit) as usize;
    tried(entries, (entries.len() - 1).wrapping_sub(behind), unit)
}

// The place of a number: counted from the first one or from the last, or else found by binary search.
fn place_of(entries: &[(UnitId, Option<usize>)], unit: UnitId) -> Option<usize>
    requires { Rise entries.now }
    ensures { result ≡ place_in unit entries.now }
{
    if let Some(place) = place_from_first(entries, unit) {
        return Some(place);
    }
    if let Some(place) = place_from_last(entries, unit) {
        return Some(place);
    }
    entries.binary_search_by_key(&unit, |entry| entry.0).ok()
}

// The key of a number, if its unit is live.
fn key_of(entries: &[(UnitId, Option<usize>)], unit: UnitId) -> Option<usize>
    requires { Rise entries.now }
    ensures { result ≡ key_in unit entries.now }
{
    let place = place_of(entries, unit)?;
    entries[place].1
}

// Sets a slot of the unit under a key to another value, if the key and the slot exist.
fn update(units: &mut Slab<Unit>, key: usize, slot: SlotId, value: Value)
    ensures { units.new ≡ slab_set units.old key slot value }
{
    match units.get_mut(key) {
        None => drop(value),
        Some(found) => found.values.set(slot, value),
    }
}

// Removes the key of a number from its entry, which leaves a gap.
fn vacate(entries: &mut Vec<(UnitId, Option<usize>)>, unit: UnitId) -> Option<usize>
    requires { Rise entries.old.items }
    ensures key { result ≡ key_in unit entries.old.items }
    ensures gone { entries.new.items ≡ with_entry unit entries.old.items None }
{
    let place = place_of(entries, unit)?;
    entries[place].1.take()
}

// Closes the gaps, if there are more than live units and the list is not short.
fn close_gaps(entries: &mut Vec<(UnitId, Option<usize>)>, live: usize)
    ensures { HaveSame entries.old.items entries.new.items }
{
    if entries.len() <= FEW || entries.len() / 2 <= live {
        return;
    }
    entries.retain(|entry| entry.1.is_some());
}

// The numbers that have a key, in the order of their entries.
fn used_numbers(alloc: Global, entries: &[(UnitId, Option<usize>)]) -> Result<Vec<UnitId>, Memory>
    ensures { IfOk result (λ list. list.items ≡ filter_map number_if_used entries.now) }
{
    let mut list = Vec::new(alloc);
    for (unit, key) in entries {
        if key.is_some() {
            list.push(*unit)?;
        }
    }
    Ok(list)
}

impl Numbered {
    /// Creates the store, with no units. The first unit gets the number 1.
    pub(crate) fn new(alloc: Global) -> Numbered
        ensures { result ≡ none_given }
    {
        Numbered {
            next: 1,
            entries: Vec::new(alloc),
            units: Slab::new(alloc),
        }
    }

    /// Returns the number of live units.
    pub(crate) fn len(&self) -> usize
        ensures { result ≡ map.len self.now.units }
    {
        self.units.len()
    }

    /// Returns the number that the next unit gets.
    pub(crate) fn next(&self) -> UnitId
        ensures { result ≡ self.now.next }
    {
        self.next
    }

    /// Returns the numbers of the live units, ascending. The list has at most 2n entries for n live units, or is short.
    pub(crate) fn list(&self, alloc: Global) -> Result<Vec<UnitId>, Memory>
        ensures { IfOk result (λ list. list.items ≡ map.keys self.now.units) }
    {
        used_numbers(alloc, &self.entries)
    }

    /// Returns the unit with a number, if it is live.
    pub(crate) fn get(&self, unit: UnitId) -> Option<&Unit>
        ensures { option_map (λ x. x.now) result ≡ map.get self.now.units unit }
    {
        self.units.get(key_of(&self.entries, unit)?)
    }

    /// Adds a unit and returns its number, the next one. An error changes nothing.
    pub(crate) fn push(&mut self, unit: Unit) -> Result<UnitId, Memory>
        requires { self.old.next < 2 ^ 63 }
        ensures number { IfOk result (λ number. number ≡ self.old.next) }
        ensures ok { OnOk result (self.new ≡ one_given self.old unit) }
        ensures err { OnErr result (self.new ≡ self.old) }
    {
        let number = self.next;
        self.entries.reserve(1)?;
        let key = self.units.insert(unit)?;
        self.entries.push_reserved((number, Some(key)));
        self.next += 1;
        Ok(number)
    }

    /// Sets a slot of a unit to another value, if the unit is live and has the slot.
    pub(crate) fn set(&mut self, unit: UnitId, slot: SlotId, value: Value)
        ensures { self.new ≡ one_set self.old unit slot value }
    {
        match key_of(&self.entries, unit) {
            None => drop(value),
            Some(key) => update(&mut self.units, key, slot, value),
        }
    }

    /// Removes a live unit.
    pub(crate) fn remove(&mut self, unit: UnitId)
        requires { IsTrue (map.contains_key self.old.units unit) }
        ensures { self.new ≡ one_gone self.old unit }
    {
        let key = vacate(&mut self.entries, unit).unwrap();
        drop(self.units.remove(key));
        close_gaps(&mut self.entries, self.units.len());
    }
}
