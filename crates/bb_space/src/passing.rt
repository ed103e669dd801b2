//! Selects the units that pass some tests. If the units are close together, all members from the first to the last are
//! tested in order, which is faster than a look-up for each. `members.rt` calls it.

ghost use Rattle.std.specs.Prelude.{◌≡◌, ◌+◌, ◌-◌, ◌⊎◌, ℕ, Bool, List, Some, IfOk, filter, slice_get};
ghost use Rattle.bb_space.specs.index.Leaf.{fit_each};
ghost use Rattle.bb_space.specs.Passing.{passes};
ghost use Rattle.bb_space.specs.proving.Entries.{members_of_entries};
ghost use Rattle.bb_space.specs.proving.Known.{AreKnown};

use crate::index::{CLOSE_NUMBERS, Leaf};
use bb_basis::{Items, Memory};
use bb_pattern::DimValue;
use bb_schema::UnitId;
use std::alloc::Global;
use std::collections::BTreeMap;

// Whether values pass all of some tests.
fn fit_each(tests: &[Leaf], values: &[DimValue]) -> bool
    ensures { result ≡ fit_each tests.now values.now }
{
    for leaf in tests {
        if !leaf.fits(values) {
            return false;
        }
    }
    true
}

// Whether a unit is a member and its values pass all of some tests.
fn passes(values: &BTreeMap<UnitId, Items<DimValue>>, tests: &[Leaf], unit: UnitId) -> bool
    ensures { result ≡ passes (members_of_entries values.now.entries) tests.now unit }
{
    match values.get(&unit) {
        None => false,
        Some(found) => fit_each(tests, found.as_slice()),
    }
}

// Records whether a unit passes, if the table, which begins with `first`, has an entry for the unit.
fn note(table: &mut Vec<Option<bool>>, first: UnitId, unit: UnitId, passes: bool)
    ensures { (k : ℕ) (b : Bool) → slice_get table.new.items k ≡ Some (Some b)
        → (slice_get table.old.items k ≡ Some (Some b)) ⊎ ((first + k ≡ unit) × (passes ≡ b)) }
{
    let Some(at) = unit.checked_sub(first) else {
        return;
    };
    let at = at as usize;
    if at < table.len() {
        table[at] = Some(passes);
    }
}

// Records for the members from `first` up to `end`, excluded, whether they pass.
fn look(
    values: &BTreeMap<UnitId, Items<DimValue>>,
    tests: &[Leaf],
    first: UnitId,
    end: UnitId,
    table: &mut Vec<Option<bool>>,
)
    requires { AreKnown (members_of_entries values.now.entries) tests.now first table.old.items }
    ensures { AreKnown (members_of_entries values.now.entries) tests.now first table.new.items }
{
    if end < first {
        return;
    }
    for (unit, found) in values.range(first..end) {
        note(table, first, *unit, fit_each(tests, found.as_slice()));
    }
}

// The recorded result for a unit, if there is one.
fn noted(table: &[Option<bool>], first: UnitId, unit: UnitId) -> Option<bool>
    ensures { (b : Bool) → result ≡ Some b
        → (first + (unit - first) ≡ unit) × (slice_get table.now (unit - first) ≡ Some (Some b)) }
{
    let at = unit.checked_sub(first)?;
    *table.get(at as usize)?
}

// Whether a unit passes: the recorded result, or else a look-up.
fn passes_by(
    values: &BTreeMap<UnitId, Items<DimValue>>,
    tests: &[Leaf],
    table: &[Option<bool>],
    first: UnitId,
    unit: UnitId,
) -> bool
    requires { AreKnown (members_of_entries values.now.entries) tests.now first table.now }
    ensures { result ≡ passes (members_of_entries values.now.entries) tests.now unit }
{
    match noted(table, first, unit) {
        Some(known) => known,
        None => passes(values, tests, unit),
    }
}

/// Returns the count of numbers from the first to the last of some ascending units, or 0 if that is more than `most`
/// for each of the units.
pub(crate) fn room(among: &[UnitId], most: u64) -> usize {
    let (Some(first), Some(last)) = (among.first(), among.last()) else {
        return 0;
    };
    let between = last.saturating_sub(*first);
    if between / most.max(1) < among.len() as u64 {
        (between as usize).saturating_add(1)
    } else {
        0
    }
}

// Records for the `room` numbers from `first` on whether the members among them pass.
fn noted_all(
    alloc: Global,
    values: &BTreeMap<UnitId, Items<DimValue>>,
    tests: &[Leaf],
    first: UnitId,
    room: usize,
) -> Result<Vec<Option<bool>>, Memory>
    ensures { IfOk result (λ table.
        AreKnown (members_of_entries values.now.entries) tests.now first table.items) }
{
    let mut table = Vec::new(alloc);
    table.resize(room, None)?;
    let end = first.saturating_add(room as u64);
    look(values, tests, first, end, &mut table);
    Ok(table)
}

/// Returns the units of a list that are members and whose values pass all of some tests, in the order of the list.
pub(crate) fn passing(
    alloc: Global,
    values: &BTreeMap<UnitId, Items<DimValue>>,
    tests: &[Leaf],
    among: &[UnitId],
) -> Result<Vec<UnitId>, Memory>
    ensures { IfOk result (λ list.
        list.items ≡ filter (passes (members_of_entries values.now.entries) tests.now) among.now) }
{
    let first = among.first().copied().unwrap_or(0);
    let table = noted_all(alloc, values, tests, first, room(among, CLOSE_NUMBERS))?;
    let mut found = Vec::new(alloc);
    for unit in among {
        if passes_by(values, tests, &table, first, *unit) {
            found.push(*unit)?;
        }
    }
    Ok(found)
}
