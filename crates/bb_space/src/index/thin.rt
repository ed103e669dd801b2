//! Drops units that can't pass tests, by a scan over the index keys that each test asks for. These are adjacent; many
//! of them are therefore visited in the time of one look-up of a unit. `members.rt` calls it.

ghost use Rattle.std.specs.Prelude.{◌≡◌, ℕ, true, IfOk, IfSome, filter};
ghost use Rattle.bb_space.specs.index.proving.Stretches.{stands_in, is_near};
ghost use Rattle.bb_space.specs.index.proving.Marks.{is_kept, is_left, LeavesNear, LeavesAllNear};

use crate::index::costs::{FEW_UNITS, STEPS_TO_A_UNIT};
use crate::index::leaf::Leaf;
use crate::index::place::Place;
use crate::index::stretch::Stretch;
use bb_basis::Memory;
use bb_schema::UnitId;
use std::alloc::Global;
use std::collections::BTreeSet;

/// Marks of consecutive units, beginning with `first`, and the number of index keys that may still be visited.
#[derive(Drop)]
pub(crate) struct Marks {
    first: UnitId,
    marks: Vec<bool>,
    left: usize,
}

// Marks a unit, if it has a mark.
fn mark(marks: &mut Vec<bool>, first: UnitId, unit: UnitId)
    ensures keeps { (n : ℕ) → is_kept first marks.old.items n ≡ true → is_kept first marks.new.items n ≡ true }
    ensures marked { is_kept first marks.new.items unit ≡ true }
{
    let Some(at) = unit.checked_sub(first) else {
        return;
    };
    let at = at as usize;
    if at < marks.len() {
        marks[at] = true;
    }
}

// Whether a unit is marked, or has no mark.
fn is_kept(first: UnitId, marks: &[bool], unit: UnitId) -> bool
    ensures { result ≡ is_kept first marks.now unit }
{
    let Some(at) = unit.checked_sub(first) else {
        return true;
    };
    match marks.get(at as usize) {
        None => true,
        Some(mark) => *mark,
    }
}

// Marks the units whose places are in a range, and returns whether all places were visited.
fn mark_all(places: &BTreeSet<Place>, stretch: Stretch, marks: &mut Marks) -> bool
    ensures keeps { (n : ℕ) → is_left marks.old n ≡ true → is_left marks.new n ≡ true }
    ensures marked { result ≡ true
        → (n : ℕ) → stands_in stretch places.now n ≡ true → is_left marks.new n ≡ true }
{
    for place in stretch.places(places) {
        if marks.left == 0 {
            return false;
        }
        marks.left -= 1;
        mark(&mut marks.marks, marks.first, place.unit);
    }
    true
}

// Marks the candidates for a test, and returns whether all places were visited.
fn mark_near(places: &BTreeSet<Place>, leaf: &Leaf, marks: &mut Marks) -> bool
    ensures { result ≡ true → (n : ℕ) → is_near leaf.now places.now n ≡ true → is_left marks.new n ≡ true }
{
    if !mark_all(places, Stretch::of(leaf), marks) {
        return false;
    }
    match Stretch::turned_of(leaf) {
        None => true,
        Some(turned) => mark_all(places, turned, marks),
    }
}

// The units of a list that are marked or have no mark, in the order of the list.
fn kept(
    alloc: Global,
    first: UnitId,
    marks: &[bool],
    among: &[UnitId],
) -> Result<Vec<UnitId>, Memory>
    ensures { IfOk result (λ list. list.items ≡ filter (is_kept first marks.now) among.now) }
{
    let mut list = Vec::new(alloc);
    for unit in among {
        if is_kept(first, marks, *unit) {
            list.push(*unit)?;
        }
    }
    Ok(list)
}

// The units of a list, leaving out some that can't pass a test, or `None` if the test asks for too many places.
fn thin_by(
    alloc: Global,
    places: &BTreeSet<Place>,
    test: &Leaf,
    room: usize,
    among: &[UnitId],
) -> Result<Option<Vec<UnitId>>, Memory>
    ensures { IfOk result (λ thin. IfSome thin (λ list.
        LeavesNear (is_near test.now places.now) among.now list.items)) }
{
    let first = among.first().copied().unwrap_or(0);
    let mut marks = Vec::new(alloc);
    marks.resize(room, false)?;
    let left = among.len().saturating_mul(STEPS_TO_A_UNIT);
    let mut marks = Marks { first, marks, left };
    if !mark_near(places, test, &mut marks) {
        return Ok(None);
    }
    Ok(Some(kept(alloc, marks.first, &marks.marks, among)?))
}

/// Returns the units of a list, leaving out some that can't pass all of some tests, by marks for `room` units from the
/// first one on.
pub fn thin_all(
    alloc: Global,
    places: &BTreeSet<Place>,
    tests: &[Leaf],
    room: usize,
    among: &[UnitId],
) -> Result<Vec<UnitId>, Memory>
    ensures { IfOk result (λ list. LeavesAllNear tests.now places.now among.now list.items) }
{
    let mut list = among.to_vec(alloc)?;
    for test in tests {
        if list.len() < FEW_UNITS {
            break;
        }
        let Some(less) = thin_by(alloc, places, test, room, &list)? else {
            continue;
        };
        list = less;
    }
    Ok(list)
}
