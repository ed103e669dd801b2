//! The units with keys in the range of a test, and whether they are few. `members.rt` asks for them.

ghost use Rattle.std.specs.Prelude.{◌≡◌, ℕ, ◌||◌, IfSome, IsTrue, OnOk, nat_le, length};
ghost use Rattle.std.specs.List.Sorted.{IsStrictlySortedBy};
ghost use Rattle.std.specs.Ordering.{nat_cmp};
ghost use Rattle.bb_space.specs.index.Among.{is_among};
ghost use Rattle.bb_space.specs.index.proving.Stretches.{places_in, stands_in, is_near, asked};
ghost use Rattle.bb_space.specs.index.proving.Stretches.{HasNoTurned, IsCount};

use crate::index::leaf::Leaf;
use crate::index::place::Place;
use crate::index::stretch::Stretch;
use bb_basis::Memory;
use bb_schema::UnitId;
use std::collections::BTreeSet;

/// Appends the units whose keys are in a range.
pub(crate) fn collect(
    places: &BTreeSet<Place>,
    stretch: Stretch,
    found: &mut Vec<UnitId>,
) -> Result<(), Memory>
    ensures { OnOk result ((n : ℕ) → is_among n found.new.items
        ≡ (is_among n found.old.items || stands_in stretch places.now n)) }
{
    for place in stretch.places(places) {
        found.push(place.unit)?;
    }
    Ok(())
}

/// Appends the candidates for a test.
pub fn collect_near(
    places: &BTreeSet<Place>,
    leaf: &Leaf,
    found: &mut Vec<UnitId>,
) -> Result<(), Memory>
    ensures { OnOk result ((n : ℕ) → is_among n found.new.items
        ≡ (is_among n found.old.items || is_near leaf.now places.now n)) }
{
    collect(places, Stretch::of(leaf), found)?;
    match Stretch::turned_of(leaf) {
        None => Ok(()),
        Some(turned) => collect(places, turned, found),
    }
}

/// Returns whether at most `most` keys are in a range.
pub(crate) fn are_few(places: &BTreeSet<Place>, stretch: Stretch, most: usize) -> bool
    ensures few { result ≡ nat_le (length (places_in stretch places.now)) most }
{
    stretch.places(places).nth(most).is_none()
}

/// Returns whether at most `most` intervals or labels can pass a test. Reversed intervals are not counted.
pub fn is_few(places: &BTreeSet<Place>, leaf: &Leaf, most: usize) -> bool
    ensures few { result ≡ nat_le (length (asked leaf.now places.now)) most }
{
    are_few(places, Stretch::of(leaf), most)
}

// Whether no reversed interval is on the dimension of a test.
fn has_no_turned(places: &BTreeSet<Place>, leaf: &Leaf) -> bool
    ensures { IsTrue result → HasNoTurned leaf.now places.now }
{
    match Stretch::turned_of(leaf) {
        None => true,
        Some(turned) => are_few(places, turned, 0),
    }
}

/// Returns the number of units that pass a test, if the keys determine it: for a label, or for `More` if no reversed
/// interval is on the dimension. Visits the keys of the units that pass.
pub fn count_passing(places: &BTreeSet<Place>, leaf: &Leaf) -> Option<usize>
    ensures { IfSome result (λ n. IsCount leaf.now places.now n) }
{
    if !leaf.is_exact() || !has_no_turned(places, leaf) {
        return None;
    }
    Some(Stretch::of(leaf).places(places).count())
}

/// Sorts units in ascending order and removes duplicates.
pub fn rise(list: &mut Vec<UnitId>)
    ensures rises { IsStrictlySortedBy nat_cmp list.new.items }
    ensures same { (n : ℕ) → is_among n list.new.items ≡ is_among n list.old.items }
{
    list.sort_unstable();
    list.dedup();
}
