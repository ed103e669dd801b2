//! The units with keys in the ranges of two tests together: one that asks for one low end or one label, and one of the
//! next dimension. A key also contains its unit's value on that dimension; these keys are therefore adjacent.
//! `members.rt` asks for them.

ghost use Rattle.std.specs.Prelude.{◌≡◌, IfOk, IfSome};
ghost use Rattle.bb_space.specs.index.Candidates.{dim_of};
ghost use Rattle.bb_space.specs.index.proving.Pairs.{Tells, IsAsked, AreNearBoth, AreAllNear};

use crate::index::leaf::Leaf;
use crate::index::near::{are_few, collect, rise};
use crate::index::place::Place;
use crate::index::stretch::{Stretch, spot};
use bb_basis::Memory;
use bb_schema::UnitId;
use std::alloc::Global;
use std::collections::BTreeSet;

// The dimension whose values the places on `dim` also contain: the next one, or the first if no unit has a value on a
// next one.
fn next_dim(places: &BTreeSet<Place>, dim: u8) -> usize
    ensures { Tells places.now dim result }
{
    let after = dim as usize + 1;
    let values = Stretch {
        first: spot(after, 0, 0, 0),
        end: spot(after + 1, 0, 0, 0),
    };
    if are_few(places, values, 0) {
        return 0;
    }
    after
}

// The first test of a dimension among some tests.
fn test_on(tests: &[Leaf], dim: usize) -> Option<Leaf>
    ensures { IfSome result (λ test. (dim_of test ≡ dim) × IsAsked tests.now test) }
{
    for test in tests {
        if test.dim() as usize == dim {
            return Some(*test);
        }
    }
    None
}

// The candidates for two tests, ascending: those in the range of both tests, at the pin's sort and key, and those with
// a reversed interval on the next dimension or on this one.
fn near_both(
    alloc: Global,
    places: &BTreeSet<Place>,
    pin: Place,
    both: Stretch,
) -> Result<Vec<UnitId>, Memory>
    ensures { IfOk result (λ list. AreNearBoth pin both places.now list.items) }
{
    let mut found = Vec::new(alloc);
    collect(places, both, &mut found)?;
    collect(places, Stretch::turned(0).beside(pin), &mut found)?;
    collect(places, Stretch::turned(pin.dim), &mut found)?;
    rise(&mut found);
    Ok(found)
}

/// Returns units of index keys, ascending, including all whose values pass all of some tests. Uses the first two tests
/// of neighbouring dimensions such that the first of the two asks for one sort and key, and no more than `most` values
/// can pass them together. Reversed intervals are not counted. `None` if no two such tests exist.
pub fn few_by_two(
    alloc: Global,
    places: &BTreeSet<Place>,
    tests: &[Leaf],
    most: usize,
) -> Result<Option<Vec<UnitId>>, Memory>
    ensures { IfOk result (λ few. IfSome few (λ list. AreAllNear tests.now places.now list.items)) }
{
    for test in tests {
        let values = Stretch::of(test);
        if !values.has_one_key() {
            continue;
        }
        let pin = values.first;
        let Some(next) = test_on(tests, next_dim(places, test.dim())) else {
            continue;
        };
        let both = Stretch::of(&next).beside(pin);
        if are_few(places, both, most) {
            return Ok(Some(near_both(alloc, places, pin, both)?));
        }
    }
    Ok(None)
}
