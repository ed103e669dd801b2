//! The index of a space: the keys of all members, in order. `members.rt` keeps it consistent with the members.

ghost use Rattle.std.specs.Prelude.{OnOk};
ghost use Rattle.bb_space.specs.index.proving.Places.{ArePut, AreIn, AreTaken};

use crate::index::place::{Place, next_of, stays};
use bb_basis::Memory;
use bb_pattern::DimValue;
use bb_schema::UnitId;
use std::collections::BTreeSet;

/// Adds the keys of a unit's values, except keys of its values in `except`. An error may leave some of them in the
/// index.
pub fn put_all(
    places: &mut BTreeSet<Place>,
    unit: UnitId,
    values: &[DimValue],
    except: &[DimValue],
) -> Result<(), Memory>
    ensures put { ArePut unit values.now places.old places.new }
    ensures all { OnOk result (AreIn unit values.now except.now places.new) }
{
    for dim in 0..values.len() {
        if stays(values, dim, except) {
            continue;
        }
        let place = Place::of(dim, values[dim], next_of(values, dim), unit);
        if place.is_of(except) {
            continue;
        }
        places.insert(place)?;
    }
    Ok(())
}

/// Removes the keys of a unit's values, except keys of its values in `except`.
pub fn take_all(
    places: &mut BTreeSet<Place>,
    unit: UnitId,
    values: &[DimValue],
    except: &[DimValue],
)
    ensures { AreTaken unit values.now except.now places.old places.new }
{
    for dim in 0..values.len() {
        if stays(values, dim, except) {
            continue;
        }
        let place = Place::of(dim, values[dim], next_of(values, dim), unit);
        if place.is_of(except) {
            continue;
        }
        places.remove(&place);
    }
}
