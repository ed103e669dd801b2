//! The values that spaces are given when a slot of a unit is set. The board's state (bb_board) sets it.

ghost use Rattle.std.specs.Prelude.{◌≡◌, ◌<◌, ◌^◌, IfOk, length, slice_set};
ghost use Rattle.bb_query.specs.Moves.{reading, values_anew, moves_for};

use bb_basis::{Items, Memory};
use bb_pattern::DimValue;
use bb_schema::{Schema, SpaceId, UnitId};
use bb_schema_classes::{SlotId, Value};
use bb_space::Spaces;
use std::alloc::Global;

/// A slot of a unit, and its new value.
#[derive(Clone, Copy)]
pub struct Setting<'a> {
    pub slot: SlotId,
    pub value: &'a Value,
}

// The index of the dimension of a space that reads a slot.
fn reading(schema: &Schema, slot: SlotId, space: SpaceId) -> Option<usize>
    ensures { result ≡ reading schema.now slot space }
{
    let place = (*schema.readings(slot).get(space as usize)?)?;
    Some(place as usize)
}

// Values with another value at an index.
fn with_value(
    alloc: Global,
    told: &[DimValue],
    place: usize,
    value: DimValue,
) -> Result<Items<DimValue>, Memory>
    ensures { IfOk result (λ values. values ≡ slice_set told.now place value) }
{
    let mut values = told.to_vec(alloc)?;
    if place < values.len() {
        values[place] = value;
    }
    Ok(Items::from(values))
}

// The values of a unit in a space after a slot is set to a value. `None` if the unit is not a member or the space does
// not read the slot.
fn values_anew(
    alloc: Global,
    schema: &Schema,
    spaces: &Spaces,
    unit: UnitId,
    set: &Setting,
    space: SpaceId,
) -> Result<Option<Items<DimValue>>, Memory>
    requires { space < length spaces.now.spaces }
    ensures { IfOk result (λ values.
        values ≡ values_anew schema.now spaces.now unit set.now.slot set.now.value.now space) }
{
    // This comes first, since it looks up no unit.
    let Some(place) = reading(schema, set.slot, space) else {
        return Ok(None);
    };
    let Some(told) = spaces.values(space, unit) else {
        return Ok(None);
    };
    let Some(new) = DimValue::of(set.value) else {
        return Ok(None);
    };
    Ok(Some(with_value(alloc, told, place, new)?))
}

/// Returns the new values of a unit in each of its spaces that read a slot, after the slot is set to a value, in the
/// order of the spaces.
pub fn moves_of(
    alloc: Global,
    schema: &Schema,
    spaces: &Spaces,
    unit: UnitId,
    set: &Setting,
) -> Result<Vec<(SpaceId, Items<DimValue>)>, Memory>
    requires spaces { length spaces.now.spaces ≡ length schema.now.spaces }
    requires few { length schema.now.spaces < 2 ^ 16 }
    ensures { IfOk result (λ moves. moves.items ≡ moves_for schema.now spaces.now unit set.now.slot set.now.value.now) }
{
    let mut moves = Vec::new(alloc);
    if schema.readings(set.slot).is_empty() {
        return Ok(moves);
    }
    let own = spaces.spaces_of(unit);
    for space in own {
        let values = values_anew(alloc, schema, spaces, unit, set, *space)?;
        let Some(values) = values else {
            continue;
        };
        moves.push((*space, values))?;
    }
    Ok(moves)
}
