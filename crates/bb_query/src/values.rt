//! The values of a unit on the dimensions of a space. The board gives them to the spaces, and queries read them there.

ghost use Rattle.std.specs.Prelude.{◌≡◌, ◌<◌, IfOk, IsTrue, length, map, option_and_then};
ghost use Rattle.bb_query.specs.PresentValues.{values_on, present_values};
ghost use Rattle.bb_query.specs.Whole.{Admits, kind_on};
ghost use Rattle.bb_pattern.specs.Values.{dim_value_of, kind_of_operand};
ghost use Rattle.bb_schema.specs.Schema.{dims_of};
ghost use Rattle.bb_units.specs.Units.{is_live, value_of};

use bb_basis::{Items, Memory};
use bb_pattern::DimValue;
use bb_schema::{Schema, SpaceId, UnitId};
use bb_schema_classes::{ClassId, SlotId};
use bb_units::Units;
use std::alloc::Global;

// The value of a unit in a slot, as a dimension reads it. `None` without a slot.
fn value_in(units: &Units, unit: UnitId, slot: Option<SlotId>) -> Option<DimValue>
    ensures { result ≡ option_and_then (λ s. option_and_then dim_value_of (value_of units.now unit s)) slot }
{
    let slot = slot?;
    if !units.has(unit, slot) {
        return None;
    }
    DimValue::of(units.get(unit, slot))
}

// The values of a unit of a class on the dimensions of a space, in order.
fn values_on(
    alloc: Global,
    schema: &Schema,
    units: &Units,
    unit: UnitId,
    class: ClassId,
    space: SpaceId,
) -> Result<Items<DimValue>, Memory>
    requires { space < length schema.now.spaces }
    ensures { IfOk result (λ values.
        values ≡ values_on schema.now units.now unit class (dims_of schema.now space)) }
{
    let mut values = Items::new(alloc);
    for dim in 0..schema.dims(space).len() {
        let slot = schema.slot_read(class, space, dim);
        let Some(value) = value_in(units, unit, slot) else {
            continue;
        };
        values.push(value)?;
    }
    Ok(values)
}

/// Returns the present values of a live unit on the dimensions of a space, in order. If the space admits the unit,
/// there is one for each: an interval on an ordered dimension, a label of its set on an enumerated one.
pub fn values_of(
    alloc: Global,
    schema: &Schema,
    units: &Units,
    unit: UnitId,
    space: SpaceId,
) -> Result<Items<DimValue>, Memory>
    requires live { IsTrue (is_live units.now unit) }
    requires space { space < length schema.now.spaces }
    ensures present { IfOk result (λ values. values ≡ present_values schema.now units.now unit space) }
    ensures whole { IfOk result (λ values. Admits schema.now units.now unit space
        → map kind_of_operand values ≡ map kind_on (dims_of schema.now space)) }
{
    // For the proof: the invariants of the schema and the units.
    schema.fits();
    units.fits();
    let class = units.class_of(unit);
    values_on(alloc, schema, units, unit, class, space)
}
