//! The values given for slots in a unit's entry: all values except defaults. `document.rt` puts them into the entry.

ghost use Rattle.std.specs.Prelude.{◌≡◌, IfOk, OnOk, option_map};
ghost use Rattle.std.specs.List.{fold};
ghost use Rattle.serde_json.specs.Data.{no_members};
ghost use Rattle.serde_json.specs.View.{view, members_view};
ghost use Rattle.bb_board_document.specs.Document.{changed_value, given_data, with_given};
ghost use Rattle.bb_schema.specs.Schema.{slots_of};

use crate::value::{same_value, value_json};
use bb_basis::Memory;
use bb_native::View;
use bb_schema::{Schema, UnitId};
use bb_schema_classes::{ClassId, SlotId, Value};
use serde_json::{Map, Value as Json, put};
use std::alloc::Global;

// The value of a unit's slot, if the unit has this ordinary slot and the value isn't the default.
fn changed_value<'a>(seen: &'a View<'_>, unit: UnitId, slot: SlotId) -> Option<&'a Value>
    ensures { option_map (λ v. v.now) result ≡ changed_value seen.now unit slot }
{
    let schema = seen.schema();
    if !schema.is_ordinary(slot) || !seen.has(unit, slot) {
        return None;
    }
    let value = seen.get(unit, slot);
    if same_value(value, schema.default(slot)) {
        return None;
    }
    Some(value)
}

// Adds a unit's value for a slot under the slot's name, if it isn't the default.
fn add_given(
    alloc: Global,
    members: &mut Map<String, Json>,
    seen: &View<'_>,
    unit: UnitId,
    slot: SlotId,
) -> Result<(), Memory>
    ensures { OnOk result (members_view members.new.entries ≡
        with_given seen.now unit (members_view members.old.entries) slot) }
{
    let Some(value) = changed_value(seen, unit, slot) else {
        return Ok(());
    };
    let schema = seen.schema();
    let json = value_json(alloc, schema, value)?;
    put(members, alloc, schema.slot_name(slot).unwrap_or(""), json)
}

// The slots of a class, in class order.
fn slots_of(schema: &Schema, class: ClassId) -> &[SlotId]
    ensures { result.now ≡ slots_of schema.now class }
{
    if class as usize >= schema.class_count() {
        return &[];
    }
    schema.slots(class)
}

/// Returns the values of a unit of a class that aren't defaults, each under the name of its slot.
pub(crate) fn given(
    alloc: Global,
    seen: &View<'_>,
    unit: UnitId,
    class: ClassId,
) -> Result<Json, Memory>
    ensures { IfOk result (λ json. view json ≡ given_data seen.now unit class) }
{
    let mut members = Map::new(alloc);
    for slot in slots_of(seen.schema(), class) {
        add_given(alloc, &mut members, seen, unit, *slot)?;
    }
    Ok(Json::Object(members))
}
