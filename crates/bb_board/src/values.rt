//! Sets the slots of a first unit to the values that its entry gives. `loader` calls it.

ghost use Rattle.std.specs.Prelude.{◌≡◌, ◌<◌, IfOk, OnOk, length, map, option_map, is_some};
ghost use Rattle.std.specs.List.{list_all};
ghost use Rattle.bb_basis.specs.Results.{Gives, try_fold};
ghost use Rattle.bb_schema_form.specs.UnitsDocument.{given_declaration, value_declaration};
ghost use Rattle.bb_schema.specs.Schema.{slots_of};
ghost use Rattle.bb_board.specs.declared.units_fault.UnitsFault.TheVariants.{Memory as OutOfMemory};
ghost use Rattle.bb_board.specs.Load.{are_slots, given_at, given_for, if_given, is_ordinary_in, slot_after, value_at, value_in};
ghost use Rattle.bb_board.specs.Load.{with_value, with_values};

use crate::board::Board;
use crate::units_fault::{UnitsFault, UnitsFlaw};
use bb_basis::Text;
use bb_schema::{Schema, UnitId};
use bb_schema_classes::{ClassId, Kind, SlotId, Value};
use bb_schema_form::{GivenEntry, GivenValue};
use std::alloc::{AllocError, Global};

// Tests whether a name is that of an ordinary slot of a class.
fn is_ordinary_in(schema: &Schema, class: ClassId, name: &str) -> bool
    ensures { result ≡ is_ordinary_in schema.now class name.now }
{
    match schema.slot(class, name) {
        None => false,
        Some(slot) => schema.is_ordinary(slot),
    }
}

// Tests whether every value is given for an ordinary slot of a class.
fn are_slots(schema: &Schema, class: ClassId, given: &[GivenEntry]) -> bool
    ensures { result ≡ are_slots schema.now class (map given_declaration given.now) }
{
    given
        .iter()
        .all(|entry| is_ordinary_in(schema, class, entry.slot.as_str()))
}

// Returns the first value given for a name.
fn given_for<'a>(name: &str, given: &'a [GivenEntry]) -> Option<&'a GivenValue>
    ensures { option_map (λ v. value_declaration v.now) result ≡ given_for name.now (map given_declaration given.now) }
{
    let entry = given.iter().find(|entry| name == entry.slot.as_str())?;
    Some(&entry.value)
}

// Returns the value given for a slot.
fn given_at<'a>(schema: &Schema, given: &'a [GivenEntry], slot: SlotId) -> Option<&'a GivenValue>
    ensures { option_map (λ v. value_declaration v.now) result ≡
        given_at schema.now (map given_declaration given.now) slot }
{
    given_for(schema.slot_name(slot)?, given)
}

// Converts a given value to one of a slot's kind, without testing whether the slot can hold it. A label is given by its
// name.
#[tactic(auto, unfolding(crate::specs::Load::value_in))]
fn value_in(
    alloc: Global,
    schema: &Schema,
    kind: Kind,
    given: &GivenValue,
) -> Result<Option<Value>, AllocError>
    ensures { IfOk result (λ value. value ≡ value_in schema.now kind (value_declaration given.now)) }
{
    match (kind, given) {
        (Kind::Int, GivenValue::Int(number)) => Ok(Some(Value::Int(*number))),
        (Kind::Text, GivenValue::Text(text)) => {
            let text = Text::from_str(alloc, text.as_str())?;
            Ok(Some(Value::Text(text)))
        }
        (Kind::Bool, GivenValue::Bool(truth)) => Ok(Some(Value::Bool(*truth))),
        (Kind::Label(set), GivenValue::Text(name)) => match schema.label(set, name.as_str()) {
            None => Ok(None),
            Some(label) => Ok(Some(Value::Label(set, label))),
        },
        (Kind::Interval, GivenValue::Interval(low, high)) => Ok(Some(Value::Interval(*low, *high))),
        _ => Ok(None),
    }
}

// Converts a given value to one of a slot.
fn value_at(
    alloc: Global,
    schema: &Schema,
    slot: SlotId,
    given: &GivenValue,
) -> Result<Option<Value>, AllocError>
    ensures { IfOk result (λ value. value ≡ value_at schema.now slot (value_declaration given.now)) }
{
    if slot as usize >= schema.slot_count() {
        return Ok(None);
    }
    value_in(alloc, schema, schema.kind(slot), given)
}

// Sets a slot of a unit to the value given for it.
#[tactic(auto, unfolding(crate::specs::Load::with_value))]
fn set_value(
    alloc: Global,
    schema: &Schema,
    board: &mut Board,
    unit: UnitId,
    slot: SlotId,
    given: &GivenValue,
) -> Result<(), UnitsFault>
    requires { board.old.schema ≡ schema.now }
    ensures gives { Gives OutOfMemory (λ _. board.new.world) result
        (with_value schema.now unit board.old.world slot (value_declaration given.now)) }
    ensures schema { OnOk result (board.new.schema ≡ board.old.schema) }
    ensures refused { OnOk result (board.new.refused ≡ board.old.refused) }
{
    let value = value_at(alloc, schema, slot, given)?.ok_or(UnitsFault::here(UnitsFlaw::Kind))?;
    if board.may_set(unit, slot, &value).is_err() {
        return Err(UnitsFault::here(UnitsFlaw::Kind));
    }
    board.set(unit, slot, value)?;
    Ok(())
}

// Sets a slot of a unit, if a value is given for it.
#[tactic(auto, unfolding(crate::specs::Load::slot_after))]
fn set_slot(
    alloc: Global,
    schema: &Schema,
    board: &mut Board,
    unit: UnitId,
    slot: SlotId,
    given: &[GivenEntry],
) -> Result<(), UnitsFault>
    requires { board.old.schema ≡ schema.now }
    ensures gives { Gives OutOfMemory (λ _. board.new.world) result
        (slot_after schema.now unit (map given_declaration given.now) board.old.world slot) }
    ensures schema { OnOk result (board.new.schema ≡ board.old.schema) }
    ensures refused { OnOk result (board.new.refused ≡ board.old.refused) }
{
    match given_at(schema, given, slot) {
        None => Ok(()),
        Some(value) => set_value(alloc, schema, board, unit, slot, value),
    }
}

// Sets some slots of a unit, in their order.
fn set_slots(
    alloc: Global,
    schema: &Schema,
    board: &mut Board,
    unit: UnitId,
    slots: &[SlotId],
    given: &[GivenEntry],
) -> Result<(), UnitsFault>
    requires { board.old.schema ≡ schema.now }
    ensures gives { Gives OutOfMemory (λ _. board.new.world) result
        (try_fold (slot_after schema.now unit (map given_declaration given.now)) board.old.world slots.now) }
    ensures schema { OnOk result (board.new.schema ≡ board.old.schema) }
    ensures refused { OnOk result (board.new.refused ≡ board.old.refused) }
{
    for slot in slots {
        set_slot(alloc, schema, board, unit, *slot, given)?;
    }
    Ok(())
}

/// Sets the slots of a new unit to the values that its entry gives, in class order.
#[tactic(auto, unfolding(crate::specs::Load::with_values))]
pub(crate) fn set_values(
    alloc: Global,
    schema: &Schema,
    board: &mut Board,
    unit: UnitId,
    class: ClassId,
    given: &[GivenEntry],
) -> Result<(), UnitsFault>
    requires class { class < length schema.now.classes }
    requires schema { board.old.schema ≡ schema.now }
    ensures gives { Gives OutOfMemory (λ _. board.new.world) result
        (with_values schema.now unit class (map given_declaration given.now) board.old.world) }
    ensures schema { OnOk result (board.new.schema ≡ board.old.schema) }
    ensures refused { OnOk result (board.new.refused ≡ board.old.refused) }
{
    if !are_slots(schema, class, given) {
        return Err(UnitsFault::here(UnitsFlaw::Unknown));
    }
    set_slots(alloc, schema, board, unit, schema.slots(class), given)
}
