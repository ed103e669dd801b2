//! What a host sees of the blackboard of a held run. `Held` returns it.

ghost use Rattle.std.specs.Prelude.{◌≡◌, IfErr, IfOk, filter, length, option_and_then, option_map};
ghost use Rattle.bb_board_document.specs.Document.{units_text};
ghost use Rattle.bb_c_run.specs.Looking.{class_in, due_by, filled, filled_if, interval_of, is_in, is_of, kind_in, kind_of};
ghost use Rattle.bb_c_run.specs.Looking.{label_name_of, members_of, number_of, partners_in, slot_in, text_of, truth_of};
ghost use Rattle.bb_c_run.specs.Looking.{units_of, value_in};

use crate::slot_kind::SlotKind;
use bb_basis::Memory;
use bb_board_document::units_document;
use bb_run_held::Pause;
use bb_schema::{ClassId, SlotId, SpaceId, UnitId};
use bb_shell::{Plan, Value, View};
use std::alloc::Global;

/// Copies items into `room`, in order, up to its capacity, and returns the number of all items.
pub fn fill<T: Copy>(found: &[T], room: &mut [T]) -> usize
    ensures count { result ≡ length found.now }
    ensures filled { room.new ≡ filled found.now room.old }
{
    let count = found.len().min(room.len());
    room[..count].copy_from_slice(&found[..count]);
    found.len()
}

/// Returns the name of a unit's class, if there is such a unit.
pub(crate) fn class<'v>(view: &'v View<'_>, unit: UnitId) -> Option<&'v str>
    ensures { option_map (λ n. n.now) result ≡ class_in view.now unit }
{
    if !view.live(unit) {
        return None;
    }
    view.schema().class_name(view.class_of(unit))
}

// Returns the slot of a unit with this name, if there is such a unit and slot.
fn slot_of(view: &View<'_>, unit: UnitId, name: &str) -> Option<SlotId>
    ensures { result ≡ slot_in view.now unit name.now }
{
    if !view.live(unit) {
        return None;
    }
    view.schema().slot(view.class_of(unit), name)
}

// Returns the value of an ordinary slot of a unit, if there is such a unit and slot.
fn value<'v>(view: &'v View<'_>, unit: UnitId, slot: &str) -> Option<&'v Value>
    ensures { option_map (λ v. v.now) result ≡ value_in view.now unit slot.now }
{
    let slot = slot_of(view, unit, slot)?;
    if !view.has(unit, slot) {
        return None;
    }
    Some(view.get(unit, slot))
}

/// Returns the number in an ordinary slot, if it holds one.
pub(crate) fn number(view: &View<'_>, unit: UnitId, slot: &str) -> Option<i64>
    ensures { result ≡ option_and_then number_of (value_in view.now unit slot.now) }
{
    match value(view, unit, slot)? {
        Value::Int(number) => Some(*number),
        _ => None,
    }
}

/// Returns the truth value in an ordinary slot, if it holds one.
pub(crate) fn truth(view: &View<'_>, unit: UnitId, slot: &str) -> Option<bool>
    ensures { result ≡ option_and_then truth_of (value_in view.now unit slot.now) }
{
    match value(view, unit, slot)? {
        Value::Bool(is_true) => Some(*is_true),
        _ => None,
    }
}

/// Returns the first and last number of the interval in an ordinary slot, if it holds one.
pub(crate) fn interval(view: &View<'_>, unit: UnitId, slot: &str) -> Option<(i64, i64)>
    ensures { result ≡ option_and_then interval_of (value_in view.now unit slot.now) }
{
    match value(view, unit, slot)? {
        Value::Interval(low, high) => Some((*low, *high)),
        _ => None,
    }
}

/// Returns the text in an ordinary slot, if it holds one.
pub(crate) fn text<'v>(view: &'v View<'_>, unit: UnitId, slot: &str) -> Option<&'v str>
    ensures { option_map (λ t. t.now) result ≡ option_and_then text_of (value_in view.now unit slot.now) }
{
    match value(view, unit, slot)? {
        Value::Text(text) => Some(text.as_str()),
        _ => None,
    }
}

/// Returns the name of the label in an ordinary slot, if it holds one.
pub(crate) fn label_name<'v>(view: &'v View<'_>, unit: UnitId, slot: &str) -> Option<&'v str>
    ensures { option_map (λ n. n.now) result
        ≡ option_and_then (label_name_of view.now) (value_in view.now unit slot.now) }
{
    match value(view, unit, slot)? {
        Value::Label(set, label) => view.schema().label_name(*set, *label),
        _ => None,
    }
}

// Returns the kind of what an ordinary slot holds.
fn kind_of(value: &Value) -> SlotKind
    ensures { result ≡ kind_of value.now }
{
    match value {
        Value::Int(_) => SlotKind::Int,
        Value::Text(_) => SlotKind::Text,
        Value::Bool(_) => SlotKind::Bool,
        Value::Label(_, _) => SlotKind::Label,
        Value::Interval(_, _) => SlotKind::Interval,
    }
}

/// Returns the kind of a slot of a unit, if there is such a unit and slot.
pub(crate) fn kind(view: &View<'_>, unit: UnitId, slot: &str) -> Option<SlotKind>
    ensures { result ≡ kind_in view.now unit slot.now }
{
    let slot = slot_of(view, unit, slot)?;
    if !view.has(unit, slot) {
        return Some(SlotKind::Link);
    }
    Some(kind_of(view.get(unit, slot)))
}

/// Copies the partners of a unit by a slot into `room`, in order of addition, up to its capacity, and returns the
/// number of partners; `None` if the unit or the slot does not exist. `Memory`: memory ran out.
pub(crate) fn partners(
    view: &View<'_>,
    unit: UnitId,
    slot: &str,
    room: &mut [UnitId],
) -> Result<Option<usize>, Memory>
    ensures count { IfOk result (λ n. n ≡ option_map length (partners_in view.now unit slot.now)) }
    ensures filled { IfOk result (λ _. room.new ≡ filled_if (partners_in view.now unit slot.now) room.old) }
    ensures err { IfErr result (λ _. room.new ≡ room.old) }
{
    let Some(slot) = slot_of(view, unit, slot) else {
        return Ok(None);
    };
    let found = view.links(unit, slot)?;
    Ok(Some(fill(found.as_slice(), room)))
}

// Returns whether a unit has a class, or one below it.
fn is_of(view: &View<'_>, class: ClassId, unit: UnitId) -> bool
    ensures { result ≡ is_of view.now class unit }
{
    view.live(unit) && view.schema().descends(view.class_of(unit), class)
}

// Keeps the units that have a class, or one below it.
fn keep_those_of(view: &View<'_>, class: ClassId, units: &mut Vec<UnitId>)
    ensures { units.new.items ≡ filter (is_of view.now class) units.old.items }
{
    units.retain(|unit| is_of(view, class, *unit));
}

/// Copies the units of a class and of the classes below it into `room`, ascending, up to its capacity, and returns the
/// number of these units; `None` if the class does not exist. `Memory`: memory ran out.
pub(crate) fn units(
    view: &View<'_>,
    class: &str,
    room: &mut [UnitId],
) -> Result<Option<usize>, Memory>
    ensures count { IfOk result (λ n. n ≡ option_map length (units_of view.now class.now)) }
    ensures filled { IfOk result (λ _. room.new ≡ filled_if (units_of view.now class.now) room.old) }
    ensures err { IfErr result (λ _. room.new ≡ room.old) }
{
    let Some(class) = view.schema().class(class) else {
        return Ok(None);
    };
    let mut found = view.units()?;
    keep_those_of(view, class, &mut found);
    Ok(Some(fill(found.as_slice(), room)))
}

// Returns whether a unit is in a space.
fn is_in(view: &View<'_>, space: SpaceId, unit: UnitId) -> bool
    ensures { result ≡ is_in view.now space unit }
{
    view.spaces_of(unit).iter().any(|it| *it == space)
}

// Keeps the units that are in a space.
fn keep_those_in(view: &View<'_>, space: SpaceId, units: &mut Vec<UnitId>)
    ensures { units.new.items ≡ filter (is_in view.now space) units.old.items }
{
    units.retain(|unit| is_in(view, space, *unit));
}

/// Copies the units of a space into `room`, ascending, up to its capacity, and returns the number of these units;
/// `None` if the space does not exist. `Memory`: memory ran out.
pub(crate) fn members(
    view: &View<'_>,
    space: &str,
    room: &mut [UnitId],
) -> Result<Option<usize>, Memory>
    ensures count { IfOk result (λ n. n ≡ option_map length (members_of view.now space.now)) }
    ensures filled { IfOk result (λ _. room.new ≡ filled_if (members_of view.now space.now) room.old) }
    ensures err { IfErr result (λ _. room.new ≡ room.old) }
{
    let Some(space) = view.schema().space(space) else {
        return Ok(None);
    };
    let mut found = view.units()?;
    keep_those_in(view, space, &mut found);
    Ok(Some(fill(found.as_slice(), room)))
}

/// Copies a blackboard's document of initial units into `room`, up to its capacity, and returns the number of bytes of
/// the document. `Memory`: memory ran out.
pub(crate) fn document(alloc: Global, view: &View<'_>, room: &mut [u8]) -> Result<usize, Memory>
    ensures count { IfOk result (λ n. n ≡ length (units_text view.now)) }
    ensures filled { IfOk result (λ _. room.new ≡ filled (units_text view.now) room.old) }
    ensures err { IfErr result (λ _. room.new ≡ room.old) }
{
    let text = units_document(alloc, view)?;
    Ok(fill(text.as_bytes(), room))
}

/// Returns the unit that a native is due for and the native's name, if one is due.
pub(crate) fn due(plan: &Plan, pause: Pause) -> Option<(UnitId, &str)>
    ensures { option_map (λ d. (d.0, d.1.now)) result ≡ due_by plan.now pause }
{
    let Pause::Due(activation) = pause else {
        return None;
    };
    let source = plan.sources().get(activation.source as usize)?;
    Some((activation.unit, source.parts().name.as_str()))
}
