//! The ops on constants, locals, units and queries, which at most read the blackboard. A step calls them.

ghost use Rattle.std.specs.Prelude.{◌≡◌, ◌≤◌, IfOk, IsTrue, Ok, length, map};
ghost use Rattle.bb_units.specs.Units.{is_live};
ghost use Rattle.bb_basis.specs.Results.{Gives};
ghost use Rattle.bb_code.specs.Answers.{map_ok};
ghost use Rattle.bb_pattern.specs.Fits.{query_fits};
ghost use Rattle.bb_pattern.specs.Values.{kind_of_operand};
ghost use Rattle.bb_units.specs.declared.units.TheConstants.{UNIT_LIMIT};
ghost use Rattle.bb_machine.specs.declared.halt.Halt.TheVariants.{Memory as OutOfMemory};
ghost use Rattle.bb_machine.specs.Reading as def;

use crate::Board;
use crate::halt::Halt;
use crate::machine::Machine;
use crate::outcome::Stuck;
use crate::sequence::Sequence;
use crate::text_ref::TextRef;
use crate::value::Value;
use bb_code::{Code, LocalId, Place};
use bb_pattern::{DimValue, OperandKind, Query};
use bb_schema::{Schema, UnitId};
use bb_schema_classes::{ClassId, Kind, LabelId, LabelSetId, SlotId};
use std::alloc::Global;

/// Pushes a text of the code.
#[tactic(auto, unfolding(crate::specs::Reading::push_text))]
pub(crate) fn push_text<'a>(
    machine: &mut Machine<'a>,
    code: &'a Code,
    text: u16,
) -> Result<(), Halt>
    ensures { Gives OutOfMemory (λ _. machine.new) result (def.push_text code.now text machine.old) }
{
    let Some(text) = code.texts().get(text as usize) else {
        return Err(Halt::Stuck(Stuck::Missing));
    };
    machine.push(Value::Text(TextRef::borrowed(text)))
}

/// Pushes a label of the schema.
#[tactic(auto, unfolding(crate::specs::Reading::push_label))]
pub(crate) fn push_label(
    machine: &mut Machine<'_>,
    board: &Board,
    set: LabelSetId,
    label: LabelId,
) -> Result<(), Halt>
    ensures { Gives OutOfMemory (λ _. machine.new) result (def.push_label board.now set label machine.old) }
{
    if board.schema().label_name(set, label).is_none() {
        return Err(Halt::Stuck(Stuck::Missing));
    }
    machine.push(Value::Label(set, label))
}

/// Pushes a copy of the value of a local, which must not be a sequence.
#[tactic(auto, unfolding(crate::specs::Reading::load))]
pub(crate) fn load(machine: &mut Machine<'_>, local: LocalId) -> Result<(), Halt>
    ensures { Gives OutOfMemory (λ _. machine.new) result (def.load local machine.old) }
{
    let value = machine.local(local)?.copy()?;
    machine.push(value)
}

/// Pops a value into a local.
#[tactic(auto, unfolding(crate::specs::Reading::store_local))]
pub(crate) fn store_local(machine: &mut Machine<'_>, local: LocalId) -> Result<(), Halt>
    ensures { map_ok (λ _. machine.new) result ≡ def.store_local local machine.old }
{
    let value = machine.pop()?;
    machine.store(local, value)
}

/// Pops a value.
#[tactic(auto, unfolding(crate::specs::Reading::drop_one))]
pub(crate) fn drop_one(machine: &mut Machine<'_>) -> Result<(), Halt>
    ensures { map_ok (λ _. machine.new) result ≡ def.drop_one machine.old }
{
    let _value = machine.pop()?;
    Ok(())
}

/// Checks that a unit is live.
#[tactic(auto, unfolding(crate::specs::Reading::live))]
pub(crate) fn live(board: &Board, unit: UnitId) -> Result<(), Halt>
    ensures gives { result ≡ def.live board.now unit }
    ensures live { IfOk result (λ _. IsTrue (is_live board.now.world.units unit)) }
{
    if board.live(unit) {
        Ok(())
    } else {
        Err(Halt::Stuck(Stuck::Deleted))
    }
}

/// Pops a unit.
#[tactic(auto, unfolding(crate::specs::Reading::pop_unit))]
pub(crate) fn pop_unit(machine: &mut Machine<'_>) -> Result<UnitId, Halt>
    ensures { map_ok (λ n. (n, machine.new)) result ≡ def.pop_unit machine.old }
{
    let value = machine.pop()?;
    value.unit()
}

/// Pops a live unit.
#[tactic(auto, unfolding(crate::specs::Reading::pop_live))]
pub(crate) fn pop_live(machine: &mut Machine<'_>, board: &Board) -> Result<UnitId, Halt>
    ensures gives { map_ok (λ n. (n, machine.new)) result ≡ def.pop_live board.now machine.old }
    ensures live { IfOk result (λ n. IsTrue (is_live board.now.world.units n)) }
{
    let unit = pop_unit(machine)?;
    live(board, unit)?;
    Ok(unit)
}

/// Pops a live unit and pushes the value of one of its ordinary slots.
#[tactic(auto, unfolding(crate::specs::Reading::get))]
pub(crate) fn get(machine: &mut Machine<'_>, board: &Board, slot: SlotId) -> Result<(), Halt>
    ensures { Gives OutOfMemory (λ _. machine.new) result (def.get board.now slot machine.old) }
{
    let unit = pop_live(machine, board)?;
    if !board.has(unit, slot) {
        return Err(Halt::Stuck(Stuck::Slot));
    }
    let value = Value::of_slot(board.get(unit, slot))?;
    machine.push(value)
}

// Pushes a sequence, and records its number of units.
#[tactic(auto, unfolding(crate::specs::Reading::push_found))]
fn push_found(machine: &mut Machine<'_>, units: Vec<UnitId>) -> Result<(), Halt>
    requires { length units.items ≤ UNIT_LIMIT }
    ensures { Gives OutOfMemory (λ _. machine.new) result (def.push_found units.items machine.old) }
{
    let found = units.len() as u32;
    machine.push(Value::Seq(Sequence::new(units)))?;
    machine.note_found(found);
    Ok(())
}

// Checks that the unit's class has this link slot.
#[tactic(auto, unfolding(crate::specs::Reading::any_link))]
fn any_link(board: &Board, unit: UnitId, slot: SlotId) -> Result<(), Halt>
    ensures { result ≡ def.any_link board.now unit slot }
{
    if board.has_link(unit, slot) {
        Ok(())
    } else {
        Err(Halt::Stuck(Stuck::Slot))
    }
}

// Whether a slot is a singular link slot.
fn is_singular(schema: &Schema, slot: SlotId) -> bool
    ensures { result ≡ def.is_singular schema.now slot }
{
    if !schema.is_link(slot) {
        return false;
    }
    match schema.kind(slot) {
        Kind::Link(link) => !link.many,
        _ => false,
    }
}

// Checks that the unit's class has this singular link slot.
#[tactic(auto, unfolding(crate::specs::Reading::one_link))]
fn one_link(board: &Board, unit: UnitId, slot: SlotId) -> Result<(), Halt>
    ensures { result ≡ def.one_link board.now unit slot }
{
    any_link(board, unit, slot)?;
    if is_singular(board.schema(), slot) {
        Ok(())
    } else {
        Err(Halt::Stuck(Stuck::Slot))
    }
}

/// Pops a live unit and pushes its partner by a singular link slot, or jumps to the target if it has none.
#[tactic(auto, unfolding(crate::specs::Reading::one))]
pub(crate) fn one(
    machine: &mut Machine<'_>,
    board: &Board,
    slot: SlotId,
    place: Place,
) -> Result<(), Halt>
    ensures { Gives OutOfMemory (λ _. machine.new) result (def.one board.now slot place machine.old) }
{
    let unit = pop_live(machine, board)?;
    one_link(board, unit, slot)?;
    match board.one(unit, slot) {
        Some(partner) => machine.push(Value::Unit(partner)),
        None => {
            machine.go_to(place as usize);
            Ok(())
        }
    }
}

/// Pops a live unit and pushes the sequence of its partners by a link slot.
#[tactic(auto, unfolding(crate::specs::Reading::links))]
pub(crate) fn links(machine: &mut Machine<'_>, board: &Board, slot: SlotId) -> Result<(), Halt>
    ensures { Gives OutOfMemory (λ _. machine.new) result (def.links board.now slot machine.old) }
{
    let unit = pop_live(machine, board)?;
    any_link(board, unit, slot)?;
    let partners = board.links(unit, slot)?;
    push_found(machine, partners)
}

/// Pops a unit. Pushes it again if it is live, else jumps to the target.
#[tactic(auto, unfolding(crate::specs::Reading::alive))]
pub(crate) fn alive(machine: &mut Machine<'_>, board: &Board, place: Place) -> Result<(), Halt>
    ensures { Gives OutOfMemory (λ _. machine.new) result (def.alive board.now place machine.old) }
{
    let unit = pop_unit(machine)?;
    if board.live(unit) {
        machine.push(Value::Unit(unit))
    } else {
        machine.go_to(place as usize);
        Ok(())
    }
}

/// Pops a live unit. Pushes it again if its class descends from `class`, else jumps to the target.
#[tactic(auto, unfolding(crate::specs::Reading::as_class))]
pub(crate) fn as_class(
    machine: &mut Machine<'_>,
    board: &Board,
    class: ClassId,
    place: Place,
) -> Result<(), Halt>
    ensures { Gives OutOfMemory (λ _. machine.new) result (def.as_class board.now class place machine.old) }
{
    let value = machine.pop()?;
    if board.schema().class_count() <= class as usize {
        return Err(Halt::Stuck(Stuck::Missing));
    }
    let unit = value.unit()?;
    live(board, unit)?;
    if board.schema().descends(board.class_of(unit), class) {
        machine.push(Value::Unit(unit))
    } else {
        machine.go_to(place as usize);
        Ok(())
    }
}

// Converts a value to an operand of this kind.
fn operand_due(kind: OperandKind, value: &Value<'_>) -> Result<DimValue, Halt>
    ensures { result ≡ def.operand_due kind value.now }
{
    match (kind, value) {
        (OperandKind::Interval, Value::Interval(low, high)) => Ok(DimValue::Interval(*low, *high)),
        (OperandKind::Label(set), Value::Label(of, label)) if *of == set => Ok(DimValue::Label(
            set, *label,
        )),
        _ => Err(Halt::Stuck(Stuck::Kind)),
    }
}

// Converts values to the operands of a query, one for each kind.
#[tactic(auto, unfolding(crate::specs::Reading::operands_due))]
fn operands_due(
    alloc: Global,
    kinds: &[OperandKind],
    values: &[Value<'_>],
) -> Result<Vec<DimValue>, Halt>
    requires { length kinds.now ≡ length values.now }
    ensures gives { Gives OutOfMemory (λ v. v.items) result (def.operands_due kinds.now values.now) }
    ensures kinds { IfOk result (λ v. map kind_of_operand v.items ≡ kinds.now) }
{
    let mut operands = Vec::new(alloc);
    for i in 0..kinds.len() {
        operands.push(operand_due(kinds[i], &values[i])?)?;
    }
    Ok(operands)
}

// Checks that a query fits the schema.
#[tactic(auto, unfolding(crate::specs::Reading::right_query))]
fn right_query(board: &Board, query: &Query) -> Result<(), Halt>
    ensures gives { result ≡ def.right_query board.now query.now }
    ensures fits { IfOk result (λ _. query_fits board.now.schema query.now ≡ Ok tt) }
{
    match query.fits(board.schema()) {
        Ok(()) => Ok(()),
        Err(_) => Err(Halt::Stuck(Stuck::Slot)),
    }
}

/// Pops the operands of a query and pushes the sequence of the units that it finds.
#[tactic(auto, unfolding(crate::specs::Reading::find))]
pub(crate) fn find(
    machine: &mut Machine<'_>,
    alloc: Global,
    code: &Code,
    board: &Board,
    query: u16,
) -> Result<(), Halt>
    ensures { Gives OutOfMemory (λ _. machine.new) result (def.find code.now board.now query machine.old) }
{
    let Some(query) = code.queries().get(query as usize) else {
        return Err(Halt::Stuck(Stuck::Missing));
    };
    let kinds = query.kinds.as_slice();
    let values = machine.pop_many(kinds.len())?;
    right_query(board, query)?;
    let operands = operands_due(alloc, kinds, &values)?;
    let units = board.find(query, &operands)?;
    push_found(machine, units)
}

/// Pops a sequence and pushes the number of its units.
#[tactic(auto, unfolding(crate::specs::Reading::size))]
pub(crate) fn size(machine: &mut Machine<'_>) -> Result<(), Halt>
    ensures { Gives OutOfMemory (λ _. machine.new) result (def.size machine.old) }
{
    let value = machine.pop()?;
    let found = value.sequence()?.found();
    machine.push(Value::Int(found as i64))
}
