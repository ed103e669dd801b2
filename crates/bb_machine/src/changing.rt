//! The ops that change the blackboard. A step calls them.

ghost use Rattle.std.specs.Prelude.{◌≡◌, ◌<◌, Ok, IfOk, IsSome, IsTrue, true, length};
ghost use Rattle.bb_units.specs.Units.{is_live, value_of};
ghost use Rattle.std.specs.List.{list_all};
ghost use Rattle.bb_basis.specs.Results.{Gives, map_err, try_map};
ghost use Rattle.bb_units.specs.Layout.{layout_of};
ghost use Rattle.bb_board.specs.Fits.{is_said_of};
ghost use Rattle.bb_board.specs.May.{may_set};
ghost use Rattle.bb_machine.specs.declared.halt.Halt.TheVariants.{Memory as OutOfMemory};
ghost use Rattle.bb_machine.specs.Changing as def;
ghost use Rattle.bb_machine.specs.Kept.{Kept};

use crate::halt::Halt;
use crate::machine::Machine;
use crate::outcome::Stuck;
use crate::reading::{live, pop_live, pop_unit};
use crate::value::Value;
use crate::{Board, CreateFault, Reason, Said};
use bb_code::LinkChange;
use bb_schema::{SpaceId, UnitId};
use bb_schema_classes::{ClassId, SlotId, Value as SlotValue};
use std::alloc::Global;

// Why a change cannot be made.
fn halt_of(reason: Reason) -> Halt
    ensures { result ≡ def.halt_of reason }
{
    Halt::Stuck(match reason {
        Reason::Deleted => Stuck::Deleted,
        Reason::Slot | Reason::Space => Stuck::Slot,
        Reason::Kind => Stuck::Kind,
        Reason::LinkClass => Stuck::LinkClass,
    })
}

/// Creates a unit and pushes it.
#[tactic(auto, unfolding(crate::specs::Changing::new_unit, crate::specs::Machine::push))]
pub(crate) fn new_unit(
    machine: &mut Machine<'_>,
    board: &mut Board,
    class: ClassId,
) -> Result<(), Halt>
    ensures gives { Gives OutOfMemory (λ _. (machine.new, board.new)) result
        (def.new_unit board.old class machine.old) }
    ensures kept { Kept result board.old board.new }
{
    if board.schema().class_count() <= class as usize {
        return Err(Halt::Stuck(Stuck::Missing));
    }
    machine.room()?;
    // The unit's number is pushed before the unit is created: if memory runs out, nothing was created.
    machine.add(Value::Unit(board.next()))?;
    match board.create(class) {
        Ok(_) => Ok(()),
        Err(CreateFault::Full) => Err(Halt::Full),
        Err(CreateFault::Memory) => Err(Halt::Memory),
    }
}

// Checks a value for a slot of a unit, and converts it. If the slot is wrong, that is the error, not the value.
#[tactic(auto, unfolding(crate::specs::Changing::value_due))]
fn value_due(
    board: &Board,
    unit: UnitId,
    slot: SlotId,
    value: &Value<'_>,
) -> Result<SlotValue, Halt>
    ensures gives { Gives OutOfMemory (λ v. v) result (def.value_due board.now unit slot value.now) }
    ensures may { IfOk result (λ v. IsTrue (is_live board.now.world.units unit) →
        may_set board.now.world unit slot v ≡ Ok tt) }
{
    if !is_right_slot(board, unit, slot) {
        live(board, unit)?;
        return Err(Halt::Stuck(Stuck::Slot));
    }
    // For the proof: the invariant of the blackboard.
    board.fits();
    match value.to_slot()? {
        Some(held) if board.can_hold(slot, &held) => Ok(held),
        _ => Err(Halt::Stuck(Stuck::Kind)),
    }
}

// Whether a unit has this ordinary slot, or, if the unit is not live, the schema has it.
fn is_right_slot(board: &Board, unit: UnitId, slot: SlotId) -> bool
    ensures gives { result ≡ def.is_right_slot board.now unit slot }
    ensures there { IsTrue result → IsTrue (is_live board.now.world.units unit) →
        IsSome (value_of board.now.world.units unit slot) }
{
    if board.live(unit) {
        board.has(unit, slot)
    } else {
        board.schema().is_ordinary(slot)
    }
}

/// Pops a live unit and a value, and sets an ordinary slot of the unit to it.
#[tactic(auto, unfolding(crate::specs::Changing::set_slot))]
pub(crate) fn set_slot(
    machine: &mut Machine<'_>,
    board: &mut Board,
    slot: SlotId,
) -> Result<(), Halt>
    ensures gives { Gives OutOfMemory (λ _. (machine.new, board.new)) result (def.set_slot board.old slot machine.old) }
    ensures kept { Kept result board.old board.new }
{
    let (unit, value) = machine.pop_two()?;
    let unit = unit.unit()?;
    let held = value_due(board, unit, slot, &value)?;
    live(board, unit)?;
    board.set(unit, slot, held)?;
    Ok(())
}

/// Pops two live units, and links or unlinks them.
#[tactic(auto, unfolding(crate::specs::Changing::relink))]
pub(crate) fn relink(
    machine: &mut Machine<'_>,
    board: &mut Board,
    change: LinkChange,
    slot: SlotId,
) -> Result<(), Halt>
    ensures gives { Gives OutOfMemory (λ _. (machine.new, board.new)) result
        (def.relink change board.old slot machine.old) }
    ensures kept { Kept result board.old board.new }
{
    let (unit, partner) = machine.pop_two()?;
    let unit = unit.unit()?;
    let partner = partner.unit()?;
    board.may_link(unit, slot, partner).map_err(halt_of)?;
    match change {
        LinkChange::Link => board.link(unit, slot, partner)?,
        LinkChange::Unlink => board.unlink(unit, slot, partner)?,
    }
    Ok(())
}

/// Pops a live unit and lets it enter a space.
#[tactic(auto, unfolding(crate::specs::Changing::enter))]
pub(crate) fn enter(
    machine: &mut Machine<'_>,
    board: &mut Board,
    space: SpaceId,
) -> Result<(), Halt>
    ensures gives { Gives OutOfMemory (λ _. (machine.new, board.new)) result (def.enter board.old space machine.old) }
    ensures kept { Kept result board.old board.new }
{
    let unit = pop_unit(machine)?;
    board.may_enter(unit, space).map_err(halt_of)?;
    board.enter(unit, space)?;
    Ok(())
}

// Checks that the schema has the space.
#[tactic(auto, unfolding(crate::specs::Changing::right_space))]
fn right_space(board: &Board, space: SpaceId) -> Result<(), Halt>
    ensures gives { result ≡ def.right_space board.now space }
    ensures there { IfOk result (λ _. space < length board.now.schema.spaces) }
{
    if (space as usize) < board.schema().space_count() {
        Ok(())
    } else {
        Err(Halt::Stuck(Stuck::Slot))
    }
}

/// Pops a live unit and lets it leave a space.
#[tactic(auto, unfolding(crate::specs::Changing::leave))]
pub(crate) fn leave(
    machine: &mut Machine<'_>,
    board: &mut Board,
    space: SpaceId,
) -> Result<(), Halt>
    ensures gives { Gives OutOfMemory (λ _. (machine.new, board.new)) result (def.leave board.old space machine.old) }
    ensures kept { Kept result board.old board.new }
{
    let unit = pop_live(machine, board)?;
    right_space(board, space)?;
    board.leave(unit, space)?;
    Ok(())
}

/// Pops a live unit and deletes it.
#[tactic(auto, unfolding(crate::specs::Changing::delete))]
pub(crate) fn delete(machine: &mut Machine<'_>, board: &mut Board) -> Result<(), Halt>
    ensures gives { Gives OutOfMemory (λ _. (machine.new, board.new)) result (def.delete board.old machine.old) }
    ensures kept { Kept result board.old board.new }
{
    let unit = pop_live(machine, board)?;
    board.delete(unit)?;
    Ok(())
}

// Converts a value to one that can be said.
fn said_due(board: &Board, value: &Value<'_>) -> Result<Said, Halt>
    ensures gives { Gives OutOfMemory (λ v. v) result (def.said_due board.now value.now) }
    ensures said { IfOk result (λ v. is_said_of board.now.schema v ≡ true) }
{
    match value.to_said()? {
        Some(said) if board.can_say(&said) => Ok(said),
        _ => Err(Halt::Stuck(Stuck::Kind)),
    }
}

// Converts values to ones that can be said, in order.
fn all_said(alloc: Global, board: &Board, values: &[Value<'_>]) -> Result<Vec<Said>, Halt>
    ensures gives { Gives OutOfMemory (λ v. v.items) result (try_map (def.said_due board.now) values.now) }
    ensures said { IfOk result (λ v. list_all (is_said_of board.now.schema) v.items ≡ true) }
{
    let mut said = Vec::new(alloc);
    for value in values {
        said.push(said_due(board, value)?)?;
    }
    Ok(said)
}

/// Pops `count` values and says them, the deepest first.
#[tactic(auto, unfolding(crate::specs::Changing::say))]
pub(crate) fn say(
    machine: &mut Machine<'_>,
    alloc: Global,
    board: &mut Board,
    count: u8,
) -> Result<(), Halt>
    ensures gives { Gives OutOfMemory (λ _. (machine.new, board.new)) result (def.say board.old count machine.old) }
    ensures kept { Kept result board.old board.new }
{
    let values = machine.pop_many(count as usize)?;
    let said = all_said(alloc, board, &values)?;
    board.say(said)?;
    Ok(())
}
