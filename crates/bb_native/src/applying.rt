//! Applies asks. The caller of a native (bb_run) applies the native's asks one by one, each to the blackboard that the
//! previous ask left.

ghost use Rattle.std.specs.Prelude.{◌≡◌, ◌<◌, Ok, IfErr, IfOk, IsTrue, length};
ghost use Rattle.bb_basis.specs.Results.{Gives};
ghost use Rattle.bb_units.specs.Units.{is_live};
ghost use Rattle.bb_board.specs.May.{may_link};
ghost use Rattle.bb_native.specs.Applied as def;
ghost use Rattle.bb_native.specs.Applied.{applied, Leaves};
ghost use Rattle.bb_native.specs.declared.denial.Denial.TheVariants.{Memory as OutOfMemory};

use crate::ask::Ask;
use crate::denial::Denial;
use crate::refusal::Refusal;
use bb_basis::Text;
use bb_board::{Board, Said};
use bb_schema::{SpaceId, UnitId};
use bb_schema_classes::{ClassId, SlotId, TEXT_LIMIT, Value};
use std::alloc::Global;

/// Applies an ask to a blackboard, or returns the first reason why it is not applied. `Refused`, `Full`: the blackboard
/// is unchanged. `Memory`: it is unchanged too, except that it may accept no more changes.
pub fn apply(alloc: Global, ask: Ask, board: &mut Board) -> Result<(), Denial>
    ensures gives { Gives OutOfMemory (λ _. board.new) result (applied ask board.old) }
    ensures err { IfErr result (λ denial. Leaves denial board.old board.new) }
    ensures schema { board.new.schema ≡ board.old.schema }
{
    match ask {
        Ask::Set { unit, slot, value } => set(board, unit, &slot, value),
        Ask::Link { unit, slot, other } => link(board, unit, &slot, other),
        Ask::Unlink { unit, slot, other } => unlink(board, unit, &slot, other),
        Ask::Enter { unit, space } => enter(board, unit, &space),
        Ask::Leave { unit, space } => leave(board, unit, &space),
        Ask::New { class } => create(board, &class),
        Ask::Delete { unit } => delete(board, unit),
        Ask::Say { text } => say(alloc, board, text),
    }
}

// Refuses a unit that is not live.
#[tactic(auto, unfolding(crate::specs::Applied::live))]
fn live(board: &Board, unit: UnitId) -> Result<(), Denial>
    ensures gives { result ≡ def.live board.now unit }
    ensures live { IfOk result (λ _. IsTrue (is_live board.now.world.units unit)) }
{
    if !board.live(unit) {
        return Err(Denial::Refused(Refusal::Deleted));
    }
    Ok(())
}

// The slot with a name in the class of a live unit.
#[tactic(auto, unfolding(crate::specs::Applied::slot_due))]
fn slot_due(board: &Board, unit: UnitId, name: &Text) -> Result<SlotId, Denial>
    requires { IsTrue (is_live board.now.world.units unit) }
    ensures { result ≡ def.slot_due board.now unit name.now }
{
    board
        .schema()
        .slot(board.class_of(unit), name.as_str())
        .ok_or(Denial::Refused(Refusal::Slot))
}

// The space with a name.
#[tactic(auto, unfolding(crate::specs::Applied::space_due))]
fn space_due(board: &Board, name: &Text) -> Result<SpaceId, Denial>
    ensures gives { result ≡ def.space_due board.now name.now }
    ensures there { IfOk result (λ space. space < length board.now.schema.spaces) }
{
    board
        .schema()
        .space(name.as_str())
        .ok_or(Denial::Refused(Refusal::Space))
}

// The class with a name.
#[tactic(auto, unfolding(crate::specs::Applied::class_due))]
fn class_due(board: &Board, name: &Text) -> Result<ClassId, Denial>
    ensures gives { result ≡ def.class_due board.now name.now }
    ensures there { IfOk result (λ class. class < length board.now.schema.classes) }
{
    board
        .schema()
        .class(name.as_str())
        .ok_or(Denial::Refused(Refusal::Class))
}

// Sets a slot of a unit.
#[tactic(auto, unfolding(crate::specs::Applied::set))]
fn set(board: &mut Board, unit: UnitId, slot: &Text, value: Value) -> Result<(), Denial>
    ensures gives { Gives OutOfMemory (λ _. board.new) result (def.set board.old unit slot.now value) }
    ensures err { IfErr result (λ denial. Leaves denial board.old board.new) }
    ensures schema { board.new.schema ≡ board.old.schema }
{
    live(board, unit)?;
    let slot = slot_due(board, unit, slot)?;
    board.may_set(unit, slot, &value)?;
    board.set(unit, slot, value)?;
    Ok(())
}

// The slot with a name, by which two units may be linked.
#[tactic(auto, unfolding(crate::specs::Applied::link_due))]
fn link_due(board: &Board, unit: UnitId, slot: &Text, other: UnitId) -> Result<SlotId, Denial>
    ensures gives { result ≡ def.link_due board.now unit slot.now other }
    ensures may { IfOk result (λ slot. may_link board.now.schema board.now.world unit slot other ≡ Ok tt) }
{
    live(board, unit)?;
    live(board, other)?;
    let slot = slot_due(board, unit, slot)?;
    board.may_link(unit, slot, other)?;
    Ok(slot)
}

// Links two units.
#[tactic(auto, unfolding(crate::specs::Applied::link))]
fn link(board: &mut Board, unit: UnitId, slot: &Text, other: UnitId) -> Result<(), Denial>
    ensures gives { Gives OutOfMemory (λ _. board.new) result (def.link board.old unit slot.now other) }
    ensures err { IfErr result (λ denial. Leaves denial board.old board.new) }
    ensures schema { board.new.schema ≡ board.old.schema }
{
    let slot = link_due(board, unit, slot, other)?;
    board.link(unit, slot, other)?;
    Ok(())
}

// Removes the link between two units.
#[tactic(auto, unfolding(crate::specs::Applied::unlink))]
fn unlink(board: &mut Board, unit: UnitId, slot: &Text, other: UnitId) -> Result<(), Denial>
    ensures gives { Gives OutOfMemory (λ _. board.new) result (def.unlink board.old unit slot.now other) }
    ensures err { IfErr result (λ denial. Leaves denial board.old board.new) }
    ensures schema { board.new.schema ≡ board.old.schema }
{
    let slot = link_due(board, unit, slot, other)?;
    board.unlink(unit, slot, other)?;
    Ok(())
}

// Makes a unit enter a space.
#[tactic(auto, unfolding(crate::specs::Applied::enter))]
fn enter(board: &mut Board, unit: UnitId, space: &Text) -> Result<(), Denial>
    ensures gives { Gives OutOfMemory (λ _. board.new) result (def.enter board.old unit space.now) }
    ensures err { IfErr result (λ denial. Leaves denial board.old board.new) }
    ensures schema { board.new.schema ≡ board.old.schema }
{
    live(board, unit)?;
    let space = space_due(board, space)?;
    board.may_enter(unit, space)?;
    board.enter(unit, space)?;
    Ok(())
}

// Makes a unit leave a space.
#[tactic(auto, unfolding(crate::specs::Applied::leave))]
fn leave(board: &mut Board, unit: UnitId, space: &Text) -> Result<(), Denial>
    ensures gives { Gives OutOfMemory (λ _. board.new) result (def.leave board.old unit space.now) }
    ensures err { IfErr result (λ denial. Leaves denial board.old board.new) }
    ensures schema { board.new.schema ≡ board.old.schema }
{
    live(board, unit)?;
    let space = space_due(board, space)?;
    board.leave(unit, space)?;
    Ok(())
}

// Creates a unit.
#[tactic(auto, unfolding(crate::specs::Applied::create))]
fn create(board: &mut Board, class: &Text) -> Result<(), Denial>
    ensures gives { Gives OutOfMemory (λ _. board.new) result (def.create board.old class.now) }
    ensures err { IfErr result (λ denial. Leaves denial board.old board.new) }
    ensures schema { board.new.schema ≡ board.old.schema }
{
    let class = class_due(board, class)?;
    board.create(class)?;
    Ok(())
}

// Deletes a unit.
#[tactic(auto, unfolding(crate::specs::Applied::delete))]
fn delete(board: &mut Board, unit: UnitId) -> Result<(), Denial>
    ensures gives { Gives OutOfMemory (λ _. board.new) result (def.delete board.old unit) }
    ensures err { IfErr result (λ denial. Leaves denial board.old board.new) }
    ensures schema { board.new.schema ≡ board.old.schema }
{
    live(board, unit)?;
    board.delete(unit)?;
    Ok(())
}

// Says a text.
#[tactic(auto, unfolding(crate::specs::Applied::say))]
fn say(alloc: Global, board: &mut Board, text: Text) -> Result<(), Denial>
    ensures gives { Gives OutOfMemory (λ _. board.new) result (def.say board.old text) }
    ensures err { IfErr result (λ denial. Leaves denial board.old board.new) }
    ensures schema { board.new.schema ≡ board.old.schema }
{
    if text.len() > TEXT_LIMIT {
        return Err(Denial::Refused(Refusal::Kind));
    }
    let mut said = Vec::new(alloc);
    said.push(Said::Value(Value::Text(text)))?;
    board.say(said)?;
    Ok(())
}
