//! The foci of the blackboard: units of the built-in class `focus` and its descendants. A run (bb_run) reports all of
//! them to the agenda when it begins, and then every unit that the notes of the blackboard name.

ghost use Rattle.std.specs.Prelude.{◌≡◌, IfOk, map, option_map};
ghost use Rattle.bb_board.specs.Units.{value_of};
ghost use Rattle.bb_run_plan.specs.Foci as def;

use bb_agenda::{Agenda, Focus, RatedSource};
use bb_basis::Text;
use bb_board::{Board, Note as BoardNote};
use bb_rules::Source;
use bb_schema::UnitId;
use bb_schema_classes::{ClassId, SlotId, Value};
use std::alloc::{AllocError, Global};

// The built-in class, and its slots.
const FOCUS: ClassId = 0;

const SOURCE: SlotId = 0;

const AREA: SlotId = 1;

const WEIGHT: SlotId = 2;

const ACTIVE: SlotId = 3;

// The value of a slot of a unit, if the unit is live and has the slot.
fn value_at(board: &Board, unit: UnitId, slot: SlotId) -> Option<&Value>
    ensures { option_map (λ v. v.now) result ≡ value_of board.now.world.units unit slot }
{
    if !board.has(unit, slot) {
        return None;
    }
    Some(board.get(unit, slot))
}

// The text that a slot holds.
fn text_in(value: Option<&Value>) -> Result<Option<Text>, AllocError>
    ensures { IfOk result (λ text. text ≡ def.text_in (option_map (λ v. v.now) value.entry)) }
{
    match value {
        Some(Value::Text(text)) => Ok(Some(text.clone()?)),
        _ => Ok(None),
    }
}

// The number that a slot holds.
fn number_in(value: Option<&Value>) -> Option<i64>
    ensures { result ≡ def.number_in (option_map (λ v. v.now) value.entry) }
{
    match value {
        Some(Value::Int(number)) => Some(*number),
        _ => None,
    }
}

// The truth value that a slot holds.
fn truth_in(value: Option<&Value>) -> Option<bool>
    ensures { result ≡ def.truth_in (option_map (λ v. v.now) value.entry) }
{
    match value {
        Some(Value::Bool(truth)) => Some(*truth),
        _ => None,
    }
}

// Whether a unit is live and its class descends from `focus`.
fn is_focus(board: &Board, unit: UnitId) -> bool
    ensures { result ≡ def.is_focus board.now.schema board.now.world.units unit }
{
    if !board.live(unit) {
        return false;
    }
    board.schema().descends(board.class_of(unit), FOCUS)
}

// The focus with these values of its four slots.
fn focus_from(
    source: Option<Text>,
    area: Option<Text>,
    weight: Option<i64>,
    active: Option<bool>,
) -> Option<Focus>
    ensures { result ≡ def.focus_from source area weight active }
{
    Some(Focus {
        source: source?,
        area: area?,
        weight: weight?,
        active: active?,
    })
}

// The focus that a unit is, if it is one.
#[tactic(auto, unfolding(crate::specs::Foci::focus_of))]
fn focus_of(board: &Board, unit: UnitId) -> Result<Option<Focus>, AllocError>
    ensures { IfOk result (λ focus. focus ≡ def.focus_of board.now.schema board.now.world.units unit) }
{
    if !is_focus(board, unit) {
        return Ok(None);
    }
    let source = text_in(value_at(board, unit, SOURCE))?;
    let area = text_in(value_at(board, unit, AREA))?;
    let weight = number_in(value_at(board, unit, WEIGHT));
    let active = truth_in(value_at(board, unit, ACTIVE));
    Ok(focus_from(source, area, weight, active))
}

// Tells the agenda which focus a unit is, or that it is not one.
fn tell_unit(agenda: &mut Agenda, board: &Board, unit: UnitId) -> Result<(), AllocError>
    ensures { IfOk result (λ _. agenda.new ≡ def.with_foci agenda.old
        (def.told_unit board.now.schema board.now.world.units agenda.old.foci unit)) }
{
    match focus_of(board, unit)? {
        Some(focus) => agenda.focus_set(unit, focus),
        None => agenda.focus_gone(unit),
    }
}

// Tells the agenda about the unit that a note names.
fn tell_note(agenda: &mut Agenda, board: &Board, note: &BoardNote) -> Result<(), AllocError>
    ensures { IfOk result (λ _. agenda.new ≡ def.with_foci agenda.old
        (def.told_note board.now.schema board.now.world.units agenda.old.foci note.now)) }
{
    match note {
        BoardNote::Event(event) => tell_unit(agenda, board, event.unit()),
        BoardNote::Said(_) => Ok(()),
    }
}

/// Tells the agenda about the units that notes of the blackboard name. The error: out of memory; the agenda may then
/// know about some of them.
pub fn tell_notes(agenda: &mut Agenda, board: &Board, notes: &[BoardNote]) -> Result<(), AllocError>
    ensures { IfOk result (λ _. agenda.new ≡ def.with_foci agenda.old
        (def.told_notes board.now.schema board.now.world.units notes.now agenda.old.foci)) }
{
    for note in notes {
        tell_note(agenda, board, note)?;
    }
    Ok(())
}

/// Tells the agenda about all units ever created on the blackboard, as `tell_notes` does. Number 0 names no unit.
pub fn tell_all(agenda: &mut Agenda, board: &Board) -> Result<(), AllocError>
    ensures { IfOk result (λ _. agenda.new ≡ def.with_foci agenda.old
        (def.told_all board.now.schema board.now.world.units agenda.old.foci)) }
{
    for unit in 0..board.next() {
        tell_unit(agenda, board, unit)?;
    }
    Ok(())
}

/// Returns what the agenda knows of sources: their names and classes. The error: out of memory.
pub fn rated_sources(alloc: Global, sources: &[Source]) -> Result<Vec<RatedSource>, AllocError>
    ensures { IfOk result (λ rated. rated.items ≡ map def.rated_source sources.now) }
{
    let mut rated = Vec::new(alloc);
    for source in sources {
        let parts = source.parts();
        rated.push(RatedSource {
            name: parts.name.clone()?,
            class: parts.class,
        })?;
    }
    Ok(rated)
}
