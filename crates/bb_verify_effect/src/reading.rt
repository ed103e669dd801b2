//! The effects of ops that read the blackboard. `effect` calls them.

ghost use Rattle.std.specs.Prelude.{◌≡◌};
ghost use Rattle.bb_code.specs.Answers.{map_ok};
ghost use Rattle.bb_verify_effect.specs.Effect.{pop_live, get, links, find, size};

use crate::due::{class_of, link_slot, live, operands_due, plain_slot, query_due, sequence_of};
use crate::frame::Frame;
use crate::{ClassId, Code, Flaw, Kind, Schema, SlotId};

/// Pops a live unit and returns its class.
#[tactic(auto, unfolding(crate::specs::Effect::pop_live))]
pub(crate) fn pop_live(frame: &mut Frame) -> Result<ClassId, Flaw>
    ensures { map_ok (λ class. (class, frame.new)) result ≡ pop_live frame.old }
{
    let kind = frame.pop()?;
    let class = class_of(kind)?;
    live(kind)?;
    Ok(class)
}

/// Replaces a unit by the value of an ordinary slot.
#[tactic(auto, unfolding(crate::specs::Effect::get))]
pub(crate) fn get(schema: &Schema, slot: SlotId, frame: &mut Frame) -> Result<(), Flaw>
    ensures { map_ok (λ _. frame.new) result ≡ get schema.now slot frame.old }
{
    let class = pop_live(frame)?;
    let held = plain_slot(schema, class, slot)?;
    frame.push(held)
}

/// Replaces a unit by its partners by a link slot.
#[tactic(auto, unfolding(crate::specs::Effect::links))]
pub(crate) fn links(schema: &Schema, slot: SlotId, frame: &mut Frame) -> Result<(), Flaw>
    ensures { map_ok (λ _. frame.new) result ≡ links schema.now slot frame.old }
{
    let class = pop_live(frame)?;
    let link = link_slot(schema, class, slot)?;
    frame.push(Kind::Seq(link.to))
}

/// Replaces the operands of a query by the units that it finds.
#[tactic(auto, unfolding(crate::specs::Effect::find))]
pub(crate) fn find(schema: &Schema, code: &Code, query: u16, frame: &mut Frame) -> Result<(), Flaw>
    ensures { map_ok (λ _. frame.new) result ≡ find schema.now code.now query frame.old }
{
    let query = code.queries().get(query as usize).ok_or(Flaw::Table)?;
    let kinds = query.kinds.as_slice();
    frame.enough(kinds.len())?;
    let mut rest = frame.copied();
    rest.shorten(kinds.len());
    rest.room()?;
    query_due(schema, query)?;
    operands_due(kinds, frame.top(kinds.len()))?;
    frame.shorten(kinds.len());
    frame.push(Kind::Seq(query.class))
}

/// Replaces a sequence by the number of its units.
#[tactic(auto, unfolding(crate::specs::Effect::size))]
pub(crate) fn size(frame: &mut Frame) -> Result<(), Flaw>
    ensures { map_ok (λ _. frame.new) result ≡ size frame.old }
{
    let kind = frame.pop()?;
    sequence_of(kind)?;
    frame.push(Kind::Int)
}
