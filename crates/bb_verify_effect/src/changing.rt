//! The effects of ops that change the blackboard. `effect` calls them.

ghost use Rattle.std.specs.Prelude.{◌≡◌};
ghost use Rattle.bb_code.specs.Answers.{map_ok};
ghost use Rattle.bb_verify_effect.specs.Effect.{new_unit, set_slot, relink, enter, leave, after_delete, delete, say};

use crate::due::{
    all_sayable, class_of, known_space, link_slot, live, partner_due, plain_slot, space_due,
    value_due,
};
use crate::frame::Frame;
use crate::part::Part;
use crate::reading::pop_live;
use crate::{ClassId, Flaw, Kind, Schema, SlotId, SpaceId};

#[tactic(auto, unfolding(crate::specs::Effect::new_unit))]
pub(crate) fn new_unit(part: Part, class: ClassId, frame: &mut Frame) -> Result<(), Flaw>
    ensures { map_ok (λ _. frame.new) result ≡ new_unit part class frame.old }
{
    frame.room()?;
    part.writes()?;
    frame.push(Kind::Ref(class))
}

#[tactic(auto, unfolding(crate::specs::Effect::set_slot))]
pub(crate) fn set_slot(
    schema: &Schema,
    part: Part,
    slot: SlotId,
    frame: &mut Frame,
) -> Result<(), Flaw>
    ensures { map_ok (λ _. frame.new) result ≡ set_slot schema.now part slot frame.old }
{
    let (unit, value) = frame.pop_two()?;
    let class = class_of(unit)?;
    value_due(schema, class, slot, value)?;
    live(unit)?;
    plain_slot(schema, class, slot)?;
    part.writes()?;
    Ok(())
}

/// Links or unlinks.
#[tactic(auto, unfolding(crate::specs::Effect::relink))]
pub(crate) fn relink(
    schema: &Schema,
    part: Part,
    slot: SlotId,
    frame: &mut Frame,
) -> Result<(), Flaw>
    ensures { map_ok (λ _. frame.new) result ≡ relink schema.now part slot frame.old }
{
    let (unit, partner) = frame.pop_two()?;
    let class = class_of(unit)?;
    let other = class_of(partner)?;
    live(unit)?;
    live(partner)?;
    let link = link_slot(schema, class, slot)?;
    partner_due(schema, other, link.to)?;
    part.writes()?;
    Ok(())
}

#[tactic(auto, unfolding(crate::specs::Effect::enter))]
pub(crate) fn enter(
    schema: &Schema,
    part: Part,
    space: SpaceId,
    frame: &mut Frame,
) -> Result<(), Flaw>
    ensures { map_ok (λ _. frame.new) result ≡ enter schema.now part space frame.old }
{
    let class = pop_live(frame)?;
    space_due(schema, space, class)?;
    part.writes()?;
    Ok(())
}

#[tactic(auto, unfolding(crate::specs::Effect::leave))]
pub(crate) fn leave(
    schema: &Schema,
    part: Part,
    space: SpaceId,
    frame: &mut Frame,
) -> Result<(), Flaw>
    ensures { map_ok (λ _. frame.new) result ≡ leave schema.now part space frame.old }
{
    pop_live(frame)?;
    known_space(schema, space)?;
    part.writes()?;
    Ok(())
}

// Makes all locals and entries that could be the deleted unit, or a unit deleted with it, old.
#[tactic(auto, unfolding(crate::specs::Effect::after_delete))]
fn after_delete(schema: &Schema, deleted: ClassId, frame: &mut Frame)
    ensures { frame.new ≡ after_delete schema.now deleted frame.old }
{
    frame.locals.mark_stale(schema, deleted);
    frame.stack.mark_stale(schema, deleted);
}

#[tactic(auto, unfolding(crate::specs::Effect::delete))]
pub(crate) fn delete(schema: &Schema, part: Part, frame: &mut Frame) -> Result<(), Flaw>
    ensures { map_ok (λ _. frame.new) result ≡ delete schema.now part frame.old }
{
    let class = pop_live(frame)?;
    part.writes()?;
    after_delete(schema, class, frame);
    Ok(())
}

#[tactic(auto, unfolding(crate::specs::Effect::say))]
pub(crate) fn say(part: Part, count: u8, frame: &mut Frame) -> Result<(), Flaw>
    ensures { map_ok (λ _. frame.new) result ≡ say part count frame.old }
{
    frame.enough(count as usize)?;
    all_sayable(frame.top(count as usize))?;
    part.writes()?;
    frame.shorten(count as usize);
    Ok(())
}
