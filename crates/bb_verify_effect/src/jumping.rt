//! The effects of ops that may jump, and of ops that end the execution. `effect` calls them.

ghost use Rattle.std.specs.Prelude.{◌≡◌, None, Ok, true};
ghost use Rattle.bb_code.specs.Answers.{map_ok};
ghost use Rattle.bb_verify_effect.specs.Edges.{edges_of};
ghost use Rattle.bb_verify_effect.specs.Effect.{only_there, one, alive, as_class, unless, next_unit, done, rate, decline, answer};

use crate::due::{class_of, due, sequence_of, single_slot};
use crate::frame::Frame;
use crate::part::Part;
use crate::reading::pop_live;
use crate::{ClassId, Flaw, Kind, LocalId, Schema, SlotId};

/// Continues with the next op only, if the frame was changed without a flaw.
pub(crate) fn on(done: Result<(), Flaw>) -> Result<bool, Flaw>
    ensures { result ≡ map_ok (λ _. true) done }
{
    done?;
    Ok(true)
}

#[tactic(auto, unfolding(crate::specs::Effect::one))]
pub(crate) fn one(
    schema: &Schema,
    slot: SlotId,
    frame: &mut Frame,
    target: &mut Option<Frame>,
) -> Result<bool, Flaw>
    ensures { map_ok (edges_of frame.new target.new) result ≡ one schema.now slot frame.old }
{
    let class = pop_live(frame)?;
    let link = single_slot(schema, class, slot)?;
    *target = Some(frame.copied());
    on(frame.push(Kind::Ref(link.to)))
}

#[tactic(auto, unfolding(crate::specs::Effect::alive))]
pub(crate) fn alive(frame: &mut Frame, target: &mut Option<Frame>) -> Result<bool, Flaw>
    ensures { map_ok (edges_of frame.new target.new) result ≡ alive frame.old }
{
    let kind = frame.pop()?;
    let class = class_of(kind)?;
    *target = Some(frame.copied());
    on(frame.push(Kind::Ref(class)))
}

#[tactic(auto, unfolding(crate::specs::Effect::as_class))]
pub(crate) fn as_class(
    class: ClassId,
    frame: &mut Frame,
    target: &mut Option<Frame>,
) -> Result<bool, Flaw>
    ensures { map_ok (edges_of frame.new target.new) result ≡ as_class class frame.old }
{
    pop_live(frame)?;
    *target = Some(frame.copied());
    on(frame.push(Kind::Ref(class)))
}

#[tactic(auto, unfolding(crate::specs::Effect::unless))]
pub(crate) fn unless(frame: &mut Frame, target: &mut Option<Frame>) -> Result<bool, Flaw>
    ensures { map_ok (edges_of frame.new target.new) result ≡ unless frame.old }
{
    let kind = frame.pop()?;
    due(Kind::Bool, kind)?;
    *target = Some(frame.copied());
    Ok(true)
}

#[tactic(auto, unfolding(crate::specs::Effect::next_unit))]
pub(crate) fn next_unit(
    local: LocalId,
    frame: &mut Frame,
    target: &mut Option<Frame>,
) -> Result<bool, Flaw>
    ensures { map_ok (edges_of frame.new target.new) result ≡ next_unit local frame.old }
{
    frame.room()?;
    let class = sequence_of(frame.local(local))?;
    *target = Some(frame.copied());
    on(frame.push(Kind::Ref(class)))
}

/// Continues at the target only.
pub(crate) fn only_there(frame: &Frame, target: &mut Option<Frame>) -> Result<bool, Flaw>
    ensures { map_ok (edges_of frame.now target.new) result ≡ Ok (only_there frame.now) }
{
    *target = Some(frame.copied());
    Ok(false)
}

#[tactic(auto, unfolding(crate::specs::Effect::done))]
pub(crate) fn done(part: Part, frame: &Frame) -> Result<bool, Flaw>
    ensures { map_ok (edges_of frame.now None) result ≡ done part }
{
    part.ends_done()?;
    Ok(false)
}

#[tactic(auto, unfolding(crate::specs::Effect::rate))]
pub(crate) fn rate(part: Part, frame: &mut Frame) -> Result<bool, Flaw>
    ensures { map_ok (edges_of frame.new None) result ≡ rate part frame.old }
{
    let kind = frame.pop()?;
    due(Kind::Int, kind)?;
    part.ends_rated()?;
    Ok(false)
}

#[tactic(auto, unfolding(crate::specs::Effect::decline))]
pub(crate) fn decline(part: Part, frame: &Frame) -> Result<bool, Flaw>
    ensures { map_ok (edges_of frame.now None) result ≡ decline part }
{
    part.ends_rated()?;
    Ok(false)
}

#[tactic(auto, unfolding(crate::specs::Effect::answer))]
pub(crate) fn answer(part: Part, frame: &mut Frame) -> Result<bool, Flaw>
    ensures { map_ok (edges_of frame.new None) result ≡ answer part frame.old }
{
    let kind = frame.pop()?;
    due(Kind::Bool, kind)?;
    part.ends_answered()?;
    Ok(false)
}
