//! The effects of ops on locals and plain values. `effect` calls them.

ghost use Rattle.std.specs.Prelude.{◌≡◌};
ghost use Rattle.bb_code.specs.Answers.{map_ok};
ghost use Rattle.bb_verify_effect.specs.Effect.{load, store_local, drop_one, turn, combine, eq_label, eq_unit};

use crate::due::{class_of, copy_of, due, label_of};
use crate::frame::Frame;
use crate::{Flaw, Kind, LocalId};

/// Pushes a copy of a local.
#[tactic(auto, unfolding(crate::specs::Effect::load))]
pub(crate) fn load(local: LocalId, frame: &mut Frame) -> Result<(), Flaw>
    ensures { map_ok (λ _. frame.new) result ≡ load local frame.old }
{
    frame.room()?;
    let kind = copy_of(frame.local(local))?;
    frame.push(kind)
}

#[tactic(auto, unfolding(crate::specs::Effect::store_local))]
pub(crate) fn store_local(local: LocalId, frame: &mut Frame) -> Result<(), Flaw>
    ensures { map_ok (λ _. frame.new) result ≡ store_local local frame.old }
{
    let kind = frame.pop()?;
    frame.set_local(local, kind);
    Ok(())
}

#[tactic(auto, unfolding(crate::specs::Effect::drop_one))]
pub(crate) fn drop_one(frame: &mut Frame) -> Result<(), Flaw>
    ensures { map_ok (λ _. frame.new) result ≡ drop_one frame.old }
{
    frame.pop()?;
    Ok(())
}

/// Replaces an operand of kind `from` by a result of kind `to`.
#[tactic(auto, unfolding(crate::specs::Effect::turn))]
pub(crate) fn turn(from: Kind, to: Kind, frame: &mut Frame) -> Result<(), Flaw>
    ensures { map_ok (λ _. frame.new) result ≡ turn from to frame.old }
{
    let kind = frame.pop()?;
    due(from, kind)?;
    frame.push(to)
}

/// Replaces two operands of kind `from` by a result of kind `to`.
#[tactic(auto, unfolding(crate::specs::Effect::combine))]
pub(crate) fn combine(from: Kind, to: Kind, frame: &mut Frame) -> Result<(), Flaw>
    ensures { map_ok (λ _. frame.new) result ≡ combine from to frame.old }
{
    let (first, second) = frame.pop_two()?;
    due(from, first)?;
    due(from, second)?;
    frame.push(to)
}

/// Compares two labels of the same set.
#[tactic(auto, unfolding(crate::specs::Effect::eq_label))]
pub(crate) fn eq_label(frame: &mut Frame) -> Result<(), Flaw>
    ensures { map_ok (λ _. frame.new) result ≡ eq_label frame.old }
{
    let (first, second) = frame.pop_two()?;
    let set = label_of(first)?;
    let other = label_of(second)?;
    if set == other {
        return frame.push(Kind::Bool);
    }
    Err(Flaw::Kind)
}

/// Compares two units, live or old.
#[tactic(auto, unfolding(crate::specs::Effect::eq_unit))]
pub(crate) fn eq_unit(frame: &mut Frame) -> Result<(), Flaw>
    ensures { map_ok (λ _. frame.new) result ≡ eq_unit frame.old }
{
    let (first, second) = frame.pop_two()?;
    class_of(first)?;
    class_of(second)?;
    frame.push(Kind::Bool)
}
