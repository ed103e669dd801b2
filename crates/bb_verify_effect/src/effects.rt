//! The effect of every op. The verifier's pass over the ops calls it.

ghost use Rattle.std.specs.Prelude.{◌≡◌, None};
ghost use Rattle.bb_code.specs.Answers.{map_ok};
ghost use Rattle.bb_verify_effect.specs.Edges.{edges_of};
ghost use Rattle.bb_verify_effect.specs.Effect.{effect};

use crate::changing::{delete, enter, leave, new_unit, relink, say, set_slot};
use crate::frame::Frame;
use crate::jumping::{
    alive, answer, as_class, decline, done, next_unit, on, one, only_there, rate, unless,
};
use crate::part::Part;
use crate::plain::{combine, drop_one, eq_label, eq_unit, load, store_local, turn};
use crate::reading::{find, get, links, size};
use crate::{Code, Flaw, Kind, Op, Schema};

/// Changes the frame as an op does, and returns whether execution may continue with the next op. If the op may jump,
/// `target` is set to the frame at the target. An error is the op's first flaw.
#[tactic(auto, unfolding(crate::specs::Effect::effect), using(crate::proofs::EffectLemmas::on_is))]
pub fn effect(
    schema: &Schema,
    part: Part,
    code: &Code,
    op: Op,
    frame: &mut Frame,
    target: &mut Option<Frame>,
) -> Result<bool, Flaw>
    requires { target.old ≡ None }
    ensures { map_ok (edges_of frame.new target.new) result ≡ effect schema.now part code.now op frame.old }
{
    match op {
        Op::PushInt(_) => on(frame.push(Kind::Int)),
        Op::PushText(_) => on(frame.push(Kind::Text)),
        Op::PushBool(_) => on(frame.push(Kind::Bool)),
        Op::PushLabel(set, _) => on(frame.push(Kind::Label(set))),
        Op::Load(local) => on(load(local, frame)),
        Op::Store(local) => on(store_local(local, frame)),
        Op::Pop => on(drop_one(frame)),
        Op::Calculate(_) => on(combine(Kind::Int, Kind::Int, frame)),
        Op::Divide(_, _) => on(turn(Kind::Int, Kind::Int, frame)),
        Op::Compare(_) => on(combine(Kind::Int, Kind::Bool, frame)),
        Op::EqText => on(combine(Kind::Text, Kind::Bool, frame)),
        Op::EqLabel => on(eq_label(frame)),
        Op::EqUnit => on(eq_unit(frame)),
        Op::Not => on(turn(Kind::Bool, Kind::Bool, frame)),
        Op::Combine(_) => on(combine(Kind::Bool, Kind::Bool, frame)),
        Op::MakeInterval => on(combine(Kind::Int, Kind::Interval, frame)),
        Op::BoundOf(_) => on(turn(Kind::Interval, Kind::Int, frame)),
        Op::Get(slot) => on(get(schema, slot, frame)),
        Op::One(slot, _) => one(schema, slot, frame, target),
        Op::Links(slot) => on(links(schema, slot, frame)),
        Op::Find(query) => on(find(schema, code, query, frame)),
        Op::Size => on(size(frame)),
        Op::Alive(_) => alive(frame, target),
        Op::As(class, _) => as_class(class, frame, target),
        Op::New(class) => on(new_unit(part, class, frame)),
        Op::Set(slot) => on(set_slot(schema, part, slot, frame)),
        Op::Relink(_, slot) => on(relink(schema, part, slot, frame)),
        Op::Enter(space) => on(enter(schema, part, space, frame)),
        Op::Leave(space) => on(leave(schema, part, space, frame)),
        Op::Delete => on(delete(schema, part, frame)),
        Op::Say(count) => on(say(part, count, frame)),
        Op::Jump(_) | Op::Back(_) => only_there(frame, target),
        Op::Unless(_) => unless(frame, target),
        Op::Next(local, _) => next_unit(local, frame, target),
        Op::Done => done(part, frame),
        Op::Rate => rate(part, frame),
        Op::Decline => decline(part, frame),
        Op::Answer => answer(part, frame),
    }
}
