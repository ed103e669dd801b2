//! One step of an execution. `execute` calls it for each op.

ghost use Rattle.std.specs.Prelude.{◌≡◌, false};
ghost use Rattle.bb_basis.specs.Results.{Gives};
ghost use Rattle.bb_code.specs.Code.{IsOp};
ghost use Rattle.bb_machine.specs.declared.halt.Halt.TheVariants.{Memory as OutOfMemory};
ghost use Rattle.bb_machine.specs.Kept.{Kept};
ghost use Rattle.bb_machine.specs.Step.{step};
ghost use Rattle.bb_machine.specs.Writes.{is_write};

use crate::Board;
use crate::arithmetic::{
    bound, calculate, combine, compare, divide, eq_label, eq_text, eq_unit, make_interval, negate,
};
use crate::changing::{delete, enter, leave, new_unit, relink, say, set_slot};
use crate::halt::Halt;
use crate::jumping::{answer, next_unit, rate, unless};
use crate::machine::Machine;
use crate::outcome::Answer;
use crate::reading::{
    alive, as_class, drop_one, find, get, links, load, one, push_label, push_text, size,
    store_local,
};
use crate::value::Value;
use bb_code::{Code, Op};
use std::alloc::Global;

/// Applies an op to a state and its blackboard, or returns why no op follows.
#[tactic(auto, unfolding(crate::specs::Step::step))]
pub(crate) fn step<'a>(
    machine: &mut Machine<'a>,
    alloc: Global,
    code: &'a Code,
    op: Op,
    board: &mut Board,
) -> Result<(), Halt>
    requires { IsOp op }
    ensures gives { Gives OutOfMemory (λ _. (machine.new, board.new)) result
        (step code.now op (machine.old, board.old)) }
    ensures kept { Kept result board.old board.new }
    ensures reads { is_write op ≡ false → board.new ≡ board.old }
{
    match op {
        Op::PushInt(number) => machine.push(Value::Int(number)),
        Op::PushText(text) => push_text(machine, code, text),
        Op::PushBool(truth) => machine.push(Value::Bool(truth)),
        Op::PushLabel(set, label) => push_label(machine, board, set, label),
        Op::Load(local) => load(machine, local),
        Op::Store(local) => store_local(machine, local),
        Op::Pop => drop_one(machine),
        Op::Calculate(calculation) => calculate(machine, calculation),
        Op::Divide(division, divisor) => divide(machine, division, divisor),
        Op::Compare(comparison) => compare(machine, comparison),
        Op::EqText => eq_text(machine),
        Op::EqLabel => eq_label(machine),
        Op::EqUnit => eq_unit(machine),
        Op::Not => negate(machine),
        Op::Combine(logic) => combine(machine, logic),
        Op::MakeInterval => make_interval(machine),
        Op::BoundOf(end) => bound(machine, end),
        Op::Get(slot) => get(machine, board, slot),
        Op::One(slot, place) => one(machine, board, slot, place),
        Op::Links(slot) => links(machine, board, slot),
        Op::Find(query) => find(machine, alloc, code, board, query),
        Op::Size => size(machine),
        Op::Alive(place) => alive(machine, board, place),
        Op::As(class, place) => as_class(machine, board, class, place),
        Op::New(class) => new_unit(machine, board, class),
        Op::Set(slot) => set_slot(machine, board, slot),
        Op::Relink(change, slot) => relink(machine, board, change, slot),
        Op::Enter(space) => enter(machine, board, space),
        Op::Leave(space) => leave(machine, board, space),
        Op::Delete => delete(machine, board),
        Op::Say(count) => say(machine, alloc, board, count),
        Op::Unless(place) => unless(machine, place),
        Op::Next(local, place) => next_unit(machine, board, local, place),
        Op::Jump(place) | Op::Back(place) => {
            machine.go_to(place as usize);
            Ok(())
        }
        Op::Done => Err(Halt::Answered(Answer::Done)),
        Op::Rate => rate(machine),
        Op::Decline => Err(Halt::Answered(Answer::Declined)),
        Op::Answer => answer(machine),
    }
}
