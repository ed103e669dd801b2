//! Ops at the start of bytes. `decode` calls it.

ghost use Rattle.std.specs.Prelude.{◌≡◌};
ghost use Rattle.bb_code.specs.Answers.{map_ok};
ghost use Rattle.bb_code.specs.Ops.{push_label_at, branch_at, divide_at, say_at, next_at, op_after};

use super::fields::{Field, read_bool, read_byte, read_int, read_number};
use crate::fault::CodeFault;
use crate::op::{Division, Op};
use crate::parts::SAID_LIMIT;
use crate::table::{Branch, OpForm, op_form};
use std::alloc::Global;

#[tactic(auto, unfolding(crate::specs::Ops::push_label_at))]
fn read_push_label(bytes: &[u8]) -> Result<(Op, &[u8]), CodeFault>
    ensures { map_ok (λ x. (x.0, x.1.now)) result ≡ push_label_at bytes.now }
{
    let (set, rest) = read_number(bytes)?;
    let (label, rest) = read_byte(rest)?;
    Ok((Op::PushLabel(set, label), rest))
}

#[tactic(auto, unfolding(crate::specs::Ops::branch_at))]
fn read_branch(branch: Branch, bytes: &[u8]) -> Result<(Op, &[u8]), CodeFault>
    ensures { map_ok (λ x. (x.0, x.1.now)) result ≡ branch_at branch bytes.now }
{
    let (number, rest) = read_number(bytes)?;
    let (place, rest) = read_number(rest)?;
    Ok((branch.op(number, place), rest))
}

#[tactic(auto, unfolding(crate::specs::Ops::divide_at))]
fn read_divide(division: Division, bytes: &[u8]) -> Result<(Op, &[u8]), CodeFault>
    ensures { map_ok (λ x. (x.0, x.1.now)) result ≡ divide_at division bytes.now }
{
    let (by, rest) = read_int(bytes)?;
    if by < 1 {
        return Err(CodeFault::Operand);
    }
    Ok((Op::Divide(division, by), rest))
}

#[tactic(auto, unfolding(crate::specs::Ops::say_at))]
fn read_say(bytes: &[u8]) -> Result<(Op, &[u8]), CodeFault>
    ensures { map_ok (λ x. (x.0, x.1.now)) result ≡ say_at bytes.now }
{
    let (count, rest) = read_byte(bytes)?;
    if count > SAID_LIMIT {
        return Err(CodeFault::Operand);
    }
    Ok((Op::Say(count), rest))
}

#[tactic(auto, unfolding(crate::specs::Ops::next_at))]
fn read_next(bytes: &[u8]) -> Result<(Op, &[u8]), CodeFault>
    ensures { map_ok (λ x. (x.0, x.1.now)) result ≡ next_at bytes.now }
{
    let (local, rest) = read_byte(bytes)?;
    let (place, rest) = read_number(rest)?;
    Ok((Op::Next(local, place), rest))
}

// Reads what follows an opcode.
#[tactic(auto, unfolding(crate::specs::Ops::op_after))]
fn read_op_after(form: OpForm, bytes: &[u8]) -> Result<(Op, &[u8]), CodeFault>
    ensures { map_ok (λ x. (x.0, x.1.now)) result ≡ op_after form bytes.now }
{
    match form {
        OpForm::Plain(op) => Ok((op, bytes)),
        OpForm::Number(numbered) => {
            let (number, rest) = read_number(bytes)?;
            Ok((numbered.op(number), rest))
        }
        OpForm::Local(of) => {
            let (local, rest) = read_byte(bytes)?;
            Ok((of.op(local), rest))
        }
        OpForm::Branch(branch) => read_branch(branch, bytes),
        OpForm::Int => {
            let (number, rest) = read_int(bytes)?;
            Ok((Op::PushInt(number), rest))
        }
        OpForm::Bool => {
            let (value, rest) = read_bool(bytes)?;
            Ok((Op::PushBool(value), rest))
        }
        OpForm::Label => read_push_label(bytes),
        OpForm::Divisor(division) => read_divide(division, bytes),
        OpForm::Count => read_say(bytes),
        OpForm::Next => read_next(bytes),
    }
}

impl Field for Op {
    ghost use Rattle.bb_code.specs.Ops.{op_at};

    ghost at = { op_at };

    #[tactic(auto, unfolding(crate::specs::Ops::op_at))]
    fn read(_alloc: Global, bytes: &[u8]) -> Result<(Op, &[u8]), CodeFault> {
        let (code, rest) = read_byte(bytes)?;
        let form = op_form(code).ok_or(CodeFault::Opcode)?;
        read_op_after(form, rest)
    }
}
