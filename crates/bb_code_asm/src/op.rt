//! The text form of ops: the name, and then the operands in the order of the op's bytes.

use crate::fault::Slip;
use crate::operands::Operands;
use crate::text_table::plain_op;
use bb_code::{Division, LinkChange, Op, SAID_LIMIT};

/// Reads the operands of an op and returns it.
pub(crate) fn op_of(name: &str, operands: &mut Operands<'_>) -> Result<Op, Slip> {
    let op = match plain_op(name) {
        Some(op) => op,
        None => match value_op(name, operands)? {
            Some(op) => op,
            None => match unit_op(name, operands)? {
                Some(op) => op,
                None => jumping_op(name, operands)?.ok_or(Slip::Name)?,
            },
        },
    };
    operands.end()?;
    Ok(op)
}

// An op on values and locals, if one has the name.
fn value_op(name: &str, operands: &mut Operands<'_>) -> Result<Option<Op>, Slip> {
    let op = match name {
        "PushInt" => Op::PushInt(operands.number()?),
        "PushText" => Op::PushText(operands.number()?),
        "PushBool" => Op::PushBool(operands.truth()?),
        "PushLabel" => {
            let set = operands.number()?;
            Op::PushLabel(set, operands.number()?)
        }
        "Load" => Op::Load(operands.number()?),
        "Store" => Op::Store(operands.number()?),
        "DivBy" => Op::Divide(Division::DivBy, operands.divisor()?),
        "ModBy" => Op::Divide(Division::ModBy, operands.divisor()?),
        "Say" => Op::Say(said_count(operands)?),
        _ => return Ok(None),
    };
    Ok(Some(op))
}

fn said_count(operands: &mut Operands<'_>) -> Result<u8, Slip> {
    let count = operands.number::<u8>()?;
    if count > SAID_LIMIT {
        return Err(Slip::Number);
    }
    Ok(count)
}

// An op on units that is followed by the next op, if one has the name.
fn unit_op(name: &str, operands: &mut Operands<'_>) -> Result<Option<Op>, Slip> {
    let op = match name {
        "Get" => Op::Get(operands.number()?),
        "Links" => Op::Links(operands.number()?),
        "Find" => Op::Find(operands.number()?),
        "New" => Op::New(operands.number()?),
        "Set" => Op::Set(operands.number()?),
        "Link" => Op::Relink(LinkChange::Link, operands.number()?),
        "Unlink" => Op::Relink(LinkChange::Unlink, operands.number()?),
        "Enter" => Op::Enter(operands.number()?),
        "Leave" => Op::Leave(operands.number()?),
        _ => return Ok(None),
    };
    Ok(Some(op))
}

// An op that may go to a place, if one has the name.
fn jumping_op(name: &str, operands: &mut Operands<'_>) -> Result<Option<Op>, Slip> {
    let op = match name {
        "One" => {
            let slot = operands.number()?;
            Op::One(slot, operands.place()?)
        }
        "Alive" => Op::Alive(operands.place()?),
        "As" => {
            let class = operands.number()?;
            Op::As(class, operands.place()?)
        }
        "Jump" => Op::Jump(operands.place()?),
        "Unless" => Op::Unless(operands.place()?),
        "Next" => {
            let local = operands.number()?;
            Op::Next(local, operands.place()?)
        }
        "Back" => Op::Back(operands.place()?),
        _ => return Ok(None),
    };
    Ok(Some(op))
}
