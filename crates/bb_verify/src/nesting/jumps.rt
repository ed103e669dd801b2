//! The second phase of the verifier: the targets of jumps.

ghost use Rattle.std.specs.Prelude.{◌≡◌};
ghost use Rattle.bb_code.specs.Each.{each};
ghost use Rattle.bb_verify.specs.nesting.Jumps.{target_of, before, ahead, check_target, jump_at, jumps};

use bb_code::{Code, Flaw, Op, Place, VerifyFault};

/// Returns the target of an op, if it has one besides the next op.
pub fn target_of(op: Op) -> Option<Place>
    ensures { result ≡ target_of op }
{
    match op {
        Op::One(_, target) => Some(target),
        Op::Alive(target) => Some(target),
        Op::As(_, target) => Some(target),
        Op::Jump(target) => Some(target),
        Op::Unless(target) => Some(target),
        Op::Next(_, target) => Some(target),
        Op::Back(target) => Some(target),
        _ => None,
    }
}

// Checks that the first place is before the second.
fn before(place: usize, other: usize) -> Result<(), Flaw>
    ensures { result ≡ before place other }
{
    if place < other {
        return Ok(());
    }
    Err(Flaw::Jump)
}

// Checks that a target is ahead of the op, inside a code of `count` ops.
#[tactic(auto, unfolding(crate::specs::nesting::Jumps::ahead))]
fn ahead(count: usize, place: Place, target: Place) -> Result<(), Flaw>
    ensures { result ≡ ahead count place target }
{
    before(place as usize, target as usize)?;
    before(target as usize, count)
}

// Checks that an op at a place may jump to its target.
#[tactic(auto, unfolding(crate::specs::nesting::Jumps::check_target))]
fn check_target(count: usize, place: Place, op: Op) -> Result<(), Flaw>
    ensures { result ≡ check_target count place op }
{
    match op {
        Op::One(_, target) => ahead(count, place, target),
        Op::Alive(target) => ahead(count, place, target),
        Op::As(_, target) => ahead(count, place, target),
        Op::Jump(target) => ahead(count, place, target),
        Op::Unless(target) => ahead(count, place, target),
        Op::Next(_, target) => before(target as usize, count),
        Op::Back(target) => before(target as usize, place as usize),
        _ => Ok(()),
    }
}

// Checks that the op at a place, if there is one, may jump to its target.
#[tactic(auto, unfolding(crate::specs::nesting::Jumps::jump_at))]
fn jump_at(code: &Code, place: Place) -> Result<(), VerifyFault>
    ensures { result ≡ jump_at code.now place }
{
    let count = code.ops().len();
    match code.op(place as usize) {
        None => Ok(()),
        Some(op) => check_target(count, place, op).map_err(|flaw| VerifyFault { place, flaw }),
    }
}

/// Checks all jumps of a code. Returns the first fault, `Flaw::Jump` with its op index.
#[tactic(auto, unfolding(crate::specs::nesting::Jumps::jumps))]
pub fn check_jumps(code: &Code) -> Result<(), VerifyFault>
    ensures { result ≡ jumps code.now }
{
    let count = code.ops().len() as u16;
    for place in 0..count {
        jump_at(code, place)?;
    }
    Ok(())
}
