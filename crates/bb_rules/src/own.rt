//! Recognizes, by their first ops, questions whose answer is no for every pending activation whose unit is not the
//! event's. `Question::asks_own` calls it, so that an event asks only about the activations for its own unit.

ghost use Rattle.std.specs.Prelude.{◌≡◌, slice_get};
ghost use Rattle.bb_rules.specs.Own.{answers, asks_own, begins_with_own, compares_units, loads, refuses, says_no};

use bb_code::{Code, LocalId, Op, Place};

// The local of the activation's unit.
const IT: LocalId = 0;

// The local of the event's unit.
const EV: LocalId = 1;

fn loads(op: Option<Op>, local: LocalId) -> bool
    ensures { result ≡ loads local op }
{
    match op {
        Some(Op::Load(loaded)) => loaded == local,
        _ => false,
    }
}

fn compares_units(op: Option<Op>) -> bool
    ensures { result ≡ compares_units op }
{
    match op {
        Some(Op::EqUnit) => true,
        _ => false,
    }
}

fn answers(op: Option<Op>) -> bool
    ensures { result ≡ answers op }
{
    match op {
        Some(Op::Answer) => true,
        _ => false,
    }
}

// Returns whether the op at a place, with the next one, makes the answer no.
fn says_no(code: &Code, place: Place) -> bool
    ensures { result ≡ says_no code.now place (slice_get code.now.ops place) }
{
    let place = place as usize;
    match code.op(place) {
        Some(Op::Decline) => true,
        Some(Op::PushBool(false)) => answers(code.op(place + 1)),
        _ => false,
    }
}

// Returns whether this op, after a comparison in the first three, makes the answer no if the comparison was false.
fn refuses(code: &Code, op: Option<Op>) -> bool
    ensures { result ≡ refuses code.now op }
{
    match op {
        Some(Op::Answer) => true,
        Some(Op::Unless(place)) => place > 3 && says_no(code, place),
        _ => false,
    }
}

// Returns whether the first three ops compare the activation's unit with the event's.
fn begins_with_own(code: &Code) -> bool
    ensures { result ≡ begins_with_own code.now }
{
    let (first, second) = (code.op(0), code.op(1));
    let both = loads(first, IT) && loads(second, EV) || loads(first, EV) && loads(second, IT);
    both && compares_units(code.op(2))
}

/// Returns whether a code begins with that comparison, and its answer is no if the units differ.
pub(crate) fn asks_own(code: &Code) -> bool
    ensures { result ≡ asks_own code.now }
{
    code.locals() >= 2 && begins_with_own(code) && refuses(code, code.op(3))
}
