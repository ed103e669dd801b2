//! Checks one loop of a code: its first and last op, and its nesting with the others. `check_loops` calls it for the
//! loop with its head at an op index.

ghost use Rattle.std.specs.Prelude.{◌≡◌, filter};
ghost use Rattle.bb_code.specs.Each.{each};
ghost use Rattle.bb_verify.specs.nesting.Loops.{check_order, never, holds, begins, ends, op_before, local_in, local_of, is_same_local, is_around, nests, loop_due, head_due};
ghost use Rattle.bb_verify.specs.nesting.proving.OpenLoops.{IsAt};

use bb_code::{Code, Flaw, LocalId, Loop, Op, Place};

/// Returns `Flaw::Loop` unless the test holds.
pub(crate) fn check_order(test: bool) -> Result<(), Flaw>
    ensures { result ≡ check_order test }
{
    match test {
        true => Ok(()),
        false => Err(Flaw::Loop),
    }
}

/// Returns `Flaw::Loop` if the test holds.
pub(crate) fn never(test: bool) -> Result<(), Flaw>
    ensures { result ≡ never test }
{
    match test {
        true => Err(Flaw::Loop),
        false => Ok(()),
    }
}

// Whether the op at the head is a Next with the end as its target.
fn begins(l: Loop, op: Option<Op>) -> bool
    ensures { result ≡ begins l op }
{
    match op {
        Some(Op::Next(_, target)) => target == l.end,
        _ => false,
    }
}

// Whether the op before the end is a Back to the head.
fn ends(l: Loop, op: Option<Op>) -> bool
    ensures { result ≡ ends l op }
{
    match op {
        Some(Op::Back(target)) => target == l.head,
        _ => false,
    }
}

// The op before a place.
fn op_before(code: &Code, place: usize) -> Option<Op>
    ensures { result ≡ op_before code.now place }
{
    if place == 0 {
        return None;
    }
    code.op(place - 1)
}

fn local_in(op: Option<Op>) -> Option<LocalId>
    ensures { result ≡ local_in op }
{
    match op {
        Some(Op::Next(local, _)) => Some(local),
        _ => None,
    }
}

/// Returns the local of a loop, if there is a Next at its head.
pub(crate) fn local_of(code: &Code, l: Loop) -> Option<LocalId>
    ensures { result ≡ local_of code.now l }
{
    local_in(code.op(l.head as usize))
}

/// Returns whether both locals are present and equal.
pub(crate) fn is_same_local(local: Option<LocalId>, other: Option<LocalId>) -> bool
    ensures { result ≡ is_same_local local other }
{
    match (local, other) {
        (Some(local), Some(other)) => local == other,
        _ => false,
    }
}

// Whether the first loop holds the head of the second, and has an earlier head.
fn is_around(outer: Loop, l: Loop) -> bool
    ensures { result ≡ is_around outer l }
{
    outer.head < l.head && l.head < outer.end
}

// Checks that `outer`, if it is around `l`, ends no earlier and has another local.
#[tactic(auto, unfolding(crate::specs::nesting::Loops::nests))]
fn nests(code: &Code, l: Loop, outer: Loop) -> Result<(), Flaw>
    ensures { result ≡ nests code.now l outer }
{
    never(is_around(outer, l) && outer.end < l.end)?;
    never(is_around(outer, l) && is_same_local(local_of(code, outer), local_of(code, l)))
}

fn nests_with_all(code: &Code, l: Loop, loops: &[Loop]) -> Result<(), Flaw>
    ensures { result ≡ each (nests code.now l) loops.now }
{
    for outer in loops {
        nests(code, l, *outer)?;
    }
    Ok(())
}

// Checks that a loop nests with all others. Only loops that hold its head need to be checked.
fn nests_around(code: &Code, l: Loop, around: &[Loop]) -> Result<(), Flaw>
    requires { around.now ≡ filter (holds l.head) code.now.loops }
    ensures { result ≡ each (nests code.now l) code.now.loops }
{
    nests_with_all(code, l, around)
}

// Checks the first and last op of a loop, and that it nests with all others.
#[tactic(auto, unfolding(crate::specs::nesting::Loops::loop_due))]
fn loop_due(code: &Code, l: Loop, around: &[Loop]) -> Result<(), Flaw>
    requires { around.now ≡ filter (holds l.head) code.now.loops }
    ensures { result ≡ loop_due code.now l }
{
    check_order(begins(l, code.op(l.head as usize)))?;
    check_order(ends(l, op_before(code, l.end as usize)))?;
    nests_around(code, l, around)
}

/// Checks the loop with its head at an op index, if there is one: its first and last op, and its nesting with the
/// others.
pub(crate) fn heads_due(
    code: &Code,
    place: Place,
    here: Option<Loop>,
    around: &[Loop],
) -> Result<(), Flaw>
    requires { IsAt code.now place here around.now }
    ensures { result ≡ each (head_due code.now place) code.now.loops }
{
    match here {
        None => Ok(()),
        Some(l) => loop_due(code, l, around),
    }
}
