//! The restrictions of loops on an op: the positions of Next and Back, the targets of jumps, and the locals that may be
//! stored to. `check_loops` calls it for the op at an index.

ghost use Rattle.std.specs.Prelude.{◌≡◌, ◌+◌, ◌<◌, Ok, length};
ghost use Rattle.std.specs.List.{list_any};
ghost use Rattle.bb_code.specs.Each.{each};
ghost use Rattle.bb_verify.specs.nesting.Jumps.{ahead, check_target};
ghost use Rattle.bb_verify.specs.nesting.Loops.{holds, is_head, is_end, enters_at_head, keeps_local, op_due};
ghost use Rattle.bb_verify.specs.nesting.proving.LoopTables.{HasTables};
ghost use Rattle.bb_verify.specs.nesting.proving.OpenLoops.{IsAt};

use crate::nesting::loop_nesting::{check_order, is_same_local, local_of, never};
use crate::nesting::loop_tables::LoopTables;
use bb_code::{Code, Flaw, LocalId, Loop, Op, Place};

// Whether a loop holds a place: from its head to before its end.
fn holds(place: usize, l: Loop) -> bool
    ensures { result ≡ holds place l }
{
    l.head as usize <= place && place < l.end as usize
}

// Whether a loop has its head at the place.
fn any_head(code: &Code, place: Place, here: Option<Loop>, around: &[Loop]) -> bool
    requires { IsAt code.now place here around.now }
    ensures { result ≡ list_any (is_head place) code.now.loops }
{
    match here {
        None => false,
        Some(_) => true,
    }
}

// Whether a loop ends at the place.
fn any_end(code: &Code, tables: &LoopTables, place: usize) -> bool
    requires tables { HasTables code.now tables.now }
    requires inside { place < length code.now.ops + 1 }
    ensures { result ≡ list_any (is_end place) code.now.loops }
{
    tables.ends.as_slice()[place]
}

// Checks that every loop that holds the target holds the place.
fn enters_at_heads(
    code: &Code,
    tables: &LoopTables,
    place: Place,
    target: Place,
) -> Result<(), Flaw>
    requires tables { HasTables code.now tables.now }
    requires ahead { ahead (length code.now.ops) place target ≡ Ok tt }
    ensures { result ≡ each (enters_at_head place target) code.now.loops }
{
    never(place as usize + 1 < tables.deepest.as_slice()[target as usize + 1])
}

// Checks that a loop, if it holds the place, has another local.
#[tactic(auto, unfolding(crate::specs::nesting::Loops::keeps_local))]
fn keeps_local(code: &Code, place: usize, local: LocalId, l: Loop) -> Result<(), Flaw>
    ensures { result ≡ keeps_local code.now place local l }
{
    never(holds(place, l) && is_same_local(local_of(code, l), Some(local)))
}

fn keeps_locals(code: &Code, place: usize, local: LocalId, loops: &[Loop]) -> Result<(), Flaw>
    ensures { result ≡ each (keeps_local code.now place local) loops.now }
{
    for l in loops {
        keeps_local(code, place, local, *l)?;
    }
    Ok(())
}

// Checks that every loop that holds the place has another local.
fn keeps_around(
    code: &Code,
    place: Place,
    local: LocalId,
    here: Option<Loop>,
    around: &[Loop],
) -> Result<(), Flaw>
    requires { IsAt code.now place here around.now }
    ensures { result ≡ each (keeps_local code.now place local) code.now.loops }
{
    keeps_locals(code, place as usize, local, around)
}

/// Checks the restrictions of loops on the op at an index.
#[tactic(auto, unfolding(crate::specs::nesting::Loops::op_due, crate::specs::nesting::Jumps::check_target))]
pub(crate) fn op_due(
    code: &Code,
    tables: &LoopTables,
    at: Place,
    op: Op,
    here: Option<Loop>,
    around: &[Loop],
) -> Result<(), Flaw>
    requires tables { HasTables code.now tables.now }
    requires at { IsAt code.now at here around.now }
    requires inside { at < length code.now.ops }
    requires right { check_target (length code.now.ops) at op ≡ Ok tt }
    ensures { result ≡ op_due code.now at op }
{
    match op {
        Op::Next(_, _) => check_order(any_head(code, at, here, around)),
        Op::Back(_) => check_order(any_end(code, tables, at as usize + 1)),
        Op::Store(local) => keeps_around(code, at, local, here, around),
        Op::Jump(target) => enters_at_heads(code, tables, at, target),
        Op::Unless(target) => enters_at_heads(code, tables, at, target),
        Op::One(_, target) => enters_at_heads(code, tables, at, target),
        Op::Alive(target) => enters_at_heads(code, tables, at, target),
        Op::As(_, target) => enters_at_heads(code, tables, at, target),
        _ => Ok(()),
    }
}
