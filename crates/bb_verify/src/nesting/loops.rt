//! The third phase of the verifier: the loops of a code. It scans the ops in order and keeps the loops that hold the
//! op. Therefore its time is linear in the numbers of ops and loops.

ghost use Rattle.std.specs.Prelude.{◌≡◌, ℕ, ◌<◌, ◌≤◌, ◌++◌, IfOk, Ok, filter, length, map, nat_le, slice_get};
ghost use Rattle.std.specs.Option.{option_to_list};
ghost use Rattle.bb_basis.specs.Results.{Gives};
ghost use Rattle.bb_verify.specs.declared.nesting.loops.TheConstants.{NESTING_LIMIT};
ghost use Rattle.bb_code.specs.Flaws.{out_of_memory};
ghost use Rattle.bb_code.specs.Code.{places};
ghost use Rattle.bb_verify.specs.nesting.Jumps.{check_target, jump_at, jumps};
ghost use Rattle.bb_verify.specs.nesting.Loops.{depth, rising, place_due, loop_at, loops};
ghost use Rattle.bb_verify.specs.nesting.proving.LoopTables.{HasTables};
ghost use Rattle.bb_verify.specs.nesting.proving.OpenLoops.{at_head, loops_at, passed, lasts, entered, IsAt, rest_due, depths_below};

use crate::nesting::loop_list::{rest_of, sorted_of};
use crate::nesting::loop_nesting::{check_order, heads_due};
use crate::nesting::loop_ops::op_due;
use crate::nesting::loop_tables::{LoopTables, loop_tables};
use bb_basis::Items;
use bb_code::{Code, Flaw, Loop, Op, Place, VerifyFault};
use std::alloc::{AllocError, Global};

/// The maximum number of loops that hold an op.
pub const NESTING_LIMIT: usize = 4;

// Whether at most `NESTING_LIMIT` loops hold the place.
fn few_around(code: &Code, place: Place, here: Option<Loop>, around: &[Loop]) -> bool
    requires { IsAt code.now place here around.now }
    ensures { result ≡ nat_le (depth code.now place) NESTING_LIMIT }
{
    around.len() <= NESTING_LIMIT
}

// Checks the loop with its head at the place, how many loops hold the place, and the op there.
#[tactic(auto, unfolding(crate::specs::nesting::proving::OpenLoops::rest_due))]
fn rest_due(
    code: &Code,
    tables: &LoopTables,
    place: Place,
    op: Op,
    here: Option<Loop>,
    around: &[Loop],
) -> Result<(), Flaw>
    requires tables { HasTables code.now tables.now }
    requires at { IsAt code.now place here around.now }
    requires inside { place < length code.now.ops }
    requires right { check_target (length code.now.ops) place op ≡ Ok tt }
    ensures { result ≡ rest_due code.now place op }
{
    heads_due(code, place, here, around)?;
    check_order(few_around(code, place, here, around))?;
    op_due(code, tables, place, op, here, around)
}

// Checks the loops at the place and its op, if there is one.
fn place_due(
    code: &Code,
    tables: &LoopTables,
    place: Place,
    op: Option<Op>,
    here: Option<Loop>,
    around: &[Loop],
) -> Result<(), Flaw>
    requires tables { HasTables code.now tables.now }
    requires at { IsAt code.now place here around.now }
    requires right { jump_at code.now place ≡ Ok tt }
    requires there { op ≡ slice_get code.now.ops place }
    ensures { result ≡ place_due code.now place op }
{
    match op {
        None => Ok(()),
        Some(op) => rest_due(code, tables, place, op, here, around),
    }
}

#[tactic(auto, unfolding(crate::specs::nesting::Loops::loop_at))]
fn loop_at(
    code: &Code,
    tables: &LoopTables,
    place: Place,
    here: Option<Loop>,
    around: &[Loop],
) -> Result<(), VerifyFault>
    requires tables { HasTables code.now tables.now }
    requires at { IsAt code.now place here around.now }
    requires right { jump_at code.now place ≡ Ok tt }
    ensures { result ≡ loop_at code.now place }
{
    place_due(code, tables, place, code.op(place as usize), here, around).map_err(
        |flaw| VerifyFault { place, flaw },
    )
}

fn at_head(place: Place, l: Loop) -> Option<Loop>
    ensures { result ≡ at_head place l }
{
    if l.head == place {
        return Some(l);
    }
    None
}

// The loop at index `next` of the list, if its head is at the place.
fn loops_at(code: &Code, place: Place, next: usize) -> Option<Loop>
    ensures { result ≡ loops_at place next code.now.loops }
{
    match code.loops().get(next) {
        None => None,
        Some(l) => at_head(place, *l),
    }
}

// The index of the next loop in the list, after the one with its head here.
fn passed(next: usize, here: Option<Loop>) -> usize
    requires { next < 65536 }
    ensures { result ≡ passed next here }
{
    match here {
        None => next,
        Some(_) => next + 1,
    }
}

fn add(around: &mut Vec<Loop>, here: Option<Loop>) -> Result<(), AllocError>
    ensures { IfOk result (λ _. around.new.items ≡ around.old.items ++ option_to_list here) }
{
    match here {
        None => Ok(()),
        Some(l) => {
            around.push(l)?;
            Ok(())
        }
    }
}

// Keeps the loops that end after the place.
fn leave_ended(around: &mut Vec<Loop>, place: Place)
    ensures { around.new.items ≡ filter (lasts place) around.old.items }
{
    around.retain(|l| place < l.end);
}

// Updates the loops that held the place before to the loops that hold this one.
fn enter(around: &mut Vec<Loop>, place: Place, here: Option<Loop>) -> Result<(), AllocError>
    ensures { IfOk result (λ _. around.new.items ≡ entered place around.old.items here) }
{
    add(around, here)?;
    leave_ended(around, place);
    Ok(())
}

// The number of loops that hold each place before `sorted`, up to which the list ascends, or the first fault there.
#[tactic(auto, unfolding(crate::specs::nesting::proving::OpenLoops::depths_below))]
fn depths_below(
    alloc: Global,
    code: &Code,
    tables: &LoopTables,
    sorted: Place,
) -> Result<Items<usize>, VerifyFault>
    requires tables { HasTables code.now tables.now }
    requires right { jumps code.now ≡ Ok tt }
    requires inside { sorted ≤ length code.now.ops }
    requires rises { (place : ℕ) → place < sorted → rising place code.now.loops ≡ Ok tt }
    ensures { Gives out_of_memory (λ depths. depths) result (depths_below code.now sorted) }
{
    let mut around = Vec::new(alloc);
    let mut depths = Vec::new(alloc);
    let mut next = 0;
    for place in 0..sorted {
        let here = loops_at(code, place, next);
        next = passed(next, here);
        enter(&mut around, place, here)?;
        loop_at(code, tables, place, here, &around)?;
        depths.push(around.len())?;
    }
    Ok(Items::from(depths))
}

/// Returns the number of loops that hold each op. Fails with the first op index that has loops out of order
/// (`Flaw::Loop`), or if memory runs out.
pub fn check_loops(alloc: Global, code: &Code) -> Result<Items<usize>, VerifyFault>
    requires { jumps code.now ≡ Ok tt }
    ensures fault { Gives out_of_memory (λ _. tt) result (loops code.now) }
    ensures depths { IfOk result (λ depths. depths ≡ map (depth code.now) (places code.now)) }
{
    let tables = loop_tables(alloc, code)?;
    let sorted = sorted_of(code);
    let depths = depths_below(alloc, code, &tables, sorted)?;
    rest_of(code, sorted)?;
    Ok(depths)
}
