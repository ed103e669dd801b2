//! Tables of the loops of a code, by op index. `check_loops` makes them before it scans the ops.

ghost use Rattle.std.specs.Prelude.{◌≡◌, ◌<◌, IfOk, length, max, set, slice_index, true};
ghost use Rattle.bb_verify.specs.nesting.proving.LoopTables.{HasEnds, HasReach, IsDeepest, HasDeepest, HasHeads, HasTables};

use bb_basis::Items;
use bb_code::{Code, Loop};
use std::alloc::{AllocError, Global};

/// Tables of all loops of a code, whether or not they are in order. For the loops 1-5 and 2-4 of 6 ops:
///
/// ```text
/// index    0 1 2 3 4 5 6
/// ends     . . . . x x .
/// deepest  0 0 2 3 3 2 0
/// ```
#[derive(Drop)]
pub(crate) struct LoopTables {
    /// For each op index, and the one past the last, whether a loop ends there.
    pub(crate) ends: Items<bool>,
    /// At index `place + 1`: 1 plus the maximum head of the loops that hold the op at `place`, or 0. At index 0: 0.
    pub(crate) deepest: Items<usize>,
}

fn put_end(ends: &mut Vec<bool>, end: usize)
    ensures { ends.new.items ≡ set ends.old.items end true }
{
    if end < ends.len() {
        ends[end] = true;
    }
}

// For each of `count` places, whether a loop ends there.
fn ends_of(alloc: Global, count: usize, loops: &[Loop]) -> Result<Vec<bool>, AllocError>
    ensures { IfOk result (λ v. HasEnds count loops.now v.items) }
{
    let mut ends = vec![in alloc; false; count]?;
    for l in loops {
        put_end(&mut ends, l.end as usize);
    }
    Ok(ends)
}

fn put_reach(reach: &mut Vec<usize>, head: usize, end: usize)
    ensures { reach.new.items ≡ set reach.old.items head (max (slice_index reach.old.items head) end) }
{
    if head < reach.len() {
        reach[head] = reach[head].max(end);
    }
}

// For each of `count` places, the maximum end of the loops with their heads there, or 0. For the loops 1-5 and 2-4 of
// 6 ops: 0 5 4 0 0 0.
fn reach_of(alloc: Global, count: usize, loops: &[Loop]) -> Result<Vec<usize>, AllocError>
    ensures { IfOk result (λ v. HasReach count loops.now v.items) }
{
    let mut reach = vec![in alloc; 0; count]?;
    for l in loops {
        put_reach(&mut reach, l.head as usize, l.end as usize);
    }
    Ok(reach)
}

// 1 plus the maximum head from which a loop extends past the place, or 0. If no loop does from a head, the search
// continues at the maximum head from which one extends past the place before that head.
fn deepest_at(reach: &[usize], deepest: &[usize], place: usize) -> usize
    requires inside { place < length reach.now }
    requires before { HasDeepest place reach.now deepest.now }
    ensures { IsDeepest reach.now place result }
{
    let mut found = place + 1;
    while found > 0 && reach[found - 1] <= place {
        found = deepest[found - 1];
    }
    found
}

// At index `place + 1`: the result of `deepest_at` for the place. At index 0: 0.
fn deepest_of(alloc: Global, reach: &[usize]) -> Result<Vec<usize>, AllocError>
    ensures { IfOk result (λ v. HasDeepest (length reach.now) reach.now v.items) }
{
    let mut deepest = Vec::new(alloc);
    deepest.push(0)?;
    let count = reach.len();
    for place in 0..count {
        let found = deepest_at(reach, &deepest, place);
        deepest.push(found)?;
    }
    Ok(deepest)
}

// The table `deepest` of `LoopTables`, for a code of `count` ops.
fn heads_of(alloc: Global, count: usize, loops: &[Loop]) -> Result<Vec<usize>, AllocError>
    ensures { IfOk result (λ v. HasHeads count loops.now v.items) }
{
    let reach = reach_of(alloc, count, loops)?;
    deepest_of(alloc, &reach)
}

/// Returns the tables of a code.
pub(crate) fn loop_tables(alloc: Global, code: &Code) -> Result<LoopTables, AllocError>
    ensures { IfOk result (λ tables. HasTables code.now tables) }
{
    let count = code.ops().len();
    let ends = ends_of(alloc, count + 1, code.loops())?;
    let deepest = heads_of(alloc, count, code.loops())?;
    Ok(LoopTables {
        ends: Items::from(ends),
        deepest: Items::from(deepest),
    })
}
