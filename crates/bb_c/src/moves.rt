//! The calls that begin, move and end a run.

ghost use Rattle.std.specs.Prelude.{◌≡◌, None};
ghost use Rattle.bb_c_run.specs.Moves.{advance, one_turn};
ghost use Rattle.bb_c.specs.Called.{Answered, Applies, Calls, Finishes, Opens, Posted};
ghost use Rattle.bb_c.specs.Looked.{IfText};
ghost use Rattle.bb_c.specs.declared.status.TheConstants.{MISUSE};

use crate::run::Run;
use crate::status::{MEMORY, MISUSE, REFUSED, status_of};
use bb_c_run::{Held, OpenFault};
use std::alloc::Global;
use std::str;

/// Begins the run of an input, with no activation rated below `floor`. Its sources may act by natives with the names in
/// `natives`, one on each line; the host answers for them. The handle must be none. Returns the state of the run: 0 at
/// rest, 3 going, 4 full; or 2 if the input is refused or the names are not UTF-8, 5 if memory ran out, 9 if the handle
/// already has a run.
#[unsafe(no_mangle)]
pub extern "C" fn bb_open(
    alloc: Global,
    run: &mut Run,
    input: &[u8],
    natives: &[u8],
    floor: i64,
) -> u8
    ensures { IfText natives.now (Opens run.old.sitting run.new.sitting input.now natives.now floor result)
        (run.new.sitting ≡ run.old.sitting) result }
{
    match str::from_utf8(natives) {
        Ok(natives) => open(alloc, run, input, natives, floor),
        Err(_) => REFUSED,
    }
}

// Begins the run of an input if the handle has none.
fn open(alloc: Global, run: &mut Run, input: &[u8], natives: &str, floor: i64) -> u8
    ensures { Opens run.old.sitting run.new.sitting input.now natives.now floor result }
{
    if let Some(held) = run.take(alloc) {
        run.put(held);
        return MISUSE;
    }
    let held = match Held::open(alloc, input, natives, floor) {
        Ok(held) => held,
        Err(OpenFault::Refused) => return REFUSED,
        Err(OpenFault::Memory) => return MEMORY,
    };
    let Ok(held) = Box::new(alloc, held) else {
        return MEMORY;
    };
    let status = status_of(held.stands());
    run.put(held);
    status
}

/// Makes a cycle, or emits quiescence if nothing can be chosen. Returns the state of the run: 0 at rest, 3 going, 4
/// full, 8 a native is due, 5 memory ran out, 9 the run does not exist or is finished.
#[unsafe(no_mangle)]
pub extern "C" fn bb_turn(alloc: Global, run: &mut Run) -> u8
    ensures { Calls one_turn run.old.sitting run.new.sitting result }
{
    let Some(mut held) = run.take(alloc) else {
        return MISUSE;
    };
    let status = status_of(held.turn());
    run.put(held);
    status
}

/// Makes up to `cycles` more cycles, then emits quiescence if nothing can be chosen. Returns the state of the run, as
/// `bb_turn` does.
#[unsafe(no_mangle)]
pub extern "C" fn bb_advance(alloc: Global, run: &mut Run, cycles: u32) -> u8
    ensures { Calls (advance cycles) run.old.sitting run.new.sitting result }
{
    let Some(mut held) = run.take(alloc) else {
        return MISUSE;
    };
    let status = status_of(held.advance(cycles));
    run.put(held);
    status
}

/// Posts the gathered asks. Returns the state of the run, as `bb_turn` does; or 9, with the run and the asks unchanged,
/// if a native is due.
#[tactic(auto, using(crate::proofs::MisuseLemmas::misuse_keeps))]
#[unsafe(no_mangle)]
pub extern "C" fn bb_post(alloc: Global, run: &mut Run) -> u8
    ensures applies { Applies Posted run.old.sitting run.new.sitting result }
    ensures misuse { result ≡ MISUSE → run.new.sitting ≡ run.old.sitting }
{
    let Some(mut held) = run.take(alloc) else {
        return MISUSE;
    };
    let status = status_of(held.post());
    run.put(held);
    status
}

/// Answers for the native that is due with the gathered asks. Returns the state of the run, as `bb_turn` does; or 9,
/// with the run and the asks unchanged, if no native is due.
#[tactic(auto, using(crate::proofs::MisuseLemmas::misuse_keeps))]
#[unsafe(no_mangle)]
pub extern "C" fn bb_answer(alloc: Global, run: &mut Run) -> u8
    ensures applies { Applies Answered run.old.sitting run.new.sitting result }
    ensures misuse { result ≡ MISUSE → run.new.sitting ≡ run.old.sitting }
{
    let Some(mut held) = run.take(alloc) else {
        return MISUSE;
    };
    let status = status_of(held.answer());
    run.put(held);
    status
}

/// Ends a run, at rest or at its limit. Afterwards only its trace can be read. Returns how it ended: 0 by quiescence, 3
/// by its limit, 4 full, 5 memory ran out, 9 the run does not exist or is finished; or 8 if a native is due, and then
/// the run is unchanged.
#[unsafe(no_mangle)]
pub extern "C" fn bb_finish(alloc: Global, run: &mut Run) -> u8
    ensures { Finishes run.old.sitting run.new.sitting result }
{
    let Some(mut held) = run.take(alloc) else {
        return MISUSE;
    };
    let status = status_of(held.finish());
    run.put(held);
    status
}

/// Closes a run, frees its memory and sets the handle to none. Does nothing if the handle is already none.
#[unsafe(no_mangle)]
pub extern "C" fn bb_close(alloc: Global, run: &mut Run)
    ensures { run.new.sitting ≡ None }
{
    let _held = run.take(alloc);
}
