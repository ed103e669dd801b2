//! The calls that read the trace of a run and its counters.

ghost use Rattle.std.specs.Prelude.{◌≡◌};
ghost use Rattle.bb_c.specs.Called.{Reads, Skips, made_of, next_of};

use crate::run::Run;
use crate::status::{MISUSE, OK};
use std::alloc::Global;

/// Reads as much of the unread trace as `to` can hold, and writes the number of bytes read to `len`. Returns 0, or 9 if
/// the run does not exist.
#[unsafe(no_mangle)]
pub extern "C" fn bb_read(alloc: Global, run: &mut Run, to: &mut [u8], len: &mut usize) -> u8
    ensures { Reads run.old.sitting run.new.sitting to.old to.new len.new result }
{
    let Some(mut held) = run.take(alloc) else {
        *len = 0;
        return MISUSE;
    };
    *len = held.read(to);
    run.put(held);
    OK
}

/// Discards the unread trace. Returns 0, or 9 if the run does not exist.
#[unsafe(no_mangle)]
pub extern "C" fn bb_skip(alloc: Global, run: &mut Run) -> u8
    ensures { Skips run.old.sitting run.new.sitting result }
{
    let Some(mut held) = run.take(alloc) else {
        return MISUSE;
    };
    held.skip();
    run.put(held);
    OK
}

/// Returns the number of the next new unit, or 0 if the run does not exist or is finished.
#[unsafe(no_mangle)]
pub extern "C" fn bb_next(alloc: Global, run: &mut Run) -> u64
    ensures next { result ≡ next_of run.old.sitting }
    ensures kept { run.new.sitting ≡ run.old.sitting }
{
    let Some(held) = run.take(alloc) else {
        return 0;
    };
    let next = held.next_unit();
    run.put(held);
    next
}

/// Returns the number of cycles that were made, or 0 if the run does not exist or is finished.
#[unsafe(no_mangle)]
pub extern "C" fn bb_made(alloc: Global, run: &mut Run) -> u64
    ensures made { result ≡ made_of run.old.sitting }
    ensures kept { run.new.sitting ≡ run.old.sitting }
{
    let Some(held) = run.take(alloc) else {
        return 0;
    };
    let made = held.made();
    run.put(held);
    made
}
