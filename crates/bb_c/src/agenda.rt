//! The calls that look up the agenda of a run.

ghost use Rattle.std.specs.Prelude.{◌≡◌, ◌⊎◌};
ghost use Rattle.bb_c.specs.Looked.{Fills, Looks, choice_of, pending_of, waits_of};
ghost use Rattle.bb_c.specs.declared.status.TheConstants.{MEMORY};

use crate::run::Run;
use crate::status::{MEMORY, MISUSE, NONE, OK, given};
use std::alloc::Global;

/// Writes the numbers of the pending activations, ascending, as far as `to` can hold them, and their count. Returns 0;
/// 1 if the run is finished; 5 if memory ran out; 9 if the run does not exist.
#[unsafe(no_mangle)]
pub extern "C" fn bb_pending(alloc: Global, run: &mut Run, to: &mut [u64], count: &mut usize) -> u8
    ensures told { Looks run.old.sitting pending_of
        (Fills to.old to.new count.new)
        ((to.new ≡ to.old) × (count.new ≡ count.old)) result
        ⊎ (((to.new ≡ to.old) × (count.new ≡ count.old)) × (result ≡ MEMORY)) }
    ensures kept { run.new.sitting ≡ run.old.sitting }
{
    let Some(held) = run.take(alloc) else {
        return MISUSE;
    };
    let found = held.pending(to);
    run.put(held);
    match found {
        Ok(found) => given(found, count),
        Err(_) => MEMORY,
    }
}

/// Writes the unit, the base and the rating of the pending activation with a number, as much of its source's name as
/// `to` can hold, and the number of bytes of the name. A unit of 0 means no unit. Returns 1 if the activation is not
/// pending.
#[unsafe(no_mangle)]
pub extern "C" fn bb_activation(
    alloc: Global,
    run: &mut Run,
    number: u64,
    unit: &mut u64,
    base: &mut i64,
    rating: &mut i64,
    to: &mut [u8],
    len: &mut usize,
) -> u8
    ensures told { Looks run.old.sitting (waits_of number)
        (λ w. (unit.new ≡ w.0.unit) × (base.new ≡ w.0.base) × (rating.new ≡ w.0.rating)
        × Fills to.old to.new len.new w.1)
        ((unit.new ≡ unit.old) × (base.new ≡ base.old) × (rating.new ≡ rating.old)
        × (to.new ≡ to.old) × (len.new ≡ len.old)) result }
    ensures kept { run.new.sitting ≡ run.old.sitting }
{
    let Some(held) = run.take(alloc) else {
        return MISUSE;
    };
    let found = held.waits(number, to);
    run.put(held);
    match found {
        Some((waits, count)) => {
            *unit = waits.unit;
            *base = waits.base;
            *rating = waits.rating;
            *len = count;
            OK
        }
        None => NONE,
    }
}

/// Writes the number of the activation that the next cycle executes. Returns 1 if none can be chosen.
#[unsafe(no_mangle)]
pub extern "C" fn bb_choice(alloc: Global, run: &mut Run, number: &mut u64) -> u8
    ensures told { Looks run.old.sitting choice_of (λ n. number.new ≡ n) (number.new ≡ number.old) result }
    ensures kept { run.new.sitting ≡ run.old.sitting }
{
    let Some(held) = run.take(alloc) else {
        return MISUSE;
    };
    let found = held.choice();
    run.put(held);
    given(found, number)
}
