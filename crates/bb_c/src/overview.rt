//! The calls that look up something of a run as a whole: the native that is due, the units of a class and of a space,
//! the whole blackboard, and the possible costs of its sources.

ghost use Rattle.std.specs.Prelude.{◌≡◌, ◌⊎◌, if◌then◌else◌};
ghost use Rattle.bb_c.specs.Looked.{Fills, IfText, Looks, creates_of, document_of, due_of, members_of, most_steps_of};
ghost use Rattle.bb_c.specs.Looked.{units_of};
ghost use Rattle.bb_c.specs.declared.status.TheConstants.{MEMORY};

use crate::run::Run;
use crate::status::{MEMORY, MISUSE, NONE, OK, REFUSED, given};
use std::alloc::Global;
use std::str;

/// Writes the unit of the native that is due, as much of the native's name as `to` can hold, and the number of bytes of
/// the name. Like all calls that look something up, it returns 0; 1 if it does not exist, here if no native is due; or
/// 9 if the run does not exist. It writes only if it returns 0.
#[unsafe(no_mangle)]
pub extern "C" fn bb_due(
    alloc: Global,
    run: &mut Run,
    unit: &mut u64,
    to: &mut [u8],
    len: &mut usize,
) -> u8
    ensures told { Looks run.old.sitting due_of
        (λ d. (unit.new ≡ d.0) × Fills to.old to.new len.new d.1)
        ((unit.new ≡ unit.old) × (to.new ≡ to.old) × (len.new ≡ len.old)) result }
    ensures kept { run.new.sitting ≡ run.old.sitting }
{
    let Some(held) = run.take(alloc) else {
        return MISUSE;
    };
    let found = held.due(to);
    run.put(held);
    match found {
        Some((number, count)) => {
            *unit = number;
            *len = count;
            OK
        }
        None => NONE,
    }
}

/// Writes the units of a class and of the classes below it, ascending, as far as `to` can hold them, and their number.
/// Returns 1 if the class does not exist, 2 if the name is not UTF-8, 5 if memory ran out.
#[unsafe(no_mangle)]
pub extern "C" fn bb_units(
    alloc: Global,
    run: &mut Run,
    class_name: &[u8],
    to: &mut [u64],
    count: &mut usize,
) -> u8
    ensures told { IfText class_name.now (Looks run.old.sitting (units_of class_name.now)
        (Fills to.old to.new count.new)
        ((to.new ≡ to.old) × (count.new ≡ count.old)) result
        ⊎ (((to.new ≡ to.old) × (count.new ≡ count.old)) × (result ≡ MEMORY)))
        ((to.new ≡ to.old) × (count.new ≡ count.old)) result }
    ensures kept { run.new.sitting ≡ run.old.sitting }
{
    let Ok(class) = str::from_utf8(class_name) else {
        return REFUSED;
    };
    let Some(held) = run.take(alloc) else {
        return MISUSE;
    };
    let found = held.units(class, to);
    run.put(held);
    match found {
        Ok(found) => given(found, count),
        Err(_) => MEMORY,
    }
}

/// Writes the units in a space, ascending, as far as `to` can hold them, and their number. Returns 1 if the space does
/// not exist, 2 if the name is not UTF-8, 5 if memory ran out.
#[unsafe(no_mangle)]
pub extern "C" fn bb_members(
    alloc: Global,
    run: &mut Run,
    space: &[u8],
    to: &mut [u64],
    count: &mut usize,
) -> u8
    ensures told { IfText space.now (Looks run.old.sitting (members_of space.now)
        (Fills to.old to.new count.new)
        ((to.new ≡ to.old) × (count.new ≡ count.old)) result
        ⊎ (((to.new ≡ to.old) × (count.new ≡ count.old)) × (result ≡ MEMORY)))
        ((to.new ≡ to.old) × (count.new ≡ count.old)) result }
    ensures kept { run.new.sitting ≡ run.old.sitting }
{
    let Ok(space) = str::from_utf8(space) else {
        return REFUSED;
    };
    let Some(held) = run.take(alloc) else {
        return MISUSE;
    };
    let found = held.members(space, to);
    run.put(held);
    match found {
        Ok(found) => given(found, count),
        Err(_) => MEMORY,
    }
}

/// Writes as much of the blackboard's document of initial units as `to` can hold, and the number of bytes of the
/// document. Returns 5 if memory ran out.
#[unsafe(no_mangle)]
pub extern "C" fn bb_document(alloc: Global, run: &mut Run, to: &mut [u8], len: &mut usize) -> u8
    ensures told { Looks run.old.sitting document_of
        (Fills to.old to.new len.new)
        ((to.new ≡ to.old) × (len.new ≡ len.old)) result
        ⊎ (((to.new ≡ to.old) × (len.new ≡ len.old)) × (result ≡ MEMORY)) }
    ensures kept { run.new.sitting ≡ run.old.sitting }
{
    let Some(held) = run.take(alloc) else {
        return MISUSE;
    };
    let found = held.document(to);
    run.put(held);
    match found {
        Ok(found) => given(found, len),
        Err(_) => MEMORY,
    }
}

/// Writes the maximum number of steps that an execution of any code of the run's sources can make if no sequence that
/// it finds has more than `found` units; at most 2^64 - 1.
#[unsafe(no_mangle)]
pub extern "C" fn bb_most_steps(alloc: Global, run: &mut Run, found: u32, steps: &mut u64) -> u8
    ensures told { Looks run.old.sitting (most_steps_of found)
        (λ n. steps.new ≡ n)
        (steps.new ≡ steps.old) result }
    ensures kept { run.new.sitting ≡ run.old.sitting }
{
    let Some(held) = run.take(alloc) else {
        return MISUSE;
    };
    let found = held.most_steps(found);
    run.put(held);
    given(found, steps)
}

/// Writes whether one of the run's sources has a code that creates a unit: 1 or 0.
#[unsafe(no_mangle)]
pub extern "C" fn bb_creates(alloc: Global, run: &mut Run, creates: &mut u8) -> u8
    ensures told { Looks run.old.sitting creates_of
        (λ b. creates.new ≡ if b then 1 else 0)
        (creates.new ≡ creates.old) result }
    ensures kept { run.new.sitting ≡ run.old.sitting }
{
    let Some(held) = run.take(alloc) else {
        return MISUSE;
    };
    let found = held.creates();
    run.put(held);
    given(found.map(u8::from), creates)
}
