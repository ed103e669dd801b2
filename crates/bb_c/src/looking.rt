//! The calls that look up units, their slots and their classes on the blackboard of a run.

ghost use Rattle.std.specs.Prelude.{◌≡◌, ◌⊎◌, if◌then◌else◌};
ghost use Rattle.bb_c_run.specs.Looking.{interval_of, number_of, text_of, truth_of};
ghost use Rattle.bb_c.specs.Looked.{Fills, IfText, Looks, class_of, kind_number, kind_of, label_name_of, of_value};
ghost use Rattle.bb_c.specs.Looked.{partners_of};
ghost use Rattle.bb_c.specs.declared.status.TheConstants.{MEMORY};

use crate::run::Run;
use crate::status::{MEMORY, MISUSE, NONE, OK, REFUSED, given, kind_number};
use std::alloc::Global;
use std::str;

/// Writes the number in an ordinary slot of a unit to `value`. Like all calls that look something up, it returns 0; 1
/// if the unit or slot does not exist, or the slot holds something else; 2 if the name is not UTF-8; 9 if the run does
/// not exist. It writes only if it returns 0. A finished run has no units.
#[unsafe(no_mangle)]
pub extern "C" fn bb_int(
    alloc: Global,
    run: &mut Run,
    unit: u64,
    slot: &[u8],
    value: &mut i64,
) -> u8
    ensures told { IfText slot.now (Looks run.old.sitting (of_value number_of unit slot.now)
        (λ z. value.new ≡ z)
        (value.new ≡ value.old) result)
        (value.new ≡ value.old) result }
    ensures kept { run.new.sitting ≡ run.old.sitting }
{
    let Ok(slot) = str::from_utf8(slot) else {
        return REFUSED;
    };
    let Some(held) = run.take(alloc) else {
        return MISUSE;
    };
    let found = held.number(unit, slot);
    run.put(held);
    given(found, value)
}

/// Writes the truth value in an ordinary slot of a unit to `value`, as 1 or 0.
#[unsafe(no_mangle)]
pub extern "C" fn bb_bool(
    alloc: Global,
    run: &mut Run,
    unit: u64,
    slot: &[u8],
    value: &mut u8,
) -> u8
    ensures told { IfText slot.now (Looks run.old.sitting (of_value truth_of unit slot.now)
        (λ b. value.new ≡ if b then 1 else 0)
        (value.new ≡ value.old) result)
        (value.new ≡ value.old) result }
    ensures kept { run.new.sitting ≡ run.old.sitting }
{
    let Ok(slot) = str::from_utf8(slot) else {
        return REFUSED;
    };
    let Some(held) = run.take(alloc) else {
        return MISUSE;
    };
    let found = held.truth(unit, slot);
    run.put(held);
    given(found.map(u8::from), value)
}

/// Writes the first and last number of the interval in an ordinary slot of a unit to `low` and `high`.
#[unsafe(no_mangle)]
pub extern "C" fn bb_interval(
    alloc: Global,
    run: &mut Run,
    unit: u64,
    slot: &[u8],
    low: &mut i64,
    high: &mut i64,
) -> u8
    ensures told { IfText slot.now (Looks run.old.sitting (of_value interval_of unit slot.now)
        (λ i. (low.new ≡ i.0) × (high.new ≡ i.1))
        ((low.new ≡ low.old) × (high.new ≡ high.old)) result)
        ((low.new ≡ low.old) × (high.new ≡ high.old)) result }
    ensures kept { run.new.sitting ≡ run.old.sitting }
{
    let Ok(slot) = str::from_utf8(slot) else {
        return REFUSED;
    };
    let Some(held) = run.take(alloc) else {
        return MISUSE;
    };
    let found = held.interval(unit, slot);
    run.put(held);
    match found {
        Some((first, last)) => {
            *low = first;
            *high = last;
            OK
        }
        None => NONE,
    }
}

/// Writes as much of the text in an ordinary slot of a unit as `to` can hold, and the number of bytes of the text.
#[unsafe(no_mangle)]
pub extern "C" fn bb_text(
    alloc: Global,
    run: &mut Run,
    unit: u64,
    slot: &[u8],
    to: &mut [u8],
    len: &mut usize,
) -> u8
    ensures told { IfText slot.now (Looks run.old.sitting (of_value text_of unit slot.now)
        (Fills to.old to.new len.new)
        ((to.new ≡ to.old) × (len.new ≡ len.old)) result)
        ((to.new ≡ to.old) × (len.new ≡ len.old)) result }
    ensures kept { run.new.sitting ≡ run.old.sitting }
{
    let Ok(slot) = str::from_utf8(slot) else {
        return REFUSED;
    };
    let Some(held) = run.take(alloc) else {
        return MISUSE;
    };
    let found = held.text(unit, slot, to);
    run.put(held);
    given(found, len)
}

/// Writes as much of the name of the label in an ordinary slot of a unit as `to` can hold, and the number of bytes of
/// the name.
#[unsafe(no_mangle)]
pub extern "C" fn bb_label(
    alloc: Global,
    run: &mut Run,
    unit: u64,
    slot: &[u8],
    to: &mut [u8],
    len: &mut usize,
) -> u8
    ensures told { IfText slot.now (Looks run.old.sitting (label_name_of unit slot.now)
        (Fills to.old to.new len.new)
        ((to.new ≡ to.old) × (len.new ≡ len.old)) result)
        ((to.new ≡ to.old) × (len.new ≡ len.old)) result }
    ensures kept { run.new.sitting ≡ run.old.sitting }
{
    let Ok(slot) = str::from_utf8(slot) else {
        return REFUSED;
    };
    let Some(held) = run.take(alloc) else {
        return MISUSE;
    };
    let found = held.label_name(unit, slot, to);
    run.put(held);
    given(found, len)
}

/// Writes as much of the name of a unit's class as `to` can hold, and the number of bytes of the name.
#[unsafe(no_mangle)]
pub extern "C" fn bb_class(
    alloc: Global,
    run: &mut Run,
    unit: u64,
    to: &mut [u8],
    len: &mut usize,
) -> u8
    ensures told { Looks run.old.sitting (class_of unit)
        (Fills to.old to.new len.new)
        ((to.new ≡ to.old) × (len.new ≡ len.old)) result }
    ensures kept { run.new.sitting ≡ run.old.sitting }
{
    let Some(held) = run.take(alloc) else {
        return MISUSE;
    };
    let found = held.class(unit, to);
    run.put(held);
    given(found, len)
}

/// Writes the number of the kind of a slot of a unit: 0 number, 1 text, 2 truth value, 3 label, 4 interval, 5 links.
/// Returns 1 if the unit or slot does not exist.
#[unsafe(no_mangle)]
pub extern "C" fn bb_kind(alloc: Global, run: &mut Run, unit: u64, slot: &[u8], kind: &mut u8) -> u8
    ensures told { IfText slot.now (Looks run.old.sitting (kind_of unit slot.now)
        (λ k. kind.new ≡ kind_number k)
        (kind.new ≡ kind.old) result)
        (kind.new ≡ kind.old) result }
    ensures kept { run.new.sitting ≡ run.old.sitting }
{
    let Ok(slot) = str::from_utf8(slot) else {
        return REFUSED;
    };
    let Some(held) = run.take(alloc) else {
        return MISUSE;
    };
    let found = held.kind(unit, slot);
    run.put(held);
    given(found.map(kind_number), kind)
}

/// Writes the partners of a unit by a link slot, in order of addition, as far as `to` can hold them, and their number.
/// An ordinary slot has no partners. Returns 5 if memory ran out.
#[unsafe(no_mangle)]
pub extern "C" fn bb_links(
    alloc: Global,
    run: &mut Run,
    unit: u64,
    slot: &[u8],
    to: &mut [u64],
    count: &mut usize,
) -> u8
    ensures told { IfText slot.now (Looks run.old.sitting (partners_of unit slot.now)
        (Fills to.old to.new count.new)
        ((to.new ≡ to.old) × (count.new ≡ count.old)) result
        ⊎ (((to.new ≡ to.old) × (count.new ≡ count.old)) × (result ≡ MEMORY)))
        ((to.new ≡ to.old) × (count.new ≡ count.old)) result }
    ensures kept { run.new.sitting ≡ run.old.sitting }
{
    let Ok(slot) = str::from_utf8(slot) else {
        return REFUSED;
    };
    let Some(held) = run.take(alloc) else {
        return MISUSE;
    };
    let found = held.partners(unit, slot, to);
    run.put(held);
    match found {
        Ok(found) => given(found, count),
        Err(_) => MEMORY,
    }
}
