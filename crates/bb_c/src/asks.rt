//! The calls that gather asks. `bb_post` posts them, or `bb_answer` uses them as the answer for a native.

ghost use Rattle.std.specs.Prelude.{◌≡◌, ◌≤ℤ◌, ◌⊎◌, IfOk, IfErr, Some};
ghost use Rattle.std.specs.Str.{IsUtf8};
ghost use Rattle.bb_c_run.specs.Ask.TheVariants.{Delete, Enter, Leave, Link, New, Say, Set, Unlink};
ghost use Rattle.bb_c_run.specs.Value.TheVariants.{Bool as of_bool, Int as of_int, Interval as of_interval, Text as of_text};
ghost use Rattle.bb_c.specs.Called.{Asks, AsksLabel, Discards, Gathers, IsNoLabel, IsRefused, label_at, truth_of};
ghost use Rattle.bb_c.specs.declared.status.TheConstants.{MEMORY};

use crate::run::Run;
use crate::status::{MEMORY, MISUSE, OK, REFUSED};
use bb_c_run::{Ask, Text, Value};
use std::alloc::Global;
use std::str;

// Returns the text of a name, or the status that refuses it.
fn text_of(alloc: Global, bytes: &[u8]) -> Result<Text, u8>
    ensures text { IfOk result (λ t. (t ≡ bytes.now) × IsUtf8 bytes.now) }
    ensures refused { IfErr result (λ s. (s ≡ MEMORY) ⊎ IsRefused (IsUtf8 bytes.now) s) }
{
    let Ok(text) = str::from_utf8(bytes) else {
        return Err(REFUSED);
    };
    match Text::from_str(alloc, text) {
        Ok(text) => Ok(text),
        Err(_) => Err(MEMORY),
    }
}

// Gathers an ask.
fn gather(alloc: Global, run: &mut Run, ask: Ask) -> u8
    ensures { Gathers ask run.old.sitting run.new.sitting result }
{
    let Some(mut held) = run.take(alloc) else {
        return MISUSE;
    };
    let gathered = held.ask(ask);
    run.put(held);
    match gathered {
        Ok(()) => OK,
        Err(_) => MEMORY,
    }
}

/// Asks for a new unit of a class. Like all calls that ask, it returns 0; 2 if a name is not UTF-8; 5 if memory ran
/// out; 9 if the run does not exist.
#[unsafe(no_mangle)]
pub extern "C" fn bb_ask_new(alloc: Global, run: &mut Run, class_name: &[u8]) -> u8
    ensures { Asks (IsUtf8 class_name.now) (New class_name.now) run.old.sitting run.new.sitting result }
{
    match text_of(alloc, class_name) {
        Ok(class) => gather(alloc, run, Ask::New { class }),
        Err(status) => status,
    }
}

// Asks to set a slot to a value.
fn ask_set(alloc: Global, run: &mut Run, unit: u64, slot: &[u8], value: Value) -> u8
    ensures { Asks (IsUtf8 slot.now) (Set unit slot.now value) run.old.sitting run.new.sitting result }
{
    match text_of(alloc, slot) {
        Ok(slot) => gather(alloc, run, Ask::Set { unit, slot, value }),
        Err(status) => status,
    }
}

/// Asks to set a slot of a unit to a number.
#[unsafe(no_mangle)]
pub extern "C" fn bb_ask_int(alloc: Global, run: &mut Run, unit: u64, slot: &[u8], value: i64) -> u8
    ensures { Asks (IsUtf8 slot.now) (Set unit slot.now (of_int value)) run.old.sitting run.new.sitting result }
{
    ask_set(alloc, run, unit, slot, Value::Int(value))
}

/// Asks to set a slot of a unit to a truth value, false for 0.
#[unsafe(no_mangle)]
pub extern "C" fn bb_ask_bool(alloc: Global, run: &mut Run, unit: u64, slot: &[u8], value: u8) -> u8
    ensures { Asks (IsUtf8 slot.now) (Set unit slot.now (of_bool (truth_of value)))
        run.old.sitting run.new.sitting result }
{
    ask_set(alloc, run, unit, slot, Value::Bool(value != 0))
}

/// Asks to set a slot of a unit to an interval. Returns 2 if `high` is below `low`.
#[unsafe(no_mangle)]
pub extern "C" fn bb_ask_interval(
    alloc: Global,
    run: &mut Run,
    unit: u64,
    slot: &[u8],
    low: i64,
    high: i64,
) -> u8
    ensures { Asks (IsUtf8 slot.now × (low ≤ℤ high)) (Set unit slot.now (of_interval low high))
        run.old.sitting run.new.sitting result }
{
    if high < low {
        return REFUSED;
    }
    ask_set(alloc, run, unit, slot, Value::Interval(low, high))
}

/// Asks to set a slot of a unit to a text. Returns 2 if the text is not UTF-8.
#[unsafe(no_mangle)]
pub extern "C" fn bb_ask_text(
    alloc: Global,
    run: &mut Run,
    unit: u64,
    slot: &[u8],
    value: &[u8],
) -> u8
    ensures { Asks (IsUtf8 slot.now × IsUtf8 value.now) (Set unit slot.now (of_text value.now))
        run.old.sitting run.new.sitting result }
{
    match text_of(alloc, value) {
        Ok(value) => ask_set(alloc, run, unit, slot, Value::Text(value)),
        Err(status) => status,
    }
}

/// Asks to set a slot of a unit to a label. Returns 2 if the schema has no such set, or the set no such label.
#[unsafe(no_mangle)]
pub extern "C" fn bb_ask_label(
    alloc: Global,
    run: &mut Run,
    unit: u64,
    slot: &[u8],
    set: &[u8],
    label: &[u8],
) -> u8
    ensures { AsksLabel (IsUtf8 slot.now × IsUtf8 set.now × IsUtf8 label.now)
        (label_at run.old.sitting set.now label.now) unit slot.now run.old.sitting run.new.sitting result }
{
    match label_of(alloc, run, set, label) {
        Ok(value) => ask_set(alloc, run, unit, slot, value),
        Err(status) => status,
    }
}

// Returns a label by the names of its set and of the label, or the status that refuses it.
fn label_of(alloc: Global, run: &mut Run, set: &[u8], label: &[u8]) -> Result<Value, u8>
    ensures label { IfOk result (λ v. (label_at run.old.sitting set.now label.now ≡ Some v)
        × IsUtf8 set.now × IsUtf8 label.now) }
    ensures refused { IfErr result (λ s. IsNoLabel (IsUtf8 set.now × IsUtf8 label.now)
        (label_at run.old.sitting set.now label.now) run.old.sitting s) }
    ensures kept { run.new.sitting ≡ run.old.sitting }
{
    let (Ok(set), Ok(label)) = (str::from_utf8(set), str::from_utf8(label)) else {
        return Err(REFUSED);
    };
    let Some(held) = run.take(alloc) else {
        return Err(MISUSE);
    };
    let value = held.label(set, label);
    run.put(held);
    value.ok_or(REFUSED)
}

/// Asks to link a unit to another by a slot.
#[unsafe(no_mangle)]
pub extern "C" fn bb_ask_link(
    alloc: Global,
    run: &mut Run,
    unit: u64,
    slot: &[u8],
    other: u64,
) -> u8
    ensures { Asks (IsUtf8 slot.now) (Link unit slot.now other) run.old.sitting run.new.sitting result }
{
    match text_of(alloc, slot) {
        Ok(slot) => gather(alloc, run, Ask::Link { unit, slot, other }),
        Err(status) => status,
    }
}

/// Asks to remove the link of a unit to another by a slot.
#[unsafe(no_mangle)]
pub extern "C" fn bb_ask_unlink(
    alloc: Global,
    run: &mut Run,
    unit: u64,
    slot: &[u8],
    other: u64,
) -> u8
    ensures { Asks (IsUtf8 slot.now) (Unlink unit slot.now other) run.old.sitting run.new.sitting result }
{
    match text_of(alloc, slot) {
        Ok(slot) => gather(alloc, run, Ask::Unlink { unit, slot, other }),
        Err(status) => status,
    }
}

/// Asks that a unit enter a space.
#[unsafe(no_mangle)]
pub extern "C" fn bb_ask_enter(alloc: Global, run: &mut Run, unit: u64, space: &[u8]) -> u8
    ensures { Asks (IsUtf8 space.now) (Enter unit space.now) run.old.sitting run.new.sitting result }
{
    match text_of(alloc, space) {
        Ok(space) => gather(alloc, run, Ask::Enter { unit, space }),
        Err(status) => status,
    }
}

/// Asks that a unit leave a space.
#[unsafe(no_mangle)]
pub extern "C" fn bb_ask_leave(alloc: Global, run: &mut Run, unit: u64, space: &[u8]) -> u8
    ensures { Asks (IsUtf8 space.now) (Leave unit space.now) run.old.sitting run.new.sitting result }
{
    match text_of(alloc, space) {
        Ok(space) => gather(alloc, run, Ask::Leave { unit, space }),
        Err(status) => status,
    }
}

/// Asks to delete a unit.
#[unsafe(no_mangle)]
pub extern "C" fn bb_ask_delete(alloc: Global, run: &mut Run, unit: u64) -> u8
    ensures { Gathers (Delete unit) run.old.sitting run.new.sitting result }
{
    gather(alloc, run, Ask::Delete { unit })
}

/// Asks to say a text. Returns 2 if the text is not UTF-8.
#[unsafe(no_mangle)]
pub extern "C" fn bb_ask_say(alloc: Global, run: &mut Run, text: &[u8]) -> u8
    ensures { Asks (IsUtf8 text.now) (Say text.now) run.old.sitting run.new.sitting result }
{
    match text_of(alloc, text) {
        Ok(text) => gather(alloc, run, Ask::Say { text }),
        Err(status) => status,
    }
}

/// Discards the asks gathered since the last post or answer. Returns 0, or 9 if the run does not exist.
#[unsafe(no_mangle)]
pub extern "C" fn bb_discard(alloc: Global, run: &mut Run) -> u8
    ensures { Discards run.old.sitting run.new.sitting result }
{
    let Some(mut held) = run.take(alloc) else {
        return MISUSE;
    };
    held.discard();
    run.put(held);
    OK
}
