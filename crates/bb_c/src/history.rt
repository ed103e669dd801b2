//! The calls for the history of a run: the text of a move before it is made, and a run that is taken up again.

ghost use Rattle.std.specs.Prelude.{◌≡◌, ◌⊎◌};
ghost use Rattle.std.specs.Str.Lines.{lines};
ghost use Rattle.bb_c_run.specs.History.{past_of};
ghost use Rattle.bb_c.specs.Looked.{Fills, IfText};
ghost use Rattle.bb_c.specs.Past.{ResumesIn, WritesText, line_of, step_of, text_before, unresumed_by, untold_by};
ghost use Rattle.bb_c.specs.declared.status.TheConstants.{MEMORY};

use crate::run::Run;
use crate::status::{MEMORY, MISUSE, OK, REFUSED, status_of};
use bb_c_run::{Held, ResumeFault, Step, TellFault, fill};
use std::alloc::Global;
use std::str;

/// A turn.
pub(crate) const MOVE_TURN: u8 = 0;

/// An advance by a number of cycles.
pub(crate) const MOVE_ADVANCE: u8 = 1;

/// A post of the gathered asks.
pub(crate) const MOVE_POST: u8 = 2;

/// An answer with the gathered asks.
pub(crate) const MOVE_ANSWER: u8 = 3;

// Returns the move with a number, if there is one.
fn step_of(number: u8, cycles: u32) -> Option<Step>
    ensures { result ≡ step_of number cycles }
{
    if number == MOVE_TURN {
        return Some(Step::Turn);
    }
    if number == MOVE_ADVANCE {
        return Some(Step::Advance(cycles));
    }
    if number == MOVE_POST {
        return Some(Step::Post);
    }
    if number == MOVE_ANSWER {
        return Some(Step::Answer);
    }
    None
}

// Returns the status that reports why the text of a move can't be written.
fn untold_by(fault: TellFault) -> u8
    ensures { result ≡ untold_by fault }
{
    match fault {
        TellFault::Finished => MISUSE,
        TellFault::Untold => REFUSED,
        TellFault::Memory => MEMORY,
    }
}

/// Writes the text of a move that is about to be made, as much of it as `to` can hold, and its number of bytes: of a
/// turn, of an advance by `cycles`, or of a post or an answer with the gathered asks, by the number of `step`. The run
/// and the asks stay as they are. Returns 0; 2 if there is no such move, or the format of histories can't express it; 5
/// if memory ran out; 9 if the run does not exist or is finished. It writes only if it returns 0.
#[unsafe(no_mangle)]
pub extern "C" fn bb_history(
    alloc: Global,
    run: &mut Run,
    step: u8,
    cycles: u32,
    to: &mut [u8],
    len: &mut usize,
) -> u8
    ensures told { WritesText (text_before run.old.sitting (step_of step cycles))
        (Fills to.old to.new len.new)
        ((to.new ≡ to.old) × (len.new ≡ len.old)) result
        ⊎ (((to.new ≡ to.old) × (len.new ≡ len.old)) × (result ≡ MEMORY)) }
    ensures kept { run.new.sitting ≡ run.old.sitting }
{
    let Some(step) = step_of(step, cycles) else {
        return REFUSED;
    };
    let Some(mut held) = run.take(alloc) else {
        return MISUSE;
    };
    let told = held.told(step);
    run.put(held);
    match told {
        Ok(text) => {
            *len = fill(text.as_bytes(), to);
            OK
        }
        Err(fault) => untold_by(fault),
    }
}

// Returns the status that reports why a run can't be taken up again.
fn unresumed_by(fault: ResumeFault) -> u8
    ensures { result ≡ unresumed_by fault }
{
    match fault {
        ResumeFault::Refused => REFUSED,
        ResumeFault::Line(_) => REFUSED,
        ResumeFault::Memory => MEMORY,
    }
}

// Returns the number of the first wrong line of a history, or 0.
fn line_of(fault: ResumeFault) -> u64
    ensures { result ≡ line_of fault }
{
    match fault {
        ResumeFault::Line(line) => line,
        ResumeFault::Refused | ResumeFault::Memory => 0,
    }
}

/// Begins the run of an input as `bb_open` does, and makes the moves of a history, which are texts that `bb_history`
/// wrote, one after the other. Its trace is read from the start. The handle must be none. Returns the state of the run,
/// as `bb_turn` does. 2: a line of the history is wrong, and `line` is its number; or the input is refused, or the names
/// or the history are not UTF-8, and `line` is 0. 5: memory ran out. 9: the handle already has a run.
#[unsafe(no_mangle)]
pub extern "C" fn bb_resume(
    alloc: Global,
    run: &mut Run,
    input: &[u8],
    natives: &[u8],
    floor: i64,
    history: &[u8],
    line: &mut u64,
) -> u8
    ensures { IfText natives.now (IfText history.now
        (ResumesIn run.old.sitting run.new.sitting (past_of input.now (lines natives.now) floor history.now)
        line.new result)
        ((run.new.sitting ≡ run.old.sitting) × (line.new ≡ 0)) result)
        ((run.new.sitting ≡ run.old.sitting) × (line.new ≡ 0)) result }
{
    *line = 0;
    let Ok(natives) = str::from_utf8(natives) else {
        return REFUSED;
    };
    let Ok(history) = str::from_utf8(history) else {
        return REFUSED;
    };
    resume(alloc, run, input, natives, floor, history, line)
}

// Begins the run of an input, and makes the moves of a history, if the handle has none.
fn resume(
    alloc: Global,
    run: &mut Run,
    input: &[u8],
    natives: &str,
    floor: i64,
    history: &str,
    line: &mut u64,
) -> u8
    requires { line.old ≡ 0 }
    ensures { ResumesIn run.old.sitting run.new.sitting
        (past_of input.now (lines natives.now) floor history.now) line.new result }
{
    if let Some(held) = run.take(alloc) {
        run.put(held);
        return MISUSE;
    }
    let held = match Held::resume(alloc, input, natives, floor, history) {
        Ok(held) => held,
        Err(fault) => {
            *line = line_of(fault);
            return unresumed_by(fault);
        }
    };
    let Ok(held) = Box::new(alloc, held) else {
        return MEMORY;
    };
    let status = status_of(held.stands());
    run.put(held);
    status
}
