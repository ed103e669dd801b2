//! The call that serves a whole input, and the version of the calls.

ghost use Rattle.std.specs.Prelude.{◌≡◌, ◌≤◌, [], map, min, length, take};
ghost use Rattle.bb_c.specs.Served.{IsLonger, IsServed, mode_of};
ghost use Rattle.bb_c.specs.declared.serving.TheConstants.{ROOM};

use crate::input::Input;
use crate::room::Room;
use bb_main::{Mode, NativeSource, ProgramNative, serve};
use std::alloc::Global;

// The version of these calls. It is increased when a call is added, removed or changed in meaning.
const VERSION: u32 = 4;

// The status of a refused input, and of a number that is not a mode.
const REFUSED: u8 = 2;

// The status if memory ran out.
const MEMORY: u8 = 5;

// The status if the output is too small.
const ROOM: u8 = 6;

/// Returns the version of these calls.
#[unsafe(no_mangle)]
pub extern "C" fn bb_version() -> u32
    ensures { result ≡ VERSION }
{
    VERSION
}

/// Serves an input as the program does, without natives. Modes: 0 run, 1 check, 2 compile, 3 run and write the units
/// that are left. Writes what the program would write to `output`, as far as it fits, and its number of bytes to
/// `written`. Returns the status: 0 quiescence, or a check or bundle written; 2 the input is refused, or the mode does
/// not exist; 3 the limit; 4 full; 5 memory ran out; 6 the answer is longer than the output, which holds a prefix of
/// it.
#[unsafe(no_mangle)]
pub extern "C" fn bb_serve(
    alloc: Global,
    input: &[u8],
    mode: u8,
    limit: u32,
    floor: i64,
    output: &mut [u8],
    written: &mut usize,
) -> u8
    ensures served { IsServed (mode_of mode) limit floor input.now (take written.new output.new) result }
    ensures room { written.new ≤ length output.new }
    ensures len { length output.new ≡ length output.old }
    // The output is too small only if the answer is longer, and then it is full.
    ensures longer { result ≡ ROOM → IsLonger (mode_of mode) limit floor input.now (length output.new) }
    ensures filled { result ≡ ROOM → written.new ≡ length output.new }
{
    *written = 0;
    let Some(mode) = mode_of(mode) else {
        return REFUSED;
    };
    // One byte more than the output has, to learn whether the answer is longer.
    let Ok(mut room) = Room::new(alloc, output.len() + 1) else {
        return MEMORY;
    };
    let mut reader = Input::new(input);
    let status = serve(
        alloc,
        mode,
        limit,
        floor,
        no_natives(alloc),
        &mut reader,
        &mut room,
    );
    let answer = room.bytes();
    // An output that fails before it is full ran out of memory, but this one has its memory from the start.
    if status == ROOM && answer.len() <= output.len() {
        return MEMORY;
    }
    *written = hand_out(answer, output);
    if *written < answer.len() {
        ROOM
    } else {
        status
    }
}

// Copies as many bytes to the front of the output as it has room for, and returns their number.
fn hand_out(bytes: &[u8], output: &mut [u8]) -> usize
    ensures front { take result output.new ≡ take result bytes.now }
    ensures count { result ≡ min (length bytes.now) (length output.new) }
    ensures len { length output.new ≡ length output.old }
{
    let count = bytes.len().min(output.len());
    output[..count].copy_from_slice(&bytes[..count]);
    count
}

fn mode_of(mode: u8) -> Option<Mode>
    ensures { result ≡ mode_of mode }
{
    match mode {
        0 => Some(Mode::Run),
        1 => Some(Mode::Check),
        2 => Some(Mode::Compile),
        3 => Some(Mode::Units),
        _ => None,
    }
}

fn no_natives(alloc: Global) -> Vec<ProgramNative>
    ensures { map ⟦<ProgramNative as NativeSource>⟧.meaning result.items ≡ [] }
{
    Vec::new(alloc)
}
