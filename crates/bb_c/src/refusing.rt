//! The calls that say why an input is refused.

ghost use Rattle.std.specs.Prelude.{◌≡◌, ◌⊎◌, ℕ, List};
ghost use Rattle.std.specs.Str.Lines.{lines};
ghost use Rattle.bb_c_run.specs.Opening.{refusal_of};
ghost use Rattle.bb_c.specs.Looked.{Comes, Fills, IfText};
ghost use Rattle.bb_c.specs.declared.status.TheConstants.{MEMORY};

use crate::status::{MEMORY, NONE, OK, REFUSED};
use bb_c_run::{fill, why_refused};
use std::alloc::Global;
use std::str;

/// Writes the line that refuses an input, without a line feed, as much of it as `to` can hold, and its number of bytes.
/// The arguments are the same as for `bb_open`. Returns 0; 1 if the input is not refused; 2 if the names are not UTF-8;
/// 5 if memory ran out. It writes only if it returns 0.
#[unsafe(no_mangle)]
pub extern "C" fn bb_refusal(
    alloc: Global,
    input: &[u8],
    natives: &[u8],
    floor: i64,
    to: &mut [u8],
    len: &mut usize,
) -> u8
    ensures { IfText natives.now (Comes (refusal_of input.now (lines natives.now) floor)
        (Fills to.old to.new len.new)
        ((to.new ≡ to.old) × (len.new ≡ len.old)) result
        ⊎ (((to.new ≡ to.old) × (len.new ≡ len.old)) × (result ≡ MEMORY)))
        ((to.new ≡ to.old) × (len.new ≡ len.old)) result }
{
    let Ok(natives) = str::from_utf8(natives) else {
        return REFUSED;
    };
    match why_refused(alloc, input, natives, floor) {
        Ok(Some(reason)) => {
            *len = fill(reason.line.as_bytes(), to);
            OK
        }
        Ok(None) => NONE,
        Err(_) => MEMORY,
    }
}

/// Writes the message on a refused input, as `bb_refusal` writes its line: the fault, and on lines below it the part of
/// the input at that location.
#[unsafe(no_mangle)]
pub extern "C" fn bb_explain(
    alloc: Global,
    input: &[u8],
    natives: &[u8],
    floor: i64,
    to: &mut [u8],
    len: &mut usize,
) -> u8
    ensures { IfText natives.now (Comes (refusal_of input.now (lines natives.now) floor)
        (λ line. (message : List ℕ) × Fills to.old to.new len.new message)
        ((to.new ≡ to.old) × (len.new ≡ len.old)) result
        ⊎ (((to.new ≡ to.old) × (len.new ≡ len.old)) × (result ≡ MEMORY)))
        ((to.new ≡ to.old) × (len.new ≡ len.old)) result }
{
    let Ok(natives) = str::from_utf8(natives) else {
        return REFUSED;
    };
    match why_refused(alloc, input, natives, floor) {
        Ok(Some(reason)) => {
            *len = fill(reason.message.as_bytes(), to);
            OK
        }
        Ok(None) => NONE,
        Err(_) => MEMORY,
    }
}
