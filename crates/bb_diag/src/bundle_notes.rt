//! The line where a bundle is refused, and the byte where a code is. The bytes are decoded again.

ghost use Rattle.std.specs.Prelude.{◌≡◌, ◌+◌, ◌⊎◌, true, false, length, take, IfOk};
ghost use Rattle.bb_diag.specs.Early.{is_early};

use crate::reporting::Input;
use bb_basis::Memory;
use bb_bundle::BundleFault;
use bb_code::{Code, CodeFault};
use bb_diag_text::{begin_line, line_at, note_header, write_whole_line};
use std::alloc::{AllocError, Global};
use std::fmt::Write;

/// Appends the notes on a bundle's fault.
pub(crate) fn note_bundle(
    alloc: Global,
    text: &mut String,
    fault: BundleFault,
    input: Input<'_>,
) -> Result<(), Memory> {
    let bundle = input.bundle;
    let section = input.section("%bundle", bundle);
    match fault {
        BundleFault::Line { line } => {
            section.line(line).note(text, "")?;
            write_whole_line(text, bundle, line)?;
            note_header(text, line_at(bundle, line))
        }
        BundleFault::Hex { line } => {
            section.line(line).note(text, "")?;
            write_whole_line(text, bundle, line)
        }
        BundleFault::Code { line, .. } => {
            section.line(line).note(text, "")?;
            note_byte(alloc, text, line_at(bundle, line))
        }
        BundleFault::Memory => Ok(()),
    }
}

// Appends the byte where the code of a line has its fault. The digits of the code are the last word of the line.
fn note_byte(alloc: Global, text: &mut String, line: &str) -> Result<(), Memory> {
    let Some(digits) = line.split(' ').last() else {
        return Ok(());
    };
    let Ok(bytes) = hex::decode(alloc, digits) else {
        return Ok(());
    };
    let byte = fault_byte(alloc, bytes.as_slice())?;
    begin_line(text)?;
    write!(text, "byte {byte} of the code, which has {}", bytes.len())
}

// Returns the byte, from 0, where bytes that are not a code have their fault: the bytes before it show no fault, and
// with it they do. If the bytes only end too early, this is their number. The binary search decodes one prefix of the
// bytes for each binary digit of their number.
fn fault_byte(alloc: Global, bytes: &[u8]) -> Result<usize, Memory>
    ensures front { IfOk result (λ n. is_early (take n bytes.now) ≡ true) }
    ensures behind { IfOk result (λ n.
        (n ≡ length bytes.now) ⊎ (is_early (take (n + 1) bytes.now) ≡ false)) }
{
    if is_early(alloc, bytes)? {
        return Ok(bytes.len());
    }
    let mut low = 0;
    let mut high = bytes.len();
    while high - low > 1 {
        let middle = low + (high - low) / 2;
        if is_early(alloc, &bytes[..middle])? {
            low = middle;
        } else {
            high = middle;
        }
    }
    Ok(low)
}

// Returns whether a prefix of the bytes of a code shows no fault: it ends too early, or it is a code, after which more
// would be a fault.
fn is_early(alloc: Global, bytes: &[u8]) -> Result<bool, Memory>
    ensures { IfOk result (λ early. early ≡ is_early bytes.now) }
{
    match Code::decode(alloc, bytes) {
        Ok(_) | Err(CodeFault::Short) => Ok(true),
        Err(CodeFault::Memory) => Err(AllocError),
        Err(_) => Ok(false),
    }
}
