//! Declared frames and loops at the start of bytes. `decode` calls it.

ghost use Rattle.std.specs.Prelude.{◌≡◌};
ghost use Rattle.bb_basis.specs.Results.{Gives};
ghost use Rattle.bb_code.specs.Answers.{map_ok};
ghost use Rattle.bb_code.specs.Fields.{kind_after, frame_at, kind_at, list_at, repeated, short_list_at};

use super::fields::{Field, read_byte, read_count, read_number, read_short_count};
use crate::fault::CodeFault;
use crate::frame::{Frame, FrameEntry, Kind, Loop};
use crate::kinds::Kinds;
use crate::parts::{FRAME_LIMIT, STACK_LIMIT};
use crate::table::{KindForm, kind_form};
use bb_basis::Items;
use std::alloc::Global;

#[tactic(auto, unfolding(crate::specs::Fields::kind_after))]
fn read_kind_after(form: KindForm, bytes: &[u8]) -> Result<(Kind, &[u8]), CodeFault>
    ensures { map_ok (λ x. (x.0, x.1.now)) result ≡ kind_after form bytes.now }
{
    match form {
        KindForm::Plain(kind) => Ok((kind, bytes)),
        KindForm::Label => {
            let (set, rest) = read_number(bytes)?;
            Ok((Kind::Label(set), rest))
        }
        KindForm::Ref => {
            let (class, rest) = read_number(bytes)?;
            Ok((Kind::Ref(class), rest))
        }
        KindForm::Old => {
            let (class, rest) = read_number(bytes)?;
            Ok((Kind::Old(class), rest))
        }
        KindForm::Seq => {
            let (class, rest) = read_number(bytes)?;
            Ok((Kind::Seq(class), rest))
        }
    }
}

impl Field for Kind {
    ghost use Rattle.bb_code.specs.Fields.{kind_at};

    ghost at = { kind_at };

    #[tactic(auto, unfolding(crate::specs::Fields::kind_at))]
    fn read(_alloc: Global, bytes: &[u8]) -> Result<(Kind, &[u8]), CodeFault> {
        let (tag, rest) = read_byte(bytes)?;
        let form = kind_form(tag).ok_or(CodeFault::Operand)?;
        read_kind_after(form, rest)
    }
}

impl Field for Loop {
    ghost use Rattle.bb_code.specs.Fields.{loop_at};

    ghost at = { loop_at };

    #[tactic(auto, unfolding(crate::specs::Fields::loop_at))]
    fn read(_alloc: Global, bytes: &[u8]) -> Result<(Loop, &[u8]), CodeFault> {
        let (head, rest) = read_number(bytes)?;
        let (end, rest) = read_number(rest)?;
        Ok((Loop { head, end }, rest))
    }
}

// Reads `count` kinds.
fn read_kinds(alloc: Global, count: usize, bytes: &[u8]) -> Result<(Kinds, &[u8]), CodeFault>
    ensures { Gives CodeFault.Memory (λ x. (x.0, x.1.now)) result (repeated kind_at count bytes.now) }
{
    let mut kinds = Kinds::new(alloc);
    let mut rest = bytes;
    for _ in 0..count {
        let (kind, after) = Kind::read(alloc, rest)?;
        kinds.push(kind)?;
        rest = after;
    }
    Ok((kinds, rest))
}

// Reads the number of kinds of a stack, and then the kinds.
#[tactic(auto, unfolding(crate::specs::Fields::short_list_at))]
fn read_stack(alloc: Global, bytes: &[u8]) -> Result<(Kinds, &[u8]), CodeFault>
    ensures { Gives CodeFault.Memory (λ x. (x.0, x.1.now)) result
        (short_list_at STACK_LIMIT kind_at bytes.now) }
{
    let (count, rest) = read_short_count(bytes, 0, STACK_LIMIT)?;
    read_kinds(alloc, count as usize, rest)
}

// Reads a frame of a code with `locals` locals.
#[tactic(auto, unfolding(crate::specs::Fields::frame_at))]
fn read_frame(alloc: Global, locals: u8, bytes: &[u8]) -> Result<(FrameEntry, &[u8]), CodeFault>
    ensures { Gives CodeFault.Memory (λ x. (x.0, x.1.now)) result (frame_at locals bytes.now) }
{
    let (place, rest) = read_number(bytes)?;
    let (locals, rest) = read_kinds(alloc, locals as usize, rest)?;
    let (stack, rest) = read_stack(alloc, rest)?;
    let frame = Frame { locals, stack };
    Ok((FrameEntry { place, frame }, rest))
}

/// Reads the frames of a code with `locals` locals.
#[tactic(auto, unfolding(crate::specs::Fields::list_at))]
pub(crate) fn read_frames(
    alloc: Global,
    locals: u8,
    bytes: &[u8],
) -> Result<(Items<FrameEntry>, &[u8]), CodeFault>
    ensures { Gives CodeFault.Memory (λ x. (x.0, x.1.now)) result
        (list_at 0 FRAME_LIMIT (frame_at locals) bytes.now) }
{
    let (count, mut rest) = read_count(bytes, 0, FRAME_LIMIT)?;
    let mut frames = Vec::with_capacity(alloc, count as usize)?;
    for _ in 0..count {
        let (frame, after) = read_frame(alloc, locals, rest)?;
        frames.push(frame)?;
        rest = after;
    }
    Ok((Items::from(frames), rest))
}
