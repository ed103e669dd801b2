//! Makes the code of a buffer, once everything is emitted. The emission of parts calls `finish`.

ghost use Rattle.std.specs.Prelude.{◌≡◌, IfOk, map, ◌++◌};
ghost use Rattle.std.specs.List.{range_with_len};
ghost use Rattle.bb_basis.specs.Results.{Gives};
ghost use Rattle.bb_compile_scope.specs.declared.fault.CompileFault.TheVariants.{Memory as OutOfMemory};
ghost use Rattle.bb_compile_scope.specs.LocalKinds.{kind_at};
ghost use Rattle.bb_compile_buffer.specs.Finish.{frame_of, last_frame, frames_of, code_of, if_within};

use crate::buffer::Buffer;
use crate::label::Label;
use bb_basis::Items;
use bb_code::{Code, CodeParts, Frame, FrameEntry, Kinds, Version};
use bb_compile_scope::{CompileFault, LocalKinds, Place, TextFlaw};
use std::alloc::{AllocError, Global};

// Returns the kinds of the first `locals` locals.
fn first_kinds(alloc: Global, kinds: &LocalKinds, locals: u8) -> Result<Kinds, AllocError>
    ensures { IfOk result (λ k. k ≡ map (kind_at kinds.now) (range_with_len 0 locals)) }
{
    let mut first = Kinds::new(alloc);
    for local in 0..locals {
        first.push(kinds.get(local))?;
    }
    Ok(first)
}

// Makes the frame of a label.
fn frame_of(alloc: Global, label: &Label, locals: u8) -> Result<FrameEntry, AllocError>
    ensures { IfOk result (λ f. f ≡ frame_of locals label.now) }
{
    let kinds = first_kinds(alloc, &label.kinds, locals)?;
    Ok(FrameEntry {
        place: label.place,
        frame: Frame {
            locals: kinds,
            stack: Kinds::new(alloc),
        },
    })
}

// Makes the frames of labels.
fn frames_each(alloc: Global, labels: &[Label], locals: u8) -> Result<Vec<FrameEntry>, AllocError>
    ensures { IfOk result (λ v. v.items ≡ map (frame_of locals) labels.now) }
{
    let mut frames = Vec::new(alloc);
    for label in labels {
        frames.push(frame_of(alloc, label, locals)?)?;
    }
    Ok(frames)
}

// Makes the frames of labels, and of a last one, if there is one.
fn frames_of(
    alloc: Global,
    labels: &[Label],
    last: &Option<Label>,
    locals: u8,
) -> Result<Items<FrameEntry>, AllocError>
    ensures { IfOk result (λ f. f ≡ frames_of locals labels.now last.now) }
{
    let mut frames = Items::from(frames_each(alloc, labels, locals)?);
    let Some(label) = last else {
        return Ok(frames);
    };
    frames.push(frame_of(alloc, label, locals)?)?;
    Ok(frames)
}

// Makes a code of its parts, if they are within the limits of codes.
#[tactic(auto, unfolding(crate::specs::Finish::if_within))]
fn checked(parts: CodeParts, place: Place) -> Result<Code, CompileFault>
    ensures { result ≡ if_within place parts }
{
    let flaw = TextFlaw::Limit;
    Code::new(parts).ok_or(CompileFault::At { flaw, place })
}

/// Makes the code in a buffer, in a version of the format. `Limit`, at the part: it exceeds a limit of codes.
pub fn finish(buffer: Buffer, version: Version) -> Result<Code, CompileFault>
    ensures { Gives OutOfMemory (λ code. code) result (if_within buffer.start (code_of version buffer)) }
{
    let alloc = buffer.alloc();
    let frames = frames_of(alloc, buffer.labels.as_slice(), &buffer.last, buffer.locals)?;
    let place = buffer.start;
    let parts = CodeParts {
        version,
        locals: buffer.locals,
        texts: buffer.texts.into_items(),
        queries: buffer.queries,
        frames,
        loops: Items::from(buffer.loops.into_vec()),
        ops: Items::from(buffer.ops.into_vec()),
    };
    checked(parts, place)
}
