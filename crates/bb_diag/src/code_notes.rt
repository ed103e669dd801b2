//! Notes on the op at a code's fault: the op, its operands, and the stack before it. The code is read from the bundle
//! again, because the verifier dropped it. Codes compiled from texts have no faults.

use crate::due::write_due;
use crate::kinds::write_kind;
use crate::reporting::Input;
use bb_basis::Memory;
use bb_bundle::{ActDraft, SourceCode, SourceDraft, unbundle};
use bb_code::{Code, Flaw, Kind, Op, Place, VerifyFault};
use bb_code_asm::write_op;
use bb_diag_text::begin_line;
use bb_schema::Schema;
use bb_verify_effect::{Frame, Locals, Part, Stack, effect};
use std::alloc::Global;
use std::fmt::Write;

// The maximum number of stack entries that are shown.
const SHOWN: usize = 16;

/// A code's fault, with its source and part.
#[derive(Clone, Copy, Debug)]
pub(crate) struct Found<'a> {
    pub(crate) name: &'a str,
    pub(crate) part: Part,
    pub(crate) fault: VerifyFault,
}

/// Appends the notes on a code's fault; nothing unless exactly one source has the name.
pub(crate) fn note_code(
    alloc: Global,
    text: &mut String,
    found: Found<'_>,
    input: Input<'_>,
) -> Result<(), Memory> {
    let Ok(schema) = Schema::read(alloc, input.schema) else {
        return Ok(());
    };
    let Ok(sources) = unbundle(alloc, input.bundle) else {
        return Ok(());
    };
    match only_one(&sources, found.name).and_then(|draft| code_of(draft, found.part)) {
        None => Ok(()),
        Some(code) => note_op(alloc, text, &schema, code, found),
    }
}

// Returns the source with a name, if exactly one has it.
fn only_one<'a>(sources: &'a [SourceCode], name: &str) -> Option<&'a SourceDraft<Code>> {
    let mut named = sources
        .iter()
        .filter(|source| source.draft().header.name.as_str() == name);
    let first = named.next()?;
    match named.next() {
        None => Some(first.draft()),
        Some(_) => None,
    }
}

// Returns the code of a part, if the source has one.
fn code_of(draft: &SourceDraft<Code>, part: Part) -> Option<&Code> {
    match part {
        Part::Require { .. } => draft.parts.require.as_ref(),
        Part::Obviate { .. } => match &draft.parts.obviate {
            Some(reaction) => Some(&reaction.code),
            None => None,
        },
        Part::Retrigger { .. } => match &draft.parts.retrigger {
            Some(reaction) => Some(&reaction.code),
            None => None,
        },
        Part::Revalidate { .. } => draft.parts.revalidate.as_ref(),
        Part::Do { .. } => match &draft.act {
            ActDraft::Do(code) => Some(code),
            ActDraft::Native => None,
        },
    }
}

// Appends the op and, if the flaw concerns its operands, what it needs and what it finds.
fn note_op(
    alloc: Global,
    text: &mut String,
    schema: &Schema,
    code: &Code,
    found: Found<'_>,
) -> Result<(), Memory> {
    let place = found.fault.place;
    let Some(op) = code.op(place as usize) else {
        return Ok(());
    };
    begin_line(text)?;
    write!(text, "op {place} \"")?;
    write_op(text, op)?;
    text.push_str("\"")?;
    if !is_of_operands(found.fault.flaw) {
        return Ok(());
    }
    let Some(frame) = frame_at(schema, found.part, code, place) else {
        return Ok(());
    };
    if let Op::Load(local) | Op::Next(local, _) = op {
        write!(text, " reads local {local}, which has ")?;
        return write_kind(text, schema, frame.local(local));
    }
    let mut due = String::new(alloc);
    write_due(&mut due, schema, code, op)?;
    if !due.is_empty() {
        write!(text, " takes {due}")?;
    }
    write_stack(text, schema, &frame)
}

// Returns whether a flaw concerns the operands of an op.
fn is_of_operands(flaw: Flaw) -> bool {
    match flaw {
        Flaw::Depth | Flaw::Kind | Flaw::Dead | Flaw::Slot | Flaw::LinkClass | Flaw::Space => true,
        _ => false,
    }
}

// Appends the newest kinds on the stack, at most `SHOWN`, the deepest first.
fn write_stack(text: &mut String, schema: &Schema, frame: &Frame) -> Result<(), Memory> {
    let count = frame.stack.len();
    if count == 0 {
        return text.push_str("; the stack is empty");
    }
    write!(text, "; the stack has {count}: ")?;
    if count > SHOWN {
        text.push_str(".., ")?;
    }
    for (index, kind) in frame.top(count.min(SHOWN)).iter().enumerate() {
        if index > 0 {
            text.push_str(", ")?;
        }
        write_kind(text, schema, *kind)?;
    }
    Ok(())
}

// ---- the frame of an op

// Returns the frame before an op, as the verifier computes it: what the op before leaves, or what the code declares.
fn frame_at(schema: &Schema, part: Part, code: &Code, place: Place) -> Option<Frame> {
    let mut next = entry_frame(part, code);
    for at in 0..place {
        next = left_by(schema, part, code, at, next);
    }
    declared_or(code, place, next)
}

// Returns the frame that an op leaves for the next op, if it continues there.
fn left_by(
    schema: &Schema,
    part: Part,
    code: &Code,
    place: Place,
    before: Option<Frame>,
) -> Option<Frame> {
    let mut frame = declared_or(code, place, before)?;
    let op = code.op(place as usize)?;
    let mut target = None;
    match effect(schema, part, code, op, &mut frame, &mut target) {
        Ok(true) => Some(frame),
        _ => None,
    }
}

// Returns the declared frame of an op, or, if none is declared, the one left by the op before.
fn declared_or(code: &Code, place: Place, before: Option<Frame>) -> Option<Frame> {
    match code.frames().iter().find(|entry| entry.place == place) {
        Some(entry) => Some(Frame::of(&entry.frame)),
        None => before,
    }
}

// Returns the frame before the first op: the units that the part begins with.
fn entry_frame(part: Part, code: &Code) -> Option<Frame> {
    let count = code.locals();
    if count < part.unit_count() {
        return None;
    }
    let locals = Locals::anything(count);
    let locals = match part {
        Part::Obviate { class, of } | Part::Retrigger { class, of } => locals
            .with(0, Kind::Old(class))
            .with(1, Kind::Old(of)),
        Part::Require { class } | Part::Revalidate { class } | Part::Do { class } => {
            locals.with(0, Kind::Old(class))
        }
    };
    Some(Frame {
        locals,
        stack: Stack::new(),
    })
}
