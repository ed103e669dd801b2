//! The last phase of the verifier: the frames of all ops of a code.

ghost use Rattle.std.specs.Prelude.{◌≡◌, ◌≤◌, ◌-◌, ◌∷◌, ◌++◌, IfOk, IfSome, None, Ok, Some, length, option_map, replicate, set};
ghost use Rattle.bb_basis.specs.Results.{Gives, try_fold};
ghost use Rattle.bb_code.specs.declared.parts.TheConstants.{LOCAL_LIMIT, STACK_LIMIT};
ghost use Rattle.bb_code.specs.declared.frame.Kind.TheVariants.{Any, Old};
ghost use Rattle.bb_code.specs.Flaws.{out_of_memory};
ghost use Rattle.bb_code.specs.declared.flaw.Flaw.TheVariants.{Memory};
ghost use Rattle.bb_verify_effect.specs.Part.{units_of};
ghost use Rattle.bb_code.specs.Code.{places};
ghost use Rattle.bb_verify.specs.proving.Numbered.{numbered_frame, numbered_frames, frames_by};
ghost use Rattle.bb_verify.specs.proving.Passes.{left_by, walk_of};
ghost use Rattle.bb_code.specs.Answers.{map_ok};
ghost use Rattle.bb_verify.specs.Places.{declared_at, declared_for, declared_frames, entry_frame, frame_at, fits_declared, on_due, target_due, has_next, visit_op, visit, first_walk, frames_of, with_frames};
ghost use Rattle.bb_verify_effect.specs.Frame.{frame_of};

use crate::nesting::target_of;
use crate::pass::Pass;
use bb_code::{Code, Flaw, Frame as Declared, FrameEntry, Kind, Op, Place, VerifyFault};
use bb_schema::Schema;
use bb_verify_effect::{ClassId, Frame, Locals, PackedFrames, Part, Stack, effect, frame_weakens};
use std::alloc::{AllocError, Global};

// A code, and for each place the number of the frame that is declared there.
#[derive(Clone, Copy)]
struct Framed<'a> {
    code: &'a Code,
    declared: &'a [Option<usize>],
}

// The declared frame of this number, if the code has one.
fn numbered_frame(code: &Code, number: usize) -> Option<&Declared>
    ensures value { option_map (λ f. frame_of f.now) result ≡ numbered_frame code.now.frames (Some number) }
    ensures few { IfSome result (λ f. (length f.now.locals ≤ LOCAL_LIMIT) × (length f.now.stack ≤ STACK_LIMIT)) }
{
    let frames = code.frames();
    if number >= frames.len() {
        return None;
    }
    code.locals();
    Some(&frames[number].frame)
}

// The frame that is declared for a place.
fn declared_at<'a>(framed: &Framed<'a>, place: usize) -> Option<&'a Declared>
    ensures value { option_map (λ f. frame_of f.now) result ≡ declared_at (frames_by framed.now) place }
    ensures few { IfSome result (λ f. (length f.now.locals ≤ LOCAL_LIMIT) × (length f.now.stack ≤ STACK_LIMIT)) }
{
    match framed.declared.get(place) {
        None => None,
        Some(None) => None,
        Some(Some(number)) => numbered_frame(framed.code, *number),
    }
}

// The frame that is declared for the target of an op.
fn declared_for<'a>(framed: &Framed<'a>, op: Op) -> Option<&'a Declared>
    ensures { option_map (λ f. frame_of f.now) result ≡ declared_for (frames_by framed.now) op }
{
    match target_of(op) {
        None => None,
        Some(target) => declared_at(framed, target as usize),
    }
}

// Local 0 has the activation's unit; nothing is known of the others.
fn one_unit(class: ClassId, count: u8) -> Locals
    requires some { 1 ≤ count }
    requires few { count ≤ LOCAL_LIMIT }
    ensures { result ≡ Old class ∷ replicate (count - 1) Any }
{
    Locals::anything(count).with(0, Kind::Old(class))
}

// Local 0 has the activation's unit, local 1 the event's; nothing is known of the others.
fn two_units(class: ClassId, of: ClassId, count: u8) -> Locals
    requires some { 2 ≤ count }
    requires few { count ≤ LOCAL_LIMIT }
    ensures { result ≡ Old class ∷ Old of ∷ replicate (count - 2) Any }
{
    Locals::anything(count)
        .with(0, Kind::Old(class))
        .with(1, Kind::Old(of))
}

fn entry_locals(part: Part, count: u8) -> Locals
    requires enough { length (units_of part) ≤ count }
    requires few { count ≤ LOCAL_LIMIT }
    ensures { result ≡ units_of part ++ replicate (count - length (units_of part)) Any }
{
    match part {
        Part::Require { class } => one_unit(class, count),
        Part::Obviate { class, of } => two_units(class, of, count),
        Part::Retrigger { class, of } => two_units(class, of, count),
        Part::Revalidate { class } => one_unit(class, count),
        Part::Do { class } => one_unit(class, count),
    }
}

// The frame before the first op.
fn entry_frame(part: Part, locals: u8) -> Frame
    requires enough { length (units_of part) ≤ locals }
    requires few { locals ≤ LOCAL_LIMIT }
    ensures { result ≡ entry_frame part locals }
{
    Frame {
        locals: entry_locals(part, locals),
        stack: Stack::new(),
    }
}

fn no_frames(alloc: Global, count: usize) -> Result<Vec<Option<usize>>, AllocError>
    ensures { IfOk result (λ v. v.items ≡ replicate count None) }
{
    let mut all = Vec::with_capacity(alloc, count)?;
    for place in 0..count {
        all.push(None)?;
    }
    Ok(all)
}

fn put_frames(all: &mut Vec<Option<usize>>, frames: &[FrameEntry])
    ensures { numbered_frames frames.now all.new.items
        ≡ with_frames (numbered_frames frames.now all.old.items) frames.now }
{
    for number in 0..frames.len() {
        let entry = &frames[number];
        put_frame(all, entry.place as usize, number);
    }
}

fn put_frame(all: &mut Vec<Option<usize>>, place: usize, number: usize)
    ensures { all.new.items ≡ set all.old.items place (Some number) }
{
    if place < all.len() {
        all[place] = Some(number);
    }
}

// For each place of a code, the number of the frame that is declared there.
#[tactic(auto, unfolding(crate::specs::Places::declared_frames))]
fn declared_frames(alloc: Global, code: &Code) -> Result<Vec<Option<usize>>, AllocError>
    ensures { IfOk result (λ v. numbered_frames code.now.frames v.items ≡ declared_frames code.now) }
{
    let mut all = no_frames(alloc, code.ops().len())?;
    put_frames(&mut all, code.frames());
    Ok(all)
}

// Sets `frame`, which the op before left, to the frame of a place: the declared one, or else unchanged.
fn arrive(declared: Option<&Declared>, goes_on: bool, frame: &mut Frame) -> Result<(), Flaw>
    requires { IfSome declared (λ f. (length f.now.locals ≤ LOCAL_LIMIT) × (length f.now.stack ≤ STACK_LIMIT)) }
    ensures { map_ok (λ _. frame.new) result
        ≡ frame_at (option_map (λ f. frame_of f.now) declared.entry) (left_by goes_on frame.old) }
{
    match declared {
        Some(declared) => {
            frame.take_on(declared);
            Ok(())
        }
        None if goes_on => Ok(()),
        None => Err(Flaw::Frame),
    }
}

// Checks that the frame after an op is allowed where this one is declared.
#[tactic(auto, unfolding(crate::specs::Places::fits_declared))]
fn fits_declared(schema: &Schema, left: &Frame, declared: &Declared) -> Result<(), Flaw>
    ensures { result ≡ fits_declared schema.now left.now (frame_of declared.now) }
{
    if frame_weakens(schema, left, declared) {
        return Ok(());
    }
    Err(Flaw::Frame)
}

// Checks the edge to the next place, for which a frame may be declared.
fn on_due(schema: &Schema, left: &Frame, declared: Option<&Declared>) -> Result<(), Flaw>
    ensures { result ≡ on_due schema.now (Some left.now) (option_map (λ f. frame_of f.now) declared.entry) }
{
    match declared {
        Some(declared) => fits_declared(schema, left, declared),
        None => Ok(()),
    }
}

// Checks the edge to the target of an op, for which a frame has to be declared.
fn target_due(
    schema: &Schema,
    left: &Option<Frame>,
    declared: Option<&Declared>,
) -> Result<(), Flaw>
    ensures { result ≡ target_due schema.now left.now (option_map (λ f. frame_of f.now) declared.entry) }
{
    match (left, declared) {
        (Some(left), Some(declared)) => fits_declared(schema, left, declared),
        (Some(_), None) => Err(Flaw::Frame),
        (None, _) => Ok(()),
    }
}

// Checks that a code of `count` ops has the place at which execution continues.
fn has_next(count: usize, place: usize, left: &Frame) -> Result<(), Flaw>
    ensures { result ≡ has_next count place (Some left.now) }
{
    if count <= place {
        return Err(Flaw::End);
    }
    Ok(())
}

// Removes the frame of a target. Most ops have none, and then nothing of a frame's size is written.
fn forget(target: &mut Option<Frame>)
    ensures { target.new ≡ None }
{
    if target.is_some() {
        *target = None;
    }
}

// Checks an op at a place and adds the place to the pass.
#[tactic(auto, unfolding(crate::specs::Places::visit_op))]
fn visit_op(
    schema: &Schema,
    part: Part,
    framed: &Framed,
    place: Place,
    op: Op,
    pass: &mut Pass,
) -> Result<(), Flaw>
    ensures { Gives Memory (λ _. walk_of pass.new) result
        (visit_op schema.now part framed.now.code.now (frames_by framed.now) place op (walk_of pass.old)) }
{
    arrive(
        declared_at(framed, place as usize),
        pass.goes_on,
        &mut pass.frame,
    )?;
    pass.frames.push(&pass.frame)?;
    forget(&mut pass.target);
    let goes_on = effect(
        schema,
        part,
        framed.code,
        op,
        &mut pass.frame,
        &mut pass.target,
    )?;
    if !goes_on {
        pass.goes_on = false;
        return target_due(schema, &pass.target, declared_for(framed, op));
    }
    pass.goes_on = true;
    let after = place as usize + 1;
    has_next(framed.code.ops().len(), after, &pass.frame)?;
    on_due(schema, &pass.frame, declared_at(framed, after))?;
    target_due(schema, &pass.target, declared_for(framed, op))
}

// Checks the op at a place, if there is one, and adds the place to the pass. Lack of memory has place 0.
#[tactic(auto, unfolding(crate::specs::Places::visit))]
fn visit(
    schema: &Schema,
    part: Part,
    framed: &Framed,
    pass: &mut Pass,
    place: Place,
) -> Result<(), VerifyFault>
    ensures { Gives out_of_memory (λ _. walk_of pass.new) result
        (visit schema.now part framed.now.code.now (frames_by framed.now) (walk_of pass.old) place) }
{
    match framed.code.op(place as usize) {
        None => Ok(()),
        Some(op) => match visit_op(schema, part, framed, place, op, pass) {
            Ok(()) => Ok(()),
            Err(Flaw::Memory) => Err(VerifyFault {
                place: 0,
                flaw: Flaw::Memory,
            }),
            Err(flaw) => Err(VerifyFault { place, flaw }),
        },
    }
}

fn visit_all(
    schema: &Schema,
    part: Part,
    framed: &Framed,
    pass: &mut Pass,
) -> Result<(), VerifyFault>
    ensures { Gives out_of_memory (λ _. walk_of pass.new) result
        (try_fold (visit schema.now part framed.now.code.now (frames_by framed.now)) (walk_of pass.old)
        (places framed.now.code.now)) }
{
    let count = framed.code.ops().len() as u16;
    for place in 0..count {
        visit(schema, part, framed, pass, place)?;
    }
    Ok(())
}

/// Returns the frames of all ops, or the first fault.
#[tactic(auto, unfolding(crate::specs::Places::frames_of))]
pub(crate) fn frames_of(
    alloc: Global,
    schema: &Schema,
    part: Part,
    code: &Code,
) -> Result<PackedFrames, VerifyFault>
    requires { length (units_of part) ≤ code.now.locals }
    ensures { Gives out_of_memory (λ frames. frames) result (frames_of schema.now part code.now) }
{
    let declared = declared_frames(alloc, code)?;
    let framed = Framed {
        code,
        declared: &declared,
    };
    let mut pass = Pass {
        frames: PackedFrames::with_capacity(alloc, code.ops().len())?,
        frame: entry_frame(part, code.locals()),
        goes_on: true,
        target: None,
    };
    match on_due(schema, &pass.frame, declared_at(&framed, 0)) {
        Ok(()) => {}
        Err(flaw) => return Err(VerifyFault { place: 0, flaw }),
    }
    visit_all(schema, part, &framed, &mut pass)?;
    let Pass {
        frames,
        frame: _,
        goes_on: _,
        target: _,
    } = pass;
    Ok(frames)
}
