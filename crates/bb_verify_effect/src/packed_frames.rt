//! The frames of all ops, stored one after another. The pass over the ops adds them; accepted codes keep them.

ghost use Rattle.std.specs.Prelude.{◌≡◌, ◌<◌, ◌≤◌, ◌+◌, ◌++◌, ◌∷◌, [], IfOk, OnErr, OnOk, Some, length, reverse, slice_get};
ghost use Rattle.std.specs.Vec.{vec_capacity, vec_len};
ghost use Rattle.bb_verify_effect.specs.proving.Packed.{Grows, Lies, frame_in, stretch_in};

use crate::frame::Frame;
use crate::frame_view::FrameView;
use crate::locals::Locals;
use crate::stack::Stack;
use bb_code::Kind;
use std::alloc::{AllocError, Global};
use std::marker::Model;

// Where kinds are stored: from `start` to before `end`.
#[derive(Clone, Copy)]
struct Stretch {
    start: usize,
    end: usize,
}

// Where the kinds of a frame are stored; of its stack the deepest entry first.
#[derive(Clone, Copy)]
struct Span {
    locals: Stretch,
    stack: Stretch,
}

/// The frames of ops, in the order of the ops. Most frames differ from the one before by the top of the stack.
/// Therefore a frame shares the kinds already stored from the start of the last frame's kinds, and needs space only for
/// the others.
#[derive(Drop)]
pub struct PackedFrames {
    kinds: Vec<Kind>,
    spans: Vec<Span>,
    // Where the last frame is stored; anywhere inside, if there is none.
    last: Span,
}

impl Model for PackedFrames {
    ghost use Rattle.std.specs.Prelude.{All, List, length, map};
    ghost use Rattle.bb_verify_effect.specs.declared.frame.Frame.{Frame as Known};

    ghost Value = { List Known };

    ghost use Rattle.bb_verify_effect.specs.proving.Packed.{Lies, frame_in};

    ghost view = { λ p. map (frame_in p.kinds.items) p.spans.items };

    ghost invariant = { λ p. All (Lies (length p.kinds.items)) p.spans.items × Lies (length p.kinds.items) p.last };
}

// Appends kinds to a list that has capacity for them. They are few: copying them as one block would cost more.
fn add_kinds(kinds: &mut Vec<Kind>, more: &[Kind])
    requires { vec_len kinds.old + length more.now ≤ vec_capacity kinds.old }
    ensures items { kinds.new.items ≡ kinds.old.items ++ more.now }
    ensures len { vec_len kinds.new ≡ vec_len kinds.old + length more.now }
    ensures capacity { vec_capacity kinds.new ≡ vec_capacity kinds.old }
{
    for kind in more {
        kinds.push_reserved(*kind);
    }
}

// Stores kinds and returns where: at `near` if they are there already, or if what is there to the end begins them; else
// after all others. The list has capacity for them.
fn store(kinds: &mut Vec<Kind>, near: usize, more: &[Kind]) -> Stretch
    requires room { vec_len kinds.old + length more.now ≤ vec_capacity kinds.old }
    requires near { near ≤ length kinds.old.items }
    ensures grows { Grows kinds.old.items kinds.new.items }
    ensures len { vec_len kinds.new ≤ vec_len kinds.old + length more.now }
    ensures capacity { vec_capacity kinds.new ≡ vec_capacity kinds.old }
    ensures count { result.end ≡ result.start + length more.now }
    ensures inside { result.end ≤ length kinds.new.items }
    ensures stored { stretch_in kinds.new.items result ≡ more.now }
{
    let left = kinds.len() - near;
    if more.len() <= left && &kinds[near..near + more.len()] == more {
        return Stretch {
            start: near,
            end: near + more.len(),
        };
    }
    if left < more.len() && &kinds[near..] == &more[..left] {
        add_kinds(kinds, &more[left..]);
        return Stretch {
            start: near,
            end: kinds.len(),
        };
    }
    let start = kinds.len();
    add_kinds(kinds, more);
    Stretch {
        start,
        end: kinds.len(),
    }
}

// Stores the kinds of a frame after another one, and returns where. An error changes nothing.
fn put_kinds(kinds: &mut Vec<Kind>, last: Span, frame: &Frame) -> Result<Span, AllocError>
    requires { Lies (length kinds.old.items) last }
    ensures ok { OnOk result (Grows kinds.old.items kinds.new.items) }
    ensures err { OnErr result (kinds.new.items ≡ kinds.old.items) }
    ensures lies { IfOk result (Lies (length kinds.new.items)) }
    ensures frame { IfOk result (λ span. frame_in kinds.new.items span ≡ frame.now) }
{
    let locals = frame.locals.kinds();
    let entries = frame.stack.entries();
    kinds.reserve(locals.len() + entries.len())?;
    let of_locals = store(kinds, last.locals.start, locals);
    let of_stack = store(kinds, last.stack.start, entries);
    Ok(Span {
        locals: of_locals,
        stack: of_stack,
    })
}

// The frame stored in a span.
fn frame_in(kinds: &[Kind], span: Span) -> Frame
    requires { Lies (length kinds.now) span }
    ensures { result ≡ frame_in kinds.now span }
{
    Frame {
        locals: Locals::of(&kinds[span.locals.start..span.locals.end]),
        stack: Stack::of(&kinds[span.stack.start..span.stack.end]),
    }
}

// A view of the frame stored in a span.
fn view_in(kinds: &[Kind], span: Span) -> FrameView<'_>
    requires { Lies (length kinds.now) span }
    ensures { result ≡ frame_in kinds.now span }
{
    FrameView::new(
        &kinds[span.locals.start..span.locals.end],
        &kinds[span.stack.start..span.stack.end],
    )
}

impl PackedFrames {
    /// Returns an empty list with capacity for `places` frames of one kind each.
    pub fn with_capacity(alloc: Global, places: usize) -> Result<PackedFrames, AllocError>
        ensures { IfOk result (λ frames. frames ≡ []) }
    {
        let nothing = Stretch { start: 0, end: 0 };
        Ok(PackedFrames {
            kinds: Vec::with_capacity(alloc, places)?,
            spans: Vec::with_capacity(alloc, places)?,
            last: Span {
                locals: nothing,
                stack: nothing,
            },
        })
    }

    /// Appends a frame. An error changes nothing.
    pub fn push(&mut self, frame: &Frame) -> Result<(), AllocError>
        ensures ok { OnOk result (self.new ≡ self.old ++ frame.now ∷ []) }
        ensures err { OnErr result (self.new ≡ self.old) }
    {
        self.spans.reserve(1)?;
        let span = put_kinds(&mut self.kinds, self.last, frame)?;
        self.spans.push_reserved(span);
        self.last = span;
        Ok(())
    }

    /// Returns a copy of the frame of the op at an index.
    pub fn frame(&self, place: usize) -> Frame
        requires { place < length self.now }
        ensures { slice_get self.now place ≡ Some result }
    {
        frame_in(self.kinds.as_slice(), self.spans[place])
    }

    /// Returns a view of the frame of the op at an index.
    pub fn view(&self, place: usize) -> FrameView<'_>
        requires { place < length self.now }
        ensures { slice_get self.now place ≡ Some result }
    {
        view_in(self.kinds.as_slice(), self.spans[place])
    }
}
