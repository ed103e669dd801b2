//! Frames: the known kinds of the locals and of the stack before an op. The verifier keeps one for each op.

ghost use Rattle.std.specs.Prelude.{◌≡◌, ◌≤◌, length, map, IfOk, Ok};
ghost use Rattle.bb_code.specs.Answers.{map_ok};
ghost use Rattle.bb_code.specs.declared.parts.TheConstants.{LOCAL_LIMIT, STACK_LIMIT};
ghost use Rattle.bb_verify_effect.specs.Frame.{frame_of, pop, pop_two, enough, top, without, room, push, local_at, with_local};

use crate::locals::Locals;
use crate::stack::Stack;
use bb_code::{Flaw, Frame as Declared, Kind, LocalId, STACK_LIMIT};

/// The kinds of all locals and of all entries of the stack.
#[derive(Drop)]
pub struct Frame {
    pub locals: Locals,
    pub stack: Stack,
}

impl Frame {
    /// Converts a declared frame.
    pub fn of(declared: &Declared) -> Frame
        requires locals { length declared.now.locals ≤ LOCAL_LIMIT }
        requires stack { length declared.now.stack ≤ STACK_LIMIT }
        ensures { result ≡ frame_of declared.now }
    {
        Frame {
            locals: Locals::of(declared.locals.as_slice()),
            stack: Stack::of(declared.stack.as_slice()),
        }
    }

    /// Becomes the declared frame.
    pub fn take_on(&mut self, declared: &Declared)
        requires locals { length declared.now.locals ≤ LOCAL_LIMIT }
        requires stack { length declared.now.stack ≤ STACK_LIMIT }
        ensures { self.new ≡ frame_of declared.now }
    {
        self.locals.take_on(declared.locals.as_slice());
        self.stack.take_on(declared.stack.as_slice());
    }

    /// Returns a copy.
    pub fn copied(&self) -> Frame
        ensures { result ≡ self.now }
    {
        Frame {
            locals: self.locals.copied(),
            stack: self.stack.copied(),
        }
    }

    /// Pops the newest entry. `Flaw::Depth`: the stack is empty.
    #[tactic(auto, unfolding(crate::specs::Frame::pop))]
    pub fn pop(&mut self) -> Result<Kind, Flaw>
        ensures { map_ok (λ kind. (kind, self.new)) result ≡ pop self.old }
    {
        match self.stack.pop() {
            None => Err(Flaw::Depth),
            Some(kind) => Ok(kind),
        }
    }

    /// Pops the two newest entries and returns the deeper one first. `Flaw::Depth`: there are fewer.
    #[tactic(auto, unfolding(crate::specs::Frame::pop_two))]
    pub fn pop_two(&mut self) -> Result<(Kind, Kind), Flaw>
        ensures { map_ok (λ two. (two, self.new)) result ≡ pop_two self.old }
    {
        let second = self.pop()?;
        let first = self.pop()?;
        Ok((first, second))
    }

    /// Checks that the stack has at least `count` entries. `Flaw::Depth`: it has fewer.
    #[tactic(auto, unfolding(crate::specs::Frame::enough))]
    pub fn enough(&self, count: usize) -> Result<(), Flaw>
        ensures value { result ≡ enough count self.now }
        ensures some { IfOk result (λ _. count ≤ length self.now.stack) }
    {
        if self.stack.len() < count {
            return Err(Flaw::Depth);
        }
        Ok(())
    }

    /// Returns the `count` newest entries, the deepest first.
    pub fn top(&self, count: usize) -> &[Kind]
        requires { count ≤ length self.now.stack }
        ensures { result.now ≡ top count self.now }
    {
        self.stack.top(count)
    }

    /// Drops the `count` newest entries.
    pub fn shorten(&mut self, count: usize)
        requires { count ≤ length self.old.stack }
        ensures { self.new ≡ without count self.old }
    {
        self.stack.shorten(count);
    }

    /// Checks that the stack has space for another entry. `Flaw::Depth`: it has `STACK_LIMIT` entries.
    #[tactic(auto, unfolding(crate::specs::Frame::room))]
    pub fn room(&self) -> Result<(), Flaw>
        ensures { result ≡ room self.now }
    {
        if self.stack.len() >= STACK_LIMIT {
            return Err(Flaw::Depth);
        }
        Ok(())
    }

    /// Pushes an entry. `Flaw::Depth`: the stack has `STACK_LIMIT` entries.
    #[tactic(auto, unfolding(crate::specs::Frame::push, crate::specs::Frame::room))]
    pub fn push(&mut self, kind: Kind) -> Result<(), Flaw>
        ensures { map_ok (λ _. self.new) result ≡ push kind self.old }
    {
        if self.stack.len() >= STACK_LIMIT {
            return Err(Flaw::Depth);
        }
        self.stack.push(kind);
        Ok(())
    }

    /// Returns the kind of a local, or `Any` if the local does not exist.
    #[tactic(auto, unfolding(crate::specs::Frame::local_at))]
    pub fn local(&self, local: LocalId) -> Kind
        ensures { result ≡ local_at local self.now }
    {
        match self.locals.get(local) {
            None => Kind::Any,
            Some(kind) => kind,
        }
    }

    /// Sets the kind of a local, if there is one of that number.
    pub fn set_local(&mut self, local: LocalId, kind: Kind)
        ensures { self.new ≡ with_local local kind self.old }
    {
        self.locals.put(local, kind);
    }
}
