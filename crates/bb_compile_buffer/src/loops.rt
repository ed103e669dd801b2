//! The loops of a code that is being emitted. The buffer contains them.

ghost use Rattle.std.specs.Prelude.{◌≡◌, [], ◌∷◌, ◌++◌, length, OnOk};
ghost use Rattle.bb_compile_buffer.specs.Buffers.{ended_at};

use bb_code::Loop;
use std::alloc::{AllocError, Global};
use std::marker::Model;

/// Loops, in the order of their heads. Contracts see them as a list.
#[derive(Drop)]
pub struct Loops {
    loops: Vec<Loop>,
}

impl Model for Loops {
    ghost use Rattle.std.specs.Prelude.{List};
    ghost use Rattle.bb_code.specs.declared.frame.Loop.{Loop as OneLoop};

    ghost Value = { List OneLoop };

    ghost view = { λ l. l.loops.items };
}

impl Loops {
    /// Creates an empty list. Allocates nothing.
    pub fn new(alloc: Global) -> Loops
        ensures { result ≡ [] }
    {
        Loops {
            loops: Vec::new(alloc),
        }
    }

    /// Returns the number of loops.
    pub fn len(&self) -> usize
        ensures { result ≡ length self.now }
    {
        self.loops.len()
    }

    /// Begins a loop whose end is not known yet.
    pub fn begin(&mut self, head: u16) -> Result<(), AllocError>
        ensures { OnOk result (self.new ≡ self.old ++ record { head = head; end = head } ∷ []) }
    {
        self.loops.push(Loop { head, end: head })?;
        Ok(())
    }

    /// Ends the loop at an index before the op at `end`.
    pub fn end(&mut self, index: usize, end: u16)
        ensures { self.new ≡ ended_at index end self.old }
    {
        let Some(begun) = self.loops.get(index).copied() else {
            return;
        };
        let head = begun.head;
        self.loops[index] = Loop { head, end };
    }

    /// Returns the loops.
    pub fn into_vec(self) -> Vec<Loop>
        ensures { result.items ≡ self }
    {
        self.loops
    }
}
