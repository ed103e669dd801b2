//! Emits what comes between the blocks of an `if` or a `with`, and after them. The emission of statements calls it.

ghost use Rattle.std.specs.Prelude.{◌≡◌, IfOk};
ghost use Rattle.bb_basis.specs.Results.{Gives};
ghost use Rattle.bb_compile_scope.specs.declared.fault.CompileFault.TheVariants.{Memory as OutOfMemory};
ghost use Rattle.bb_compile.specs.Statements.{jumped, else_begun, else_ended, if_ended};

use crate::exits::Exits;
use bb_code::Op;
use bb_compile_buffer::Buffer;
use bb_compile_scope::{CompileFault, LocalKinds, Mark};
use std::alloc::AllocError;

/// An `if` or a `with` after its first block: the scope before the block, the exits of the test, and whether the block
/// always ends.
#[derive(Drop)]
pub struct Branch {
    pub before: Mark,
    pub exits: Exits,
    pub ended: bool,
}

impl Branch {
    // Emits a jump over the block of `else`, unless the first block has ended.
    fn put_jump(&self, buffer: &mut Buffer) -> Result<(), CompileFault>
        ensures { Gives OutOfMemory (λ _. buffer.new) result (jumped self.now buffer.old) }
    {
        if self.ended {
            return Ok(());
        }
        buffer.put(Op::Jump(0))
    }

    /// Begins the block of `else`. Returns the index of the jump over it.
    #[tactic(auto, unfolding(crate::specs::Statements::else_begun))]
    pub fn begin_else(&self, buffer: &mut Buffer) -> Result<u16, CompileFault>
        ensures { Gives OutOfMemory (λ jump. (jump, buffer.new)) result (else_begun self.now buffer.old) }
    {
        let jump = buffer.ops.here();
        self.put_jump(buffer)?;
        self.exits.aim(buffer);
        buffer.scope.kinds = self.before.kinds.copied();
        buffer.label()?;
        Ok(jump)
    }

    /// Ends the block of `else`. `ended` is true if it always ends; `kinds` are the kinds that the first block
    /// leaves.
    #[tactic(auto, unfolding(crate::specs::Statements::else_ended))]
    pub fn end_else(
        &self,
        buffer: &mut Buffer,
        jump: u16,
        kinds: LocalKinds,
        ended: bool,
    ) -> Result<(), AllocError>
        ensures { IfOk result (λ _. buffer.new ≡ else_ended self.now jump kinds ended buffer.old) }
    {
        buffer.meet(ended, kinds, self.ended);
        if self.ended {
            return Ok(());
        }
        buffer.aim(jump);
        buffer.label()
    }

    /// Ends the first block if no `else` follows.
    #[tactic(auto, unfolding(crate::specs::Statements::if_ended))]
    pub fn end_if(&self, buffer: &mut Buffer) -> Result<(), AllocError>
        ensures { IfOk result (λ _. buffer.new ≡ if_ended self.now buffer.old) }
    {
        self.exits.aim(buffer);
        buffer.meet(self.ended, self.before.kinds.copied(), false);
        buffer.label()
    }
}
