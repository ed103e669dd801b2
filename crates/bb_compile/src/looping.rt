//! Checks and emits the heads and the ends of loops. The emission of statements calls it.

ghost use Rattle.std.specs.Prelude.{◌≡◌, IfOk};
ghost use Rattle.bb_basis.specs.Results.{Gives};
ghost use Rattle.bb_compile_scope.specs.declared.fault.CompileFault.TheVariants.{Memory as OutOfMemory};
ghost use Rattle.bb_compile.specs.Statements.{loop_noted, for_code, loop_begun, at_back, loop_ended};
ghost use Rattle.bb_compile.specs.proving.Laying.{Makes};

use crate::emitter::Emitter;
use crate::expressions::emit_sequence;
use bb_basis::Text;
use bb_code::{Kind, LocalId, Op, STACK_LIMIT};
use bb_compile_buffer::Buffer;
use bb_compile_scope::{Block, CompileFault, Mark, Place, TextFlaw, kill_under};
use bb_lang::Sequence;
use bb_schema::Schema;
use bb_schema_classes::ClassId;
use std::alloc::AllocError;

/// A loop that has begun: its index, the op index of its head, and the scope there.
#[derive(Drop)]
pub struct Begun {
    pub index: usize,
    pub head: u16,
    pub start: Mark,
}

// Notes `Limit` if no more loops may be nested.
fn check_nesting(buffer: &mut Buffer, loops: usize)
    ensures { buffer.new ≡ loop_noted loops buffer.old }
{
    if loops == 0 {
        buffer.note(TextFlaw::Limit);
    }
}

/// Emits the sequence of a `for`. Returns the class of its units, and the local that holds the sequence.
#[tactic(auto, unfolding(crate::specs::Statements::for_code))]
pub(crate) fn emit_over(
    emitter: &mut Emitter,
    sequence: &Sequence,
    place: Place,
    loops: usize,
) -> Result<(ClassId, LocalId), CompileFault>
    ensures { Makes emitter.old emitter.new result
        (for_code emitter.old.schema.now sequence.now place loops) }
{
    let found = emit_sequence(emitter, sequence, STACK_LIMIT)?;
    check_nesting(&mut emitter.buffer, loops);
    emitter.buffer.settle(place)?;
    let flaw = TextFlaw::Unknown;
    let class = found.ok_or(CompileFault::At { flaw, place })?;
    let local = emitter.buffer.take_local(Kind::Seq(class))?;
    emitter.buffer.put(Op::Store(local))?;
    Ok((class, local))
}

/// Emits the head of a loop over the sequence in a local, and declares the name for its units.
#[tactic(auto, unfolding(crate::specs::Statements::loop_begun))]
pub(crate) fn begin_loop(
    emitter: &mut Emitter,
    name: &Text,
    class: ClassId,
    local: LocalId,
    body: &Block,
) -> Result<Begun, CompileFault>
    ensures { Makes emitter.old emitter.new result
        (loop_begun emitter.old.schema.now name.now class local body.now) }
{
    let alloc = emitter.buffer.alloc();
    kill_under(
        alloc,
        emitter.schema,
        &mut emitter.buffer.scope,
        name,
        Some(class),
        body,
    )?;
    emitter.buffer.label()?;
    let index = emitter.buffer.begin_loop()?;
    let head = emitter.buffer.ops.here();
    let start = emitter.buffer.scope.mark();
    emitter.buffer.put(Op::Next(local, 0))?;
    emitter.buffer.declare(name, Kind::Ref(class))?;
    Ok(Begun { index, head, start })
}

impl Begun {
    // Ends the body: the locals hold what they hold at the loop's start.
    fn go_back(&self, buffer: &mut Buffer, ended: bool) -> Result<(), AllocError>
        ensures { IfOk result (λ _. buffer.new ≡ at_back self.now ended buffer.old) }
    {
        buffer.scope.leave(&self.start);
        buffer.scope.kinds = self.start.kinds.copied();
        if !ended {
            return Ok(());
        }
        buffer.label()
    }

    /// Emits the end of the loop. `ended` is true if the body always ends.
    #[tactic(auto, unfolding(crate::specs::Statements::loop_ended))]
    pub(crate) fn end(&self, buffer: &mut Buffer, ended: bool) -> Result<(), CompileFault>
        ensures { Gives OutOfMemory (λ _. buffer.new) result (loop_ended self.now ended buffer.old) }
    {
        self.go_back(buffer, ended)?;
        buffer.put(Op::Back(self.head))?;
        buffer.aim(self.head);
        let end = buffer.ops.here();
        buffer.loops.end(self.index, end);
        Ok(())
    }
}
