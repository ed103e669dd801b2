//! Compiles a part. The compiler of sources calls `emit_part`.

ghost use Rattle.std.specs.Prelude.{◌≡◌};
ghost use Rattle.bb_basis.specs.Results.{Gives};
ghost use Rattle.bb_compile_scope.specs.declared.fault.CompileFault.TheVariants.{Memory as OutOfMemory};
ghost use Rattle.bb_compile.specs.Parts.{has_no_end, done, version_for, part_code};

use crate::emitter::Emitter;
use crate::statements::emit_block;
use bb_code::{Code, Op, Version};
use bb_compile_buffer::{Buffer, finish};
use bb_compile_scope::{Block, CompileFault, Place, TextFlaw, block_ends};
use bb_schema::Schema;
use bb_verify_effect::Part;
use std::alloc::Global;

/// The maximum number of nested loops.
pub const LOOP_NESTING: usize = 4;

// Returns whether a part must end by a statement, but can run past its end.
fn has_no_end(part: Part, block: &Block) -> bool
    ensures { result ≡ has_no_end part block.now }
{
    !part.ends_done().is_ok() && !block_ends(block)
}

// Emits the end of a `do`, which is after its last statement.
fn put_done(part: Part, buffer: &mut Buffer) -> Result<(), CompileFault>
    ensures { Gives OutOfMemory (λ _. buffer.new) result (done part buffer.old) }
{
    if part.ends_done().is_ok() {
        return buffer.put(Op::Done);
    }
    Ok(())
}

// Returns the version of codes for a schema: 2 if a slot owns units, else 1.
fn version_for(schema: &Schema) -> Version
    ensures { result ≡ version_for schema.now }
{
    if schema.owns_any() {
        return Version::Two;
    }
    Version::One
}

/// Returns the code of a part that begins at a location, or its first flaw: at that location if a part other than `do`
/// can run past its end or the code is too large, otherwise at a statement.
#[tactic(auto, unfolding(crate::specs::Parts::part_code))]
pub fn emit_part(
    alloc: Global,
    schema: &Schema,
    part: Part,
    place: Place,
    block: &Block,
) -> Result<Code, CompileFault>
    ensures { Gives OutOfMemory (λ code. code) result (part_code schema.now part place block.now) }
{
    if has_no_end(part, block) {
        let flaw = TextFlaw::NoEnd;
        return Err(CompileFault::At { flaw, place });
    }
    let buffer = Buffer::new(alloc, part, place)?;
    let mut emitter = Emitter {
        schema,
        part,
        buffer,
    };
    let _ended = emit_block(&mut emitter, block, LOOP_NESTING)?;
    put_done(part, &mut emitter.buffer)?;
    finish(emitter.buffer, version_for(schema))
}
