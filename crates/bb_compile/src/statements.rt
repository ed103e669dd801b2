//! Checks and emits statements and blocks. The emission of parts calls `emit_block`.

ghost use Rattle.std.specs.Prelude.{◌≡◌};
ghost use Rattle.bb_lang.specs.Blocks.{for_of};
ghost use Rattle.bb_lang.specs.BlockView.{statement_of, otherwise_of};
ghost use Rattle.bb_compile.specs.Statements.{if_code, with_code, after_end, placed_code, statement_code, otherwise_code};
ghost use Rattle.bb_compile.specs.Statements.{block_code, branches_code, action_of};
ghost use Rattle.bb_compile.specs.proving.Laying.{Makes};

use crate::actions::emit_action;
use crate::bindings::emit_binding;
use crate::branches::Branch;
use crate::emitter::Emitter;
use crate::exits::Exits;
use crate::expressions::emit_expr;
use crate::looping::{begin_loop, emit_over};
use bb_code::{Kind, Op, STACK_LIMIT};
use bb_compile_buffer::Buffer;
use bb_compile_scope::{Block, CompileFault, Mark, Place, TextFlaw, ends};
use bb_lang::{Action, Binding, Branches, Expr, ForLoop, Placed, Statement};

// Emits the test of an `if`.
#[tactic(auto, unfolding(crate::specs::Statements::if_code))]
fn emit_test(emitter: &mut Emitter, test: &Expr, place: Place) -> Result<Exits, CompileFault>
    ensures { Makes emitter.old emitter.new result (if_code emitter.old.schema.now test.now place) }
{
    let kind = emit_expr(emitter, test, STACK_LIMIT)?;
    let first = emitter.buffer.ops.here();
    emitter.buffer.due(kind, Kind::Bool);
    emitter.buffer.put(Op::Unless(0))?;
    emitter.buffer.settle(place)?;
    Ok(Exits::one(first))
}

// Emits the test of a `with`.
#[tactic(auto, unfolding(crate::specs::Statements::with_code))]
fn emit_bound(emitter: &mut Emitter, binding: &Binding, place: Place) -> Result<Exits, CompileFault>
    ensures { Makes emitter.old emitter.new result
        (with_code emitter.old.schema.now binding.now place) }
{
    let found = emit_binding(emitter, binding)?;
    emitter.buffer.settle(place)?;
    let flaw = TextFlaw::Unknown;
    found.ok_or(CompileFault::At { flaw, place })
}

// Notes `NoEnd` if a statement before this one always ends.
fn check_after_end(buffer: &mut Buffer, ended: bool)
    ensures { buffer.new ≡ after_end ended buffer.old }
{
    if ended {
        buffer.note(TextFlaw::NoEnd);
    }
}

// Emits a statement without blocks. Returns whether it ends.
fn emit_plain(emitter: &mut Emitter, action: &Action, place: Place) -> Result<bool, CompileFault>
    ensures { Makes emitter.old emitter.new result
        (action_of emitter.old.schema.now emitter.old.part place action.now) }
{
    emit_action(emitter, action)?;
    emitter.buffer.settle(place)?;
    Ok(ends(action))
}

// Emits a statement of a block. `ended` tells whether one before it ends. Returns whether one has ended now.
#[cycle(statements)]
fn emit_placed(
    emitter: &mut Emitter,
    placed: &Placed,
    ended: bool,
    loops: usize,
) -> Result<bool, CompileFault>
    ensures { Makes emitter.old emitter.new result
        (placed_code emitter.old.schema.now emitter.old.part loops ended placed.now) }
{
    check_after_end(&mut emitter.buffer, ended);
    let now = emit_statement(emitter, &placed.statement, placed.place, loops)?;
    Ok(ended || now)
}

/// Emits a block that may contain `loops` nested loops. Returns whether it always ends.
#[cycle(statements)]
pub(crate) fn emit_block(
    emitter: &mut Emitter,
    block: &Block,
    loops: usize,
) -> Result<bool, CompileFault>
    ensures { Makes emitter.old emitter.new result
        (block_code emitter.old.schema.now emitter.old.part loops block.now) }
{
    let mark = emitter.buffer.scope.mark();
    let mut ended = false;
    for placed in block.statements() {
        ended = emit_placed(emitter, placed, ended, loops)?;
    }
    emitter.buffer.scope.leave(&mark);
    Ok(ended)
}

// Emits what comes after the first block of an `if` or a `with`. Returns whether both blocks always end.
#[cycle(statements)]
#[tactic(auto, unfolding(crate::specs::Statements::otherwise_code))]
fn emit_otherwise(
    emitter: &mut Emitter,
    branch: Branch,
    otherwise: &Option<Block>,
    loops: usize,
) -> Result<bool, CompileFault>
    ensures { Makes emitter.old emitter.new result
        (otherwise_code emitter.old.schema.now emitter.old.part loops branch (otherwise_of otherwise.now)) }
{
    let Some(block) = otherwise else {
        branch.end_if(&mut emitter.buffer)?;
        return Ok(false);
    };
    let kinds = emitter.buffer.scope.kinds.copied();
    let jump = branch.begin_else(&mut emitter.buffer)?;
    let ended = emit_block(emitter, block, loops)?;
    branch.end_else(&mut emitter.buffer, jump, kinds, ended)?;
    Ok(branch.ended && ended)
}

// Emits the blocks of an `if` or a `with`, after its test. `before` is the scope to return to.
#[cycle(statements)]
fn emit_branches(
    emitter: &mut Emitter,
    before: Mark,
    exits: Exits,
    branches: &Branches,
    loops: usize,
) -> Result<bool, CompileFault>
    ensures { Makes emitter.old emitter.new result
        (branches_code emitter.old.schema.now emitter.old.part loops before exits branches.now.then
        (otherwise_of branches.now.otherwise)) }
{
    let ended = emit_block(emitter, &branches.then, loops)?;
    emitter.buffer.scope.leave(&before);
    let branch = Branch {
        before,
        exits,
        ended,
    };
    emit_otherwise(emitter, branch, &branches.otherwise, loops)
}

// Emits a `for`.
#[cycle(statements)]
#[tactic(auto, unfolding(crate::specs::Statements::statement_code))]
fn emit_for(
    emitter: &mut Emitter,
    for_loop: &ForLoop,
    place: Place,
    loops: usize,
) -> Result<bool, CompileFault>
    ensures { Makes emitter.old emitter.new result
        (statement_code emitter.old.schema.now emitter.old.part loops place
        (for_of for_loop.now.name for_loop.now.sequence for_loop.now.body)) }
{
    let ForLoop {
        name,
        sequence,
        body,
    } = for_loop;
    let before = emitter.buffer.scope.mark();
    let (class, local) = emit_over(emitter, sequence, place, loops)?;
    let begun = begin_loop(emitter, name, class, local, body)?;
    let ended = emit_block(emitter, body, loops.saturating_sub(1))?;
    begun.end(&mut emitter.buffer, ended)?;
    emitter.buffer.scope.leave(&before);
    emitter.buffer.label()?;
    Ok(false)
}

// Emits a statement at a place. Returns whether it always ends.
#[cycle(statements)]
#[tactic(auto, unfolding(crate::specs::Statements::statement_code))]
fn emit_statement(
    emitter: &mut Emitter,
    statement: &Statement,
    place: Place,
    loops: usize,
) -> Result<bool, CompileFault>
    ensures { Makes emitter.old emitter.new result
        (statement_code emitter.old.schema.now emitter.old.part loops place (statement_of statement.now)) }
{
    match statement {
        Statement::Action(action) => emit_plain(emitter, action, place),
        Statement::If { test, branches } => {
            let exits = emit_test(emitter, test, place)?;
            let before = emitter.buffer.scope.mark();
            emit_branches(emitter, before, exits, branches, loops)
        }
        Statement::With { binding, branches } => {
            let before = emitter.buffer.scope.mark();
            let exits = emit_bound(emitter, binding, place)?;
            emit_branches(emitter, before, exits, branches, loops)
        }
        Statement::For(for_loop) => emit_for(emitter, for_loop, place, loops),
    }
}
