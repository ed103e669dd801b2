//! Checks and emits expressions, sequences and patterns: a function for each. The emission of statements calls
//! `emit_expr` and `emit_sequence`. In all of them, `room` is how many values still fit on the stack.

ghost use Rattle.std.specs.Prelude.{◌≡◌};
ghost use Rattle.bb_basis.specs.Results.{Gives};
ghost use Rattle.bb_compile_scope.specs.declared.fault.CompileFault.TheVariants.{Memory as OutOfMemory};
ghost use Rattle.bb_pattern.specs.View.{tree_of, trees_of};
ghost use Rattle.bb_lang.specs.View.{steps_of, sequence_of, patterns_of};
ghost use Rattle.bb_schema.specs.Schema.{class_named as class_by_name, space_named as space_by_name};
ghost use Rattle.bb_compile_buffer.specs.Buffers.{known};
ghost use Rattle.bb_compile.specs.Queries.{links_code, query_code, test_code};
ghost use Rattle.bb_compile.specs.Expressions.{expr_code, steps_code, step_code, sequence_code, pattern_code, patterns_code};
ghost use Rattle.bb_compile.specs.proving.Laying.{Makes, Asks};

use crate::asked::{Asked, test_node};
use crate::emitter::Emitter;
use bb_basis::Text;
use bb_code::{Kind, Op};
use bb_compile_buffer::{
    Buffer, emit_atom, emit_binary, emit_division, emit_operator, emit_unary, emit_unit,
};
use bb_compile_scope::{CompileFault, TextFlaw, Variable, dimension, link_slot};
use bb_lang::{Expr, ExprNode, Pattern, PatternNode, Relation, Sequence, Step};
use bb_pattern::{Node, Pattern as CodePattern, Query};
use bb_schema::{Schema, SpaceId};
use bb_schema_classes::ClassId;

// Emits the sequence of the units that a unit is linked to, and returns their class.
#[tactic(auto, unfolding(crate::specs::Queries::links_code))]
fn emit_links(
    emitter: &mut Emitter,
    unit: &Variable,
    slot: &Text,
    room: usize,
) -> Result<Option<ClassId>, CompileFault>
    ensures { Makes emitter.old emitter.new result
        (links_code emitter.old.schema.now unit.now slot.now room) }
{
    let Some(class) = emit_unit(&mut emitter.buffer, unit, room)? else {
        return Ok(None);
    };
    match link_slot(emitter.schema, class, slot.as_str()) {
        Err(flaw) => {
            emitter.buffer.note(flaw);
            Ok(None)
        }
        Ok((slot, link)) => {
            emitter.buffer.put(Op::Links(slot))?;
            Ok(Some(link.to))
        }
    }
}

/// Looks up the class with a name. Notes `Unknown` if it is missing.
pub(crate) fn class_named(schema: &Schema, buffer: &mut Buffer, name: &Text) -> Option<ClassId>
    ensures value { result ≡ class_by_name schema.now name.now }
    ensures flaw { buffer.new ≡ known (class_by_name schema.now name.now) buffer.old }
{
    let class = schema.class(name.as_str());
    buffer.known(class);
    class
}

/// Looks up the space with a name. Notes `Unknown` if it is missing.
pub(crate) fn space_named(schema: &Schema, buffer: &mut Buffer, name: &Text) -> Option<SpaceId>
    ensures value { result ≡ space_by_name schema.now name.now }
    ensures flaw { buffer.new ≡ known (space_by_name schema.now name.now) buffer.old }
{
    let space = schema.space(name.as_str());
    buffer.known(space);
    space
}

// Emits the query of a class in a space, after its operands.
#[tactic(auto, unfolding(crate::specs::Queries::query_code))]
fn emit_query(
    buffer: &mut Buffer,
    class: Option<ClassId>,
    space: Option<SpaceId>,
    asked: Asked,
    pattern: CodePattern,
    room: usize,
) -> Result<Option<ClassId>, CompileFault>
    ensures { Gives OutOfMemory (λ class. (class, buffer.new)) result
        (query_code class space asked pattern room buffer.old) }
{
    let Some(class) = class else {
        return Ok(None);
    };
    let Some(space) = space else {
        return Ok(Some(class));
    };
    let kinds = asked.kinds;
    let index = buffer.ask(Query {
        class,
        space,
        kinds,
        pattern,
    })?;
    buffer.put_value(Op::Find(index), room)?;
    Ok(Some(class))
}

// Makes a test, after its operand.
#[tactic(auto, unfolding(crate::specs::Queries::test_code))]
fn emit_test(
    emitter: &mut Emitter,
    asked: &mut Asked,
    space: Option<SpaceId>,
    dim: &Text,
    relation: Relation,
    operand: Option<Kind>,
) -> Result<CodePattern, CompileFault>
    ensures { Asks (λ p. p) asked.new emitter.old emitter.new result
        (Ok (test_code emitter.old.schema.now space dim.now relation operand asked.old emitter.old.buffer)) }
{
    let Some(space) = space else {
        return Ok(CodePattern::new(Node::All));
    };
    let Some((dim, due)) = dimension(emitter.schema, space, dim.as_str(), relation) else {
        emitter.buffer.note(TextFlaw::Unknown);
        return Ok(CodePattern::new(Node::All));
    };
    emitter.buffer.due(operand, due);
    let number = asked.add_operand(&mut emitter.buffer, due)?;
    Ok(CodePattern::new(test_node(relation, dim, number)))
}

// Emits the operands of patterns, in order, and makes the patterns.
#[cycle(emitting)]
#[tactic(auto, unfolding(crate::specs::Expressions::patterns_code))]
fn emit_patterns(
    emitter: &mut Emitter,
    asked: &mut Asked,
    space: Option<SpaceId>,
    patterns: &[Pattern],
    room: usize,
) -> Result<Vec<CodePattern>, CompileFault>
    ensures { Asks (λ v. trees_of v.items) asked.new emitter.old emitter.new result
        (patterns_code emitter.old.schema.now room space (patterns_of patterns.now) asked.old emitter.old.buffer) }
{
    let mut made = Vec::new(emitter.buffer.alloc());
    for pattern in patterns {
        made.push(emit_pattern(emitter, asked, space, pattern, room)?)?;
    }
    Ok(made)
}

// Emits the operands of a pattern, with room for `room` operands on the stack, and makes the pattern.
#[cycle(emitting)]
#[tactic(auto, unfolding(crate::specs::Expressions::pattern_code))]
fn emit_pattern(
    emitter: &mut Emitter,
    asked: &mut Asked,
    space: Option<SpaceId>,
    pattern: &Pattern,
    room: usize,
) -> Result<CodePattern, CompileFault>
    ensures { Asks (λ p. p) asked.new emitter.old emitter.new result
        (pattern_code emitter.old.schema.now room space pattern.now asked.old emitter.old.buffer) }
{
    asked.count_node(&mut emitter.buffer);
    match pattern.node() {
        PatternNode::All => Ok(CodePattern::new(Node::All)),
        PatternNode::And(parts) => {
            let parts = emit_patterns(emitter, asked, space, parts.as_slice(), room)?;
            Ok(CodePattern::new(Node::And(parts)))
        }
        PatternNode::Or(parts) => {
            let parts = emit_patterns(emitter, asked, space, parts.as_slice(), room)?;
            Ok(CodePattern::new(Node::Or(parts)))
        }
        PatternNode::Not(part) => {
            let part = emit_pattern(emitter, asked, space, part, room)?;
            Ok(CodePattern::new(Node::Not(Box::new(emitter.buffer.alloc(), part)?)))
        }
        PatternNode::Test {
            dimension,
            relation,
            operand,
        } => {
            let left = room.saturating_sub(asked.kinds.len());
            let kind = emit_expr(emitter, operand, left)?;
            emit_test(emitter, asked, space, dimension, *relation, kind)
        }
    }
}

/// Emits a sequence, with capacity for `room` values on the stack. Returns the class of its units, if it is known.
#[cycle(emitting)]
#[tactic(auto, unfolding(crate::specs::Expressions::sequence_code))]
pub(crate) fn emit_sequence(
    emitter: &mut Emitter,
    sequence: &Sequence,
    room: usize,
) -> Result<Option<ClassId>, CompileFault>
    ensures { Makes emitter.old emitter.new result
        (sequence_code emitter.old.schema.now room (sequence_of sequence.now)) }
{
    match sequence {
        Sequence::Links { unit, slot } => emit_links(emitter, unit, slot, room),
        Sequence::Find {
            class,
            space,
            pattern,
        } => {
            let class = class_named(emitter.schema, &mut emitter.buffer, class);
            let space = space_named(emitter.schema, &mut emitter.buffer, space);
            let mut asked = Asked::new(emitter.buffer.alloc());
            let pattern = emit_pattern(emitter, &mut asked, space, pattern, room)?;
            emit_query(&mut emitter.buffer, class, space, asked, pattern, room)
        }
    }
}

// Emits a step of a chain, after the operands before it.
#[cycle(emitting)]
#[tactic(auto, unfolding(crate::specs::Expressions::step_code))]
fn emit_step(
    emitter: &mut Emitter,
    step: &Step,
    left: Option<Kind>,
    room: usize,
) -> Result<Option<Kind>, CompileFault>
    ensures { Makes emitter.old emitter.new result (step_code emitter.old.schema.now room left step.now) }
{
    match step {
        Step::Apply { operator, operand } => {
            let right = emit_expr(emitter, operand, room.saturating_sub(1))?;
            emit_operator(&mut emitter.buffer, *operator, left, right)
        }
        Step::Divide { division, divisor } => emit_division(
            &mut emitter.buffer,
            *division,
            *divisor,
            left,
        ),
    }
}

// Emits the steps of a chain, after its first operand.
#[cycle(emitting)]
#[tactic(auto, unfolding(crate::specs::Expressions::steps_code))]
fn emit_steps(
    emitter: &mut Emitter,
    steps: &[Step],
    first: Option<Kind>,
    room: usize,
) -> Result<Option<Kind>, CompileFault>
    ensures { Makes emitter.old emitter.new result
        (steps_code emitter.old.schema.now room first (steps_of steps.now)) }
{
    let mut kind = first;
    for step in steps {
        kind = emit_step(emitter, step, kind, room)?;
    }
    Ok(kind)
}

/// Emits an expression, with capacity for `room` values on the stack. Returns its kind, if it is known.
#[cycle(emitting)]
#[tactic(auto, unfolding(crate::specs::Expressions::expr_code))]
pub(crate) fn emit_expr(
    emitter: &mut Emitter,
    expr: &Expr,
    room: usize,
) -> Result<Option<Kind>, CompileFault>
    ensures { Makes emitter.old emitter.new result (expr_code emitter.old.schema.now room expr.now) }
{
    match expr.node() {
        ExprNode::Atom(atom) => emit_atom(emitter.schema, &mut emitter.buffer, atom, room),
        ExprNode::Unary { operation, operand } => {
            let kind = emit_expr(emitter, operand, room)?;
            emit_unary(&mut emitter.buffer, *operation, kind)
        }
        ExprNode::Binary {
            operation,
            left,
            right,
        } => {
            let first = emit_expr(emitter, left, room)?;
            let second = emit_expr(emitter, right, room.saturating_sub(1))?;
            emit_binary(&mut emitter.buffer, *operation, first, second)
        }
        ExprNode::Chain { first, steps } => {
            let kind = emit_expr(emitter, first, room)?;
            emit_steps(emitter, steps.as_slice(), kind, room)
        }
        ExprNode::Size(sequence) => {
            let _class = emit_sequence(emitter, sequence, room)?;
            emitter.buffer.put(Op::Size)?;
            Ok(Some(Kind::Int))
        }
    }
}
