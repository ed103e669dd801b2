//! Checks and emits statements without blocks: a function for each. The emission of statements calls `emit_action`.

ghost use Rattle.std.specs.Prelude.{◌≡◌};
ghost use Rattle.bb_compile.specs.Actions.{effect_noted, end_noted, let_code, assign_code, new_code, set_code, link_noted};
ghost use Rattle.bb_compile.specs.Actions.{relinked_in, relink_code, space_noted, enter_code, leave_code, delete_code};
ghost use Rattle.bb_compile.specs.Actions.{values_code, say_code, end_code, change_code, action_code};
ghost use Rattle.bb_compile.specs.proving.Laying.{Lays};

use crate::emitter::Emitter;
use crate::expressions::{emit_expr, space_named};
use bb_basis::Text;
use bb_code::{Kind, LinkChange, Op, SAID_LIMIT, STACK_LIMIT};
use bb_compile_buffer::{Buffer, emit_unit};
use bb_compile_scope::{CompileFault, TextFlaw, Variable, assigned, link_slot, value_slot};
use bb_lang::{Action, Expr};
use bb_schema::{Schema, SpaceId};
use bb_schema_classes::ClassId;
use bb_verify_effect::Part;

// Notes `Effect` if the part may not make changes.
fn check_effect(part: Part, buffer: &mut Buffer)
    ensures { buffer.new ≡ effect_noted part buffer.old }
{
    if part.writes().is_ok() {
        return;
    }
    buffer.note(TextFlaw::Effect);
}

// Emits a `let`.
#[tactic(auto, unfolding(crate::specs::Actions::let_code))]
fn emit_let(emitter: &mut Emitter, name: &Text, value: &Expr) -> Result<(), CompileFault>
    ensures { Lays emitter.old emitter.new result (let_code emitter.old.schema.now name.now value.now) }
{
    let Some(kind) = emit_expr(emitter, value, STACK_LIMIT)? else {
        return Ok(());
    };
    emitter.buffer.declare(name, kind)
}

// Emits an assignment.
#[tactic(auto, unfolding(crate::specs::Actions::assign_code))]
fn emit_assign(emitter: &mut Emitter, name: &Text, value: &Expr) -> Result<(), CompileFault>
    ensures { Lays emitter.old emitter.new result (assign_code emitter.old.schema.now name.now value.now) }
{
    let kind = emit_expr(emitter, value, STACK_LIMIT)?;
    let Some(local) = emitter.buffer.scope.local_of(name.as_str()) else {
        emitter.buffer.note(TextFlaw::Unknown);
        return Ok(());
    };
    let Some(kind) = kind else {
        return Ok(());
    };
    match assigned(emitter.schema, emitter.buffer.scope.kinds.get(local), kind) {
        None => {
            emitter.buffer.note(TextFlaw::Kind);
            Ok(())
        }
        Some(kind) => {
            emitter.buffer.scope.kinds.put(local, kind);
            emitter.buffer.put(Op::Store(local))
        }
    }
}

// Emits a `new`.
#[tactic(auto, unfolding(crate::specs::Actions::new_code))]
fn emit_new(emitter: &mut Emitter, name: &Text, class: &Text) -> Result<(), CompileFault>
    ensures { Lays emitter.old emitter.new result (new_code emitter.old.schema.now name.now class.now) }
{
    let Some(class) = emitter.schema.class(class.as_str()) else {
        emitter.buffer.note(TextFlaw::Unknown);
        return Ok(());
    };
    emitter.buffer.put(Op::New(class))?;
    emitter.buffer.declare(name, Kind::Ref(class))
}

// Emits a `set`.
#[tactic(auto, unfolding(crate::specs::Actions::set_code))]
fn emit_set(
    emitter: &mut Emitter,
    unit: &Variable,
    slot: &Text,
    value: &Expr,
) -> Result<(), CompileFault>
    ensures { Lays emitter.old emitter.new result (set_code emitter.old.schema.now unit.now slot.now value.now) }
{
    let class = emit_unit(&mut emitter.buffer, unit, STACK_LIMIT)?;
    let kind = emit_expr(emitter, value, STACK_LIMIT - 1)?;
    let Some(class) = class else {
        return Ok(());
    };
    match value_slot(emitter.schema, class, slot.as_str()) {
        Err(flaw) => {
            emitter.buffer.note(flaw);
            Ok(())
        }
        Ok((slot, due)) => {
            emitter.buffer.due(kind, due);
            emitter.buffer.put(Op::Set(slot))
        }
    }
}

// Notes `LinkClass` if a unit's class is known and is not one that the link points to.
fn check_link(schema: &Schema, buffer: &mut Buffer, to: ClassId, other: Option<ClassId>)
    ensures { buffer.new ≡ link_noted schema.now to other buffer.old }
{
    let Some(other) = other else {
        return;
    };
    if schema.descends(other, to) {
        return;
    }
    buffer.note(TextFlaw::LinkClass);
}

// Emits the op that links or unlinks two units on the stack.
fn emit_change_of(
    emitter: &mut Emitter,
    change: LinkChange,
    class: Option<ClassId>,
    slot: &Text,
    other: Option<ClassId>,
) -> Result<(), CompileFault>
    ensures { Lays emitter.old emitter.new result
        (relinked_in emitter.old.schema.now change class slot.now other) }
{
    let Some(class) = class else {
        return Ok(());
    };
    match link_slot(emitter.schema, class, slot.as_str()) {
        Err(flaw) => {
            emitter.buffer.note(flaw);
            Ok(())
        }
        Ok((slot, link)) => {
            check_link(emitter.schema, &mut emitter.buffer, link.to, other);
            emitter.buffer.put(Op::Relink(change, slot))
        }
    }
}

// Emits a `link` or an `unlink`.
#[tactic(auto, unfolding(crate::specs::Actions::relink_code))]
fn emit_relink(
    emitter: &mut Emitter,
    change: LinkChange,
    unit: &Variable,
    slot: &Text,
    other: &Variable,
) -> Result<(), CompileFault>
    ensures { Lays emitter.old emitter.new result
        (relink_code emitter.old.schema.now change unit.now slot.now other.now) }
{
    let class = emit_unit(&mut emitter.buffer, unit, STACK_LIMIT)?;
    let of = emit_unit(&mut emitter.buffer, other, STACK_LIMIT - 1)?;
    emit_change_of(emitter, change, class, slot, of)
}

// Notes `Space` if a space does not admit units of a class.
fn check_space(schema: &Schema, buffer: &mut Buffer, space: SpaceId, class: ClassId)
    ensures { buffer.new ≡ space_noted schema.now space class buffer.old }
{
    if schema.allowed(space, class) {
        return;
    }
    buffer.note(TextFlaw::Space);
}

// Emits an `enter`.
#[tactic(auto, unfolding(crate::specs::Actions::enter_code))]
fn emit_enter(emitter: &mut Emitter, unit: &Variable, space: &Text) -> Result<(), CompileFault>
    ensures { Lays emitter.old emitter.new result (enter_code emitter.old.schema.now unit.now space.now) }
{
    let class = emit_unit(&mut emitter.buffer, unit, STACK_LIMIT)?;
    let space = space_named(emitter.schema, &mut emitter.buffer, space);
    let Some(class) = class else {
        return Ok(());
    };
    let Some(space) = space else {
        return Ok(());
    };
    check_space(emitter.schema, &mut emitter.buffer, space, class);
    emitter.buffer.put(Op::Enter(space))
}

// Emits a `leave`.
#[tactic(auto, unfolding(crate::specs::Actions::leave_code))]
fn emit_leave(emitter: &mut Emitter, unit: &Variable, space: &Text) -> Result<(), CompileFault>
    ensures { Lays emitter.old emitter.new result (leave_code emitter.old.schema.now unit.now space.now) }
{
    let _class = emit_unit(&mut emitter.buffer, unit, STACK_LIMIT)?;
    let Some(space) = emitter.schema.space(space.as_str()) else {
        emitter.buffer.note(TextFlaw::Unknown);
        return Ok(());
    };
    emitter.buffer.put(Op::Leave(space))
}

// Emits a `delete`.
#[tactic(auto, unfolding(crate::specs::Actions::delete_code))]
fn emit_delete(emitter: &mut Emitter, unit: &Variable) -> Result<(), CompileFault>
    ensures { Lays emitter.old emitter.new result (delete_code emitter.old.schema.now unit.now) }
{
    let Some(class) = emit_unit(&mut emitter.buffer, unit, STACK_LIMIT)? else {
        return Ok(());
    };
    emitter.buffer.put(Op::Delete)?;
    emitter.buffer.scope.kinds.strike(emitter.schema, class);
    Ok(())
}

// Emits expressions, in order.
#[tactic(auto, unfolding(crate::specs::Actions::values_code))]
fn emit_values(emitter: &mut Emitter, values: &[Expr]) -> Result<(), CompileFault>
    ensures { Lays emitter.old emitter.new result (values_code emitter.old.schema.now STACK_LIMIT values.now) }
{
    let mut room = STACK_LIMIT;
    for value in values {
        let _kind = emit_expr(emitter, value, room)?;
        room = room.saturating_sub(1);
    }
    Ok(())
}

// Emits a `say`.
#[tactic(auto, unfolding(crate::specs::Actions::say_code))]
fn emit_say(emitter: &mut Emitter, values: &[Expr]) -> Result<(), CompileFault>
    ensures { Lays emitter.old emitter.new result (say_code emitter.old.schema.now values.now) }
{
    emit_values(emitter, values)?;
    if values.len() > SAID_LIMIT as usize {
        emitter.buffer.note(TextFlaw::Limit);
        return Ok(());
    }
    emitter.buffer.put(Op::Say(values.len() as u8))
}

// Emits an end with a value of a kind.
#[tactic(auto, unfolding(crate::specs::Actions::end_code))]
fn emit_end(emitter: &mut Emitter, value: &Expr, due: Kind, op: Op) -> Result<(), CompileFault>
    ensures { Lays emitter.old emitter.new result (end_code emitter.old.schema.now value.now due op) }
{
    let kind = emit_expr(emitter, value, STACK_LIMIT)?;
    emitter.buffer.due(kind, due);
    emitter.buffer.put(op)
}

// Notes `NoEnd` if the part does not have this end.
fn check_end(right: bool, buffer: &mut Buffer)
    ensures { buffer.new ≡ end_noted right buffer.old }
{
    if right {
        return;
    }
    buffer.note(TextFlaw::NoEnd);
}

// Emits a change of a unit, or a `say`.
fn emit_change(emitter: &mut Emitter, action: &Action) -> Result<(), CompileFault>
    ensures { Lays emitter.old emitter.new result (change_code emitter.old.schema.now action.now) }
{
    match action {
        Action::New { name, class } => emit_new(emitter, name, class),
        Action::Set { unit, slot, value } => emit_set(emitter, unit, slot, value),
        Action::Link { unit, slot, other } => {
            emit_relink(emitter, LinkChange::Link, unit, slot, other)
        }
        Action::Unlink { unit, slot, other } => {
            emit_relink(emitter, LinkChange::Unlink, unit, slot, other)
        }
        Action::Enter { unit, space } => emit_enter(emitter, unit, space),
        Action::Leave { unit, space } => emit_leave(emitter, unit, space),
        Action::Delete { unit } => emit_delete(emitter, unit),
        Action::Say(values) => emit_say(emitter, values.as_slice()),
        _ => Ok(()),
    }
}

/// Emits a statement without blocks.
#[tactic(auto, unfolding(crate::specs::Actions::action_code))]
pub(crate) fn emit_action(emitter: &mut Emitter, action: &Action) -> Result<(), CompileFault>
    ensures { Lays emitter.old emitter.new result
        (action_code emitter.old.schema.now emitter.old.part action.now) }
{
    match action {
        Action::Let { name, value } => emit_let(emitter, name, value),
        Action::Assign { name, value } => emit_assign(emitter, name, value),
        Action::Rate(value) => {
            check_end(emitter.part.ends_rated().is_ok(), &mut emitter.buffer);
            emit_end(emitter, value, Kind::Int, Op::Rate)
        }
        Action::Decline => {
            check_end(emitter.part.ends_rated().is_ok(), &mut emitter.buffer);
            emitter.buffer.put(Op::Decline)
        }
        Action::Answer(value) => {
            check_end(emitter.part.ends_answered().is_ok(), &mut emitter.buffer);
            emit_end(emitter, value, Kind::Bool, Op::Answer)
        }
        _ => {
            check_effect(emitter.part, &mut emitter.buffer);
            emit_change(emitter, action)
        }
    }
}
