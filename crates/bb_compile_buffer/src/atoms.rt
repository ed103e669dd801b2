//! Checks and emits expressions without parts. The emission of expressions and statements calls it.

ghost use Rattle.std.specs.Prelude.{◌≡◌};
ghost use Rattle.bb_basis.specs.Results.{Gives};
ghost use Rattle.bb_compile_scope.specs.declared.fault.CompileFault.TheVariants.{Memory as OutOfMemory};
ghost use Rattle.bb_compile_buffer.specs.Atoms.{pushed, variable_code, unit_code, slot_code, text_noted, text_code, label_code};
ghost use Rattle.bb_compile_buffer.specs.Atoms.{atom_code};

use crate::buffer::Buffer;
use bb_basis::Text;
use bb_code::{Kind, Op, TEXT_BYTES_LIMIT};
use bb_compile_scope::{
    ClassId, CompileFault, Schema, TextFlaw, Variable, class_of, is_live, name_of, value_slot,
};
use bb_lang::Atom;

// Emits an op that pushes a value of a kind.
#[tactic(auto, unfolding(crate::specs::Atoms::pushed))]
fn emit_pushed(
    buffer: &mut Buffer,
    op: Op,
    gives: Kind,
    room: usize,
) -> Result<Option<Kind>, CompileFault>
    ensures { Gives OutOfMemory (λ kind. (kind, buffer.new)) result (pushed op gives room buffer.old) }
{
    buffer.put_value(op, room)?;
    Ok(Some(gives))
}

/// Emits a load of what a name holds, and returns its kind.
#[tactic(auto, unfolding(crate::specs::Atoms::variable_code))]
pub fn emit_variable(
    buffer: &mut Buffer,
    variable: &Variable,
    room: usize,
) -> Result<Option<Kind>, CompileFault>
    ensures { Gives OutOfMemory (λ kind. (kind, buffer.new)) result (variable_code variable.now room buffer.old) }
{
    let Some(local) = buffer.scope.local_of(name_of(variable)) else {
        buffer.note(TextFlaw::Unknown);
        return Ok(None);
    };
    buffer.put_value(Op::Load(local), room)?;
    Ok(Some(buffer.scope.kinds.get(local)))
}

/// Emits a load of the unit of a name, which must be live, and returns its class.
#[tactic(auto, unfolding(crate::specs::Atoms::unit_code))]
pub fn emit_unit(
    buffer: &mut Buffer,
    unit: &Variable,
    room: usize,
) -> Result<Option<ClassId>, CompileFault>
    ensures { Gives OutOfMemory (λ class. (class, buffer.new)) result (unit_code unit.now room buffer.old) }
{
    let Some(kind) = emit_variable(buffer, unit, room)? else {
        return Ok(None);
    };
    let Some(class) = class_of(kind) else {
        buffer.note(TextFlaw::Kind);
        return Ok(None);
    };
    if is_live(kind) {
        return Ok(Some(class));
    }
    buffer.note(TextFlaw::DeadName);
    Ok(Some(class))
}

// Emits the value that a unit has in a slot.
#[tactic(auto, unfolding(crate::specs::Atoms::slot_code))]
fn emit_slot(
    schema: &Schema,
    buffer: &mut Buffer,
    unit: &Variable,
    slot: &Text,
    room: usize,
) -> Result<Option<Kind>, CompileFault>
    ensures { Gives OutOfMemory (λ kind. (kind, buffer.new)) result
        (slot_code schema.now unit.now slot.now room buffer.old) }
{
    let Some(class) = emit_unit(buffer, unit, room)? else {
        return Ok(None);
    };
    match value_slot(schema, class, slot.as_str()) {
        Err(flaw) => {
            buffer.note(flaw);
            Ok(None)
        }
        Ok((slot, kind)) => {
            buffer.put(Op::Get(slot))?;
            Ok(Some(kind))
        }
    }
}

// Notes `Limit` if a text is too long.
fn check_text(buffer: &mut Buffer, text: &Text)
    ensures { buffer.new ≡ text_noted text.now buffer.old }
{
    if text.len() <= TEXT_BYTES_LIMIT as usize {
        return;
    }
    buffer.note(TextFlaw::Limit);
}

// Emits a text.
#[tactic(auto, unfolding(crate::specs::Atoms::text_code))]
fn emit_text(buffer: &mut Buffer, text: &Text, room: usize) -> Result<Option<Kind>, CompileFault>
    ensures { Gives OutOfMemory (λ kind. (kind, buffer.new)) result (text_code text.now room buffer.old) }
{
    check_text(buffer, text);
    let index = buffer.text(text.as_str())?;
    emit_pushed(buffer, Op::PushText(index), Kind::Text, room)
}

// Emits a label of a set.
#[tactic(auto, unfolding(crate::specs::Atoms::label_code))]
fn emit_label(
    schema: &Schema,
    buffer: &mut Buffer,
    set: &Text,
    label: &Text,
    room: usize,
) -> Result<Option<Kind>, CompileFault>
    ensures { Gives OutOfMemory (λ kind. (kind, buffer.new)) result
        (label_code schema.now set.now label.now room buffer.old) }
{
    let Some(set) = schema.label_set(set.as_str()) else {
        buffer.note(TextFlaw::Unknown);
        return Ok(None);
    };
    let Some(label) = schema.label(set, label.as_str()) else {
        buffer.note(TextFlaw::Unknown);
        return Ok(Some(Kind::Label(set)));
    };
    emit_pushed(buffer, Op::PushLabel(set, label), Kind::Label(set), room)
}

/// Emits an expression without parts, with space for `room` values on the stack. Returns its kind, if it is known.
#[tactic(auto, unfolding(crate::specs::Atoms::atom_code))]
pub fn emit_atom(
    schema: &Schema,
    buffer: &mut Buffer,
    atom: &Atom,
    room: usize,
) -> Result<Option<Kind>, CompileFault>
    ensures { Gives OutOfMemory (λ kind. (kind, buffer.new)) result (atom_code schema.now room atom.now buffer.old) }
{
    match atom {
        Atom::Int(number) => emit_pushed(buffer, Op::PushInt(*number), Kind::Int, room),
        Atom::Text(text) => emit_text(buffer, text, room),
        Atom::Bool(truth) => emit_pushed(buffer, Op::PushBool(*truth), Kind::Bool, room),
        Atom::Label { set, label } => emit_label(schema, buffer, set, label, room),
        Atom::Variable(variable) => emit_variable(buffer, variable, room),
        Atom::Slot { unit, slot } => emit_slot(schema, buffer, unit, slot, room),
    }
}
