//! Checks and emits what a `with` tests and declares. The emission of statements calls `emit_binding`.

ghost use Rattle.std.specs.Prelude.{◌≡◌};
ghost use Rattle.bb_basis.specs.Results.{Gives};
ghost use Rattle.bb_compile_scope.specs.declared.fault.CompileFault.TheVariants.{Memory as OutOfMemory};
ghost use Rattle.bb_compile.specs.Bindings.{tells_more, is_test, is_class, as_code, alive_code, test_code, bound_as};
ghost use Rattle.bb_compile.specs.Bindings.{with_as};
ghost use Rattle.bb_compile.specs.Bindings.{with_partner, binding_code};
ghost use Rattle.bb_compile.specs.proving.Laying.{Makes};

use crate::emitter::Emitter;
use crate::exits::Exits;
use crate::expressions::class_named;
use bb_basis::Text;
use bb_code::{Kind, Op, STACK_LIMIT};
use bb_compile_buffer::{Buffer, emit_unit, emit_variable};
use bb_compile_scope::{CompileFault, TextFlaw, Variable, class_of, is_live, partner_slot};
use bb_lang::Binding;
use bb_schema::Schema;
use bb_schema_classes::ClassId;

// Returns whether a unit of a class, live or not, may be tested to be of another.
fn tells_more(schema: &Schema, live: bool, own: ClassId, class: ClassId) -> bool
    ensures { result ≡ tells_more schema.now live own class }
{
    if !schema.descends(class, own) {
        return false;
    }
    if !live {
        return true;
    }
    class != own
}

// Returns whether what a name holds may be tested to be a unit of a class.
fn is_test(schema: &Schema, held: Kind, class: ClassId) -> bool
    ensures { result ≡ is_test schema.now held class }
{
    match class_of(held) {
        None => false,
        Some(own) => tells_more(schema, is_live(held), own, class),
    }
}

// Returns whether the class of a unit is known and is this one.
fn is_class(own: Option<ClassId>, class: ClassId) -> bool
    ensures { result ≡ is_class own class }
{
    match own {
        None => false,
        Some(own) => own == class,
    }
}

// Emits the test of a live unit, which is on the stack.
#[tactic(auto, unfolding(crate::specs::Bindings::as_code))]
fn emit_live(buffer: &mut Buffer, class: ClassId) -> Result<Exits, CompileFault>
    ensures { Gives OutOfMemory (λ exits. (exits, buffer.new)) result (as_code class buffer.old) }
{
    let first = buffer.ops.here();
    buffer.put(Op::As(class, 0))?;
    Ok(Exits::one(first))
}

// Emits the test of a unit that may be deleted: for the class that it is known to have, or for another.
#[tactic(auto, unfolding(crate::specs::Bindings::alive_code))]
fn emit_old(buffer: &mut Buffer, same: bool, class: ClassId) -> Result<Exits, CompileFault>
    ensures { Gives OutOfMemory (λ exits. (exits, buffer.new)) result (alive_code same class buffer.old) }
{
    let first = buffer.ops.here();
    buffer.put(Op::Alive(0))?;
    if same {
        return Ok(Exits::one(first));
    }
    let second = buffer.ops.here();
    buffer.put(Op::As(class, 0))?;
    Ok(Exits {
        first,
        second: Some(second),
    })
}

// Emits the test that a unit, which is on the stack, is live and of a class.
fn emit_test(buffer: &mut Buffer, held: Kind, class: ClassId) -> Result<Exits, CompileFault>
    ensures { Gives OutOfMemory (λ exits. (exits, buffer.new)) result (test_code held class buffer.old) }
{
    if is_live(held) {
        return emit_live(buffer, class);
    }
    emit_old(buffer, is_class(class_of(held), class), class)
}

// Emits a test that a unit, which is on the stack, is live and of a class, and declares a name for a unit that passes.
fn emit_bound(
    emitter: &mut Emitter,
    name: &Text,
    held: Kind,
    class: ClassId,
) -> Result<Option<Exits>, CompileFault>
    ensures { Makes emitter.old emitter.new result
        (bound_as emitter.old.schema.now name.now held class) }
{
    if !is_test(emitter.schema, held, class) {
        emitter.buffer.note(TextFlaw::Kind);
        return Ok(None);
    }
    let exits = emit_test(&mut emitter.buffer, held, class)?;
    emitter.buffer.declare(name, Kind::Ref(class))?;
    Ok(Some(exits))
}

// Emits `name = unit as class`.
#[tactic(auto, unfolding(crate::specs::Bindings::with_as))]
fn emit_as(
    emitter: &mut Emitter,
    name: &Text,
    unit: &Variable,
    class: &Text,
) -> Result<Option<Exits>, CompileFault>
    ensures { Makes emitter.old emitter.new result
        (with_as emitter.old.schema.now name.now unit.now class.now) }
{
    let held = emit_variable(&mut emitter.buffer, unit, STACK_LIMIT)?;
    let class = class_named(emitter.schema, &mut emitter.buffer, class);
    let Some(held) = held else {
        return Ok(None);
    };
    let Some(class) = class else {
        return Ok(None);
    };
    emit_bound(emitter, name, held, class)
}

// Emits `name = unit.slot`.
#[tactic(auto, unfolding(crate::specs::Bindings::with_partner))]
fn emit_partner(
    emitter: &mut Emitter,
    name: &Text,
    unit: &Variable,
    slot: &Text,
) -> Result<Option<Exits>, CompileFault>
    ensures { Makes emitter.old emitter.new result
        (with_partner emitter.old.schema.now name.now unit.now slot.now) }
{
    let Some(class) = emit_unit(&mut emitter.buffer, unit, STACK_LIMIT)? else {
        return Ok(None);
    };
    match partner_slot(emitter.schema, class, slot.as_str()) {
        Err(flaw) => {
            emitter.buffer.note(flaw);
            Ok(None)
        }
        Ok((slot, to)) => {
            let at = emitter.buffer.ops.here();
            emitter.buffer.put(Op::One(slot, 0))?;
            emitter.buffer.declare(name, Kind::Ref(to))?;
            Ok(Some(Exits::one(at)))
        }
    }
}

/// Emits what a `with` tests and declares. Returns the exits of its test, or `None` if it has a flaw.
pub(crate) fn emit_binding(
    emitter: &mut Emitter,
    binding: &Binding,
) -> Result<Option<Exits>, CompileFault>
    ensures { Makes emitter.old emitter.new result (binding_code emitter.old.schema.now binding.now) }
{
    match binding {
        Binding::As { name, unit, class } => emit_as(emitter, name, unit, class),
        Binding::Linked { name, unit, slot } => emit_partner(emitter, name, unit, slot),
    }
}
