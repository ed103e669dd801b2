//! Compiles the parts of a source other than its act, one after another. The compiler of sources (source.rt) calls it.

ghost use Rattle.std.specs.Prelude.{◌≡◌};
ghost use Rattle.bb_basis.specs.Results.{Gives};
ghost use Rattle.bb_verify_effect.specs.declared.part.Part.TheVariants.{Obviate, Retrigger};
ghost use Rattle.bb_compile_scope.specs.declared.fault.CompileFault.TheVariants.{Memory as OutOfMemory};
ghost use Rattle.bb_compile.specs.Compiled.{class_of_events, class_on, part_of, parts_of, reaction_of, reaction_if};

use crate::part::emit_part;
use bb_basis::Text;
use bb_bundle::{Parts, ReactionDraft};
use bb_code::Code;
use bb_compile_scope::{CompileFault, Place, TextFlaw, block_ends};
use bb_lang::{PartText, PartTexts, ReactionText};
use bb_schema::Schema;
use bb_schema_classes::ClassId;
use bb_verify_effect::Part;
use std::alloc::Global;

/// Looks up the class named after an `on`, at a location. `Unknown`: the class is missing.
pub(crate) fn class_on(schema: &Schema, name: &Text, place: Place) -> Result<ClassId, CompileFault>
    ensures { result ≡ class_on schema.now name.now place }
{
    let flaw = TextFlaw::Unknown;
    schema
        .class(name.as_str())
        .ok_or(CompileFault::At { flaw, place })
}

// Looks up the class of a reaction's events. A reaction that can run past its end is refused first, at its own place.
fn class_of_events(schema: &Schema, text: &ReactionText) -> Result<ClassId, CompileFault>
    ensures { result ≡ class_of_events schema.now text.now }
{
    if !block_ends(&text.block) {
        let flaw = TextFlaw::NoEnd;
        let place = text.place;
        return Err(CompileFault::At { flaw, place });
    }
    class_on(schema, &text.class, text.on)
}

// Compiles a part, if the source has it.
fn part_if(
    alloc: Global,
    schema: &Schema,
    part: Part,
    text: &Option<PartText>,
) -> Result<Option<Code>, CompileFault>
    ensures { Gives OutOfMemory (λ code. code) result (part_of schema.now part text.now) }
{
    match text {
        None => Ok(None),
        Some(text) => {
            let code = emit_part(alloc, schema, part, text.place, &text.block)?;
            Ok(Some(code))
        }
    }
}

// Compiles a reaction.
#[tactic(auto, unfolding(crate::specs::Compiled::reaction_of))]
fn reaction_of(
    alloc: Global,
    schema: &Schema,
    part: Part,
    text: &ReactionText,
) -> Result<ReactionDraft<Code>, CompileFault>
    ensures { Gives OutOfMemory (λ r. r) result (reaction_of schema.now part text.now) }
{
    let code = emit_part(alloc, schema, part, text.place, &text.block)?;
    Ok(ReactionDraft {
        class: text.class.clone()?,
        clauses: text.clauses.clone()?,
        code,
    })
}

// Compiles the reaction that ends activations, if the source has it.
fn obviation(
    alloc: Global,
    schema: &Schema,
    class: ClassId,
    text: &Option<ReactionText>,
) -> Result<Option<ReactionDraft<Code>>, CompileFault>
    ensures { Gives OutOfMemory (λ r. r) result (reaction_if schema.now (Obviate class) text.now) }
{
    let Some(text) = text else {
        return Ok(None);
    };
    let of = class_of_events(schema, text)?;
    let part = Part::Obviate { class, of };
    Ok(Some(reaction_of(alloc, schema, part, text)?))
}

// Compiles the reaction that rates activations again, if the source has it.
fn retriggering(
    alloc: Global,
    schema: &Schema,
    class: ClassId,
    text: &Option<ReactionText>,
) -> Result<Option<ReactionDraft<Code>>, CompileFault>
    ensures { Gives OutOfMemory (λ r. r) result (reaction_if schema.now (Retrigger class) text.now) }
{
    let Some(text) = text else {
        return Ok(None);
    };
    let of = class_of_events(schema, text)?;
    let part = Part::Retrigger { class, of };
    Ok(Some(reaction_of(alloc, schema, part, text)?))
}

/// Compiles the parts of a source other than its act.
#[tactic(auto, unfolding(crate::specs::Compiled::parts_of))]
pub(crate) fn parts_of(
    alloc: Global,
    schema: &Schema,
    class: ClassId,
    texts: &PartTexts,
) -> Result<Parts<Code>, CompileFault>
    ensures { Gives OutOfMemory (λ parts. parts) result (parts_of schema.now class texts.now) }
{
    let mut parts = Parts::none();
    parts.put_require(part_if(alloc, schema, Part::Require { class }, &texts.require)?);
    parts.put_obviate(obviation(alloc, schema, class, &texts.obviate)?);
    parts.put_retrigger(retriggering(alloc, schema, class, &texts.retrigger)?);
    parts.put_revalidate(part_if(alloc, schema, Part::Revalidate { class }, &texts.revalidate)?);
    Ok(parts)
}
