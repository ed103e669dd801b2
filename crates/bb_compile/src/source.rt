//! Compiles a source. Callers with a parsed text call `compile` for each source.

ghost use Rattle.std.specs.Prelude.{◌≡◌, IfOk};
ghost use Rattle.bb_basis.specs.Results.{Gives};
ghost use Rattle.bb_compile_scope.specs.declared.fault.CompileFault.TheVariants.{Memory as OutOfMemory};
ghost use Rattle.bb_compile.specs.Compiled.{header_of, act_of, draft_of, compiled};

use crate::part::emit_part;
use crate::parts::{class_on, parts_of};
use bb_bundle::{ActDraft, Header, SourceCode, SourceDraft};
use bb_code::Code;
use bb_compile_scope::{CompileFault, TextFlaw};
use bb_lang::{ActText, SourceText};
use bb_schema::Schema;
use bb_schema_classes::ClassId;
use bb_verify_effect::Part;
use std::alloc::{AllocError, Global};

// Makes the header of a source: its name, class, rate and triggers.
fn header_of(text: &SourceText) -> Result<Header, AllocError>
    ensures { IfOk result (λ header. header ≡ header_of text.now) }
{
    Ok(Header {
        name: text.header.name.clone()?,
        class: text.header.class.clone()?,
        rate: text.rate,
        triggers: text.clauses.clone()?,
    })
}

// Compiles the act of a source.
fn act_of(
    alloc: Global,
    schema: &Schema,
    class: ClassId,
    text: &ActText,
) -> Result<ActDraft<Code>, CompileFault>
    ensures { Gives OutOfMemory (λ a. a) result (act_of schema.now class text.now) }
{
    match text {
        ActText::Native => Ok(ActDraft::Native),
        ActText::Do(text) => {
            let part = Part::Do { class };
            let code = emit_part(alloc, schema, part, text.place, &text.block)?;
            Ok(ActDraft::Do(code))
        }
    }
}

// Compiles a source, without checking that a bundle can spell it.
#[tactic(auto, unfolding(crate::specs::Compiled::draft_of))]
fn draft_of(
    alloc: Global,
    schema: &Schema,
    text: &SourceText,
) -> Result<SourceDraft<Code>, CompileFault>
    ensures { Gives OutOfMemory (λ d. d) result (draft_of schema.now text.now) }
{
    let class = class_on(schema, &text.header.class, text.header.on)?;
    let header = header_of(text)?;
    let parts = parts_of(alloc, schema, class, &text.parts)?;
    let act = act_of(alloc, schema, class, &text.act)?;
    Ok(SourceDraft { header, parts, act })
}

/// Compiles a source: every part that is a block becomes a code. Fails with the first fault of the text.
#[tactic(auto, unfolding(crate::specs::Compiled::compiled))]
pub fn compile(
    alloc: Global,
    schema: &Schema,
    text: &SourceText,
) -> Result<SourceCode, CompileFault>
    ensures { Gives OutOfMemory (λ s. s) result (compiled schema.now text.now) }
{
    let draft = draft_of(alloc, schema, text)?;
    let flaw = TextFlaw::Unknown;
    let place = text.header.on;
    SourceCode::new(draft).ok_or(CompileFault::At { flaw, place })
}
