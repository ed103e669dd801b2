//! Accepts the codes of a source, each for its part. The meaning of an input (sources.rt) begins with it.

ghost use Rattle.std.specs.Prelude.{◌≡◌, IfOk};
ghost use Rattle.bb_basis.specs.Results.{Gives, map_err};
ghost use Rattle.bb_shell.specs.declared.accepting.CodeFault.TheVariants.{Memory as OutOfMemory};
ghost use Rattle.bb_shell.specs.Accepting.{accepted_act, accepted_code, accepted_draft, accepted_part, accepted_parts, accepted_reaction, accepted_source, in_source};
ghost use Rattle.bb_rules.specs.Source.{classes_of};

use bb_basis::Text;
use bb_bundle::{ActDraft, Parts, ReactionDraft, SourceDraft};
use bb_code::{Code, Flaw, VerifyFault};
use bb_exec_lower::Lowered;
use bb_refusal::InputFault;
use bb_rules::Classes;
use bb_schema::Schema;
use bb_verify::{Part, verify};
use std::alloc::Global;

/// Why a source's code is not accepted.
#[derive(Clone, Copy, Debug)]
pub(crate) enum CodeFault {
    /// The code of this part has a fault.
    Verify { part: Part, fault: VerifyFault },
    /// Memory ran out.
    Memory,
}

/// Accepts the codes of a source. Its classes are looked up first, then each code is verified, in the order of a
/// bundle.
pub(crate) fn accept(
    alloc: Global,
    schema: &Schema,
    draft: SourceDraft<Code>,
) -> Result<SourceDraft<Lowered>, InputFault>
    ensures { Gives InputFault.Memory (λ d. d) result (accepted_source schema.now draft) }
{
    let (name, classes) = look_up(alloc, schema, &draft)?;
    in_source(name, accept_draft(alloc, schema, classes, draft))
}

// The name of a source, and the classes that it and its reactions name.
fn look_up(
    alloc: Global,
    schema: &Schema,
    draft: &SourceDraft<Code>,
) -> Result<(Text, Classes), InputFault>
    ensures classes { Gives InputFault.Memory (λ n. n.1) result
        (map_err (InputFault.Rule draft.now.header.name) (classes_of schema.now draft.now)) }
    ensures name { IfOk result (λ n. n.0 ≡ draft.now.header.name) }
{
    let name = Text::from_str(alloc, draft.header.name.as_str())?;
    match Classes::find(schema, draft) {
        Ok(classes) => Ok((name, classes)),
        Err(fault) => Err(InputFault::Rule { name, fault }),
    }
}

// The accepted source with this name; a fault of its codes becomes a fault of the source.
fn in_source(
    name: Text,
    accepted: Result<SourceDraft<Lowered>, CodeFault>,
) -> Result<SourceDraft<Lowered>, InputFault>
    ensures { result ≡ map_err (in_source name) accepted }
{
    match accepted {
        Ok(draft) => Ok(draft),
        Err(CodeFault::Memory) => Err(InputFault::Memory),
        Err(CodeFault::Verify { part, fault }) => Err(InputFault::Verify { name, part, fault }),
    }
}

// Accepts the parts of a source besides its act, in the order of a bundle.
#[tactic(auto, unfolding(crate::specs::Accepting::accepted_parts))]
fn accept_parts(
    alloc: Global,
    schema: &Schema,
    classes: Classes,
    mut codes: Parts<Code>,
) -> Result<Parts<Lowered>, CodeFault>
    ensures { Gives OutOfMemory (λ p. p) result (accepted_parts schema.now classes codes) }
{
    let class = classes.own;
    let mut parts = Parts::none();
    let require = accept_part(alloc, schema, Part::Require { class }, codes.require.take())?;
    parts.put_require(require);
    let obviate = accept_reaction(alloc, schema, classes.obviate_part(), codes.obviate.take())?;
    parts.put_obviate(obviate);
    let retrigger = accept_reaction(
        alloc,
        schema,
        classes.retrigger_part(),
        codes.retrigger.take(),
    )?;
    parts.put_retrigger(retrigger);
    let revalidate = accept_part(
        alloc,
        schema,
        Part::Revalidate { class },
        codes.revalidate.take(),
    )?;
    parts.put_revalidate(revalidate);
    Ok(parts)
}

// Accepts the codes of a draft, the act's last.
#[tactic(auto, unfolding(crate::specs::Accepting::accepted_draft))]
fn accept_draft(
    alloc: Global,
    schema: &Schema,
    classes: Classes,
    draft: SourceDraft<Code>,
) -> Result<SourceDraft<Lowered>, CodeFault>
    ensures { Gives OutOfMemory (λ d. d) result (accepted_draft schema.now classes draft) }
{
    let SourceDraft { header, parts, act } = draft;
    let class = classes.own;
    let parts = accept_parts(alloc, schema, classes, parts)?;
    let act = accept_act(alloc, schema, Part::Do { class }, act)?;
    Ok(SourceDraft { header, parts, act })
}

// Accepts a code for a part, and makes its instructions.
fn accept_code(alloc: Global, schema: &Schema, part: Part, code: Code) -> Result<Lowered, CodeFault>
    ensures { Gives OutOfMemory (λ c. c) result (accepted_code schema.now part code) }
{
    match verify(alloc, schema, part, code) {
        Ok(checked) => match Lowered::of(alloc, checked) {
            Ok(lowered) => Ok(lowered),
            Err(_) => Err(CodeFault::Memory),
        },
        Err(
            VerifyFault {
                flaw: Flaw::Memory,
                ..
            },
        ) => Err(CodeFault::Memory),
        Err(fault) => Err(CodeFault::Verify { part, fault }),
    }
}

// Accepts the code of a part, if the source has the part.
fn accept_part(
    alloc: Global,
    schema: &Schema,
    part: Part,
    code: Option<Code>,
) -> Result<Option<Lowered>, CodeFault>
    ensures { Gives OutOfMemory (λ c. c) result (accepted_part schema.now part code) }
{
    match code {
        None => Ok(None),
        Some(code) => Ok(Some(accept_code(alloc, schema, part, code)?)),
    }
}

// Accepts the code of a reaction, if the source has the reaction.
fn accept_reaction(
    alloc: Global,
    schema: &Schema,
    part: Option<Part>,
    draft: Option<ReactionDraft<Code>>,
) -> Result<Option<ReactionDraft<Lowered>>, CodeFault>
    ensures { Gives OutOfMemory (λ d. d) result (accepted_reaction schema.now part draft) }
{
    let (Some(part), Some(draft)) = (part, draft) else {
        return Ok(None);
    };
    let code = accept_code(alloc, schema, part, draft.code)?;
    Ok(Some(ReactionDraft {
        class: draft.class,
        clauses: draft.clauses,
        code,
    }))
}

fn accept_act(
    alloc: Global,
    schema: &Schema,
    part: Part,
    draft: ActDraft<Code>,
) -> Result<ActDraft<Lowered>, CodeFault>
    ensures { Gives OutOfMemory (λ d. d) result (accepted_act schema.now part draft) }
{
    match draft {
        ActDraft::Do(code) => Ok(ActDraft::Do(accept_code(alloc, schema, part, code)?)),
        ActDraft::Native => Ok(ActDraft::Native),
    }
}
