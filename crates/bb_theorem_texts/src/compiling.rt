//! `compile` (bb_compile) with a contract by the meaning of texts and the judgement of their faults only. No code calls
//! it.

ghost use Rattle.std.specs.Prelude.{◌≡◌, ◌⊎◌, [], IfOk, IfErr};
ghost use Rattle.bb_compile_scope.specs.declared.fault.CompileFault.TheVariants.{Memory as OutOfMemory};
ghost use Rattle.bb_theorem_grammar.specs.judged.Judgement.{IsFirst};
ghost use Rattle.bb_theorem_grammar.specs.judged.Sources.{source_faults, extents, IsTooLarge};
ghost use Rattle.bb_theorem_meaning.specs.Sources.{AreAccepted, AreMeant, within_budget};

use bb_compile::{CompileFault, SourceCode, SourceText, compile};
use bb_schema::Schema;
use bb_theorem_grammar::judged::refusals_are_judged;
use bb_theorem_meaning::{compiled_source_is_accepted, compiled_source_means_its_text};
use std::alloc::Global;

/// Compiles the text of a source, as `compile` does.
///
/// - `accepted`: if a source is returned, the text has no fault, and the verifier accepts each of the source's codes.
/// - `means`: it has the name, class, rate, clauses and parts of the text, and each of its codes means the text of its
///   part, on every blackboard of the schema.
/// - `refused`: a fault is the first of the text, or `Limit` at the beginning of a part that does not fit, or memory
///   ran out.
pub fn compile_by_meaning(
    alloc: Global,
    schema: &Schema,
    text: &SourceText,
) -> Result<SourceCode, CompileFault>
    ensures accepted { IfOk result (λ source.
        (source_faults schema.now text.now ≡ []) × AreAccepted schema.now source) }
    ensures means { IfOk result (λ source. AreMeant within_budget schema.now text.now source) }
    ensures refused { IfErr result (λ fault. (fault ≡ OutOfMemory)
        ⊎ (IsFirst fault (source_faults schema.now text.now) ⊎ IsTooLarge fault (extents schema.now text.now))) }
{
    // For the proof: the law of refusals, and those of what compiles.
    refusals_are_judged(schema);
    let source = compile(alloc, schema, text)?;
    compiled_source_is_accepted(schema);
    compiled_source_means_its_text(schema);
    Ok(source)
}
