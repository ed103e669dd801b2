//! The theorem about refusals of the compiler: what `emit_part` and `compile` (bb_compile) refuse has a fault, and
//! which one. No code calls it.

ghost use Rattle.std.specs.Prelude.{◌≡◌, [], Ok, Err, true, is_ok};
ghost use Rattle.bb_code.specs.Code.{Code};
ghost use Rattle.bb_lang.specs.Blocks.{BlockTree};
ghost use Rattle.bb_lang.specs.SourceText.{SourceText};
ghost use Rattle.bb_bundle.specs.declared.draft.SourceDraft.{SourceDraft};
ghost use Rattle.bb_compile_scope.specs.Place.{Place};
ghost use Rattle.bb_compile_scope.specs.declared.fault.CompileFault.{CompileFault};
ghost use Rattle.bb_compile.specs.Parts.{part_code};
ghost use Rattle.bb_compile.specs.Compiled.{compiled};
ghost use Rattle.bb_verify_effect.specs.declared.part.Part.{Part};
ghost use Rattle.bb_theorem_grammar.specs.judged.Fitting.{fits};
ghost use Rattle.bb_theorem_grammar.specs.judged.Held.{part_held, statements_held, source_held};
ghost use Rattle.bb_theorem_grammar.specs.judged.Judgement.{part_faults, IsJudged};
ghost use Rattle.bb_theorem_grammar.specs.judged.Sources.{source_faults, extents, all_fit, AreJudged, IsTooLarge};

use bb_schema::Schema;

/// States that a source is refused for the first fault of its text. Which faults a text has is defined by names and
/// kinds only, without a code. A source without a fault compiles if its parts fit. A part fits if its ops, different
/// texts, queries and loops, counted over the text, are within the limits of a code, there is space for its names, its
/// numbers fit in 64 bits and the numbers of its classes in 16, and its texts are UTF-8; the types of a text ensure the
/// last three.
///
/// - `parts`: a part that has a code has no fault. The fault of a part that is refused is the first of its faults, with
///   that location and that flaw; or it is `Limit` at the beginning of the part, because its code would be too large,
///   and then the part does not fit.
/// - `sources`: a source that compiles has no fault. The fault of a source that is refused, unless memory ran out, is
///   the first of its faults, or `Limit` at the beginning of one of its parts that does not fit.
/// - `clean`: therefore a source without a fault is refused only for lack of memory, or because a part does not fit.
/// - `whole`: a source without a fault, all of whose parts fit, compiles, unless memory runs out.
/// - `fitting`: each part of a source that compiles fits, if the source's numbers and texts are as above. Therefore a
///   source compiles exactly if it has no fault and its parts fit, unless memory runs out.
/// - `exact`: the same for a part that has a code.
pub fn refusals_are_judged(schema: &Schema)
    ensures parts { (part : Part) (place : Place) (block : BlockTree) →
        IsJudged place (fits schema.now part block)
        (part_faults schema.now part place block) (part_code schema.now part place block) }
    ensures sources { (text : SourceText) →
        AreJudged (extents schema.now text) (source_faults schema.now text) (compiled schema.now text) }
    ensures clean { (text : SourceText) (fault : CompileFault) →
        source_faults schema.now text ≡ [] → compiled schema.now text ≡ Err fault →
        IsTooLarge fault (extents schema.now text) }
    ensures whole { (text : SourceText) →
        source_faults schema.now text ≡ [] → all_fit schema.now text ≡ true → is_ok (compiled schema.now text) ≡ true }
    ensures fitting { (text : SourceText) (draft : SourceDraft Code) →
        source_held text ≡ true → compiled schema.now text ≡ Ok draft → all_fit schema.now text ≡ true }
    ensures exact { (part : Part) (place : Place) (block : BlockTree) →
        part_held part ≡ true → statements_held block ≡ true → (code : Code) →
        part_code schema.now part place block ≡ Ok code → fits schema.now part block ≡ true }
{
    // For the proof: the schema's invariant.
    schema.fits();
}
