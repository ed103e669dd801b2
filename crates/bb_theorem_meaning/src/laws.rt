//! Theorems about compiled code: the result of executing the code that `emit_part` (bb_compile) makes, on any
//! blackboard. Only theorems (bb_theorem_texts) call them.

ghost use Rattle.std.specs.Prelude.{◌≡◌, true, Ok};
ghost use Rattle.bb_code.specs.Code.{Code};
ghost use Rattle.bb_lang.specs.Blocks.{BlockTree};
ghost use Rattle.bb_lang.specs.SourceText.{SourceText};
ghost use Rattle.bb_bundle.specs.declared.draft.SourceDraft.{SourceDraft};
ghost use Rattle.bb_compile.specs.Compiled.{compiled};
ghost use Rattle.bb_compile_scope.specs.Place.{Place};
ghost use Rattle.bb_compile.specs.Parts.{part_code};
ghost use Rattle.bb_verify_effect.specs.declared.part.Part.{Part};
ghost use Rattle.bb_theorem_meaning.specs.Classes.{HasClasses};
ghost use Rattle.bb_theorem_meaning.specs.Loopless.{is_loopless};
ghost use Rattle.bb_theorem_meaning.specs.Sources.{is_loopless_source, once_each, within_budget};
ghost use Rattle.bb_theorem_meaning.specs.Sources.{AreAccepted, AreMeant, IsMeant};

use bb_schema::Schema;

/// States that the verifier accepts the codes of a compiled source.
///
/// - `accepted`: if `compile` makes a source of a tree, its class and the classes of its reactions are in the schema,
///   and the verifier accepts each of its codes for its part and these classes. Therefore the verifier refuses no text
///   that compiles.
pub fn compiled_source_is_accepted(schema: &Schema)
    ensures accepted { (text : SourceText) (draft : SourceDraft Code) →
        compiled schema.now text ≡ Ok draft → AreAccepted schema.now draft }
{
    // For the proof: the schema's invariant.
    schema.fits();
}

/// States what the code of a part means, regardless of its statements and expressions.
///
/// - `means`: if the classes of the part are in the schema, the code means its text on every blackboard that has the
///   schema and fits it, as each state of a run does. If an execution there begins with units that fit the part, and
///   may make the number of steps that the budget of its code allows for the longest possible sequence, then it gives
///   the answer of the text and leaves the blackboard of the text, with its notes; it finds no capacity for another
///   unit exactly if the text finds none; and it never gets stuck.
/// - `once_each`: if the part has no `for`, n steps are enough for a code of n ops.
///
/// The verifier's acceptance of the code is not a condition: the verifier accepts it (`compiled_code_is_accepted` of
/// bb_theorem_accepted).
pub fn compiled_code_means_its_text(schema: &Schema)
    ensures means { (part : Part) (place : Place) (block : BlockTree) (code : Code) →
        HasClasses schema.now part → part_code schema.now part place block ≡ Ok code →
        IsMeant within_budget schema.now part block code }
    ensures once_each { (part : Part) (place : Place) (block : BlockTree) (code : Code) →
        is_loopless block ≡ true → HasClasses schema.now part → part_code schema.now part place block ≡ Ok code →
        IsMeant once_each schema.now part block code }
{
    // For the proof: the schema's invariant.
    schema.fits();
}

/// States what a compiled source means.
///
/// - `means`: what `compile` makes of the tree of a source has the tree's name, class, rate and clauses; it has a part
///   exactly if the tree has one, for the classes that the tree names; and each of its codes means the part's text, on
///   every blackboard of the schema, in the number of steps that its budget allows (`compiled_code_means_its_text`).
/// - `once_each`: if no part has a `for`, in n steps for a code of n ops.
///
/// The limits of codes are not a condition: the codes are within them.
pub fn compiled_source_means_its_text(schema: &Schema)
    ensures means { (text : SourceText) (draft : SourceDraft Code) →
        compiled schema.now text ≡ Ok draft → AreMeant within_budget schema.now text draft }
    ensures once_each { (text : SourceText) (draft : SourceDraft Code) →
        is_loopless_source text ≡ true → compiled schema.now text ≡ Ok draft →
        AreMeant once_each schema.now text draft }
{
    // For the proof: the schema's invariant.
    schema.fits();
}
