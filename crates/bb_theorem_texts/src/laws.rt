//! What holds of an input's sources that are text. No code calls it; it states which codes the sources have that
//! `run_texts`, `Shell` and `check_texts` (bb_shell) make of an input, and what these codes mean.

ghost use Rattle.std.specs.Prelude.{◌≡◌, ℕ, List, Ok, Err, Some, slice_get};
ghost use Rattle.bb_lang.specs.Sources.{sources_of as trees_of};
ghost use Rattle.bb_lang.specs.SourceText.{SourceText};
ghost use Rattle.bb_shell.specs.InputFault.TheVariants.{Verify};
ghost use Rattle.bb_rules.specs.Parts.{Source};
ghost use Rattle.bb_shell.specs.Sources.{given};
ghost use Rattle.bb_verify.specs.PartType.{Part};
ghost use Rattle.bb_code.specs.declared.flaw.VerifyFault.{VerifyFault};
ghost use Rattle.bb_theorem_texts.specs.Texts.{IsRefusedInBundle, RunsAt};

use bb_schema::Schema;
use bb_theorem_meaning::{compiled_source_is_accepted, compiled_source_means_its_text};

/// States the outcome for an input's sources that are text, for any natives and any bundle besides them.
///
/// - `accepted`: if the verifier refuses a code of the input, the code belongs to the bundle: no text is refused.
/// - `run_as_written`: the source of each text is at the text's index among the sources of the run, with the codes that
///   the compiler gave for it, and each of these means the text of its part (`compiled_source_means_its_text` of
///   bb_theorem_meaning). Its triggers, and the class and clauses of its reactions, are the text's: each kind of
///   change, with the class and the slot or space that the text names.
pub fn text_sources_mean_their_text(schema: &Schema)
    ensures accepted { (natives : List (List ℕ)) (sources bundle name : List ℕ) (part : Part) (fault : VerifyFault) →
        given natives schema.now sources bundle ≡ Err (Verify name part fault) →
        IsRefusedInBundle schema.now bundle (Verify name part fault) }
    ensures run_as_written { (natives : List (List ℕ)) (sources bundle : List ℕ) (made : List Source)
        (trees : List SourceText) (i : ℕ) (text : SourceText) →
        given natives schema.now sources bundle ≡ Ok made →
        trees_of sources ≡ Ok trees → slice_get trees i ≡ Some text → RunsAt schema.now made i text }
{
    // For the proof: the laws of every compiled source.
    compiled_source_is_accepted(schema);
    compiled_source_means_its_text(schema);
}
