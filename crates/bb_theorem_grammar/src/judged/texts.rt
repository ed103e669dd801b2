//! The theorem about refusals of the compiler, for sources that were read from a text. No code calls it.

ghost use Rattle.std.specs.Prelude.{◌≡◌, ℕ, List, Some, Ok, true, slice_get};
ghost use Rattle.std.specs.List.{list_all};
ghost use Rattle.bb_lang.specs.Sources.{sources_of};
ghost use Rattle.bb_lang.specs.SourceText.{SourceText};
ghost use Rattle.bb_theorem_grammar.specs.judged.Held.{source_held};
ghost use Rattle.bb_theorem_grammar.specs.judged.Small.{IsJudgedAsRead};
ghost use Rattle.bb_theorem_grammar.specs.judged.Sources.{is_text_spelled};

use crate::judged::judged::refusals_are_judged;
use crate::parsed_texts_are_in_the_grammar;
use bb_schema::Schema;

/// States what `refusals_are_judged` means for the sources that `parse` returns for a text, for any text: no condition
/// of that law is left that an author could not see in the text.
///
/// - `held`: their numbers fit in 64 bits, and their texts are UTF-8.
/// - `spelled`: their names are valid, and they and their reactions have clauses. None is therefore refused for its
///   spelling.
/// - `judged`: therefore each of them compiles exactly if it has no fault and each of its parts is small, unless memory
///   runs out: if the part's ops, different texts, queries and loops, counted over the text, are within the limits of a
///   code, and there is space for its names. If it is refused, it is for its first fault, or `Limit` at the beginning
///   of a part that is not small.
pub fn texts_are_judged(schema: &Schema)
    ensures held { (text : List ℕ) (trees : List SourceText) →
        sources_of text ≡ Ok trees → list_all source_held trees ≡ true }
    ensures spelled { (text : List ℕ) (trees : List SourceText) →
        sources_of text ≡ Ok trees → list_all is_text_spelled trees ≡ true }
    ensures judged { (text : List ℕ) (trees : List SourceText) (i : ℕ) (tree : SourceText) →
        sources_of text ≡ Ok trees → slice_get trees i ≡ Some tree → IsJudgedAsRead schema.now tree }
{
    // For the proof: the grammar of what is read, the laws of refusals, and the schema's invariant.
    parsed_texts_are_in_the_grammar();
    refusals_are_judged(schema);
    schema.fits();
}
