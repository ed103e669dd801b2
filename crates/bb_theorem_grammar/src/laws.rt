//! Theorems about the trees of a text: `parse` (bb_lang) returns the trees that the grammar gives. No code calls them.

ghost use Rattle.std.specs.Prelude.{◌≡◌, ℕ, List, Ok};
ghost use Rattle.bb_lang_tree.specs.declared.source_text.SourceText.{SourceText};
ghost use Rattle.bb_lang.specs.Sources.{sources_of};
ghost use Rattle.bb_theorem_grammar.specs.Tokens.{IsCut};
ghost use Rattle.bb_theorem_grammar.specs.Sources.{IsFile};

/// States what the grammar says about the result of `parse`, which is the result of `sources_of`.
///
/// - `whole`: if `parse` returns trees, the text consists of tokens up to its end, with only blanks and comments before
///   each.
/// - `grammatical`: the grammar gives the text these trees. Its productions are a relation between positions in the
///   text and trees, without a reader. Nothing is left after the last source. Therefore the whole text was read, and
///   the loop over sources did not stop at its bound.
pub fn parsed_texts_are_in_the_grammar()
    ensures whole { (text : List ℕ) (trees : List SourceText) → sources_of text ≡ Ok trees → IsCut text }
    ensures grammatical { (text : List ℕ) (trees : List SourceText) → sources_of text ≡ Ok trees → IsFile text trees }
{}

/// States what `parse` returns for the texts of the grammar.
///
/// - `taken`: if the grammar gives a text trees, `parse` finds no fault in it and returns these trees, unless memory
///   runs out. Therefore no bound of a reader cuts a repetition short, and none of its choices is made too early.
/// - `only`: the grammar gives a text at most one list of trees.
pub fn texts_in_the_grammar_are_parsed()
    ensures taken { (text : List ℕ) (trees : List SourceText) → IsFile text trees → sources_of text ≡ Ok trees }
    ensures only { (text : List ℕ) (trees others : List SourceText) → IsFile text trees → IsFile text others →
        trees ≡ others }
{}
