//! `parse` (bb_lang) with a contract by the grammar only. No code calls it.

ghost use Rattle.std.specs.Prelude.{◌≡◌, ◌⊎◌, List, IfOk, IfErr};
ghost use Rattle.bb_lang_tree.specs.declared.fault.LangFault.TheVariants.{Memory as OutOfMemory};
ghost use Rattle.bb_lang_tree.specs.declared.source_text.SourceText.{SourceText as Tree};
ghost use Rattle.bb_theorem_grammar.specs.Sources.{IsFile};

use bb_lang::parse;
use bb_lang_tree::{LangFault, SourceText};
use std::alloc::Global;

/// Returns the sources of a text, in its order, as `parse` does.
///
/// - `given`: they are the sources that the grammar gives the text.
/// - `refused`: after a fault, the grammar gives the text no sources, unless memory ran out.
pub fn parse_by_grammar(alloc: Global, text: &str) -> Result<Vec<SourceText>, LangFault>
    ensures given { IfOk result (λ v. IsFile text.now v.items) }
    ensures refused { IfErr result (λ e. (e ≡ OutOfMemory) ⊎ ((trees : List Tree) → IsFile text.now trees → ⊥)) }
{
    parse(alloc, text)
}
