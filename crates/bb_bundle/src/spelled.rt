//! Which sources a bundle can spell: all names are valid, and no list of clauses is empty. `SourceCode` calls it.

ghost use Rattle.std.specs.Prelude.{◌≡◌};
ghost use Rattle.std.specs.List.{list_all};
ghost use Rattle.bb_bundle.specs.Spelled.{is_change, is_clause, are_clauses, is_reaction, is_spelled};

use crate::draft::{ReactionDraft, SourceDraft};
use bb_basis::is_name;
use bb_code::Code;
use bb_lang_tree::{ChangeText, ClauseText};

fn is_change(change: &ChangeText) -> bool
    ensures { result ≡ is_change change.now }
{
    match change {
        ChangeText::Create | ChangeText::Delete => true,
        ChangeText::Update(slot) | ChangeText::Link(slot) | ChangeText::Unlink(slot) => {
            is_name(slot.as_str())
        }
        ChangeText::Enter(space) | ChangeText::Leave(space) => is_name(space.as_str()),
    }
}

fn is_clause(clause: &ClauseText) -> bool
    ensures { result ≡ is_clause clause.now }
{
    match clause {
        ClauseText::Change { kind, class } => is_change(kind) && is_name(class.as_str()),
        ClauseText::Quiescence => true,
    }
}

fn all_clauses(clauses: &[ClauseText]) -> bool
    ensures { result ≡ list_all is_clause clauses.now }
{
    clauses.iter().all(|clause| is_clause(clause))
}

fn are_clauses(clauses: &[ClauseText]) -> bool
    ensures { result ≡ are_clauses clauses.now }
{
    !clauses.is_empty() && all_clauses(clauses)
}

fn is_reaction(reaction: &Option<ReactionDraft<Code>>) -> bool
    ensures { result ≡ is_reaction reaction.now }
{
    match reaction {
        None => true,
        Some(reaction) => is_name(reaction.class.as_str())
            && are_clauses(reaction.clauses.as_slice()),
    }
}

/// Returns whether a bundle can spell the source.
#[tactic(auto, unfolding(crate::specs::Spelled::is_spelled))]
pub(crate) fn is_spelled(draft: &SourceDraft<Code>) -> bool
    ensures { result ≡ is_spelled draft.now }
{
    is_name(draft.header.name.as_str())
        && is_name(draft.header.class.as_str())
        && are_clauses(draft.header.triggers.as_slice())
        && is_reaction(&draft.parts.obviate)
        && is_reaction(&draft.parts.retrigger)
}
