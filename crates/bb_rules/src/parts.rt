//! Checks that the codes of a source were accepted for their parts. `Source::new` calls it.

ghost use Rattle.std.specs.Prelude.{◌≡◌, option_map};
ghost use Rattle.bb_rules.specs.Source.{act_code, is_for, is_for_reaction, is_same_part, parts_fit, reaction_code};

use crate::fault::RuleFault;
use crate::resolve::Classes;
use bb_bundle::{ActDraft, ReactionDraft, SourceDraft};
use bb_exec_lower::Lowered;
use bb_verify::Part;

fn is_same_part(part: Part, other: Part) -> bool
    ensures { result ≡ is_same_part part other }
{
    part == other
}

// Checks that a code, if there is one, was accepted for this part.
fn is_for(part: Part, code: Option<&Lowered>) -> Result<(), RuleFault>
    ensures { result ≡ is_for part (option_map (λ c. c.now) code.entry) }
{
    match code {
        Some(code) if !is_same_part(code.checked().part(), part) => Err(RuleFault::Part),
        _ => Ok(()),
    }
}

fn reaction_code(draft: &Option<ReactionDraft<Lowered>>) -> Option<&Lowered>
    ensures { option_map (λ c. c.now) result ≡ reaction_code draft.now }
{
    match draft {
        None => None,
        Some(draft) => Some(&draft.code),
    }
}

fn act_code(draft: &ActDraft<Lowered>) -> Option<&Lowered>
    ensures { option_map (λ c. c.now) result ≡ act_code draft.now }
{
    match draft {
        ActDraft::Do(code) => Some(code),
        ActDraft::Native => None,
    }
}

// Checks that the code of a reaction, if there is one, was accepted for its part.
fn is_for_reaction(part: Option<Part>, code: Option<&Lowered>) -> Result<(), RuleFault>
    ensures { result ≡ is_for_reaction part (option_map (λ c. c.now) code.entry) }
{
    match part {
        None => Ok(()),
        Some(part) => is_for(part, code),
    }
}

/// Checks that each code of a draft was accepted for its part and these classes. `Part`: one was not.
#[tactic(auto, unfolding(crate::specs::Source::parts_fit))]
pub(crate) fn parts_fit(classes: Classes, draft: &SourceDraft<Lowered>) -> Result<(), RuleFault>
    ensures { result ≡ parts_fit classes draft.now }
{
    let class = classes.own;
    is_for(Part::Require { class }, draft.parts.require.as_ref())?;
    is_for_reaction(classes.obviate_part(), reaction_code(&draft.parts.obviate))?;
    is_for_reaction(
        classes.retrigger_part(),
        reaction_code(&draft.parts.retrigger),
    )?;
    is_for(Part::Revalidate { class }, draft.parts.revalidate.as_ref())?;
    is_for(Part::Do { class }, act_code(&draft.act))
}
