//! The meanings of the names in a draft: classes, and the events that a source responds to. `Source::new` looks them
//! up.

ghost use Rattle.bb_basis.specs.Results.{Gives};
ghost use Rattle.bb_rules.specs.proving.Steps.{found, found_with};

use crate::clauses::Clauses;
use crate::fault::RuleFault;
use crate::parts::parts_fit;
use crate::place::ClauseList;
use crate::resolve::{Classes, clauses_of, reaction_clauses};
use bb_bundle::SourceDraft;
use bb_exec_lower::Lowered;
use bb_schema::Schema;
use std::alloc::Global;

/// The meanings of the names in a draft.
#[derive(Drop)]
pub(crate) struct Found {
    /// The class of the source, and the classes of its reactions.
    pub classes: Classes,
    /// The events that trigger the source.
    pub triggers: Clauses,
    /// The events that may obviate pending activations, if the source has `obviate`.
    pub obviating: Option<Clauses>,
    /// The events that may give pending activations another base rating, if the source has `retrigger`.
    pub retriggering: Option<Clauses>,
}

impl Found {
    /// Looks up the classes of a draft, then checks that each code was accepted for its part, then looks up the
    /// clauses.
    #[tactic(auto, unfolding(crate::specs::proving::Steps::found))]
    pub(crate) fn of(
        alloc: Global,
        schema: &Schema,
        draft: &SourceDraft<Lowered>,
    ) -> Result<Found, RuleFault>
        ensures { Gives RuleFault.Memory (λ f. f) result (found schema.now draft.now) }
    {
        let classes = Classes::find(schema, draft)?;
        parts_fit(classes, draft)?;
        Found::with_classes(alloc, schema, classes, draft)
    }

    // Looks up the clauses of a draft whose classes are known, its triggers first.
    #[tactic(auto, unfolding(crate::specs::proving::Steps::found_with))]
    fn with_classes<C>(
        alloc: Global,
        schema: &Schema,
        classes: Classes,
        draft: &SourceDraft<C>,
    ) -> Result<Found, RuleFault>
        ensures { Gives RuleFault.Memory (λ f. f) result (found_with schema.now classes draft.now) }
    {
        let triggers = clauses_of(
            alloc,
            schema,
            ClauseList::Triggers,
            classes.own,
            draft.header.triggers.as_slice(),
        )?;
        let obviating = reaction_clauses(
            alloc,
            schema,
            ClauseList::Obviate,
            classes.obviated,
            &draft.parts.obviate,
        )?;
        let retriggering = reaction_clauses(
            alloc,
            schema,
            ClauseList::Retrigger,
            classes.retriggered,
            &draft.parts.retrigger,
        )?;
        Ok(Found {
            classes,
            triggers,
            obviating,
            retriggering,
        })
    }
}
