//! Looks up the classes and clauses of a source by their names. `Source::new` calls it.

ghost use Rattle.std.specs.Prelude.{◌≡◌};
ghost use Rattle.bb_basis.specs.Results.{Gives};
ghost use Rattle.bb_rules.specs.Source.{class_of, class_within, classes_of, clause_of, clauses_of, kind_of};
ghost use Rattle.bb_rules.specs.Source.{link_slot, obviate_part, ordinary_slot, reaction_class};
ghost use Rattle.bb_rules.specs.Source.{retrigger_part, space_of};
ghost use Rattle.bb_rules.specs.proving.Steps.{reaction_clauses};

use crate::clause::Clause;
use crate::clauses::Clauses;
use crate::fault::{ClauseFlaw, RuleFault, placed};
use crate::place::{ClassPlace, ClauseList, ClausePlace};
use bb_board::ChangeKind;
use bb_bundle::{ChangeText, ClauseText, ReactionDraft, SourceDraft};
use bb_schema::{ClassId, Schema, SlotId, SpaceId};
use bb_verify::Part;
use std::alloc::Global;

/// The class of a source, and the classes of its reactions, if it has them.
#[derive(Clone, Copy, Debug, PartialEq, Eq)]
pub struct Classes {
    /// The class of the units that it works on.
    pub own: ClassId,
    /// The class of the units whose events may obviate its pending activations.
    pub obviated: Option<ClassId>,
    /// The class of the units whose events may give its pending activations another base rating.
    pub retriggered: Option<ClassId>,
}

impl Classes {
    /// Looks up the classes that a draft names, its own first. `Class`: a class is unknown; the fault has its position.
    #[tactic(auto, unfolding(crate::specs::Source::classes_of))]
    pub fn find<C>(schema: &Schema, draft: &SourceDraft<C>) -> Result<Classes, RuleFault>
        ensures { result ≡ classes_of schema.now draft.now }
    {
        let own = class_of(schema, ClassPlace::Source, draft.header.class.as_str())?;
        let obviated = reaction_class(schema, ClassPlace::Obviate, &draft.parts.obviate)?;
        let retriggered = reaction_class(schema, ClassPlace::Retrigger, &draft.parts.retrigger)?;
        Ok(Classes {
            own,
            obviated,
            retriggered,
        })
    }

    /// Returns the part of the code of `obviate`, if the source has one.
    pub fn obviate_part(self) -> Option<Part>
        ensures { result ≡ obviate_part self }
    {
        Some(Part::Obviate {
            class: self.own,
            of: self.obviated?,
        })
    }

    /// Returns the part of the code of `retrigger`, if the source has one.
    pub fn retrigger_part(self) -> Option<Part>
        ensures { result ≡ retrigger_part self }
    {
        Some(Part::Retrigger {
            class: self.own,
            of: self.retriggered?,
        })
    }
}

// Looks up a class that is named outside clauses, at a place.
fn class_of(schema: &Schema, place: ClassPlace, name: &str) -> Result<ClassId, RuleFault>
    ensures { result ≡ class_of schema.now place name.now }
{
    schema.class(name).ok_or(RuleFault::Class { place })
}

fn reaction_class<C>(
    schema: &Schema,
    place: ClassPlace,
    draft: &Option<ReactionDraft<C>>,
) -> Result<Option<ClassId>, RuleFault>
    ensures { result ≡ reaction_class schema.now place draft.now }
{
    match draft {
        None => Ok(None),
        Some(draft) => Ok(Some(class_of(schema, place, draft.class.as_str())?)),
    }
}

// Looks up the class of a clause, which must be `within` or descend from it.
fn class_within(schema: &Schema, within: ClassId, name: &str) -> Result<ClassId, ClauseFlaw>
    ensures { result ≡ class_within schema.now within name.now }
{
    let class = schema.class(name).ok_or(ClauseFlaw::Class)?;
    if !schema.descends(class, within) {
        return Err(ClauseFlaw::Class);
    }
    Ok(class)
}

fn ordinary_slot(schema: &Schema, class: ClassId, name: &str) -> Result<SlotId, ClauseFlaw>
    ensures { result ≡ ordinary_slot schema.now class name.now }
{
    let slot = schema.slot(class, name).ok_or(ClauseFlaw::Slot)?;
    if !schema.is_ordinary(slot) {
        return Err(ClauseFlaw::Slot);
    }
    Ok(slot)
}

fn link_slot(schema: &Schema, class: ClassId, name: &str) -> Result<SlotId, ClauseFlaw>
    ensures { result ≡ link_slot schema.now class name.now }
{
    let slot = schema.slot(class, name).ok_or(ClauseFlaw::Slot)?;
    if !schema.is_link(slot) {
        return Err(ClauseFlaw::Slot);
    }
    Ok(slot)
}

fn space_of(schema: &Schema, name: &str) -> Result<SpaceId, ClauseFlaw>
    ensures { result ≡ space_of schema.now name.now }
{
    schema.space(name).ok_or(ClauseFlaw::Space)
}

fn kind_of(schema: &Schema, class: ClassId, text: &ChangeText) -> Result<ChangeKind, ClauseFlaw>
    ensures { result ≡ kind_of schema.now class text.now }
{
    match text {
        ChangeText::Create => Ok(ChangeKind::Create),
        ChangeText::Delete => Ok(ChangeKind::Delete),
        ChangeText::Update(slot) => {
            Ok(ChangeKind::Update(ordinary_slot(schema, class, slot.as_str())?))
        }
        ChangeText::Link(slot) => Ok(ChangeKind::Link(link_slot(schema, class, slot.as_str())?)),
        ChangeText::Unlink(slot) => {
            Ok(ChangeKind::Unlink(link_slot(schema, class, slot.as_str())?))
        }
        ChangeText::Enter(space) => Ok(ChangeKind::Enter(space_of(schema, space.as_str())?)),
        ChangeText::Leave(space) => Ok(ChangeKind::Leave(space_of(schema, space.as_str())?)),
    }
}

fn clause_of(schema: &Schema, within: ClassId, text: &ClauseText) -> Result<Clause, ClauseFlaw>
    ensures { result ≡ clause_of schema.now within text.now }
{
    match text {
        ClauseText::Change { kind, class } => {
            let class = class_within(schema, within, class.as_str())?;
            let kind = kind_of(schema, class, kind)?;
            Ok(Clause::Change { kind, class })
        }
        ClauseText::Quiescence => Ok(Clause::Quiescence),
    }
}

/// Looks up a list of clauses about units of a class, in order.
pub(crate) fn clauses_of(
    alloc: Global,
    schema: &Schema,
    list: ClauseList,
    within: ClassId,
    texts: &[ClauseText],
) -> Result<Clauses, RuleFault>
    ensures { Gives RuleFault.Memory (λ c. c) result (clauses_of schema.now list within texts.now) }
{
    let mut clauses = Clauses::new(alloc);
    for (index, text) in texts.iter().enumerate() {
        let place = ClausePlace { list, index };
        let clause = placed(clause_of(schema, within, text), place)?;
        clauses = clauses.and(clause)?;
    }
    Ok(clauses)
}

/// Looks up the clauses of a reaction, if there is one.
pub(crate) fn reaction_clauses<C>(
    alloc: Global,
    schema: &Schema,
    list: ClauseList,
    class: Option<ClassId>,
    draft: &Option<ReactionDraft<C>>,
) -> Result<Option<Clauses>, RuleFault>
    ensures { Gives RuleFault.Memory (λ c. c) result (reaction_clauses schema.now list class draft.now) }
{
    match (class, draft) {
        (Some(class), Some(draft)) => {
            let clauses = clauses_of(alloc, schema, list, class, draft.clauses.as_slice())?;
            Ok(Some(clauses))
        }
        _ => Ok(None),
    }
}
