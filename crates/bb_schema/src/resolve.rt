//! Resolves links, which get numbers instead of names, after all classes are read. `Schema::read` calls it.

ghost use Rattle.bb_basis.specs.Results.{Gives, try_map};
ghost use Rattle.bb_schema_classes.specs.declared.fault.SchemaFault.TheVariants.{Memory as OutOfMemory};
ghost use Rattle.bb_schema.specs.Resolution.{resolved_content, resolved_slot};

use crate::slot::{Content, Slot};
use bb_basis::Table;
use bb_schema_classes::{Class, Draft, DraftContent, SchemaFault, resolve_link};
use std::alloc::Global;

fn resolve_content(
    classes: &Table<Class>,
    slots: &[Draft],
    content: &DraftContent,
) -> Result<Content, SchemaFault>
    ensures { Gives OutOfMemory (λ c. c) result (resolved_content classes.now slots.now content.now) }
{
    match content {
        DraftContent::Default(value) => Ok(Content::Default(value.clone()?)),
        DraftContent::Link(link) => Ok(Content::Link(resolve_link(classes, slots, link)?)),
    }
}

#[tactic(auto, unfolding(crate::specs::Resolution::resolved_slot))]
fn resolve_slot(classes: &Table<Class>, slots: &[Draft], draft: &Draft) -> Result<Slot, SchemaFault>
    ensures { Gives OutOfMemory (λ t. t) result (resolved_slot classes.now slots.now draft.now) }
{
    let content = resolve_content(classes, slots, &draft.content)?;
    Ok(Slot {
        name: draft.name.clone()?,
        owner: draft.owner,
        content,
    })
}

/// Returns the slots, with numbers instead of names in every link. `Unknown` or `Inverse` if a link's target class or
/// inverse is missing.
pub fn resolve_slots(
    alloc: Global,
    classes: &Table<Class>,
    drafts: &[Draft],
) -> Result<Vec<Slot>, SchemaFault>
    ensures { Gives OutOfMemory (λ slots. slots.items) result
        (try_map (resolved_slot classes.now drafts.now) drafts.now) }
{
    let mut slots = Vec::new(alloc);
    for draft in drafts {
        slots.push(resolve_slot(classes, drafts, draft)?)?;
    }
    Ok(slots)
}
