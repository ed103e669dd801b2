//! The link of a slot, with numbers instead of names. bb_schema resolves links after all classes are read.

ghost use Rattle.std.specs.Prelude.{◌≡◌, find};
ghost use Rattle.bb_schema_classes.specs.Inheritance.{slots_in};
ghost use Rattle.bb_schema_classes.specs.Drafts.{draft_has_name};
ghost use Rattle.bb_schema_classes.specs.Resolution.{resolved_link};

use crate::class::{Class, ClassId};
use crate::draft::{Draft, LinkDraft, draft_has_name};
use crate::fault::{SchemaFault, SchemaFlaw};
use crate::kind::{Link, SlotId};
use bb_basis::Table;

fn find_draft(slots: &[Draft], numbers: &[SlotId], name: &str) -> Option<SlotId>
    ensures { result ≡ find (draft_has_name slots.now name.now) numbers.now }
{
    numbers
        .iter()
        .copied()
        .find(|number| draft_has_name(slots, *number, name))
}

// The slot with a name in a class, inherited ones included.
fn slot_named(classes: &Table<Class>, slots: &[Draft], class: ClassId, name: &str) -> Option<SlotId>
    ensures { result ≡ find (draft_has_name slots.now name.now) (slots_in classes.now class) }
{
    let found = classes.get(class as usize)?;
    find_draft(slots, found.slots.as_slice(), name)
}

/// Returns a link with the numbers of its target class and of its inverse, a slot of that class. `Unknown` if the class
/// is missing, `Inverse` if the inverse is. Allocates nothing.
#[tactic(auto, unfolding(crate::specs::Resolution::resolved_link))]
pub fn resolve_link(
    classes: &Table<Class>,
    slots: &[Draft],
    link: &LinkDraft,
) -> Result<Link, SchemaFault>
    ensures { result ≡ resolved_link classes.now slots.now link.now }
{
    let to = classes
        .index_of(link.to.as_str())
        .ok_or(SchemaFault::here(SchemaFlaw::Unknown))?;
    let inverse = slot_named(classes, slots, to, link.inverse.as_str()).ok_or(SchemaFault::here(
        SchemaFlaw::Inverse,
    ))?;
    Ok(Link {
        to,
        many: link.many,
        inverse,
        owns: link.owns,
    })
}
