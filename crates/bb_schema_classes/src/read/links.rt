//! The reader of the link slots of a class, entry by entry. The reader of classes calls it.

ghost use Rattle.std.specs.Prelude.{◌≡◌, IfOk, map};
ghost use Rattle.bb_basis.specs.Results.{Gives, try_fold_at};
ghost use Rattle.bb_schema_form.specs.Document.{link_declaration};
ghost use Rattle.bb_schema_classes.specs.declared.fault.SchemaFault.TheVariants.{Memory as OutOfMemory};
ghost use Rattle.bb_schema_form.specs.declared.place.ListKey.TheVariants as lists;
ghost use Rattle.bb_schema_classes.specs.Faults.{inside};
ghost use Rattle.bb_schema_classes.specs.LinkReading.{leads_to, may_own, leads_back, drafted_link, link_after};

use crate::draft::{ClassDraft, Draft, DraftContent, LinkDraft, Owner};
use crate::fault::{SchemaFault, SchemaFlaw, placed};
use crate::read::entries::{ClassIndex, Entries};
use bb_basis::{Text, is_name};
use bb_schema_form::{LinkEntry, ListKey};
use std::alloc::{AllocError, Global};

fn leads_to(link: &LinkEntry, class: &str, inverse: &str) -> bool
    ensures { result ≡ leads_to (link_declaration link.now) class.now inverse.now }
{
    link.to.as_str() == class && link.inverse.as_str() == inverse
}

// Whether a link owns nothing, or its inverse is singular and owns nothing. A unit then has at most one owner by a slot
// and does not own its owner by the slot's inverse.
fn may_own(link: &LinkEntry, back: &LinkEntry) -> bool
    ensures { result ≡ may_own (link_declaration link.now) (link_declaration back.now) }
{
    !link.owns || (!back.many && !back.owns)
}

// Whether the target class of a link declares its inverse: another slot, which leads back and allows the link to own,
// if it does.
fn leads_back(target: &ClassIndex, class: &str, link: &LinkEntry) -> bool
    ensures { result ≡ leads_back target.now class.now (link_declaration link.now) }
{
    let name = link.name.as_str();
    if leads_to(link, class, name) {
        return false;
    }
    match target.link(link.inverse.as_str()) {
        None => false,
        Some(back) => leads_to(back, class, name) && may_own(link, back),
    }
}

fn drafted_link(alloc: Global, entry: &LinkEntry) -> Result<LinkDraft, AllocError>
    ensures { IfOk result (λ link. link ≡ drafted_link (link_declaration entry.now)) }
{
    Ok(LinkDraft {
        to: Text::from_str(alloc, entry.to.as_str())?,
        many: entry.many,
        inverse: Text::from_str(alloc, entry.inverse.as_str())?,
        owns: entry.owns,
    })
}

// Appends the link slot of an entry to the class `owner`, or returns the entry's fault.
#[tactic(auto, unfolding(crate::specs::LinkReading::link_after))]
fn add_link(
    alloc: Global,
    all: &Entries,
    owner: &Owner,
    draft: &mut ClassDraft,
    entry: &LinkEntry,
) -> Result<(), SchemaFault>
    ensures { Gives OutOfMemory (λ _. draft.new) result
        (link_after all.now owner.now.name owner.now.number draft.old (link_declaration entry.now)) }
{
    let name = entry.name.as_str();
    if !is_name(name) {
        return Err(SchemaFault::here(SchemaFlaw::Name));
    }
    if draft.has_slot_named(name) {
        return Err(SchemaFault::here(SchemaFlaw::Twice));
    }
    let target = all
        .named(entry.to.as_str())
        .ok_or(SchemaFault::here(SchemaFlaw::Unknown))?;
    if !leads_back(target, owner.name.as_str(), entry) {
        return Err(SchemaFault::here(SchemaFlaw::Inverse));
    }
    if draft.is_full() {
        return Err(SchemaFault::here(SchemaFlaw::Limit));
    }
    let name = Text::from_str(alloc, name)?;
    let link = drafted_link(alloc, entry)?;
    draft.push(Draft {
        name,
        owner: owner.number,
        content: DraftContent::Link(link),
    })?;
    Ok(())
}

/// Appends the link slots of these entries to the class `owner`, or returns the first fault.
pub(crate) fn add_links(
    alloc: Global,
    all: &Entries,
    owner: &Owner,
    draft: &mut ClassDraft,
    entries: &[LinkEntry],
) -> Result<(), SchemaFault>
    ensures { Gives OutOfMemory (λ _. draft.new) result
        (try_fold_at (inside lists.Links) (link_after all.now owner.now.name owner.now.number) 0 draft.old
        (map link_declaration entries.now)) }
{
    for (index, entry) in entries.iter().enumerate() {
        placed(
            add_link(alloc, all, owner, draft, entry),
            ListKey::Links,
            index,
        )?;
    }
    Ok(())
}
