//! The reader of classes, entry by entry. `Walked::of` calls it.

ghost use Rattle.std.specs.Prelude.{◌≡◌, [], map, option_map, string_bytes, IfOk};
ghost use Rattle.bb_basis.specs.Results.{Gives};
ghost use Rattle.bb_schema_form.specs.Document.{class_declaration};
ghost use Rattle.bb_schema_classes.specs.declared.fault.SchemaFault.TheVariants.{Memory as OutOfMemory};
ghost use Rattle.bb_schema_classes.specs.ClassReading.{parent_number, inherited_slots, class_after, draft_of};

use crate::class::{Class, ClassId};
use crate::draft::{ClassDraft, Owner, SchemaDraft};
use crate::fault::{SchemaFault, SchemaFlaw, placed};
use crate::kind::SlotId;
use crate::label_set::LabelSet;
use crate::read::entries::Entries;
use crate::read::links::add_links;
use crate::read::slots::add_slots;
use bb_basis::{Items, Table, Text, is_name};
use bb_schema_form::{ClassEntry, ListKey};
use std::alloc::{AllocError, Global};
use std::mem;

/// The maximum number of classes, `focus` included.
pub const CLASS_LIMIT: usize = 256;

fn parent_number(
    classes: &Table<Class>,
    parent: &Option<String>,
) -> Result<Option<ClassId>, SchemaFault>
    ensures { result ≡ parent_number classes.now (option_map string_bytes parent.now) }
{
    match parent {
        None => Ok(None),
        Some(name) => {
            let number = classes
                .index_of(name.as_str())
                .ok_or(SchemaFault::here(SchemaFlaw::Unknown))?;
            Ok(Some(number))
        }
    }
}

// The slots that a class inherits from its parent.
fn inherited_slots(
    alloc: Global,
    classes: &Table<Class>,
    parent: Option<ClassId>,
) -> Result<Items<SlotId>, AllocError>
    ensures { IfOk result (λ slots. slots ≡ inherited_slots classes.now parent) }
{
    match parent {
        None => Ok(Items::new(alloc)),
        Some(number) => match classes.get(number as usize) {
            None => Ok(Items::new(alloc)),
            Some(class) => class.slots.clone(),
        },
    }
}

// Adds the class of an entry, which is one of `all`.
#[tactic(auto, unfolding(crate::specs::ClassReading::class_after))]
fn add_class(
    alloc: Global,
    sets: &Table<LabelSet>,
    all: &Entries,
    draft: &mut SchemaDraft,
    entry: &ClassEntry,
) -> Result<(), SchemaFault>
    ensures { Gives OutOfMemory (λ _. draft.new) result
        (class_after sets.now all.now draft.old (class_declaration entry.now)) }
{
    let name = entry.name.as_str();
    if !is_name(name) {
        return Err(SchemaFault::here(SchemaFlaw::Name));
    }
    if draft.classes.contains(name) {
        return Err(SchemaFault::here(SchemaFlaw::Twice));
    }
    let parent = parent_number(&draft.classes, &entry.parent)?;
    if draft.classes.len() >= CLASS_LIMIT {
        return Err(SchemaFault::here(SchemaFlaw::Limit));
    }
    let owner = Owner {
        name: Text::from_str(alloc, name)?,
        number: draft.classes.len() as ClassId,
    };
    let class_slots = inherited_slots(alloc, &draft.classes, parent)?;
    let slots = mem::replace(&mut draft.slots, Items::new(alloc));
    let mut class = ClassDraft { slots, class_slots };
    add_slots(alloc, sets, owner.number, &mut class, &entry.slots)?;
    add_links(alloc, all, &owner, &mut class, &entry.links)?;
    let ClassDraft { slots, class_slots } = class;
    draft.slots = slots;
    draft.classes.push(
        alloc,
        Class {
            name: owner.name,
            parent,
            slots: class_slots,
        },
    )?;
    Ok(())
}

fn add_classes(
    alloc: Global,
    sets: &Table<LabelSet>,
    all: &Entries,
    entries: &[ClassEntry],
) -> Result<SchemaDraft, SchemaFault>
    ensures { Gives OutOfMemory (λ draft. draft) result
        (draft_of sets.now all.now (map class_declaration entries.now)) }
{
    let mut draft = SchemaDraft {
        classes: Table::new(alloc),
        slots: Items::new(alloc),
    };
    for (number, entry) in entries.iter().enumerate() {
        // `focus`, number 0, has no entry in the document.
        placed(
            add_class(alloc, sets, all, &mut draft, entry),
            ListKey::Classes,
            number.saturating_sub(1),
        )?;
    }
    Ok(draft)
}

/// Returns the classes of all entries, or the first fault.
pub(crate) fn classes_of(
    alloc: Global,
    sets: &Table<LabelSet>,
    entries: &[ClassEntry],
) -> Result<SchemaDraft, SchemaFault>
    ensures { Gives OutOfMemory (λ draft. draft) result
        (draft_of sets.now (map class_declaration entries.now) (map class_declaration entries.now)) }
{
    let all = Entries::new(alloc, entries)?;
    add_classes(alloc, sets, &all, entries)
}
