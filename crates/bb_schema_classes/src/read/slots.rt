//! The reader of the ordinary slots of a class, entry by entry. The reader of classes calls it.

ghost use Rattle.std.specs.Prelude.{◌≡◌, map, option_map, string_bytes};
ghost use Rattle.bb_basis.specs.Results.{Gives, try_fold_at};
ghost use Rattle.bb_schema_form.specs.Document.{default_declaration, slot_declaration};
ghost use Rattle.bb_schema_classes.specs.declared.fault.SchemaFault.TheVariants.{Memory as OutOfMemory};
ghost use Rattle.bb_schema_form.specs.declared.place.ListKey.TheVariants as lists;
ghost use Rattle.bb_schema_classes.specs.Faults.{inside};
ghost use Rattle.bb_schema_classes.specs.SlotReading.{chosen_label, label_value, default_value, is_long, slot_after};

use crate::class::ClassId;
use crate::draft::{ClassDraft, Draft, DraftContent};
use crate::fault::{SchemaFault, SchemaFlaw, placed};
use crate::label_set::{LabelId, LabelSet, LabelSetId, Labels};
use crate::value::{TEXT_LIMIT, Value};
use bb_basis::{Table, Text, is_name};
use bb_schema_form::{DefaultEntry, ListKey, SlotEntry};
use std::alloc::Global;

fn chosen_label(labels: &Labels, given: &Option<String>) -> Option<LabelId>
    ensures { result ≡ chosen_label labels.now (option_map string_bytes given.now) }
{
    match given {
        None if labels.len() == 0 => None,
        None => Some(0),
        Some(name) => labels.index_of(name.as_str()),
    }
}

#[tactic(auto, unfolding(crate::specs::SlotReading::label_value))]
fn label_value(
    sets: &Table<LabelSet>,
    of: &str,
    given: &Option<String>,
) -> Result<Value, SchemaFault>
    ensures { result ≡ label_value sets.now of.now (option_map string_bytes given.now) }
{
    let set = sets
        .index_of(of)
        .ok_or(SchemaFault::here(SchemaFlaw::Unknown))?;
    let labels = sets
        .get(set as usize)
        .ok_or(SchemaFault::here(SchemaFlaw::Unknown))?;
    let label = chosen_label(&labels.values, given).ok_or(SchemaFault::here(SchemaFlaw::Unknown))?;
    Ok(Value::Label(set, label))
}

fn default_value(
    alloc: Global,
    sets: &Table<LabelSet>,
    default: &DefaultEntry,
) -> Result<Value, SchemaFault>
    ensures { Gives OutOfMemory (λ v. v) result (default_value sets.now (default_declaration default.now)) }
{
    match default {
        DefaultEntry::Int(number) => Ok(Value::Int(*number)),
        DefaultEntry::Text(text) => Ok(Value::Text(Text::from_str(alloc, text.as_str())?)),
        DefaultEntry::Bool(truth) => Ok(Value::Bool(*truth)),
        DefaultEntry::Label { of, default } => label_value(sets, of.as_str(), default),
        DefaultEntry::Interval(low, high) => Ok(Value::Interval(*low, *high)),
    }
}

fn is_long(default: &DefaultEntry) -> bool
    ensures { result ≡ is_long (default_declaration default.now) }
{
    match default {
        DefaultEntry::Text(text) => text.len() > TEXT_LIMIT,
        _ => false,
    }
}

// Appends the ordinary slot of an entry to the class with number `owner`, or returns the entry's fault.
#[tactic(auto, unfolding(crate::specs::SlotReading::slot_after))]
fn add_slot(
    alloc: Global,
    sets: &Table<LabelSet>,
    owner: ClassId,
    class: &mut ClassDraft,
    entry: &SlotEntry,
) -> Result<(), SchemaFault>
    ensures { Gives OutOfMemory (λ _. class.new) result
        (slot_after sets.now owner class.old (slot_declaration entry.now)) }
{
    let name = entry.name.as_str();
    if !is_name(name) {
        return Err(SchemaFault::here(SchemaFlaw::Name));
    }
    if class.has_slot_named(name) {
        return Err(SchemaFault::here(SchemaFlaw::Twice));
    }
    let value = default_value(alloc, sets, &entry.default)?;
    if class.is_full() || is_long(&entry.default) {
        return Err(SchemaFault::here(SchemaFlaw::Limit));
    }
    let name = Text::from_str(alloc, name)?;
    let content = DraftContent::Default(value);
    class.push(Draft {
        name,
        owner,
        content,
    })?;
    Ok(())
}

/// Appends the ordinary slots of these entries to the class with number `owner`, or returns the first fault.
pub(crate) fn add_slots(
    alloc: Global,
    sets: &Table<LabelSet>,
    owner: ClassId,
    class: &mut ClassDraft,
    entries: &[SlotEntry],
) -> Result<(), SchemaFault>
    ensures { Gives OutOfMemory (λ _. class.new) result
        (try_fold_at (inside lists.Slots) (slot_after sets.now owner) 0 class.old (map slot_declaration entries.now)) }
{
    for (index, entry) in entries.iter().enumerate() {
        placed(
            add_slot(alloc, sets, owner, class, entry),
            ListKey::Slots,
            index,
        )?;
    }
    Ok(())
}
