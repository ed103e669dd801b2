//! The reader of label sets, entry by entry. `Walked::of` calls it.

ghost use Rattle.std.specs.Prelude.{map, [], string_bytes};
ghost use Rattle.bb_basis.specs.Results.{Gives, try_fold_at};
ghost use Rattle.bb_schema_form.specs.Document.{label_set_declaration};
ghost use Rattle.bb_schema_classes.specs.declared.fault.SchemaFault.TheVariants.{Memory as OutOfMemory};
ghost use Rattle.bb_schema_form.specs.declared.place.ListKey.TheVariants as lists;
ghost use Rattle.bb_schema_classes.specs.Faults.{inside};
ghost use Rattle.bb_schema_classes.specs.LabelReading.{label_after, label_set_after};

use crate::fault::{SchemaFault, SchemaFlaw, placed};
use crate::label_set::{LABEL_LIMIT, LabelSet, Labels};
use bb_basis::{Table, Text, is_name};
use bb_schema_form::{LabelSetEntry, ListKey};
use std::alloc::Global;

/// The maximum number of label sets.
pub const LABEL_SET_LIMIT: usize = 256;

#[tactic(auto, unfolding(crate::specs::LabelReading::label_after))]
fn add_label(alloc: Global, labels: &mut Labels, name: &str) -> Result<(), SchemaFault>
    ensures { Gives OutOfMemory (λ _. labels.new) result (label_after labels.old name.now) }
{
    if !is_name(name) {
        return Err(SchemaFault::here(SchemaFlaw::Name));
    }
    if labels.contains(name) {
        return Err(SchemaFault::here(SchemaFlaw::Twice));
    }
    if labels.len() >= LABEL_LIMIT {
        return Err(SchemaFault::here(SchemaFlaw::Limit));
    }
    labels.push(alloc, Text::from_str(alloc, name)?)?;
    Ok(())
}

fn labels_of(alloc: Global, names: &[String]) -> Result<Labels, SchemaFault>
    ensures { Gives OutOfMemory (λ ls. ls) result
        (try_fold_at (inside lists.Values) label_after 0 [] (map string_bytes names.now)) }
{
    let mut labels = Labels::new(alloc);
    for (index, name) in names.iter().enumerate() {
        placed(
            add_label(alloc, &mut labels, name.as_str()),
            ListKey::Values,
            index,
        )?;
    }
    Ok(labels)
}

#[tactic(auto, unfolding(crate::specs::LabelReading::label_set_after))]
fn add_label_set(
    alloc: Global,
    sets: &mut Table<LabelSet>,
    entry: &LabelSetEntry,
) -> Result<(), SchemaFault>
    ensures { Gives OutOfMemory (λ _. sets.new) result (label_set_after sets.old (label_set_declaration entry.now)) }
{
    let name = entry.name.as_str();
    if !is_name(name) {
        return Err(SchemaFault::here(SchemaFlaw::Name));
    }
    if sets.contains(name) {
        return Err(SchemaFault::here(SchemaFlaw::Twice));
    }
    if sets.len() >= LABEL_SET_LIMIT {
        return Err(SchemaFault::here(SchemaFlaw::Limit));
    }
    let values = labels_of(alloc, &entry.values)?;
    let name = Text::from_str(alloc, name)?;
    sets.push(alloc, LabelSet { name, values })?;
    Ok(())
}

/// Returns the label sets of all entries, or the first fault.
pub(crate) fn label_sets_of(
    alloc: Global,
    entries: &[LabelSetEntry],
) -> Result<Table<LabelSet>, SchemaFault>
    ensures { Gives OutOfMemory (λ sets. sets) result
        (try_fold_at (inside lists.Labels) label_set_after 0 [] (map label_set_declaration entries.now)) }
{
    let mut sets = Table::new(alloc);
    for (index, entry) in entries.iter().enumerate() {
        placed(
            add_label_set(alloc, &mut sets, entry),
            ListKey::Labels,
            index,
        )?;
    }
    Ok(sets)
}
