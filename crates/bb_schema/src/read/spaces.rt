//! The reader of spaces, entry by entry, for a schema without spaces. `Schema::read` calls it.

ghost use Rattle.std.specs.Prelude.{◌≡◌, [], map, option_map, string_bytes};
ghost use Rattle.std.specs.List.{list_all};
ghost use Rattle.bb_basis.specs.Results.{Gives, try_fold_at};
ghost use Rattle.bb_schema_form.specs.Document.{dim_declaration, space_declaration};
ghost use Rattle.bb_schema_classes.specs.declared.fault.SchemaFault.TheVariants.{Memory as OutOfMemory};
ghost use Rattle.bb_schema_form.specs.declared.place.ListKey.TheVariants as lists;
ghost use Rattle.bb_schema_classes.specs.Faults.{inside};
ghost use Rattle.bb_schema.specs.SpaceReading.{space_class_after, suits, has_slot_for, set_number, dim_after, space_after};
ghost use Rattle.bb_schema.specs.proving.Readings.{has_slot_at};

use crate::bare::BareSchema;
use crate::space::{Dim, Space};
use bb_basis::{IdSet, Table, Text, is_name};
use bb_schema_classes::{ClassId, Kind, LabelSetId, SchemaFault, SchemaFlaw, placed};
use bb_schema_form::{DimEntry, ListKey, SpaceEntry};
use std::alloc::Global;

/// The maximum number of spaces.
pub(crate) const SPACE_LIMIT: usize = 256;

/// The maximum number of dimensions of a space.
pub(crate) const DIM_LIMIT: usize = 16;

#[tactic(auto, unfolding(crate::specs::SpaceReading::space_class_after, bb_schema_classes::specs::Inheritance::is_among))]
fn add_space_class(schema: &BareSchema, listed: &mut IdSet, name: &str) -> Result<(), SchemaFault>
    ensures { Gives OutOfMemory (λ _. listed.new) result (space_class_after schema.now listed.old name.now) }
{
    let class = schema
        .get()
        .class(name)
        .ok_or(SchemaFault::here(SchemaFlaw::Unknown))?;
    if listed.contains(class) {
        return Err(SchemaFault::here(SchemaFlaw::Twice));
    }
    listed.push(class)?;
    Ok(())
}

fn space_classes_of(
    alloc: Global,
    schema: &BareSchema,
    names: &[String],
) -> Result<IdSet, SchemaFault>
    ensures { Gives OutOfMemory (λ listed. listed) result
        (try_fold_at (inside lists.Classes) (space_class_after schema.now) 0 [] (map string_bytes names.now)) }
{
    let mut listed = IdSet::new(alloc);
    for (index, name) in names.iter().enumerate() {
        placed(
            add_space_class(schema, &mut listed, name.as_str()),
            ListKey::Classes,
            index,
        )?;
    }
    Ok(listed)
}

// Whether a dimension can read a slot of the kind. An ordered dimension reads numbers and intervals, an enumerated one
// labels of its set.
fn suits(set: Option<LabelSetId>, kind: Kind) -> bool
    ensures { result ≡ suits set kind }
{
    match (set, kind) {
        (None, Kind::Int) => true,
        (None, Kind::Interval) => true,
        (Some(set), Kind::Label(other)) => other == set,
        _ => false,
    }
}

// Whether a class has a slot for a dimension, of which the first slot with its name is known.
#[tactic(auto, unfolding(crate::specs::proving::Readings::has_slot_at))]
fn has_slot_at(
    schema: &BareSchema,
    first: Option<usize>,
    set: Option<LabelSetId>,
    class: ClassId,
) -> bool
    ensures { result ≡ has_slot_at schema.now first set class }
{
    match schema.slot(class, first) {
        None => false,
        Some(slot) => match schema.get().kind_at(slot) {
            None => false,
            Some(kind) => suits(set, kind),
        },
    }
}

fn have_slots_at(
    schema: &BareSchema,
    first: Option<usize>,
    set: Option<LabelSetId>,
    listed: &[ClassId],
) -> bool
    ensures { result ≡ list_all (has_slot_at schema.now first set) listed.now }
{
    listed
        .iter()
        .all(|class| has_slot_at(schema, first, set, *class))
}

// The name is looked up once, not for each class.
fn have_slots_for(
    schema: &BareSchema,
    name: &str,
    set: Option<LabelSetId>,
    listed: &[ClassId],
) -> bool
    ensures { result ≡ list_all (has_slot_for schema.now name.now set) listed.now }
{
    have_slots_at(schema, schema.first(name), set, listed)
}

fn set_number(schema: &BareSchema, of: &Option<String>) -> Result<Option<LabelSetId>, SchemaFault>
    ensures { result ≡ set_number schema.now (option_map string_bytes of.now) }
{
    match of {
        None => Ok(None),
        Some(name) => {
            let set = schema
                .get()
                .label_set(name.as_str())
                .ok_or(SchemaFault::here(SchemaFlaw::Unknown))?;
            Ok(Some(set))
        }
    }
}

#[tactic(auto, unfolding(crate::specs::SpaceReading::dim_after))]
fn add_dim(
    alloc: Global,
    schema: &BareSchema,
    listed: &[ClassId],
    dims: &mut Table<Dim>,
    entry: &DimEntry,
) -> Result<(), SchemaFault>
    ensures { Gives OutOfMemory (λ _. dims.new) result
        (dim_after schema.now listed.now dims.old (dim_declaration entry.now)) }
{
    let name = entry.name.as_str();
    if !is_name(name) {
        return Err(SchemaFault::here(SchemaFlaw::Name));
    }
    if dims.contains(name) {
        return Err(SchemaFault::here(SchemaFlaw::Twice));
    }
    let set = set_number(schema, &entry.of)?;
    if !have_slots_for(schema, name, set, listed) {
        return Err(SchemaFault::here(SchemaFlaw::Dimension));
    }
    if dims.len() >= DIM_LIMIT {
        return Err(SchemaFault::here(SchemaFlaw::Limit));
    }
    let name = Text::from_str(alloc, name)?;
    dims.push(alloc, Dim { name, set })?;
    Ok(())
}

fn dims_of(
    alloc: Global,
    schema: &BareSchema,
    listed: &[ClassId],
    entries: &[DimEntry],
) -> Result<Table<Dim>, SchemaFault>
    ensures { Gives OutOfMemory (λ dims. dims) result
        (try_fold_at (inside lists.Dims) (dim_after schema.now listed.now) 0 [] (map dim_declaration entries.now)) }
{
    let mut dims = Table::new(alloc);
    for (index, entry) in entries.iter().enumerate() {
        placed(
            add_dim(alloc, schema, listed, &mut dims, entry),
            ListKey::Dims,
            index,
        )?;
    }
    Ok(dims)
}

#[tactic(auto, unfolding(crate::specs::SpaceReading::space_after))]
fn add_space(
    alloc: Global,
    schema: &BareSchema,
    spaces: &mut Table<Space>,
    entry: &SpaceEntry,
) -> Result<(), SchemaFault>
    ensures { Gives OutOfMemory (λ _. spaces.new) result
        (space_after schema.now spaces.old (space_declaration entry.now)) }
{
    let name = entry.name.as_str();
    if !is_name(name) {
        return Err(SchemaFault::here(SchemaFlaw::Name));
    }
    if spaces.contains(name) {
        return Err(SchemaFault::here(SchemaFlaw::Twice));
    }
    if spaces.len() >= SPACE_LIMIT {
        return Err(SchemaFault::here(SchemaFlaw::Limit));
    }
    let classes = space_classes_of(alloc, schema, &entry.classes)?;
    let dims = dims_of(alloc, schema, classes.as_slice(), &entry.dims)?;
    let name = Text::from_str(alloc, name)?;
    spaces.push(
        alloc,
        Space {
            name,
            classes,
            dims,
        },
    )?;
    Ok(())
}

/// Returns the spaces of all entries, for a schema that has none yet, or the first fault.
pub(crate) fn spaces_of(
    alloc: Global,
    schema: &BareSchema,
    entries: &[SpaceEntry],
) -> Result<Table<Space>, SchemaFault>
    ensures { Gives OutOfMemory (λ spaces. spaces) result
        (try_fold_at (inside lists.Spaces) (space_after schema.now) 0 [] (map space_declaration entries.now)) }
{
    let mut spaces = Table::new(alloc);
    for (index, entry) in entries.iter().enumerate() {
        placed(
            add_space(alloc, schema, &mut spaces, entry),
            ListKey::Spaces,
            index,
        )?;
    }
    Ok(spaces)
}
