//! What dimensions read: for each slot, the dimensions with its name, and for each dimension, the slot of a class with
//! its name. `Schema::read` makes the tables once, so that changes of a blackboard compare no names.

ghost use Rattle.std.specs.Prelude.{◌≡◌, false, IfOk, map};
ghost use Rattle.std.specs.List.{fold, range_with_len};
ghost use Rattle.bb_schema.specs.Fits.{AreSpaces};
ghost use Rattle.bb_schema.specs.Readings.{readings_of, slot_read};
ghost use Rattle.bb_schema.specs.Schema.{slots_of};
ghost use Rattle.bb_schema.specs.proving.Readings.{first_named, dim_firsts, slot_with, mark_first, read_slots, rows_of, AreReadings};

use crate::bare::BareSchema;
use crate::relation::row_has;
use crate::schema::Schema;
use crate::space::{Dim, Space, SpaceId};
use crate::struck::mark;
use bb_basis::{Items, Table};
use bb_schema_classes::{ClassId, SlotId, copy_of, row_if, slot_among};
use std::alloc::{AllocError, Global};

/// The slots that dimensions read. The first slot with a name identifies the name.
#[derive(Drop)]
pub(crate) struct Readings {
    /// For each slot, the first slot with its name.
    pub firsts: Items<Option<usize>>,
    /// For each space and each of its dimensions, the first slot with its name, if a slot has it.
    pub dims: Items<Items<Option<usize>>>,
    /// For each first slot with a name that a dimension has, and for each space, the index of its dimension with the
    /// name.
    pub rows: Items<Items<Option<u8>>>,
}

// The first slots with the names of dimensions.
fn firsts_of(
    alloc: Global,
    bare: &BareSchema,
    dims: &[Dim],
) -> Result<Vec<Option<usize>>, AllocError>
    ensures { IfOk result (λ firsts. firsts.items ≡ map (λ d. first_named bare.now.slots d.name) dims.now) }
{
    dims.iter()
        .map(|dim| bare.first(dim.name.as_str()))
        .collect(alloc)
}

// For each space and each of its dimensions, the first slot with its name.
fn dim_firsts(
    alloc: Global,
    bare: &BareSchema,
    spaces: &[Space],
) -> Result<Vec<Items<Option<usize>>>, AllocError>
    ensures { IfOk result (λ dims. dims.items ≡ dim_firsts bare.now.slots spaces.now) }
{
    let mut dims = Vec::new(alloc);
    for space in spaces {
        let firsts = firsts_of(alloc, bare, space.dims.as_slice())?;
        dims.push(Items::from(firsts))?;
    }
    Ok(dims)
}

fn mark_first(read: &mut Vec<bool>, first: Option<usize>)
    ensures { read.new.items ≡ mark_first read.old.items first }
{
    if let Some(first) = first {
        mark(read, first);
    }
}

fn mark_dims(read: &mut Vec<bool>, dims: &[Option<usize>])
    ensures { read.new.items ≡ fold mark_first read.old.items dims.now }
{
    for first in dims {
        mark_first(read, *first);
    }
}

fn no_slots(alloc: Global, count: usize) -> Result<Vec<bool>, AllocError>
    ensures { IfOk result (λ row. row.items ≡ map (λ _. false) (range_with_len 0 count)) }
{
    (0..count).map(|_| false).collect(alloc)
}

// The first slots that dimensions read, as a row.
fn read_slots(
    alloc: Global,
    count: usize,
    dims: &[Items<Option<usize>>],
) -> Result<Vec<bool>, AllocError>
    ensures { IfOk result (λ read. read.items ≡ read_slots count dims.now) }
{
    let mut read = no_slots(alloc, count)?;
    for firsts in dims {
        mark_dims(&mut read, firsts.as_slice());
    }
    Ok(read)
}

fn rows_of(
    alloc: Global,
    read: &[bool],
    dims: &[Items<Option<usize>>],
) -> Result<Vec<Items<Option<u8>>>, AllocError>
    ensures { IfOk result (λ rows. rows.items ≡ rows_of read.now dims.now) }
{
    let mut rows = Vec::new(alloc);
    for first in 0..read.len() {
        let row = row_if(alloc, row_has(read, first), dims, first)?;
        rows.push(Items::from(row))?;
    }
    Ok(rows)
}

impl Readings {
    /// Returns the slots that the dimensions of these spaces read. For every name of a dimension, compares at most n
    /// numbers, with n the number of dimensions of all spaces.
    pub(crate) fn of(
        alloc: Global,
        bare: &BareSchema,
        spaces: &[Space],
    ) -> Result<Readings, AllocError>
        requires { AreSpaces bare.now spaces.now }
        ensures { IfOk result (AreReadings (record bare.now { spaces = spaces.now })) }
    {
        let dims = dim_firsts(alloc, bare, spaces)?;
        let firsts = Items::from(copy_of(alloc, bare.firsts.as_slice())?);
        let read = read_slots(alloc, firsts.len(), &dims)?;
        let rows = rows_of(alloc, &read, &dims)?;
        Ok(Readings {
            firsts,
            dims: Items::from(dims),
            rows: Items::from(rows),
        })
    }
}

impl Schema {
    /// Returns the slot of a class that has the name of a first slot.
    pub(crate) fn slot_by(
        &self,
        firsts: &[Option<usize>],
        class: ClassId,
        first: Option<usize>,
    ) -> Option<SlotId>
        ensures { result ≡ slot_with firsts.now (slots_of self.now class) first }
    {
        let first = first?;
        let found = self.classes.get(class as usize)?;
        slot_among(firsts, found.slots.as_slice(), first)
    }

    /// Returns for each space the index of its dimension that reads a slot: the dimension with the slot's name. No list
    /// if no space reads the slot. Compares no names.
    pub fn readings(&self, slot: SlotId) -> &[Option<u8>]
        ensures { result.now ≡ readings_of self.now slot }
    {
        let Some(found) = self.readings.firsts.as_slice().get(slot as usize) else {
            return &[];
        };
        let Some(first) = *found else {
            return &[];
        };
        match self.readings.rows.as_slice().get(first) {
            None => &[],
            Some(row) => row.as_slice(),
        }
    }

    /// Returns the slot of a class that a dimension of a space reads: the slot with the dimension's name. `None` if the
    /// class, space or dimension does not exist, or if the class lacks the slot. Compares no names.
    pub fn slot_read(&self, class: ClassId, space: SpaceId, dim: usize) -> Option<SlotId>
        ensures { result ≡ slot_read self.now class space dim }
    {
        let firsts = self.readings.dims.as_slice().get(space as usize)?;
        let first = *firsts.as_slice().get(dim)?;
        self.slot_by(self.readings.firsts.as_slice(), class, first)
    }

    /// Returns the schema with its spaces, and the slots that their dimensions read, replaced by these.
    pub(crate) fn with_spaces(self, spaces: Table<Space>, readings: Readings) -> Schema
        requires spaces { AreSpaces self spaces }
        requires readings { AreReadings (record self { spaces = spaces }) readings }
        ensures { result ≡ record self { spaces = spaces } }
    {
        let mut schema = self;
        schema.spaces = spaces;
        schema.readings = readings;
        schema
    }
}
