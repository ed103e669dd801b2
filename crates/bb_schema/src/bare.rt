//! A schema without spaces, whose slots are found by name without a scan. The reader of spaces looks up in it which
//! slots dimensions read, and the tables of what they read (readings.rt) are made by it.

ghost use Rattle.std.specs.Prelude.{◌≡◌, IfOk, map};
ghost use Rattle.bb_schema_classes.specs.proving.Entries.{indexed_place};
ghost use Rattle.bb_schema.specs.Schema.{slots_of};
ghost use Rattle.bb_schema.specs.proving.Readings.{first_named, firsts_of, slot_with};

use crate::schema::Schema;
use crate::slot::Slot;
use bb_basis::Items;
use bb_schema_classes::{ClassId, NamedEntry, SlotId, first_places, indexed_place};
use std::alloc::{AllocError, Global};
use std::collections::BTreeMap;
use std::marker::Model;

impl NamedEntry for Slot {
    ghost name_of = { λ t. t.name };

    fn name(&self) -> &str {
        self.name.as_str()
    }
}

/// A schema without spaces, with an index of its slots. Contracts see the schema.
#[derive(Drop)]
pub(crate) struct BareSchema<'a> {
    schema: &'a Schema,
    // The first slot with each name.
    places: BTreeMap<&'a str, usize>,
    // For each slot, the first slot with its name.
    pub(crate) firsts: Items<Option<usize>>,
}

impl<'a> Model for BareSchema<'a> {
    ghost use Rattle.bb_schema.specs.Schema.{Schema as Parts};

    ghost Value = { Parts };

    ghost view = { λ b. b.schema.now };

    ghost use Rattle.bb_schema.specs.proving.Bare.{IsBare};

    ghost invariant = { λ b. IsBare b.schema.now b.places b.firsts };
}

// For each slot, the first slot with its name.
fn firsts_of(
    alloc: Global,
    slots: &[Slot],
    places: &BTreeMap<&str, usize>,
) -> Result<Vec<Option<usize>>, AllocError>
    ensures { IfOk result (λ firsts. firsts.items ≡ map (λ t. indexed_place places.now t.name) slots.now) }
{
    slots
        .iter()
        .map(|slot| indexed_place(places, slot.name.as_str()))
        .collect(alloc)
}

impl<'a> BareSchema<'a> {
    /// Makes the index of a schema's slots.
    pub(crate) fn of(alloc: Global, schema: &'a Schema) -> Result<BareSchema<'a>, AllocError>
        ensures { IfOk result (λ bare. bare ≡ schema.now) }
    {
        let places = first_places(alloc, &schema.slots)?;
        let firsts = firsts_of(alloc, &schema.slots, &places)?;
        Ok(BareSchema {
            schema,
            places,
            firsts: Items::from(firsts),
        })
    }

    /// Returns the schema.
    pub(crate) fn get(&self) -> &Schema
        ensures { result.now ≡ self.now }
    {
        self.schema
    }

    /// Returns the first slot with a name, of any class.
    pub(crate) fn first(&self, name: &str) -> Option<usize>
        ensures { result ≡ first_named self.now.slots name.now }
    {
        indexed_place(&self.places, name)
    }

    /// Returns the slot of a class that has the name of a first slot.
    pub(crate) fn slot(&self, class: ClassId, first: Option<usize>) -> Option<SlotId>
        ensures { result ≡ slot_with (firsts_of self.now.slots) (slots_of self.now class) first }
    {
        self.schema.slot_by(self.firsts.as_slice(), class, first)
    }
}
