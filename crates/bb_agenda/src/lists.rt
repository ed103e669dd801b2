//! The numbers of pending activations in order, by source, and by unit and source. waiting.rt keeps them.

ghost use Rattle.std.specs.Prelude.{◌≡◌, [], OnOk, OnErr};
ghost use Rattle.std.specs.BTreeSet.{IsOrdered};
ghost use Rattle.bb_agenda.specs.proving.Lists.{place_cmp, numbers_under, at_source, at_unit, HasMore, HasLess, IsBack};

use crate::focusing::Activation;
use crate::numbers::{Numbers, Place};
use bb_basis::Memory;
use bb_schema::UnitId;
use std::alloc::{AllocError, Global};
use std::collections::BTreeSet;

/// The numbers of activations, once by source and once by unit and source.
#[derive(Drop)]
pub(crate) struct Lists {
    // Each under its source; the unit is 0.
    pub(crate) by_source: BTreeSet<Place>,
    // Each under its unit and its source.
    pub(crate) by_unit: BTreeSet<Place>,
}

// Where an activation is in the set by source.
fn at_source(activation: &Activation) -> Place
    ensures { result ≡ at_source activation.now }
{
    ((0, u32::from(activation.source)), activation.number)
}

// Where an activation is in the set by unit and source.
fn at_unit(activation: &Activation) -> Place
    ensures { result ≡ at_unit activation.now }
{
    (
        (activation.unit, u32::from(activation.source)),
        activation.number,
    )
}

// The numbers under a unit and a source.
fn under(set: &BTreeSet<Place>, unit: UnitId, source: u16) -> Numbers<'_>
    ensures value { result ≡ numbers_under set.now unit source }
    ensures ordered { IsOrdered place_cmp set.now }
{
    let source = u32::from(source);
    Numbers::of(set.range(((unit, source), 0)..((unit, source + 1), 0)))
}

impl Lists {
    /// Creates lists without numbers. Allocates nothing.
    pub(crate) fn new(alloc: Global) -> Lists
        ensures sources { result.by_source.keys ≡ [] }
        ensures units { result.by_unit.keys ≡ [] }
    {
        Lists {
            by_source: BTreeSet::new(alloc),
            by_unit: BTreeSet::new(alloc),
        }
    }

    /// Returns the numbers of a source.
    pub(crate) fn of_source(&self, source: u16) -> Numbers<'_>
        ensures value { result ≡ numbers_under self.now.by_source 0 source }
        ensures ordered { IsOrdered place_cmp self.now.by_source }
    {
        under(&self.by_source, 0, source)
    }

    /// Returns the numbers of a source for a unit.
    pub(crate) fn on_unit(&self, source: u16, unit: UnitId) -> Numbers<'_>
        ensures value { result ≡ numbers_under self.now.by_unit unit source }
        ensures ordered { IsOrdered place_cmp self.now.by_unit }
    {
        under(&self.by_unit, unit, source)
    }

    /// Adds the number of an activation. An error adds it nowhere.
    pub(crate) fn add(&mut self, activation: &Activation) -> Result<(), Memory>
        ensures ok { OnOk result (HasMore self.old activation.now self.new) }
        ensures err { OnErr result (IsBack self.old activation.now self.new) }
    {
        let place = at_source(activation);
        self.by_source.insert(place)?;
        if self.by_unit.insert(at_unit(activation)).is_err() {
            self.by_source.remove(&place);
            return Err(AllocError);
        }
        Ok(())
    }

    /// Removes the number of an activation.
    pub(crate) fn remove(&mut self, activation: &Activation)
        ensures { HasLess self.old activation.now self.new }
    {
        self.by_source.remove(&at_source(activation));
        self.by_unit.remove(&at_unit(activation));
    }
}
