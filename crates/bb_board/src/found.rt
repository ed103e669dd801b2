//! Units that are found one after another, each once. `deleting` collects the parts of a unit in them.

ghost use Rattle.std.specs.Prelude.{◌≡◌, ℕ, [], slice_get, OnOk};
ghost use Rattle.std.specs.List.{fold};
ghost use Rattle.std.specs.List.Sorted.{IsStrictlyIncreasing};
ghost use Rattle.bb_board.specs.proving.Deleted.{is_of};
ghost use Rattle.bb_board.specs.proving.Found.{found_more};

use bb_basis::Memory;
use bb_schema::UnitId;
use std::alloc::Global;
use std::collections::BTreeSet;
use std::marker::Model;

/// Distinct units, in the order found. Contracts see the list.
#[derive(Drop)]
pub(crate) struct Found {
    units: Vec<UnitId>,
    known: BTreeSet<UnitId>,
}

impl Model for Found {
    ghost use Rattle.std.specs.Prelude.{List, ℕ};
    ghost use Rattle.bb_board.specs.proving.Found.{AreFound};

    ghost Value = { List ℕ };

    ghost view = { λ f. f.units.items };

    ghost invariant = { λ f. AreFound f.units.items f.known };
}

impl Found {
    /// Makes an empty list. Allocates nothing.
    pub(crate) fn new(alloc: Global) -> Found
        ensures { result ≡ [] }
    {
        Found {
            units: Vec::new(alloc),
            known: BTreeSet::new(alloc),
        }
    }

    /// Returns the unit at an index in that order.
    pub(crate) fn get(&self, place: usize) -> Option<UnitId>
        ensures { result ≡ slice_get self.now place }
    {
        self.units.get(place).copied()
    }

    // Adds a unit, unless it was found before.
    fn add(&mut self, unit: UnitId) -> Result<(), Memory>
        ensures { OnOk result (self.new ≡ found_more self.old unit) }
    {
        if self.known.contains(&unit) {
            return Ok(());
        }
        self.units.reserve(1)?;
        self.known.insert(unit)?;
        self.units.push_reserved(unit);
        Ok(())
    }

    /// Adds units in their order, except those found before.
    pub(crate) fn add_all(&mut self, units: &[UnitId]) -> Result<(), Memory>
        ensures { OnOk result (self.new ≡ fold found_more self.old units.now) }
    {
        for unit in units {
            self.add(*unit)?;
        }
        Ok(())
    }

    /// Lists all units in ascending number.
    pub(crate) fn rising(self) -> Vec<UnitId>
        ensures rises { IsStrictlyIncreasing result.items }
        ensures same { (n : ℕ) → is_of result.items n ≡ is_of self n }
    {
        let Found { units, known: _ } = self;
        let mut units = units;
        units.sort_unstable();
        units
    }
}
