//! The units of a document by name. `loader` adds each unit, which shows whether its name was used before, and looks up
//! the units of links and spaces.

ghost use Rattle.std.specs.Prelude.{◌≡◌, IfOk, OnOk, OnErr};
ghost use Rattle.std.specs.FinMap as map;

use bb_basis::Memory;
use bb_schema::UnitId;
use std::alloc::Global;
use std::collections::BTreeMap;
use std::marker::Model;

/// Units by name, ordered and not hashed, so that no choice of names makes look-ups slow.
pub(crate) struct UnitNames {
    units: BTreeMap<String, UnitId>,
}

// By hand, so that a proof meets one call where names are dropped, and not the parts of a tree.
impl Drop for UnitNames {
    fn drop(self) {
        let UnitNames { units: _ } = self;
    }
}

impl Model for UnitNames {
    ghost use Rattle.std.specs.Prelude.{ℕ};
    ghost use Rattle.std.specs.Ordering.{nat_cmp};
    ghost use Rattle.std.specs.Cmp.Lexicographic.{slice_cmp};
    ghost use Rattle.std.specs.Coded.{coded_ℕ, coded_list};
    ghost use Rattle.std.specs.FinMap as map;
    ghost use Rattle.bb_board.specs.proving.Naming.{named};

    ghost Value = { map.FinMap (slice_cmp nat_cmp) ℕ };

    ghost coded = { map.code (coded_list coded_ℕ) coded_ℕ };

    ghost view = { λ n. map.from_entries (named n.units.entries) };
}

impl UnitNames {
    /// Makes an empty map. Allocates nothing.
    pub(crate) fn new(alloc: Global) -> UnitNames
        ensures { result ≡ map.empty }
    {
        UnitNames {
            units: BTreeMap::new(alloc),
        }
    }

    /// Returns the unit of a name.
    pub(crate) fn get(&self, name: &str) -> Option<UnitId>
        ensures { result ≡ map.get self.now name.now }
    {
        self.units.get(name).copied()
    }

    /// Gives a unit a name, and returns the unit that had the name before. An error changes nothing.
    pub(crate) fn insert(
        &mut self,
        alloc: Global,
        name: &str,
        unit: UnitId,
    ) -> Result<Option<UnitId>, Memory>
        ensures had { IfOk result (λ had. had ≡ map.get self.old name.now) }
        ensures ok { OnOk result (self.new ≡ map.insert self.old name.now unit) }
        ensures err { OnErr result (self.new ≡ self.old) }
    {
        let had = self.units.insert(String::from_str(alloc, name)?, unit)?;
        Ok(had)
    }
}
