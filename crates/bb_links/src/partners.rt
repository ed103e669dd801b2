//! The partners of each unit at both sides of a couple. `pairs.rt` keeps them next to its pairs.

ghost use Rattle.std.specs.Prelude.{◌≡◌, ℕ, None, OnOk, OnErr, IfOk, slice_get};
ghost use Rattle.std.specs.BTreeMap.{IsOrdered};
ghost use Rattle.bb_schema.specs.declared.couple.Side.{Side as At};
ghost use Rattle.bb_links.specs.proving.Maps.{pair_cmp};
ghost use Rattle.bb_links.specs.proving.Partners.{map_of, partner_at, listed_at, IsPut, IsTaken, IsUnchanged};

use crate::maps::{first, list, put, take};
use bb_basis::Memory;
use bb_schema::{Side, UnitId};
use std::alloc::{AllocError, Global};
use std::collections::BTreeMap;

/// For each side of a couple, the partners of each unit there, each under the unit and the stamp of the pair. No list
/// is scanned for a partner.
#[derive(Drop)]
pub(crate) struct Partners {
    at_a: BTreeMap<(UnitId, u64), UnitId>,
    at_b: BTreeMap<(UnitId, u64), UnitId>,
}

impl Partners {
    /// Creates the maps, without partners and without allocating.
    pub(crate) fn new(alloc: Global) -> Partners
        ensures { (side : At) (key : ℕ × ℕ) → partner_at side result key ≡ None }
    {
        Partners {
            at_a: BTreeMap::new(alloc),
            at_b: BTreeMap::new(alloc),
        }
    }

    /// Stores each unit of a pair under the other and the pair's stamp, which is not used yet. An error changes
    /// nothing.
    pub(crate) fn put(&mut self, pair: (UnitId, UnitId), stamp: u64) -> Result<(), AllocError>
        requires { (side : At) (n : ℕ) → partner_at side self.old (n, stamp) ≡ None }
        ensures ok { OnOk result (IsPut pair stamp self.old self.new) }
        ensures err { OnErr result (IsUnchanged self.old self.new) }
    {
        put(&mut self.at_a, (pair.0, stamp), pair.1)?;
        match put(&mut self.at_b, (pair.1, stamp), pair.0) {
            Ok(()) => Ok(()),
            Err(refused) => {
                take(&mut self.at_a, (pair.0, stamp));
                Err(refused)
            }
        }
    }

    /// Removes both units of a pair, each under the other and the pair's stamp.
    pub(crate) fn take(&mut self, pair: (UnitId, UnitId), stamp: u64)
        ensures { IsTaken pair stamp self.old self.new }
    {
        take(&mut self.at_a, (pair.0, stamp));
        take(&mut self.at_b, (pair.1, stamp));
    }

    /// Returns the first partner of a unit at a side, under stamps below `end`.
    pub(crate) fn first(&self, side: Side, unit: UnitId, end: u64) -> Option<UnitId>
        ensures value { result ≡ slice_get (listed_at side self.now unit end) 0 }
        ensures ordered { IsOrdered pair_cmp (map_of side self.now) }
    {
        match side {
            Side::A => first(&self.at_a, unit, end),
            Side::B => first(&self.at_b, unit, end),
        }
    }

    /// Returns the partners of a unit at a side under stamps below `end`, in order of stamps.
    pub(crate) fn list(
        &self,
        alloc: Global,
        side: Side,
        unit: UnitId,
        end: u64,
    ) -> Result<Vec<UnitId>, Memory>
        ensures list { IfOk result (λ list. list.items ≡ listed_at side self.now unit end) }
        ensures ordered { IsOrdered pair_cmp (map_of side self.now) }
    {
        match side {
            Side::A => list(alloc, &self.at_a, unit, end),
            Side::B => list(alloc, &self.at_b, unit, end),
        }
    }
}
