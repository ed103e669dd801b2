//! The pairs of one couple, in order of addition. `couple.rt` reads and changes them.

ghost use Rattle.std.specs.Prelude.{◌≡◌, ℕ, ◌<◌, ◌+◌, ◌^◌, [], ◌∷◌, ◌++◌, false, OnOk, OnErr, IfOk, SomeIff, slice_get};
ghost use Rattle.std.specs.Map.{values_of};
ghost use Rattle.std.specs.Ordering.{nat_cmp};
ghost use Rattle.std.specs.BTreeMap.{IsOrdered, get};
ghost use Rattle.bb_links.specs.Pairs.{has_pair, without_pair};
ghost use Rattle.bb_links.specs.Links.{partners};
ghost use Rattle.bb_links.specs.proving.Stamps.{pair_under, ArePaired, without_at};

use crate::maps::{put, take};
use crate::partners::Partners;
use bb_basis::Memory;
use bb_schema::{Side, UnitId};
use std::alloc::{AllocError, Global};
use std::collections::BTreeMap;
use std::marker::Model;

/// Pairs of units in order of addition, the unit at side A first. Each has a stamp, and the stamps rise; therefore no
/// change scans all pairs.
#[derive(Drop)]
pub(crate) struct Pairs {
    // The stamp of the next pair.
    next: u64,
    // The stamp of each pair. The map is not in order of addition: the view sorts the pairs by stamp.
    stamps: BTreeMap<(UnitId, UnitId), u64>,
    partners: Partners,
}

impl Model for Pairs {
    ghost use Rattle.std.specs.Prelude.{List, ℕ};

    ghost Value = { List (ℕ × ℕ) };

    ghost use Rattle.bb_links.specs.proving.Stamps.{pair_under, in_order, AreKept};

    ghost view = { λ p. in_order p.next (pair_under p.stamps) };

    ghost invariant = { λ p. AreKept p.next p.stamps p.partners };
}

// The stamp after one; `None` after 2^64 - 1.
fn next_stamp(stamp: u64) -> Option<u64>
    ensures { SomeIff result (stamp + 1 < 2 ^ 64) (stamp + 1) }
{
    stamp.checked_add(1)
}

// The pairs under their stamps.
fn by_stamp(
    alloc: Global,
    stamps: &BTreeMap<(UnitId, UnitId), u64>,
) -> Result<BTreeMap<u64, (UnitId, UnitId)>, AllocError>
    requires { ArePaired stamps.now }
    ensures { IfOk result (λ pairs. (s : ℕ) → get nat_cmp pairs s ≡ pair_under stamps.now s) }
{
    let mut pairs = BTreeMap::new(alloc);
    for (pair, stamp) in stamps.iter() {
        pairs.insert(*stamp, *pair)?;
    }
    Ok(pairs)
}

// The pairs of a map, in the order of their stamps.
fn listed(
    alloc: Global,
    pairs: &BTreeMap<u64, (UnitId, UnitId)>,
) -> Result<Vec<(UnitId, UnitId)>, AllocError>
    ensures list { IfOk result (λ list. list.items ≡ values_of pairs.now.entries) }
    ensures ordered { IsOrdered nat_cmp pairs.now }
{
    let mut list = Vec::new(alloc);
    for (_, pair) in pairs.iter() {
        list.push(*pair)?;
    }
    Ok(list)
}

impl Pairs {
    /// Creates a list without pairs, without allocating.
    pub(crate) fn new(alloc: Global) -> Pairs
        ensures { result ≡ [] }
    {
        Pairs {
            next: 0,
            stamps: BTreeMap::new(alloc),
            partners: Partners::new(alloc),
        }
    }

    /// Returns whether a pair exists.
    pub(crate) fn contains(&self, pair: (UnitId, UnitId)) -> bool
        ensures { result ≡ has_pair pair self.now }
    {
        self.stamps.contains_key(&pair)
    }

    /// Returns the first partner of a unit at a side, without a scan.
    pub(crate) fn first(&self, side: Side, unit: UnitId) -> Option<UnitId>
        ensures { result ≡ slice_get (partners side unit self.now) 0 }
    {
        self.partners.first(side, unit, self.next)
    }

    /// Returns the partners of a unit at a side, in order of addition.
    pub(crate) fn partners(
        &self,
        alloc: Global,
        side: Side,
        unit: UnitId,
    ) -> Result<Vec<UnitId>, Memory>
        ensures { IfOk result (λ list. list.items ≡ partners side unit self.now) }
    {
        self.partners.list(alloc, side, unit, self.next)
    }

    /// Returns all pairs, in order of addition.
    pub(crate) fn list(&self, alloc: Global) -> Result<Vec<(UnitId, UnitId)>, Memory>
        ensures { IfOk result (λ list. list.items ≡ self.now) }
    {
        listed(alloc, &by_stamp(alloc, &self.stamps)?)
    }

    /// Appends a new pair. An error changes nothing. It is returned if memory runs out, or after 2^64 - 1 pairs, when
    /// all stamps are used.
    pub(crate) fn push(&mut self, pair: (UnitId, UnitId)) -> Result<(), AllocError>
        requires { has_pair pair self.old ≡ false }
        ensures ok { OnOk result (self.new ≡ self.old ++ pair ∷ []) }
        ensures err { OnErr result (self.new ≡ self.old) }
    {
        let after = next_stamp(self.next).ok_or(AllocError)?;
        self.partners.put(pair, self.next)?;
        match put(&mut self.stamps, pair, self.next) {
            Ok(()) => {
                self.next = after;
                Ok(())
            }
            Err(refused) => {
                self.partners.take(pair, self.next);
                Err(refused)
            }
        }
    }

    /// Removes a pair.
    pub(crate) fn remove(&mut self, pair: (UnitId, UnitId))
        ensures { self.new ≡ without_pair pair self.old }
    {
        if let Some(stamp) = take(&mut self.stamps, pair) {
            self.partners.take(pair, stamp);
        }
    }

    /// Removes all pairs of a unit at a side.
    pub(crate) fn cut(&mut self, side: Side, unit: UnitId)
        ensures { self.new ≡ without_at side unit self.old }
    {
        while let Some(partner) = self.first(side, unit) {
            self.remove(side.pair(unit, partner));
        }
    }
}
