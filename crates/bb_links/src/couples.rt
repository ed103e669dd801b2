//! All couples of link slots. The board reads and changes them.

ghost use Rattle.std.specs.Prelude.{◌≡◌, ◌<◌, ℕ, Some, IfOk, OnOk, OnErr, true, length, map, slice_get};
ghost use Rattle.bb_schema.specs.Couples.{couples, couple_of};
ghost use Rattle.bb_links.specs.Couples.{no_links, end_of, taken, are_linked, forgotten, after_link, after_unlink, after_forget};
ghost use Rattle.bb_links.specs.Links.{ends, pairs_by};
ghost use Rattle.bb_links.specs.Layout.{end_among};
ghost use Rattle.bb_links.specs.Fits.{Fits};
ghost use Rattle.bb_links.specs.proving.Lists.{listed};
ghost use Rattle.bb_links.specs.proving.Standing.{is_in, HasEach};

use crate::couple::Couple;
use crate::layout::{couples_of, slot_ends};
use crate::lists::Lists;
use crate::taken::Taken;
use bb_basis::Memory;
use bb_schema::{CoupleId, Schema, Side, SlotId, UnitId};
use std::alloc::Global;
use std::marker::Model;

/// The links of a blackboard: for each couple of link slots, the pairs of linked units, in order of addition (GBBopen
/// Reference Manual, link slots).
#[derive(Drop)]
pub struct Couples {
    couples: Vec<Couple>,
    // By slot, the couple and the side of a link slot.
    ends: Vec<Option<(CoupleId, Side)>>,
    // By unit, the couples in which it may have pairs, so that forgetting a unit doesn't scan all couples.
    standing: Lists,
}

impl Model for Couples {
    ghost use Rattle.bb_links.specs.Couples.{Couples as Linked};

    ghost Value = { Linked };

    ghost view = { λ c. record { couples = c.couples.items; ends = c.ends.items } };

    ghost use Rattle.bb_links.specs.proving.Standing.{AreKnown};

    ghost invariant = { λ c. AreKnown c.couples.items c.ends.items c.standing };
}

// The couple and the side of a slot, if it is a link slot.
fn end_at(ends: &[Option<(CoupleId, Side)>], slot: SlotId) -> Option<(CoupleId, Side)>
    ensures { result ≡ end_among ends.now slot }
{
    *ends.get(slot as usize)?
}

// Notes that a unit may have a pair in a couple. An error changes nothing.
fn note(standing: &mut Lists, unit: UnitId, couple: CoupleId) -> Result<(), Memory>
    ensures noted { OnOk result (is_in (listed standing.new.lists unit) couple ≡ true) }
    ensures kept { (n : ℕ) (i : ℕ) →
        is_in (listed standing.old.lists n) i ≡ true → is_in (listed standing.new.lists n) i ≡ true }
{
    let number = u64::from(couple);
    if is_in(standing.of(unit), number) {
        return Ok(());
    }
    standing.add(unit, number)
}

// Whether a number is in a list.
fn is_in(list: &[u64], number: u64) -> bool
    ensures { result ≡ is_in list.now number }
{
    list.iter().any(|other| *other == number)
}

// Removes all pairs of a unit from the listed couples, which are all in which it has a pair.
fn forget_each(couples: &mut Vec<Couple>, unit: UnitId, list: &[u64])
    requires { HasEach unit couples.old.items list.now }
    ensures { couples.new.items ≡ map (forgotten unit) couples.old.items }
{
    for couple in list {
        let index = *couple as usize;
        if index >= couples.len() {
            continue;
        }
        couples[index].forget(unit);
    }
}

impl Couples {
    /// Creates the couples of a schema, without pairs.
    pub fn new(alloc: Global, schema: &Schema) -> Result<Couples, Memory>
        ensures links { IfOk result (λ c. c ≡ no_links schema.now) }
        ensures ends { IfOk result (λ c. (slot : ℕ) → end_of c slot ≡ couple_of schema.now slot) }
        ensures count { IfOk result (λ c. length c.couples ≡ length (couples schema.now)) }
    {
        Ok(Couples {
            couples: couples_of(alloc, schema)?,
            ends: slot_ends(alloc, schema)?,
            standing: Lists::new(alloc),
        })
    }

    /// Returns the number of couples.
    pub fn count(&self) -> usize
        ensures { result ≡ length self.now.couples }
    {
        self.couples.len()
    }

    /// Returns whether two units are linked through a couple, the first at side A.
    pub fn linked(&self, couple: CoupleId, a: UnitId, b: UnitId) -> bool
        requires { couple < length self.now.couples }
        ensures { result ≡ are_linked self.now couple a b }
    {
        self.couples[couple as usize].has(a, b)
    }

    /// Returns what linking two units through a couple would remove and add, the first at side A.
    pub fn taken(&self, couple: CoupleId, a: UnitId, b: UnitId) -> Taken
        requires { couple < length self.now.couples }
        ensures { taken self.now couple a b ≡ Some result }
    {
        self.couples[couple as usize].taken(a, b)
    }

    /// Links two units through a couple, the first at side A, and returns what changed. Does nothing if they are
    /// linked. Otherwise removes the old pair of each unit at a singular side, and appends the new pair. An error
    /// changes nothing.
    pub fn link(&mut self, couple: CoupleId, a: UnitId, b: UnitId) -> Result<Taken, Memory>
        requires { couple < length self.old.couples }
        ensures taken { IfOk result (λ t. taken self.old couple a b ≡ Some t) }
        ensures linked { OnOk result (self.new ≡ after_link self.old couple a b) }
        ensures err { OnErr result (self.new ≡ self.old) }
    {
        note(&mut self.standing, a, couple)?;
        note(&mut self.standing, b, couple)?;
        self.couples[couple as usize].link(a, b)
    }

    /// Removes the pair of two units from a couple, the first at side A, and returns whether it existed.
    pub fn unlink(&mut self, couple: CoupleId, a: UnitId, b: UnitId) -> bool
        requires { couple < length self.old.couples }
        ensures was { result ≡ are_linked self.old couple a b }
        ensures unlinked { self.new ≡ after_unlink self.old couple a b }
    {
        self.couples[couple as usize].unlink(a, b)
    }

    /// Removes all pairs of a unit, in all couples.
    pub fn forget(&mut self, unit: UnitId)
        ensures { self.new ≡ after_forget self.old unit }
    {
        let couples = self.standing.take(unit);
        forget_each(&mut self.couples, unit, &couples);
    }

    /// Returns the links of a unit by a slot, in order of addition, as a new list. It is empty if the slot is not a
    /// link slot. Fails only if memory runs out.
    pub fn ends(&self, alloc: Global, unit: UnitId, slot: SlotId) -> Result<Vec<UnitId>, Memory>
        ensures { IfOk result (λ list. list.items ≡ ends self.now unit slot) }
    {
        match end_at(&self.ends, slot) {
            None => Ok(Vec::new(alloc)),
            Some((couple, side)) => self.couples[couple as usize].partners(alloc, side, unit),
        }
    }

    /// Returns the first link of a unit by a slot: the only one, if the slot is singular.
    pub fn one(&self, unit: UnitId, slot: SlotId) -> Option<UnitId>
        ensures { result ≡ slice_get (ends self.now unit slot) 0 }
    {
        match end_at(&self.ends, slot) {
            None => None,
            Some((couple, side)) => self.couples[couple as usize].first(side, unit),
        }
    }

    /// Returns the pairs of a slot's couple, in order of addition, each with the unit at side A first, as a new list.
    /// It is empty if the slot is not a link slot.
    pub fn pairs(&self, alloc: Global, slot: SlotId) -> Result<Vec<(UnitId, UnitId)>, Memory>
        ensures { IfOk result (λ list. list.items ≡ pairs_by self.now slot) }
    {
        match end_at(&self.ends, slot) {
            None => Ok(Vec::new(alloc)),
            Some((couple, _)) => self.couples[couple as usize].pairs(alloc),
        }
    }

    /// Does nothing, but states what always holds of the couples: no pair occurs twice in a couple; a unit has at most
    /// one partner at a singular side; and the couple of every link slot exists.
    pub fn fits(&self)
        ensures { Fits self.now }
    {
        let _ = &self.ends;
    }
}
