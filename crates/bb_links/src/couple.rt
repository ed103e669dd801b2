//! One couple of link slots. `couples.rt` keeps one for each couple of the schema.

ghost use Rattle.std.specs.Prelude.{◌≡◌, ◌++◌, ◌∷◌, ℕ, List, [], IfOk, OnOk, OnErr, false, slice_get};
ghost use Rattle.bb_links.specs.Pairs.{has_pair, without_pair, without_old, old_pair, is_singular, taken_among};
ghost use Rattle.bb_links.specs.Links.{partners};
ghost use Rattle.bb_links.specs.Couples.{with_pairs, no_pairs, linked, unlinked, forgotten};

use crate::pairs::Pairs;
use crate::taken::Taken;
use bb_basis::Memory;
use bb_schema::{Side, UnitId};
use std::alloc::{AllocError, Global};
use std::marker::Model;

/// Which sides of a couple are singular. A unit has at most one partner at such a side.
#[derive(Clone, Copy, Debug, Drop)]
pub(crate) struct Singular {
    pub a: bool,
    pub b: bool,
}

/// A couple: which sides are singular, and its pairs in order of addition.
#[derive(Drop)]
pub(crate) struct Couple {
    singular: Singular,
    pairs: Pairs,
}

impl Model for Couple {
    ghost use Rattle.bb_links.specs.Couples.{Couple as Pairing};

    ghost Value = { Pairing };

    ghost view = { λ c. record { singular = c.singular; pairs = c.pairs } };
}

impl Couple {
    /// Creates a couple without pairs, without allocating.
    pub(crate) fn new(alloc: Global, singular: Singular) -> Couple
        ensures { result ≡ no_pairs singular }
    {
        Couple {
            singular,
            pairs: Pairs::new(alloc),
        }
    }

    /// Returns the partners of a unit at a side, in order of addition.
    pub(crate) fn partners(
        &self,
        alloc: Global,
        side: Side,
        unit: UnitId,
    ) -> Result<Vec<UnitId>, Memory>
        ensures { IfOk result (λ list. list.items ≡ partners side unit self.now.pairs) }
    {
        self.pairs.partners(alloc, side, unit)
    }

    /// Returns the first partner of a unit at a side.
    pub(crate) fn first(&self, side: Side, unit: UnitId) -> Option<UnitId>
        ensures { result ≡ slice_get (partners side unit self.now.pairs) 0 }
    {
        self.pairs.first(side, unit)
    }

    /// Returns the pairs in order of addition, each with the unit at side A first.
    pub(crate) fn pairs(&self, alloc: Global) -> Result<Vec<(UnitId, UnitId)>, Memory>
        ensures { IfOk result (λ list. list.items ≡ self.now.pairs) }
    {
        self.pairs.list(alloc)
    }

    // Whether a side is singular.
    fn is_singular(&self, side: Side) -> bool
        ensures { result ≡ is_singular self.now.singular side }
    {
        match side {
            Side::A => self.singular.a,
            Side::B => self.singular.b,
        }
    }

    // The pair of a unit at a side, if the side is singular.
    fn old_pair(&self, side: Side, unit: UnitId) -> Option<(UnitId, UnitId)>
        ensures { result ≡ old_pair self.now.singular side unit self.now.pairs }
    {
        if !self.is_singular(side) {
            return None;
        }
        let partner = self.first(side, unit)?;
        Some(side.pair(unit, partner))
    }

    // Appends a new pair. An error changes nothing.
    fn add(&mut self, a: UnitId, b: UnitId) -> Result<(), AllocError>
        requires { has_pair (a, b) self.old.pairs ≡ false }
        ensures ok { OnOk result (self.new ≡ with_pairs self.old (self.old.pairs ++ (a, b) ∷ [])) }
        ensures err { OnErr result (self.new ≡ self.old) }
    {
        self.pairs.push((a, b))
    }

    // Removes a pair.
    fn cut(&mut self, pair: (UnitId, UnitId))
        ensures { self.new ≡ with_pairs self.old (without_pair pair self.old.pairs) }
    {
        self.pairs.remove(pair);
    }

    // Removes an old pair, if there is one.
    fn cut_old(&mut self, pair: Option<(UnitId, UnitId)>)
        ensures { self.new ≡ with_pairs self.old (without_old pair self.old.pairs) }
    {
        match pair {
            None => (),
            Some(pair) => self.cut(pair),
        }
    }

    /// Returns whether two units are linked.
    pub(crate) fn has(&self, a: UnitId, b: UnitId) -> bool
        ensures { result ≡ has_pair (a, b) self.now.pairs }
    {
        self.pairs.contains((a, b))
    }

    /// Returns what linking two units would remove and add.
    pub(crate) fn taken(&self, a: UnitId, b: UnitId) -> Taken
        ensures { result ≡ taken_among self.now.singular a b self.now.pairs }
    {
        if self.has(a, b) {
            return Taken::nothing();
        }
        Taken {
            first: self.old_pair(Side::A, a),
            second: self.old_pair(Side::B, b),
            added: true,
        }
    }

    /// Links two units. An error changes nothing.
    pub(crate) fn link(&mut self, a: UnitId, b: UnitId) -> Result<Taken, AllocError>
        ensures taken { IfOk result (λ t. t ≡ taken_among self.old.singular a b self.old.pairs) }
        ensures linked { OnOk result (self.new ≡ linked a b self.old) }
        ensures err { OnErr result (self.new ≡ self.old) }
    {
        let taken = self.taken(a, b);
        if !taken.added {
            return Ok(taken);
        }
        self.add(a, b)?;
        self.cut_old(taken.first);
        self.cut_old(taken.second);
        Ok(taken)
    }

    /// Removes the pair of two units, and returns whether it existed.
    pub(crate) fn unlink(&mut self, a: UnitId, b: UnitId) -> bool
        ensures was { result ≡ has_pair (a, b) self.old.pairs }
        ensures unlinked { self.new ≡ unlinked a b self.old }
    {
        if !self.pairs.contains((a, b)) {
            return false;
        }
        self.cut((a, b));
        true
    }

    /// Removes all pairs of a unit.
    pub(crate) fn forget(&mut self, unit: UnitId)
        ensures { self.new ≡ forgotten unit self.old }
    {
        self.pairs.cut(Side::A, unit);
        self.pairs.cut(Side::B, unit);
    }
}
