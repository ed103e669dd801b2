//! The pending activations of an agenda, found by number, source or unit, and for each source in execution order,
//! without scanning them all. agenda.rt keeps them.

ghost use Rattle.std.specs.Prelude.{◌≡◌, ◌<◌, [], ◌∷◌, ◌++◌, map, filter, find, length, is_some, OnOk, OnErr};
ghost use Rattle.std.specs.Prelude.{IfSome, option_map};
ghost use Rattle.std.specs.List.{AllByRecursion};
ghost use Rattle.std.specs.Map.{lookup};
ghost use Rattle.std.specs.Ordering.{nat_cmp};
ghost use Rattle.std.specs.BTreeMap.{is_at};
ghost use Rattle.bb_agenda.specs.Agenda.{number_of, has_number, is_of, is_on};
ghost use Rattle.bb_agenda.specs.Changes.{other_than, rebased};
ghost use Rattle.bb_agenda.specs.Chosen.{chosen};
ghost use Rattle.bb_agenda.specs.Fits.{RisesBy};
ghost use Rattle.bb_agenda.specs.focusing.Rating.{rating};

mod filing;

use crate::choosing::best_of;
use crate::focusing::{Activation, Steering};
use crate::lists::Lists;
use crate::numbers::Numbers;
use crate::order::rank_out;
use crate::rank::Rank;
use bb_basis::Memory;
use bb_schema::UnitId;
use filing::{rebase, rerank, store};
use std::alloc::Global;
use std::collections::btree_map::Keys;
use std::collections::{BTreeMap, BTreeSet};
use std::marker::Model;

/// Activations with ascending numbers. Contracts see them as a list.
pub(crate) struct Waiting {
    alloc: Global,
    activations: BTreeMap<u64, Activation>,
    // The numbers of the activations by source, and by unit and source.
    lists: Lists,
    // The ranks of the activations of each source, at its index.
    orders: Vec<BTreeSet<Rank>>,
}

// By hand: proofs then meet one call per drop, not one per part.
impl Drop for Waiting {
    fn drop(self) {
        let Waiting {
            alloc: _,
            activations: _,
            lists: _,
            orders: _,
        } = self;
    }
}

impl Model for Waiting {
    ghost use Rattle.std.specs.Prelude.{List};
    ghost use Rattle.std.specs.Map.{values_of};
    ghost use Rattle.bb_agenda.specs.declared.focusing.activation.Activation.{Activation as Given};

    ghost Value = { List Given };

    ghost view = { λ w. values_of w.activations.entries };

    ghost use Rattle.bb_agenda.specs.proving.Filed.{AreWaiting};

    ghost invariant = { λ w. AreWaiting w.activations.entries w.lists w.orders.items };
}

impl Waiting {
    /// Creates an empty list. Allocates nothing.
    pub(crate) fn new(alloc: Global) -> Waiting
        ensures { result ≡ [] }
    {
        Waiting {
            alloc,
            activations: BTreeMap::new(alloc),
            lists: Lists::new(alloc),
            orders: Vec::new(alloc),
        }
    }

    /// Returns the number of activations.
    pub(crate) fn len(&self) -> usize
        ensures { result ≡ length self.now }
    {
        self.activations.len()
    }

    /// Returns the numbers of the activations, ascending.
    pub(crate) fn numbers(&self) -> Keys<'_, u64, Activation>
        ensures value { result ≡ map number_of self.now }
        ensures rising { RisesBy number_of self.now }
    {
        self.activations.keys()
    }

    /// Returns the numbers of the activations of a source.
    pub(crate) fn of_source(&self, source: u16) -> Numbers<'_>
        ensures value { result ≡ map number_of (filter (is_of source) self.now) }
        ensures rising { RisesBy number_of self.now }
    {
        self.lists.of_source(source)
    }

    /// Returns the numbers of the activations of a source for a unit.
    pub(crate) fn on_unit(&self, source: u16, unit: UnitId) -> Numbers<'_>
        ensures value { result ≡ map number_of (filter (is_on unit) (filter (is_of source) self.now)) }
        ensures rising { RisesBy number_of self.now }
    {
        self.lists.on_unit(source, unit)
    }

    /// Returns the activation with a number.
    pub(crate) fn get(&self, number: u64) -> Option<Activation>
        ensures { result ≡ find (has_number number) self.now }
    {
        self.activations.get(&number).copied()
    }

    /// Returns whether an activation has this number.
    pub(crate) fn has(&self, number: u64) -> bool
        ensures { result ≡ is_some (find (has_number number) self.now) }
    {
        self.get(number).is_some()
    }

    /// Returns the number of the activation to execute, of those rated at least `floor`. Compares only the first of
    /// each source.
    pub(crate) fn choose(&self, steering: &Steering, floor: i64) -> Option<u64>
        ensures number { let s = steering.now in let rate = rating s.setting.schema s.setting.sources s.foci in
            result ≡ option_map number_of (chosen rate floor self.now) }
        ensures same { let s = steering.now in let rate = rating s.setting.schema s.setting.sources s.foci in
            IfSome result (λ number. find (has_number number) self.now ≡ chosen rate floor self.now) }
    {
        let best = best_of(&self.orders, steering)?;
        if best.rating < i128::from(floor) {
            return None;
        }
        Some(best.number)
    }

    /// Appends an activation whose number is above all others. An error changes nothing.
    pub(crate) fn push(&mut self, activation: Activation) -> Result<(), Memory>
        requires { AllByRecursion (λ a. a.number < activation.number) self.old }
        ensures ok { OnOk result (self.new ≡ self.old ++ activation ∷ []) }
        ensures err { OnErr result (self.new ≡ self.old) }
    {
        store(
            self.alloc,
            &mut self.activations,
            &mut self.lists,
            &mut self.orders,
            &activation,
        )?;
        Ok(())
    }

    /// Removes the activation with a number.
    pub(crate) fn remove(&mut self, number: u64)
        ensures { self.new ≡ filter (other_than number) self.old }
    {
        if let Some(activation) = self.activations.remove(&number) {
            self.lists.remove(&activation);
            rank_out(&mut self.orders, activation.source, Rank::of(&activation));
        }
    }

    /// Gives the activation with a number another base. An error changes nothing.
    pub(crate) fn rerate(&mut self, number: u64, base: i64) -> Result<(), Memory>
        ensures ok { OnOk result (self.new ≡ map (rebased number base) self.old) }
        ensures err { OnErr result (self.new ≡ self.old) }
    {
        let Some(activation) = self.activations.get(&number).copied() else {
            return Ok(());
        };
        if activation.base == base {
            return Ok(());
        }
        rerank(self.alloc, &mut self.orders, &activation, base)?;
        rebase(&mut self.activations, number, base);
        Ok(())
    }
}
