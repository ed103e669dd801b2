//! The agenda. The functions here read it; the functions in `changes` change it. A run (bb_run) adds the activations
//! that events trigger and removes the activations that a cycle executes.

ghost use Rattle.std.specs.Prelude.{◌≡◌, Contains, IfSome, IsSome, Some, option_map};
ghost use Rattle.bb_agenda.specs.Agenda.{no_activations, pending_of, is_full, number_of, numbers_pending, numbers_for, numbers_on};
ghost use Rattle.bb_agenda.specs.Agenda.{pending_at, pending_for, pending_on, status};
ghost use Rattle.bb_agenda.specs.declared.focusing.activation.Activation.{Activation};
ghost use Rattle.bb_agenda.specs.Fits.{Fits};
ghost use Rattle.bb_agenda.specs.Rating.{rating_in};
ghost use Rattle.bb_agenda.specs.Chosen.{chosen};

mod changes;
mod steps;

use crate::focusing::{Activation, RatedSource, Setting, Steering};
use crate::number_set::NumberSet;
use crate::numbers::Numbers;
use crate::status::Status;
use crate::waiting::Waiting;
use bb_schema::{SharedSchema, UnitId};
use std::alloc::Global;
use std::collections::btree_map::Keys;
use std::marker::Model;

/// The maximum number of pending activations.
pub const PENDING_LIMIT: usize = 65_536;

/// The last number an activation can get.
pub const NUMBER_LIMIT: u64 = (1 << 63) - 1;

/// All activations ever added, each under its number; which of them are pending; the foci that are set; and whether
/// memory was refused to a change (GBBopen Reference Manual, Agenda Shell; foci are this project's). Once it was, every
/// change is refused. Of activations no longer pending, the agenda keeps only how many there were and which were
/// obviated.
pub struct Agenda {
    // How many activations were added.
    given: u64,
    waiting: Waiting,
    obviated: NumberSet,
    steering: Steering,
    refused: bool,
}

// By hand: proofs then meet one call per drop, not one per part.
impl Drop for Agenda {
    fn drop(self) {
        let Agenda {
            given: _,
            waiting: _,
            obviated: _,
            steering: _,
            refused: _,
        } = self;
    }
}

impl Model for Agenda {
    ghost use Rattle.bb_agenda.specs.Agenda.{Agenda as Given};
    ghost use Rattle.bb_agenda.specs.proving.Codes.{agenda_code};

    ghost Value = { Given };

    ghost coded = { agenda_code };

    ghost use Rattle.bb_agenda.specs.proving.Kept.{IsKept, entries_of};
    ghost use Rattle.bb_agenda.specs.proving.Numbers.{is_in};

    ghost view = { λ a. record {
      given = entries_of a.given a.waiting (is_in a.obviated);
      foci = a.steering.foci;
      setting = a.steering.setting;
      refused = a.refused;
    } };

    ghost invariant = { λ a. IsKept a.given a.waiting (is_in a.obviated) };
}

impl Agenda {
    /// Creates an agenda without activations or foci; the first activation gets number 1. `sources` has what the agenda
    /// knows of each source, at the source's index. Allocates nothing.
    pub fn new(alloc: Global, schema: SharedSchema, sources: Vec<RatedSource>) -> Agenda
        ensures { result ≡ no_activations (record { schema = schema; sources = sources.items }) }
    {
        Agenda {
            given: 0,
            waiting: Waiting::new(alloc),
            obviated: NumberSet::new(alloc),
            steering: Steering::new(alloc, Setting::new(schema, sources)),
            refused: false,
        }
    }

    /// Returns whether no activation can be added: `PENDING_LIMIT` are pending, or every number up to `NUMBER_LIMIT`
    /// was given.
    pub fn is_full(&self) -> bool
        ensures { result ≡ is_full self.now }
    {
        self.waiting.len() >= PENDING_LIMIT || self.given >= NUMBER_LIMIT
    }

    /// Returns the numbers of the pending activations, in ascending order.
    pub fn pending(&self) -> Keys<'_, u64, Activation>
        ensures { result ≡ numbers_pending self.now }
    {
        self.waiting.numbers()
    }

    /// Returns the numbers of a source's pending activations, in ascending order.
    pub fn pending_for(&self, source: u16) -> Numbers<'_>
        ensures numbers { result ≡ numbers_for self.now source }
        // Each activation is pending under its number.
        ensures itself { (a : Activation) → Contains (pending_for self.now source) a
            → pending_at self.now a.number ≡ Some a }
    {
        self.waiting.of_source(source)
    }

    /// Returns the numbers of a source's pending activations for a unit, in ascending order.
    pub fn pending_on(&self, source: u16, unit: UnitId) -> Numbers<'_>
        ensures numbers { result ≡ numbers_on self.now source unit }
        // Each activation is pending under its number.
        ensures itself { (a : Activation) → Contains (pending_on self.now source unit) a
            → pending_at self.now a.number ≡ Some a }
    {
        self.waiting.on_unit(source, unit)
    }

    /// Returns what became of the activation with a number, or `None` if the number was not given.
    pub fn status(&self, number: u64) -> Option<Status>
        ensures { result ≡ status self.now number }
    {
        let index = number.checked_sub(1)?;
        if index >= self.given {
            return None;
        }
        if self.obviated.contains(number) {
            return Some(Status::Obviated);
        }
        if self.waiting.has(number) {
            return Some(Status::Pending);
        }
        Some(Status::Executed)
    }

    /// Returns the pending activation with a number.
    pub fn activation(&self, number: u64) -> Activation
        requires { IsSome (pending_at self.now number) }
        ensures { pending_at self.now number ≡ Some result }
    {
        self.waiting.get(number).unwrap()
    }

    /// Returns the rating of the pending activation with a number: its base plus the weights of all foci that match it.
    pub fn rating(&self, number: u64) -> i128
        requires { IsSome (pending_at self.now number) }
        ensures { option_map (rating_in self.now) (pending_at self.now number) ≡ Some result }
    {
        let activation = self.activation(number);
        self.steering.rating(&activation)
    }

    /// Returns the rating of an activation, pending or not: its base plus the weights of all foci that match it.
    pub fn rating_of(&self, activation: &Activation) -> i128
        ensures { result ≡ rating_in self.now activation.now }
    {
        self.steering.rating(activation)
    }

    /// Returns the source of the pending activation with a number.
    pub fn source(&self, number: u64) -> u16
        requires { IsSome (pending_at self.now number) }
        ensures { option_map (λ a. a.source) (pending_at self.now number) ≡ Some result }
    {
        self.activation(number).source
    }

    /// Returns the unit of the pending activation with a number, or 0 if it has none.
    pub fn unit(&self, number: u64) -> UnitId
        requires { IsSome (pending_at self.now number) }
        ensures { option_map (λ a. a.unit) (pending_at self.now number) ≡ Some result }
    {
        self.activation(number).unit
    }

    /// Returns the number of the activation to execute: of those rated at least `floor`, the one with the highest
    /// rating; of equals, the one with the lowest number (Hayes-Roth 1985, scheduling). Compares only the first of each
    /// source.
    pub fn choose(&self, floor: i64) -> Option<u64>
        ensures number { result ≡ option_map number_of (chosen (rating_in self.now) floor (pending_of self.now)) }
        ensures same { IfSome result (λ number.
            pending_at self.now number ≡ chosen (rating_in self.now) floor (pending_of self.now)) }
    {
        self.waiting.choose(&self.steering, floor)
    }

    /// Does nothing; its contract states the invariant: the numbers of pending activations ascend, and an activation is
    /// pending exactly if its status states that it is.
    pub fn fits(&self)
        ensures { Fits self.now }
    {
        let _numbers = self.waiting.numbers();
    }
}
