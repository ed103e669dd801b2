//! Which sources an event concerns, by its kind. A plan keeps them, and a run (bb_run) asks no others.

ghost use Rattle.std.specs.Prelude.{◌≡◌, ◌≤◌, [], IfOk, OnOk, length};
ghost use Rattle.std.specs.Option.{option_map_or};
ghost use Rattle.bb_board.specs.declared.event.Event.{Event as Happened};
ghost use Rattle.bb_rules.specs.KindIndex.{put, put_if};
ghost use Rattle.bb_run_plan.specs.Concerned.{any_of_kind, is_concerned, is_of_kind, reaction_of_kind};
ghost use Rattle.bb_run_plan.specs.declared.plan.TheConstants.{SOURCE_LIMIT};
ghost use Rattle.bb_run_plan.specs.proving.Concerned.{AreConcerned, places_for};

use bb_basis::IdSet;
use bb_board::Event;
use bb_rules::{Clause, KindIndex, Reaction, Source};
use std::alloc::{AllocError, Global};

/// For each kind of event, the indices of the sources that have a clause of that kind, in order.
pub(crate) struct Concerned {
    changes: KindIndex,
    quiescence: IdSet,
}

// By hand: proofs then meet one call per drop, not one per part.
impl Drop for Concerned {
    fn drop(self) {
        let Concerned {
            changes: _,
            quiescence: _,
        } = self;
    }
}

impl Concerned {
    // No source for any kind.
    fn new(alloc: Global) -> Concerned
        ensures { (event : Happened) → places_for result event ≡ [] }
    {
        Concerned {
            changes: KindIndex::new(alloc),
            quiescence: IdSet::new(alloc),
        }
    }

    /// Finds, for every kind of event, the indices of the sources that it concerns. The error: out of memory.
    pub(crate) fn of(alloc: Global, sources: &[Source]) -> Result<Concerned, AllocError>
        requires { length sources.now ≤ SOURCE_LIMIT }
        ensures { IfOk result (λ concerned. AreConcerned sources.now concerned) }
    {
        let mut concerned = Concerned::new(alloc);
        for (place, source) in sources.iter().enumerate() {
            concerned.add_source(place as u16, source)?;
        }
        Ok(concerned)
    }

    /// Returns the indices kept for the kind of an event.
    pub(crate) fn by(&self, event: Event) -> &[u16]
        ensures { result.now ≡ places_for self.now event }
    {
        match event {
            Event::Change { change, .. } => places_in(self.changes.at(change.kind())),
            Event::Quiescence => self.quiescence.as_slice(),
        }
    }

    // Appends a place for the kind that a clause names.
    fn add_clause(&mut self, place: u16, clause: &Clause) -> Result<(), AllocError>
        ensures { OnOk result ((event : Happened) → places_for self.new event
            ≡ put_if (is_of_kind event clause.now) (places_for self.old event) place) }
    {
        match clause {
            Clause::Change { kind, .. } => self.changes.add(*kind, place),
            Clause::Quiescence => self.add_quiescence(place),
        }
    }

    // Appends a place for quiescence.
    fn add_quiescence(&mut self, place: u16) -> Result<(), AllocError>
        ensures changes { self.new.changes ≡ self.old.changes }
        ensures quiescence { OnOk result (self.new.quiescence ≡ put self.old.quiescence place) }
    {
        if self.quiescence.contains(place) {
            return Ok(());
        }
        self.quiescence.push(place)
    }

    // Appends a place for every kind that one of these clauses names.
    fn add_clauses(&mut self, place: u16, clauses: &[Clause]) -> Result<(), AllocError>
        ensures { OnOk result ((event : Happened) → places_for self.new event
            ≡ put_if (any_of_kind event clauses.now) (places_for self.old event) place) }
    {
        for clause in clauses {
            self.add_clause(place, clause)?;
        }
        Ok(())
    }

    // Appends a place for every kind that a clause of a reaction names, if there is a reaction.
    fn add_reaction(&mut self, place: u16, reaction: &Option<Reaction>) -> Result<(), AllocError>
        ensures { OnOk result ((event : Happened) → places_for self.new event
            ≡ put_if (reaction_of_kind event reaction.now) (places_for self.old event) place) }
    {
        match reaction {
            None => Ok(()),
            Some(reaction) => self.add_clauses(place, reaction.clauses.as_slice()),
        }
    }

    // Appends the place of a source for every kind that one of its clauses names.
    fn add_source(&mut self, place: u16, source: &Source) -> Result<(), AllocError>
        ensures { OnOk result ((event : Happened) → places_for self.new event
            ≡ put_if (is_concerned event source.now) (places_for self.old event) place) }
    {
        let parts = source.parts();
        self.add_clauses(place, parts.triggers.as_slice())?;
        self.add_reaction(place, &parts.obviate)?;
        self.add_reaction(place, &parts.retrigger)
    }
}

fn places_in(places: Option<&IdSet>) -> &[u16]
    ensures { result.now ≡ option_map_or (λ set. set.now) places.entry [] }
{
    match places {
        None => &[],
        Some(places) => places.as_slice(),
    }
}
