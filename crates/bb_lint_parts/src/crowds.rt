//! Which spaces can hold many units: by the initial units, and by what the acts of sources create and let enter. Costs
//! of searches are reported only for these.

use bb_basis::Memory;
use bb_board::{ChangeKind, Event, Note};
use bb_code::Op;
use bb_rules::{Act, Source};
use bb_schema::{ClassId, Schema, SpaceId};
use std::alloc::Global;

// The maximum number of units in a space whose searches cost little.
const FEW: usize = 64;

/// For each space of a schema, whether it can hold many units.
#[derive(Drop)]
pub struct Crowds {
    are_large: Vec<bool>,
}

impl Crowds {
    /// Returns what the spaces can hold in a run of sources if the initial units note these changes. Any space can hold
    /// many if nothing is known of the initial units, or if a native acts.
    pub fn of(
        alloc: Global,
        schema: &Schema,
        sources: &[Source],
        first: Option<&[Note]>,
    ) -> Result<Crowds, Memory> {
        let mut seen = Seen::of(alloc, schema)?;
        let is_open = first.is_none();
        for note in first.unwrap_or(&[]) {
            seen.add_note(note);
        }
        let mut has_native = false;
        for source in sources {
            match &source.parts().act {
                Act::Code(lowered) => seen.add_ops(lowered.checked().code().ops()),
                Act::Native => has_native = true,
            }
        }
        let mut are_large = Vec::new(alloc);
        for space in 0..schema.space_count() {
            are_large.push(is_open || has_native || seen.is_large(schema, space as SpaceId))?;
        }
        Ok(Crowds { are_large })
    }

    /// Returns whether a space can hold many units.
    pub(crate) fn is_large(&self, space: SpaceId) -> bool {
        self.are_large.get(space as usize).copied().unwrap_or(true)
    }
}

// Adds one to the number at an index, if there is one.
fn add_one(counts: &mut Vec<usize>, index: usize) {
    if index < counts.len() {
        counts[index] = counts[index].saturating_add(1);
    }
}

// Marks an index, if there is one.
fn mark(marks: &mut Vec<bool>, index: usize) {
    if index < marks.len() {
        marks[index] = true;
    }
}

// What initial units and acts do.
#[derive(Drop)]
struct Seen {
    // For each class, the number of initial units, and whether an act creates units of it.
    counts: Vec<usize>,
    are_created: Vec<bool>,
    // For each space, the number of initial units that enter it, and whether an act lets units enter it.
    entries: Vec<usize>,
    are_entered: Vec<bool>,
}

impl Seen {
    fn of(alloc: Global, schema: &Schema) -> Result<Seen, Memory> {
        let mut seen = Seen {
            counts: Vec::new(alloc),
            are_created: Vec::new(alloc),
            entries: Vec::new(alloc),
            are_entered: Vec::new(alloc),
        };
        for _class in 0..schema.class_count() {
            seen.counts.push(0)?;
            seen.are_created.push(false)?;
        }
        for _space in 0..schema.space_count() {
            seen.entries.push(0)?;
            seen.are_entered.push(false)?;
        }
        Ok(seen)
    }

    fn add_note(&mut self, note: &Note) {
        let Note::Event(Event::Change { class, change, .. }) = note else {
            return;
        };
        match change.kind() {
            ChangeKind::Create => add_one(&mut self.counts, *class as usize),
            ChangeKind::Enter(space) => add_one(&mut self.entries, space as usize),
            _ => {}
        }
    }

    fn add_ops(&mut self, ops: &[Op]) {
        for op in ops {
            match *op {
                Op::New(class) => mark(&mut self.are_created, class as usize),
                Op::Enter(space) => mark(&mut self.are_entered, space as usize),
                _ => {}
            }
        }
    }

    // Returns whether a space can hold more than a few units. If no act lets units enter it, it holds those initial
    // units that enter it at most; else all initial units that it admits, and all that acts create.
    fn is_large(&self, schema: &Schema, space: SpaceId) -> bool {
        if !self
            .are_entered
            .get(space as usize)
            .copied()
            .unwrap_or(true)
        {
            return self.entries.get(space as usize).copied().unwrap_or(0) > FEW;
        }
        let mut total: usize = 0;
        for class in 0..schema.class_count() {
            if schema.allowed(space, class as ClassId) {
                if self.are_created.get(class).copied().unwrap_or(true) {
                    return true;
                }
                total = total.saturating_add(self.counts.get(class).copied().unwrap_or(0));
            }
        }
        total > FEW
    }
}
