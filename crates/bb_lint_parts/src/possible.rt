//! The changes that a run can have. adding.rt collects them from notes and ops.

use bb_basis::Memory;
use bb_board::{ChangeKind, Note};
use bb_rules::{KindIndex, Source};
use bb_schema::{ClassId, Schema, SpaceId};
use std::alloc::Global;

/// The changes that a run can have: for each kind of change, the classes of the units it can happen to.
#[derive(Drop)]
pub struct Possible {
    /// Whether any change is possible, for example because a native acts.
    pub(crate) is_open: bool,
    /// The classes of units that it can happen to.
    pub(crate) exact: KindIndex,
    /// The classes such that it can happen to their units, or to units below them.
    pub(crate) below: KindIndex,
}

impl Possible {
    /// Returns what a run of sources can have if the initial units note these changes. Without notes, when nothing is
    /// known of the initial units, anything is possible.
    pub fn of(
        alloc: Global,
        schema: &Schema,
        sources: &[Source],
        first: Option<&[Note]>,
    ) -> Result<Possible, Memory> {
        let mut possible = Possible {
            is_open: first.is_none(),
            exact: KindIndex::new(alloc),
            below: KindIndex::new(alloc),
        };
        for note in first.unwrap_or(&[]) {
            possible.add_note(note)?;
        }
        for source in sources {
            possible.add_act(schema, &source.parts().act)?;
        }
        Ok(possible)
    }

    /// Returns what the act of one source can change.
    pub fn of_source(alloc: Global, schema: &Schema, source: &Source) -> Result<Possible, Memory> {
        let mut possible = Possible {
            is_open: false,
            exact: KindIndex::new(alloc),
            below: KindIndex::new(alloc),
        };
        possible.add_act(schema, &source.parts().act)?;
        Ok(possible)
    }

    /// Returns whether a change can happen to a unit of a class, or of one below it.
    pub fn can_happen(&self, schema: &Schema, kind: ChangeKind, class: ClassId) -> bool {
        self.is_open || self.is_noted(schema, kind, class) || self.can_follow(schema, kind, class)
    }

    /// Returns whether a unit of a class, or of one below it, can enter a space.
    pub fn can_enter(&self, schema: &Schema, space: SpaceId, class: ClassId) -> bool {
        self.can_happen(schema, ChangeKind::Enter(space), class)
    }

    // Returns whether ops can cause the change. A deletion removes links, and makes the unit leave its spaces, if it
    // has any.
    fn can_follow(&self, schema: &Schema, kind: ChangeKind, class: ClassId) -> bool {
        let is_here = self.is_below(schema, kind, class);
        match kind {
            ChangeKind::Unlink(slot) => {
                let can_go = is_here || has_any(&self.below, ChangeKind::Delete);
                can_go && self.has_some(ChangeKind::Link(slot))
            }
            ChangeKind::Leave(space) => {
                let can_go = is_here || self.is_below(schema, ChangeKind::Delete, class);
                can_go && self.has_some(ChangeKind::Enter(space))
            }
            _ => is_here,
        }
    }

    // Returns whether the change can happen to a class recorded exactly that is the class or below it.
    fn is_noted(&self, schema: &Schema, kind: ChangeKind, class: ClassId) -> bool {
        match self.exact.at(kind) {
            None => false,
            Some(classes) => classes
                .as_slice()
                .iter()
                .any(|one| schema.descends(*one, class)),
        }
    }

    // Returns whether units of a class, or below it, are among those that ops can change this way. A deletion also
    // deletes the unit's parts.
    fn is_below(&self, schema: &Schema, kind: ChangeKind, class: ClassId) -> bool {
        let Some(classes) = self.below.at(kind) else {
            return false;
        };
        classes.as_slice().iter().any(|one| match kind {
            ChangeKind::Delete => schema.strikes(*one, class),
            _ => schema.related(*one, class),
        })
    }

    // Returns whether the change can happen to any unit.
    fn has_some(&self, kind: ChangeKind) -> bool {
        has_any(&self.exact, kind) || has_any(&self.below, kind)
    }
}

// Returns whether there is a class for a kind.
fn has_any(index: &KindIndex, kind: ChangeKind) -> bool {
    match index.at(kind) {
        None => false,
        Some(classes) => classes.len() > 0,
    }
}
