//! An index of numbers by kind of change. `Clauses` keeps the classes that its clauses name; a plan (bb_run_plan) keeps
//! the sources that an event concerns.

ghost use Rattle.std.specs.Prelude.{◌≡◌, ℕ, [], OnOk};
ghost use Rattle.std.specs.Option.{option_map_or};
ghost use Rattle.bb_board.specs.declared.event.ChangeKind.{ChangeKind as Kind};
ghost use Rattle.bb_rules.specs.Match.{is_same_kind};
ghost use Rattle.bb_rules.specs.KindIndex.{ids_for, put_if};

use crate::ids_by::{IdsBy, include};
use bb_basis::IdSet;
use bb_board::ChangeKind;
use std::alloc::{AllocError, Global};

/// A set of numbers for each kind of change, in order of addition. The set of a kind that has a slot or space is found
/// in an ordered map.
pub struct KindIndex {
    created: IdSet,
    deleted: IdSet,
    updated: IdsBy,
    linked: IdsBy,
    unlinked: IdsBy,
    entered: IdsBy,
    left: IdsBy,
}

// Written by hand, so that a proof meets one call when it is dropped, not each of its parts.
impl Drop for KindIndex {
    fn drop(self) {
        let KindIndex {
            created: _,
            deleted: _,
            updated: _,
            linked: _,
            unlinked: _,
            entered: _,
            left: _,
        } = self;
    }
}

impl KindIndex {
    /// Creates an index without numbers. Allocates nothing.
    pub fn new(alloc: Global) -> KindIndex
        ensures { (kind : Kind) → ids_for result kind ≡ [] }
    {
        KindIndex {
            created: IdSet::new(alloc),
            deleted: IdSet::new(alloc),
            updated: IdsBy::new(alloc),
            linked: IdsBy::new(alloc),
            unlinked: IdsBy::new(alloc),
            entered: IdsBy::new(alloc),
            left: IdsBy::new(alloc),
        }
    }

    /// Returns the numbers for a kind, if there are any.
    pub fn at(&self, kind: ChangeKind) -> Option<&IdSet>
        ensures { option_map_or (λ set. set.now) result [] ≡ ids_for self.now kind }
    {
        match kind {
            ChangeKind::Create => Some(&self.created),
            ChangeKind::Delete => Some(&self.deleted),
            ChangeKind::Update(slot) => self.updated.at(slot),
            ChangeKind::Link(slot) => self.linked.at(slot),
            ChangeKind::Unlink(slot) => self.unlinked.at(slot),
            ChangeKind::Enter(space) => self.entered.at(space),
            ChangeKind::Leave(space) => self.left.at(space),
        }
    }

    /// Appends a number for a kind, unless the set has it.
    pub fn add(&mut self, kind: ChangeKind, id: u16) -> Result<(), AllocError>
        ensures { OnOk result ((k : Kind) →
            ids_for self.new k ≡ put_if (is_same_kind kind k) (ids_for self.old k) id) }
    {
        match kind {
            ChangeKind::Create => include(&mut self.created, id),
            ChangeKind::Delete => include(&mut self.deleted, id),
            ChangeKind::Update(slot) => self.updated.add(slot, id),
            ChangeKind::Link(slot) => self.linked.add(slot, id),
            ChangeKind::Unlink(slot) => self.unlinked.add(slot, id),
            ChangeKind::Enter(space) => self.entered.add(space, id),
            ChangeKind::Leave(space) => self.left.add(space, id),
        }
    }
}
