//! Events of a blackboard. Clauses of sources match them (bb_rules), and a run processes them (bb_run).

ghost use Rattle.std.specs.Prelude.{◌≡◌};
ghost use Rattle.bb_board.specs.Events.{kind_of, unit_of};

use bb_schema::{SpaceId, UnitId};
use bb_schema_classes::{ClassId, SlotId};

/// What changed of a unit (GBBopen Reference Manual, events).
#[derive(Clone, Copy, Debug, PartialEq, Eq)]
pub enum Change {
    /// The unit was created.
    Create,
    /// The unit was deleted.
    Delete,
    /// An ordinary slot of the unit was set, perhaps to an equal value.
    Update(SlotId),
    /// The unit was linked to a partner by a link slot.
    Link { slot: SlotId, partner: UnitId },
    /// The unit is no longer linked to a partner by a link slot.
    Unlink { slot: SlotId, partner: UnitId },
    /// The unit entered a space.
    Enter(SpaceId),
    /// The unit left a space.
    Leave(SpaceId),
}

/// The kind of a change, which clauses of sources name: the change without a partner.
#[derive(Clone, Copy, Debug, PartialEq, Eq)]
pub enum ChangeKind {
    /// A unit was created.
    Create,
    /// A unit was deleted.
    Delete,
    /// An ordinary slot of a unit was set.
    Update(SlotId),
    /// A unit was linked by a link slot.
    Link(SlotId),
    /// A unit lost a link by a link slot.
    Unlink(SlotId),
    /// A unit entered a space.
    Enter(SpaceId),
    /// A unit left a space.
    Leave(SpaceId),
}

impl Change {
    /// Returns the kind of the change.
    pub fn kind(self) -> ChangeKind
        ensures { result ≡ kind_of self }
    {
        match self {
            Change::Create => ChangeKind::Create,
            Change::Delete => ChangeKind::Delete,
            Change::Update(slot) => ChangeKind::Update(slot),
            Change::Link { slot, .. } => ChangeKind::Link(slot),
            Change::Unlink { slot, .. } => ChangeKind::Unlink(slot),
            Change::Enter(space) => ChangeKind::Enter(space),
            Change::Leave(space) => ChangeKind::Leave(space),
        }
    }
}

/// A change of the blackboard, or that nothing could be chosen (GBBopen Reference Manual, events and the Agenda
/// Shell's quiescence).
#[derive(Clone, Copy, Debug, PartialEq, Eq)]
pub enum Event {
    /// A change of a unit, which had this class at that time.
    Change {
        unit: UnitId,
        class: ClassId,
        change: Change,
    },
    /// No activation could be chosen.
    Quiescence,
}

impl Event {
    /// Returns the unit that changed, or 0 if none did.
    pub fn unit(self) -> UnitId
        ensures { result ≡ unit_of self }
    {
        match self {
            Event::Change { unit, .. } => unit,
            Event::Quiescence => 0,
        }
    }
}
