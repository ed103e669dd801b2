//! The changes that a native asks for. Natives return lists of asks; their caller checks and applies each ask.

use bb_basis::Text;
use bb_schema::UnitId;
use bb_schema_classes::Value;

/// A change that a native asks for. Slots, spaces and classes are given by name. They need not exist: each ask is
/// checked before it is applied.
#[derive(Debug, PartialEq, Drop)]
pub enum Ask {
    /// Sets an ordinary slot of a unit.
    Set {
        unit: UnitId,
        slot: Text,
        value: Value,
    },
    /// Links a unit to another by a link slot.
    Link {
        unit: UnitId,
        slot: Text,
        other: UnitId,
    },
    /// Removes the link of a unit to another.
    Unlink {
        unit: UnitId,
        slot: Text,
        other: UnitId,
    },
    /// Puts a unit into a space.
    Enter {
        unit: UnitId,
        space: Text,
    },
    /// Removes a unit from a space.
    Leave {
        unit: UnitId,
        space: Text,
    },
    /// Creates a unit of a class.
    New {
        class: Text,
    },
    /// Deletes a unit.
    Delete {
        unit: UnitId,
    },
    /// Says a text.
    Say {
        text: Text,
    },
}
