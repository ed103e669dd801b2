//! Notes of a blackboard: its events and what was said. Each change of the board adds its own, and bb_trace writes them
//! as lines.

use crate::event::Event;
use bb_basis::Items;
use bb_schema::UnitId;
use bb_schema_classes::Value;

/// A value that is said: one that a slot could hold, or a unit.
pub enum Said {
    Value(Value),
    Unit(UnitId),
}

// By hand, so that a proof meets one call where it is dropped, and not each of its variants.
impl Drop for Said {
    fn drop(self) {
        match self {
            Said::Value(_) => {}
            Said::Unit(_) => {}
        }
    }
}

/// A note of a blackboard.
pub enum Note {
    /// An event.
    Event(Event),
    /// Values that a source says, on one line.
    Said(Items<Said>),
}

// By hand, so that a proof meets one call where it is dropped, and not each of its variants.
impl Drop for Note {
    fn drop(self) {
        match self {
            Note::Event(_) => {}
            Note::Said(_) => {}
        }
    }
}
