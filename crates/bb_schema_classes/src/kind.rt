//! The kinds of slots, and the numbers of slots. A slot's kind is the kind of its default, or its link.

use crate::class::ClassId;
use crate::label_set::LabelSetId;

/// The number of a slot. 0 to 3 are the slots of `focus`; then, class by class, the ordinary slots and the link slots
/// that the class declares. An inherited slot keeps its number.
pub type SlotId = u16;

/// What a slot can hold.
#[derive(Clone, Copy, Debug, PartialEq, Drop)]
pub enum Kind {
    Int,
    Text,
    Bool,
    /// A label of a set.
    Label(LabelSetId),
    Interval,
    Link(Link),
}

/// A link slot points to units of a class. Its inverse is a slot of that class and points back.
#[derive(Clone, Copy, Debug, PartialEq, Drop)]
pub struct Link {
    pub to: ClassId,
    /// Whether the slot may hold more than one unit.
    pub many: bool,
    pub inverse: SlotId,
    /// Whether a unit owns the units in the slot, so that they are deleted with it.
    pub owns: bool,
}
