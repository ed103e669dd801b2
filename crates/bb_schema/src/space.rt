//! Spaces and their dimensions. The schema keeps them in a table.

use bb_basis::{IdSet, Named, Table, Text};
use bb_schema_classes::LabelSetId;

/// The number of a space, in document order.
pub type SpaceId = u16;

/// A dimension of a space. It reads the slot with its name: a label of a set if it is enumerated, a number or an
/// interval if it is ordered.
#[derive(PartialEq, Drop)]
pub struct Dim {
    pub name: Text,
    /// The label set of an enumerated dimension, `None` for an ordered one.
    pub set: Option<LabelSetId>,
}

impl Named for Dim {
    ghost name_of = { λ d. d.name };

    fn name(&self) -> &str {
        self.name.as_str()
    }
}

/// A space. It admits units of its classes and of all classes below them.
#[derive(PartialEq, Drop)]
pub struct Space {
    pub name: Text,
    pub classes: IdSet,
    pub dims: Table<Dim>,
}

impl Named for Space {
    ghost name_of = { λ p. p.name };

    fn name(&self) -> &str {
        self.name.as_str()
    }
}
