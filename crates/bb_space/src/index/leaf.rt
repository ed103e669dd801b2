//! One test of a pattern, with its operand's value. Queries ask the spaces for members that pass it.

ghost use Rattle.std.specs.Prelude.{◌≡◌, slice_get};
ghost use Rattle.bb_space.specs.index.Candidates.{dim_of, is_exact, asks_one};
ghost use Rattle.bb_space.specs.index.Leaf.{related, labelled, fits_leaf};

use crate::index::stretch::Stretch;
use bb_pattern::{DimValue, Relation};
use bb_schema::{LabelId, LabelSetId};

/// A test of a unit's value on one dimension of a space. Dimensions are numbered by the space, from 0.
#[derive(Clone, Copy, Debug, PartialEq)]
pub enum Leaf {
    /// The value on an ordered dimension is in this relation to `[low, high]`.
    Ordered {
        relation: Relation,
        dim: u8,
        low: i64,
        high: i64,
    },
    /// The value on an enumerated dimension is this label.
    Is {
        dim: u8,
        set: LabelSetId,
        label: LabelId,
    },
}

// The value on a dimension, if the unit has one.
fn value_at(values: &[DimValue], dim: u8) -> Option<DimValue>
    ensures { result ≡ slice_get values.now dim }
{
    Some(*values.get(dim as usize)?)
}

// Whether a value exists and is in a relation to `[low, high]`.
fn related(relation: Relation, low: i64, high: i64, value: Option<DimValue>) -> bool
    ensures { result ≡ related relation low high value }
{
    match value {
        Some(DimValue::Interval(from, to)) => relation.relates(from, to, low, high),
        _ => false,
    }
}

// Whether a value exists and is this label.
fn labelled(set: LabelSetId, label: LabelId, value: Option<DimValue>) -> bool
    ensures { result ≡ labelled set label value }
{
    match value {
        Some(DimValue::Label(of, other)) => of == set && other == label,
        _ => false,
    }
}

impl Leaf {
    /// Returns the dimension of the test.
    pub(crate) fn dim(&self) -> u8
        ensures { result ≡ dim_of self.now }
    {
        match *self {
            Leaf::Ordered { dim, .. } => dim,
            Leaf::Is { dim, .. } => dim,
        }
    }

    /// Returns whether all intervals or labels in the test's range pass it: their high ends don't matter.
    pub(crate) fn is_exact(&self) -> bool
        ensures { result ≡ is_exact self.now }
    {
        match *self {
            Leaf::Ordered {
                relation: Relation::More,
                ..
            } => true,
            Leaf::Ordered { .. } => false,
            Leaf::Is { .. } => true,
        }
    }

    /// Returns whether the test asks for one low end or one label. Its candidates are then found in ascending order.
    pub fn has_one_key(&self) -> bool
        ensures { result ≡ asks_one self.now }
    {
        Stretch::of(self).has_one_key()
    }

    /// Returns whether a unit with these values, one for each dimension in order, passes the test. It fails if its
    /// dimension is missing or of another sort.
    #[tactic(auto, unfolding(crate::specs::index::Leaf::fits_leaf))]
    pub fn fits(&self, values: &[DimValue]) -> bool
        ensures { result ≡ fits_leaf self.now values.now }
    {
        match *self {
            Leaf::Ordered {
                relation,
                dim,
                low,
                high,
            } => related(relation, low, high, value_at(values, dim)),
            Leaf::Is { dim, set, label } => labelled(set, label, value_at(values, dim)),
        }
    }
}
