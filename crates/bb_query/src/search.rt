//! A query with everything needed to find its answer. `find` of `answer.rt` makes a search, and `near.rt` finds
//! candidates with it.

use bb_pattern::{DimValue, Query};
use bb_schema::Schema;
use bb_space::Spaces;
use bb_units::Units;

/// A query with its operands, and the blackboard that it searches.
#[derive(Clone, Copy)]
pub(crate) struct Search<'a> {
    pub(crate) schema: &'a Schema,
    pub(crate) units: &'a Units,
    pub(crate) spaces: &'a Spaces,
    pub(crate) query: &'a Query,
    pub(crate) operands: &'a [DimValue],
}
