//! Patterns and queries as plain data: which of them fit a schema, and which units satisfy a pattern. Spaces, queries
//! and codes use them. Callers rely on: a pattern that fits a schema tests only existing dimensions and operands, each
//! of the right sort; and the test of whether it fits goes no deeper than `NODE_LIMIT`, regardless of the pattern's
//! depth.
#![tactic(auto)]

mod fault;
mod fits;
mod holds;
mod pattern;
mod query;
mod value;

pub use bb_schema::{ClassId, LabelId, LabelSetId, SpaceId};
pub use fault::PatternFault;
pub use fits::{NODE_LIMIT, OPERAND_LIMIT};
pub use holds::is_holds;
pub use pattern::{Node, Pattern, Relation};
pub use query::Query;
pub use value::{DimValue, OperandKind};
