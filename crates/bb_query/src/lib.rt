//! The answers of queries: the units in a space, of a class or one below it, that satisfy a pattern.
//!
//! - In: a `Query` that fits the schema, units and spaces.
//! - Out: `find`, the units in ascending order, as a scan of all of them would find them; `count`, their number.
//!   `values_of` and `moves_of`: the values that a space is given when a unit enters it, and when a slot of a unit is
//!   set.
//! - Callers rely on: the answer does not depend on the index, which only makes it fast.
//! - Cases: `spaces_and_queries`, `counting`, `model-spaces`.
#![tactic(auto)]

mod answer;
mod effort;
mod moves;
mod narrow;
mod near;
mod search;
mod values;

pub use answer::{count, find};
pub use bb_pattern::{
    DimValue, NODE_LIMIT, Node, OPERAND_LIMIT, OperandKind, Pattern, PatternFault, Query, Relation,
};
pub use moves::{Setting, moves_of};
pub use values::values_of;
