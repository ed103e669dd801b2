//! The spaces of a blackboard: which units are in each, and their values on its dimensions.
//!
//! - In: units that enter, leave and get other values.
//! - Out: `Spaces`, which returns the members of a space and the candidates for a test. `index` has the ordered keys of
//!   the values of a space, used to find candidates, and `costs.rt` the limits that `find` uses to choose.
//! - Callers rely on: the candidates for a test include every member whose values pass it.
//! - Cases: `spaces`, `spaces_and_queries`, `model-spaces`.
#![tactic(auto)]

pub mod index;
mod members;
mod moving;
mod passing;
mod spaces;
mod standing;

pub use bb_schema::{SpaceId, UnitId};
pub use index::Leaf;
pub use spaces::Spaces;
