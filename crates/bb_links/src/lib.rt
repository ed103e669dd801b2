//! The links of a blackboard: for each couple (a link slot and its inverse), the pairs of linked units, in order of
//! addition.
//!
//! - In: pairs to link and to unlink, and units to clear.
//! - Out: `Couples`, and `Taken`, the pairs that a link removed.
//! - Callers rely on: both ends of a link are one pair and therefore always agree.
//! - Cases: `links`, `linking`, `model-links`.
#![tactic(auto)]

mod couple;
mod couples;
mod layout;
mod lists;
mod maps;
mod pairs;
mod partners;
mod taken;

pub use bb_schema::UnitId;
pub use couples::Couples;
pub use taken::Taken;
