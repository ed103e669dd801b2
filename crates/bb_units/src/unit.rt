//! A live unit. `units.rt` stores each under its number.

use crate::values::Values;
use bb_schema_classes::ClassId;

/// A unit: its class, and the value of each ordinary slot of its class.
#[derive(Drop)]
pub(crate) struct Unit {
    pub(crate) class: ClassId,
    pub(crate) values: Values,
}
