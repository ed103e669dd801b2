//! Values on dimensions. Boards convert the values of units with this, and patterns compare them with operands.

ghost use Rattle.std.specs.Prelude.{◌≡◌};
ghost use Rattle.bb_pattern.specs.Values.{dim_value_of, kind_of_operand};

use bb_schema_classes::{LabelId, LabelSetId, Value};

/// The value of a unit on a dimension, or of an operand.
#[derive(Clone, Copy, Debug, PartialEq)]
pub enum DimValue {
    /// An interval from the first number to the second. A number `v` counts as `[v, v]`.
    Interval(i64, i64),
    /// A label of a set.
    Label(LabelSetId, LabelId),
}

/// The kind that an operand of a query must have.
#[derive(Clone, Copy, Debug, PartialEq)]
pub enum OperandKind {
    Interval,
    /// A label of a set.
    Label(LabelSetId),
}

impl DimValue {
    /// Converts the value of a slot to its value on a dimension: a number or an interval becomes an interval, and a
    /// label stays itself. Returns `None` for a text or a truth value.
    pub fn of(value: &Value) -> Option<DimValue>
        ensures { result ≡ dim_value_of value.now }
    {
        match value {
            Value::Int(number) => Some(DimValue::Interval(*number, *number)),
            Value::Interval(low, high) => Some(DimValue::Interval(*low, *high)),
            Value::Label(set, label) => Some(DimValue::Label(*set, *label)),
            Value::Text(_) | Value::Bool(_) => None,
        }
    }

    /// Returns the kind of operand that the value can be.
    pub fn kind(self) -> OperandKind
        ensures { result ≡ kind_of_operand self }
    {
        match self {
            DimValue::Interval(_, _) => OperandKind::Interval,
            DimValue::Label(set, _) => OperandKind::Label(set),
        }
    }
}
