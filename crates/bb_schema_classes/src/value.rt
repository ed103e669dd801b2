//! The values of ordinary slots. They are a schema's defaults and the contents of units.

ghost use Rattle.std.specs.Prelude.{◌≡◌};
ghost use Rattle.bb_schema_classes.specs.Kinds.{kind_of_value};
ghost use Rattle.bb_schema_classes.specs.Values.{is_label, value_fits};

use crate::kind::Kind;
use crate::label_set::{LabelId, LabelSetId};
use bb_basis::Text;
use std::alloc::AllocError;

/// The maximum length of a text in a slot, in bytes.
pub const TEXT_LIMIT: usize = 65_535;

/// The value of an ordinary slot.
#[derive(Debug, PartialEq, Drop)]
pub enum Value {
    Int(i64),
    /// At most 65,535 bytes.
    Text(Text),
    Bool(bool),
    /// A label of a set.
    Label(LabelSetId, LabelId),
    /// An interval from the first number to the second, which is not less.
    Interval(i64, i64),
}

impl Clone for Value {
    ghost use Rattle.std.specs.Prelude.{◌≡◌};

    ghost is_clone = { λ value copy. copy ≡ value };

    fn clone(&self) -> Result<Value, AllocError> {
        Ok(match self {
            Value::Int(number) => Value::Int(*number),
            Value::Text(text) => Value::Text(text.clone()?),
            Value::Bool(truth) => Value::Bool(*truth),
            Value::Label(set, label) => Value::Label(*set, *label),
            Value::Interval(low, high) => Value::Interval(*low, *high),
        })
    }
}

// Whether a label set exists and has a label, given the number of labels of each set.
fn is_label(label_counts: &[usize], set: LabelSetId, label: LabelId) -> bool
    ensures { result ≡ is_label label_counts.now set label }
{
    match label_counts.get(set as usize) {
        None => false,
        Some(count) => (label as usize) < *count,
    }
}

impl Value {
    /// Returns the kind of the slots that can hold the value.
    pub fn kind(&self) -> Kind
        ensures { result ≡ kind_of_value self.now }
    {
        match self {
            Value::Int(_) => Kind::Int,
            Value::Text(_) => Kind::Text,
            Value::Bool(_) => Kind::Bool,
            Value::Label(set, _) => Kind::Label(*set),
            Value::Interval(_, _) => Kind::Interval,
        }
    }

    /// Returns whether a slot of a kind can hold the value. `label_counts` has the number of labels of each set.
    #[tactic(auto, unfolding(crate::specs::Values::value_fits))]
    pub fn fits(&self, label_counts: &[usize], kind: Kind) -> bool
        ensures { result ≡ value_fits label_counts.now kind self.now }
    {
        match (kind, self) {
            (Kind::Int, Value::Int(number)) => {
                // Reading it shows the proof that it is of 64 bits.
                let _number = *number;
                true
            }
            (Kind::Text, Value::Text(text)) => text.as_str().len() <= TEXT_LIMIT,
            (Kind::Bool, Value::Bool(_)) => true,
            (Kind::Label(set), Value::Label(of, label)) => {
                *of == set && is_label(label_counts, set, *label)
            }
            (Kind::Interval, Value::Interval(low, high)) => *low <= *high,
            _ => false,
        }
    }
}
