//! The values in the locals and on the stack of the machine.

ghost use Rattle.std.specs.Prelude.{◌≡◌, IfOk};
ghost use Rattle.bb_basis.specs.Results.{Gives};
ghost use Rattle.bb_code.specs.Answers.{map_ok};
ghost use Rattle.bb_machine.specs.declared.halt.Halt.TheVariants.{Memory as OutOfMemory};
ghost use Rattle.bb_machine.specs.Value.{int_of, text_of, bool_of, label_of, interval_of, unit_of, sequence_of};
ghost use Rattle.bb_machine.specs.Value.{copy_of, value_from, slot_value_of, said_of};

use crate::halt::Halt;
use crate::outcome::Stuck;
use crate::sequence::Sequence;
use crate::text_ref::TextRef;
use bb_basis::Memory;
use bb_board::Said;
use bb_schema::UnitId;
use bb_schema_classes::{LabelId, LabelSetId, Value as SlotValue};

/// A value, tagged with its kind.
#[derive(Drop)]
pub enum Value<'a> {
    Int(i64),
    Text(TextRef<'a>),
    Bool(bool),
    /// A label of a set.
    Label(LabelSetId, LabelId),
    /// From the first number to the second, which is not smaller.
    Interval(i64, i64),
    /// A unit, deleted or not, or 0.
    Unit(UnitId),
    Seq(Sequence),
}

// The operand does not have the kind that the op needs.
const KIND: Halt = Halt::Stuck(Stuck::Kind);

impl<'a> Value<'a> {
    /// Returns the number. `Kind`: the value is not one, here and below.
    pub fn int(&self) -> Result<i64, Halt>
        ensures { result ≡ int_of self.now }
    {
        match self {
            Value::Int(number) => Ok(*number),
            _ => Err(KIND),
        }
    }

    /// Returns the text.
    pub fn text(&self) -> Result<&str, Halt>
        ensures { map_ok (λ t. t.now) result ≡ text_of self.now }
    {
        match self {
            Value::Text(text) => Ok(text.as_str()),
            _ => Err(KIND),
        }
    }

    /// Returns the truth value.
    pub fn truth(&self) -> Result<bool, Halt>
        ensures { result ≡ bool_of self.now }
    {
        match self {
            Value::Bool(truth) => Ok(*truth),
            _ => Err(KIND),
        }
    }

    /// Returns the set and the number of the label.
    pub fn label(&self) -> Result<(LabelSetId, LabelId), Halt>
        ensures { result ≡ label_of self.now }
    {
        match self {
            Value::Label(set, label) => Ok((*set, *label)),
            _ => Err(KIND),
        }
    }

    /// Returns the ends of the interval.
    pub fn interval(&self) -> Result<(i64, i64), Halt>
        ensures { result ≡ interval_of self.now }
    {
        match self {
            Value::Interval(low, high) => Ok((*low, *high)),
            _ => Err(KIND),
        }
    }

    /// Returns the unit, deleted or not.
    pub fn unit(&self) -> Result<UnitId, Halt>
        ensures { result ≡ unit_of self.now }
    {
        match self {
            Value::Unit(unit) => Ok(*unit),
            _ => Err(KIND),
        }
    }

    /// Returns the sequence.
    pub fn sequence(&self) -> Result<&Sequence, Halt>
        ensures { map_ok (λ q. q.now) result ≡ sequence_of self.now }
    {
        match self {
            Value::Seq(sequence) => Ok(sequence),
            _ => Err(KIND),
        }
    }

    /// Moves the sequence out of the value.
    pub fn into_sequence(self) -> Result<Sequence, Halt>
        ensures { result ≡ sequence_of self.entry }
    {
        match self {
            Value::Seq(sequence) => Ok(sequence),
            _ => Err(KIND),
        }
    }

    /// Returns a copy, which shares a text. `Kind`: the value is a sequence.
    pub fn copy(&self) -> Result<Value<'a>, Halt>
        ensures { Gives OutOfMemory (λ v. v) result (copy_of self.now) }
    {
        Ok(match self {
            Value::Int(number) => Value::Int(*number),
            Value::Text(text) => Value::Text(text.share()?),
            Value::Bool(truth) => Value::Bool(*truth),
            Value::Label(set, label) => Value::Label(*set, *label),
            Value::Interval(low, high) => Value::Interval(*low, *high),
            Value::Unit(unit) => Value::Unit(*unit),
            Value::Seq(_) => return Err(KIND),
        })
    }

    /// Converts the value of a slot.
    pub fn of_slot(held: &SlotValue) -> Result<Value<'a>, Memory>
        ensures { IfOk result (λ v. v ≡ value_from held.now) }
    {
        Ok(match held {
            SlotValue::Int(number) => Value::Int(*number),
            SlotValue::Text(text) => Value::Text(TextRef::shared(text)?),
            SlotValue::Bool(truth) => Value::Bool(*truth),
            SlotValue::Label(set, label) => Value::Label(*set, *label),
            SlotValue::Interval(low, high) => Value::Interval(*low, *high),
        })
    }

    /// Converts the value to one for a slot. `None`: it is a unit or a sequence.
    pub fn to_slot(&self) -> Result<Option<SlotValue>, Memory>
        ensures { IfOk result (λ held. held ≡ slot_value_of self.now) }
    {
        Ok(Some(match self {
            Value::Int(number) => SlotValue::Int(*number),
            Value::Text(text) => SlotValue::Text(text.to_text()?),
            Value::Bool(truth) => SlotValue::Bool(*truth),
            Value::Label(set, label) => SlotValue::Label(*set, *label),
            Value::Interval(low, high) => SlotValue::Interval(*low, *high),
            Value::Unit(_) | Value::Seq(_) => return Ok(None),
        }))
    }

    /// Converts the value to one that can be said. `None`: it is a sequence.
    pub fn to_said(&self) -> Result<Option<Said>, Memory>
        ensures { IfOk result (λ said. said ≡ said_of self.now) }
    {
        if let Value::Unit(unit) = self {
            return Ok(Some(Said::Unit(*unit)));
        }
        match self.to_slot()? {
            Some(held) => Ok(Some(Said::Value(held))),
            None => Ok(None),
        }
    }
}
