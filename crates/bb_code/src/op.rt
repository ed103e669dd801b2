//! The ops of a code. The verifier checks them and the machine executes them.

use bb_schema::{ClassId, LabelId, LabelSetId, SlotId, SpaceId};

/// The index of an op in its code, from 0.
pub type Place = u16;

/// The number of a local, from 0.
pub type LocalId = u8;

/// A calculation with two numbers. Results saturate at the limits of `i64`.
#[derive(Clone, Copy, Debug, PartialEq, Eq)]
pub enum Calculation {
    Add,
    Sub,
    Mul,
    Min,
    Max,
}

/// The quotient or the remainder of a number by a positive divisor. Quotients are rounded down.
#[derive(Clone, Copy, Debug, PartialEq, Eq)]
pub enum Division {
    DivBy,
    ModBy,
}

/// A comparison of two numbers.
#[derive(Clone, Copy, Debug, PartialEq, Eq)]
pub enum Comparison {
    Lt,
    Le,
    EqInt,
}

/// A combination of two truth values.
#[derive(Clone, Copy, Debug, PartialEq, Eq)]
pub enum Logic {
    And,
    Or,
}

/// An end of an interval.
#[derive(Clone, Copy, Debug, PartialEq, Eq)]
pub enum Bound {
    Low,
    High,
}

/// A change of a link.
#[derive(Clone, Copy, Debug, PartialEq, Eq)]
pub enum LinkChange {
    Link,
    Unlink,
}

/// One step of a code. It pops values from the stack and pushes values to it. After an op that jumps to an index, the
/// op there is next.
#[derive(Clone, Copy, Debug, PartialEq, Eq)]
pub enum Op {
    /// Pushes a number.
    PushInt(i64),
    /// Pushes the text with this index.
    PushText(u16),
    /// Pushes a truth value.
    PushBool(bool),
    /// Pushes a label of a set.
    PushLabel(LabelSetId, LabelId),
    /// Pushes a copy of the value of a local.
    Load(LocalId),
    /// Pops a value into a local.
    Store(LocalId),
    /// Pops a value.
    Pop,
    /// Pops two numbers and pushes the result of a calculation.
    Calculate(Calculation),
    /// Pops a number and pushes its quotient or remainder by a divisor, which is 1 or more.
    Divide(Division, i64),
    /// Pops two numbers and pushes whether a comparison of them holds.
    Compare(Comparison),
    /// Pops two texts and pushes whether they are equal.
    EqText,
    /// Pops two labels of one set and pushes whether they are equal.
    EqLabel,
    /// Pops two units, which may be deleted, and pushes whether their numbers are equal.
    EqUnit,
    /// Pops a truth value and pushes the other one.
    Not,
    /// Pops two truth values and pushes their combination.
    Combine(Logic),
    /// Pops two numbers and pushes the interval between them, the smaller first.
    MakeInterval,
    /// Pops an interval and pushes an end of it.
    BoundOf(Bound),
    /// Pops a unit and pushes the value of an ordinary slot.
    Get(SlotId),
    /// Pops a unit and pushes its partner by a singular link slot, or jumps to the index if it has none.
    One(SlotId, Place),
    /// Pops a unit and pushes the sequence of its partners by a link slot.
    Links(SlotId),
    /// Pops the operands of the query with this index and pushes the sequence of the units that it finds.
    Find(u16),
    /// Pops a sequence and pushes the number of units that were found for it.
    Size,
    /// Pops a unit and pushes it again if it is live, or else jumps to the index.
    Alive(Place),
    /// Pops a unit and pushes it again if its class is this one or descends from it, or else jumps to the index.
    As(ClassId, Place),
    /// Creates a unit of a class and pushes it.
    New(ClassId),
    /// Pops a unit and a value, and sets an ordinary slot of the unit to the value.
    Set(SlotId),
    /// Pops two units and links or unlinks them by a slot of the first.
    Relink(LinkChange, SlotId),
    /// Pops a unit and makes it enter a space.
    Enter(SpaceId),
    /// Pops a unit and makes it leave a space.
    Leave(SpaceId),
    /// Pops a unit and deletes it.
    Delete,
    /// Pops this many values, at most `SAID_LIMIT`, and says them, the deepest first.
    Say(u8),
    /// Jumps to the index.
    Jump(Place),
    /// Pops a truth value, and jumps to the index if it is false.
    Unless(Place),
    /// Pushes the next live unit of the sequence in a local, or jumps to the index if no live unit is left.
    Next(LocalId, Place),
    /// Goes back to the head of a loop.
    Back(Place),
    /// Ends the activation.
    Done,
    /// Pops a number and ends with it as a rating.
    Rate,
    /// Ends without a rating.
    Decline,
    /// Pops a truth value and ends with it as the answer.
    Answer,
}
