//! Variables, atoms and operators: expressions and patterns are built from them.

use bb_basis::Text;

/// A name in an expression: of a unit, or of another value.
pub enum Variable {
    /// `it`: the unit that the source works on.
    It,
    /// `ev`: the unit of the event.
    Ev,
    /// A name that was declared.
    Named(Text),
}

// Written by hand, so that a proof meets one call when it is dropped, not each of its variants.
impl Drop for Variable {
    fn drop(self) {
        match self {
            Variable::It => {}
            Variable::Ev => {}
            Variable::Named(_) => {}
        }
    }
}

/// An expression without parts.
pub enum Atom {
    /// A whole number.
    Int(i64),
    /// A text: the value of the constant, without quotes and escapes.
    Text(Text),
    /// `true` or `false`.
    Bool(bool),
    /// `set: label`.
    Label { set: Text, label: Text },
    /// The unit or value of a name.
    Variable(Variable),
    /// `unit.slot`: the value that a unit has in a slot.
    Slot { unit: Variable, slot: Text },
}

// Written by hand, so that a proof meets one call when it is dropped, not each of its variants.
impl Drop for Atom {
    fn drop(self) {
        match self {
            Atom::Int(_) => {}
            Atom::Text(_) => {}
            Atom::Bool(_) => {}
            Atom::Label { set: _, label: _ } => {}
            Atom::Variable(_) => {}
            Atom::Slot { unit: _, slot: _ } => {}
        }
    }
}

/// An operation on one operand.
#[derive(Clone, Copy, Debug, PartialEq, Eq)]
pub enum Unary {
    /// `not(..)`
    Not,
    /// `low(..)`
    Low,
    /// `high(..)`
    High,
}

/// An operation on two operands.
#[derive(Clone, Copy, Debug, PartialEq, Eq)]
pub enum Binary {
    /// `.. < ..`
    Less,
    /// `.. <= ..`
    AtMost,
    /// `.. = ..`
    Equal,
    /// `min(.., ..)`
    Min,
    /// `max(.., ..)`
    Max,
    /// `[.., ..]`
    Interval,
}

/// An operator between the operands of a chain.
#[derive(Clone, Copy, Debug, PartialEq, Eq)]
pub enum Operator {
    /// `or`
    Or,
    /// `and`
    And,
    /// `+`
    Plus,
    /// `-`
    Minus,
    /// `*`
    Times,
}

/// A division by a constant.
#[derive(Clone, Copy, Debug, PartialEq, Eq)]
pub enum Division {
    /// `/`
    Quotient,
    /// `%`
    Remainder,
}

/// The relation of a test, between a unit's value on a dimension and an operand.
#[derive(Clone, Copy, Debug, PartialEq, Eq)]
pub enum Relation {
    /// `within`
    Within,
    /// `covers`
    Covers,
    /// `overlaps`
    Overlaps,
    /// `less`
    Less,
    /// `more`
    More,
    /// `is`
    Is,
}
