//! Whether a unit satisfies a pattern. Queries test every candidate.

ghost use Rattle.std.specs.Prelude.{◌≡◌, slice_get};
ghost use Rattle.bb_pattern.specs.Holds.{relates, ordered_holds, is_holds, holds, holds_each, holds_some};
ghost use Rattle.bb_pattern.specs.View.{trees_of};

use crate::pattern::{Node, Pattern, Relation};
use crate::value::DimValue;

impl Relation {
    /// Returns whether a unit's `[low, high]` is in the relation to an operand's `[first, last]`.
    pub fn relates(self, low: i64, high: i64, first: i64, last: i64) -> bool
        ensures { result ≡ relates self low high first last }
    {
        match self {
            Relation::Within => first <= low && high <= last,
            Relation::Covers => low <= first && last <= high,
            Relation::Overlaps => low <= last && first <= high,
            Relation::Less => high < first,
            Relation::More => low > last,
        }
    }

    /// Returns whether the value of a unit on a dimension is in the relation to an operand. It is not if either is
    /// missing or a label.
    pub fn holds(self, value: Option<DimValue>, operand: Option<DimValue>) -> bool
        ensures { result ≡ ordered_holds self value operand }
    {
        match (value, operand) {
            (Some(DimValue::Interval(low, high)), Some(DimValue::Interval(first, last))) => {
                self.relates(low, high, first, last)
            }
            _ => false,
        }
    }
}

// The value at a number, if there is one.
fn value_at(values: &[DimValue], number: u8) -> Option<DimValue>
    ensures { result ≡ slice_get values.now number }
{
    values.get(number as usize).copied()
}

/// Returns whether the value of a unit on a dimension equals an operand, both labels. It does not if either is missing
/// or an interval.
pub fn is_holds(value: Option<DimValue>, operand: Option<DimValue>) -> bool
    ensures { result ≡ is_holds value operand }
{
    match (value, operand) {
        (Some(DimValue::Label(set, label)), Some(DimValue::Label(of, other))) => {
            set == of && label == other
        }
        _ => false,
    }
}

// Whether all of some patterns hold.
#[cycle(holding)]
#[tactic(auto, unfolding(crate::specs::Holds::holds))]
fn holds_each(patterns: &[Pattern], operands: &[DimValue], values: &[DimValue]) -> bool
    ensures { result ≡ holds_each operands.now values.now (trees_of patterns.now) }
{
    for pattern in patterns {
        if !pattern.holds(operands, values) {
            return false;
        }
    }
    true
}

// Whether at least one of some patterns holds.
#[cycle(holding)]
#[tactic(auto, unfolding(crate::specs::Holds::holds))]
fn holds_some(patterns: &[Pattern], operands: &[DimValue], values: &[DimValue]) -> bool
    ensures { result ≡ holds_some operands.now values.now (trees_of patterns.now) }
{
    for pattern in patterns {
        if pattern.holds(operands, values) {
            return true;
        }
    }
    false
}

impl Pattern {
    /// Returns whether the pattern with these operands holds of a unit with these values, one for each dimension in
    /// order. A test does not hold if its dimension or its operand is missing or of another sort.
    #[cycle(holding)]
    #[tactic(auto, unfolding(crate::specs::Holds::holds))]
    pub fn holds(&self, operands: &[DimValue], values: &[DimValue]) -> bool
        ensures { result ≡ holds operands.now values.now self.now }
    {
        match &self.node {
            Node::All => true,
            Node::And(parts) => holds_each(parts.as_slice(), operands, values),
            Node::Or(parts) => holds_some(parts.as_slice(), operands, values),
            Node::Not(part) => !part.holds(operands, values),
            Node::Ordered {
                relation,
                dim,
                operand,
            } => relation.holds(value_at(values, *dim), value_at(operands, *operand)),
            Node::Is { dim, operand } => {
                is_holds(value_at(values, *dim), value_at(operands, *operand))
            }
        }
    }
}
