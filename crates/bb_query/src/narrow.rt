//! The tests that an `and` pattern consists of, and whether a pattern holds of everything. `near.rt` uses both.

ghost use Rattle.std.specs.Prelude.{◌≡◌, IfOk, IfSome, IsTrue, slice_get};
ghost use Rattle.bb_pattern.specs.Holds.{ordered_holds, is_holds, holds, holds_each};
ghost use Rattle.bb_pattern.specs.View.{trees_of};
ghost use Rattle.bb_query.specs.proving.Tests.{Asks, AskNoMore, HoldsOfAll};

use bb_basis::Memory;
use bb_pattern::{DimValue, Node, Pattern, Relation};
use bb_space::Leaf;
use std::alloc::Global;

// The operand with a number, if there is one.
fn operand_at(operands: &[DimValue], number: u8) -> Option<DimValue>
    ensures { result ≡ slice_get operands.now number }
{
    Some(*operands.get(number as usize)?)
}

// The test of an ordered dimension, if its operand is an interval.
fn interval_test(relation: Relation, dim: u8, operand: Option<DimValue>) -> Option<Leaf>
    ensures { IfSome result (Asks (λ values. ordered_holds relation (slice_get values dim) operand)) }
{
    match operand {
        Some(DimValue::Interval(low, high)) => Some(Leaf::Ordered {
            relation,
            dim,
            low,
            high,
        }),
        _ => None,
    }
}

// The test of an enumerated dimension, if its operand is a label.
fn label_test(dim: u8, operand: Option<DimValue>) -> Option<Leaf>
    ensures { IfSome result (Asks (λ values. is_holds (slice_get values dim) operand)) }
{
    match operand {
        Some(DimValue::Label(set, label)) => Some(Leaf::Is { dim, set, label }),
        _ => None,
    }
}

/// Returns the test that a pattern is, if it is one and has an operand of the right sort.
pub(crate) fn test_of(pattern: &Pattern, operands: &[DimValue]) -> Option<Leaf>
    ensures { IfSome result (Asks (λ values. holds operands.now values pattern.now)) }
{
    match pattern.node() {
        Node::Ordered {
            relation,
            dim,
            operand,
        } => interval_test(*relation, *dim, operand_at(operands, *operand)),
        Node::Is { dim, operand } => label_test(*dim, operand_at(operands, *operand)),
        _ => None,
    }
}

// The tests among some patterns.
fn tests_among(
    alloc: Global,
    patterns: &[Pattern],
    operands: &[DimValue],
) -> Result<Vec<Leaf>, Memory>
    ensures { IfOk result (λ tests.
        AskNoMore (λ values. holds_each operands.now values (trees_of patterns.now)) tests.items) }
{
    let mut tests = Vec::new(alloc);
    for pattern in patterns {
        let Some(test) = test_of(pattern, operands) else {
            continue;
        };
        tests.push(test)?;
    }
    Ok(tests)
}

/// Returns the tests among the parts of a pattern that is an `and`.
pub(crate) fn tests_of(
    alloc: Global,
    pattern: &Pattern,
    operands: &[DimValue],
) -> Result<Vec<Leaf>, Memory>
    ensures { IfOk result (λ tests. AskNoMore (λ values. holds operands.now values pattern.now) tests.items) }
{
    match pattern.node() {
        Node::And(parts) => tests_among(alloc, parts.as_slice(), operands),
        _ => Ok(Vec::new(alloc)),
    }
}

/// Returns whether a pattern holds of everything: it is `all`, or an `and` without parts.
pub(crate) fn is_all(pattern: &Pattern) -> bool
    ensures { IsTrue result → HoldsOfAll pattern.now }
{
    match pattern.node() {
        Node::All => true,
        Node::And(parts) => parts.as_slice().is_empty(),
        _ => false,
    }
}
