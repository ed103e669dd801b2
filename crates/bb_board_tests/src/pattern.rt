//! Tests of patterns and queries whose results no code shows: which fault they have, and what does not exist.

use bb_basis::{Items, Text};
use bb_pattern::{DimValue, Node, OperandKind, Pattern, Query, Relation};
use bb_schema::{ClassId, Schema, SpaceId, Value};
use std::alloc::Global;
use std::test::Fail;

// Space 0, `board`, has the dimensions `pos`, an ordered one, and `hue`, an enumerated one; space 1, `desk`, has none.
const SCHEMA: &str =
    r#"{"labels":[{"name":"hue","values":["red","green"]},{"name":"size","values":["big"]}],
"classes":[{"name":"thing","slots":[{"name":"pos","kind":"interval"},
{"name":"hue","kind":"label","of":"hue"}]}],
"spaces":[{"name":"board","classes":["thing"],"dims":[{"name":"pos","kind":"ordered"},
{"name":"hue","kind":"label","of":"hue"}]},{"name":"desk","classes":["thing"],"dims":[]}]}"#;

const THING: ClassId = 1;

const BOARD: SpaceId = 0;

const KINDS: [OperandKind; 3] = [
    OperandKind::Interval,
    OperandKind::Label(0),
    OperandKind::Label(1),
];

pub(crate) fn ordered(relation: Relation, dim: u8, operand: u8) -> Pattern {
    Pattern::new(Node::Ordered {
        relation,
        dim,
        operand,
    })
}

pub(crate) fn is(dim: u8, operand: u8) -> Pattern {
    Pattern::new(Node::Is { dim, operand })
}

pub(crate) fn not(alloc: Global, pattern: Pattern) -> Result<Pattern, Fail> {
    Ok(Pattern::new(Node::Not(Box::new(alloc, pattern)?)))
}

// `not`, `count` times, around `all`.
fn nots(alloc: Global, count: usize) -> Result<Pattern, Fail> {
    let mut pattern = Pattern::new(Node::All);
    for _ in 0..count {
        pattern = not(alloc, pattern)?;
    }
    Ok(pattern)
}

// The number of the fault of a pattern for things on the board, or 0.
fn fault(alloc: Global, pattern: Pattern) -> Result<u8, Fail> {
    let schema = Schema::read(alloc, SCHEMA)?;
    match pattern.fits(&schema, THING, BOARD, &KINDS) {
        Ok(()) => Ok(0),
        Err(fault) => Ok(fault.number()),
    }
}

// The number of the fault of `all` for a class in a space with `kinds` operands, or 0.
fn query_fault(alloc: Global, class: ClassId, space: SpaceId, kinds: usize) -> Result<u8, Fail> {
    let schema = Schema::read(alloc, SCHEMA)?;
    let mut operands = Items::new(alloc);
    for _ in 0..kinds {
        operands.push(OperandKind::Interval)?;
    }
    let query = Query {
        class,
        space,
        kinds: operands,
        pattern: is(7, 7),
    };
    match query.fits(&schema) {
        Ok(()) => Ok(0),
        Err(fault) => Ok(fault.number()),
    }
}

#[test]
fn values_and_what_is_missing(rt: HostRuntime) -> Result<(), Fail> {
    let operands = [DimValue::Interval(0, 9), DimValue::Label(0, 1)];
    let values = [DimValue::Interval(1, 3), DimValue::Label(0, 1)];
    assert!(rt; !ordered(Relation::Within, 2, 0).holds(&operands, &values));
    assert!(rt; !ordered(Relation::Within, 0, 2).holds(&operands, &values));
    assert!(rt; !ordered(Relation::Within, 1, 0).holds(&operands, &values));
    assert!(rt; !is(0, 0).holds(&operands, &values));
    assert!(rt; is(1, 1).holds(&operands, &values));
    assert!(rt; !is(1, 0).holds(&operands, &values));
    assert_eq!(rt;
        DimValue::of(&Value::Int(-7)),
        Some(DimValue::Interval(-7, -7))
    );
    assert_eq!(rt;
        DimValue::of(&Value::Interval(1, 3)),
        Some(DimValue::Interval(1, 3))
    );
    assert_eq!(rt;
        DimValue::of(&Value::Label(0, 1)),
        Some(DimValue::Label(0, 1))
    );
    assert_eq!(rt; DimValue::of(&Value::Bool(true)), None);
    let text = Value::Text(Text::from_str(rt.alloc(), "red")?);
    assert_eq!(rt; DimValue::of(&text), None);
    assert_eq!(rt; DimValue::Label(1, 0).kind(), OperandKind::Label(1));
    assert_eq!(rt; DimValue::Interval(0, 0).kind(), OperandKind::Interval);
    Ok(())
}

#[test]
fn nodes(rt: HostRuntime) -> Result<(), Fail> {
    assert_eq!(rt; fault(rt.alloc(), nots(rt.alloc(), 63)?)?, 0);
    assert_eq!(rt; fault(rt.alloc(), nots(rt.alloc(), 64)?)?, 4);
    // The pattern is judged without going deeper than the limit.
    assert_eq!(rt; fault(rt.alloc(), nots(rt.alloc(), 10_000)?)?, 4);
    // 31 nodes, 32, and the node above them.
    let mut parts = Vec::new(rt.alloc());
    parts.push(nots(rt.alloc(), 30)?)?;
    parts.push(nots(rt.alloc(), 31)?)?;
    assert_eq!(rt; fault(rt.alloc(), Pattern::new(Node::Or(parts)))?, 0);
    // One node more.
    let mut parts = Vec::new(rt.alloc());
    parts.push(nots(rt.alloc(), 31)?)?;
    parts.push(nots(rt.alloc(), 31)?)?;
    assert_eq!(rt; fault(rt.alloc(), Pattern::new(Node::Or(parts)))?, 4);
    Ok(())
}

#[test]
fn faults(rt: HostRuntime) -> Result<(), Fail> {
    assert_eq!(rt; fault(rt.alloc(), ordered(Relation::More, 0, 0))?, 0);
    assert_eq!(rt; fault(rt.alloc(), ordered(Relation::More, 1, 9))?, 1);
    assert_eq!(rt; fault(rt.alloc(), ordered(Relation::More, 2, 9))?, 1);
    assert_eq!(rt; fault(rt.alloc(), ordered(Relation::More, 0, 1))?, 2);
    assert_eq!(rt; fault(rt.alloc(), ordered(Relation::More, 0, 3))?, 2);
    assert_eq!(rt; fault(rt.alloc(), is(1, 1))?, 0);
    assert_eq!(rt; fault(rt.alloc(), is(0, 9))?, 1);
    assert_eq!(rt; fault(rt.alloc(), is(1, 0))?, 2);
    assert_eq!(rt; fault(rt.alloc(), is(1, 2))?, 2);
    assert_eq!(rt; fault(rt.alloc(), is(1, 3))?, 2);
    // The parts of a node come after it, from the front.
    let parts = vec![in rt.alloc(); not(rt.alloc(), is(1, 0))?, is(0, 0)]?;
    assert_eq!(rt; fault(rt.alloc(), Pattern::new(Node::And(parts)))?, 2);
    let parts = vec![in rt.alloc(); not(rt.alloc(), is(0, 0))?, is(1, 0)]?;
    assert_eq!(rt; fault(rt.alloc(), Pattern::new(Node::And(parts)))?, 1);
    // The class and the space come first, and then the number of operands.
    assert_eq!(rt; query_fault(rt.alloc(), THING, 2, 17)?, 3);
    assert_eq!(rt; query_fault(rt.alloc(), 2, BOARD, 17)?, 3);
    assert_eq!(rt; query_fault(rt.alloc(), THING, BOARD, 17)?, 4);
    assert_eq!(rt; query_fault(rt.alloc(), THING, BOARD, 16)?, 1);
    Ok(())
}
