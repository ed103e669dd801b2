//! The text form of patterns: `all`, `and(P, P)`, `or(P, P)`, `not(P)`, `within DIM OPERAND` and the other relations,
//! `is DIM OPERAND`. The assembler reads the patterns of queries here.

use crate::fault::{Slip, StatementFault};
use crate::operands::Operands;
use crate::text_table::relation_of;
use bb_code::{Node, Pattern};
use std::alloc::Global;

/// Reads a pattern of at most `depth` levels, and subtracts its nodes from `room`.
#[cycle(reading)]
pub(crate) fn read_pattern(
    alloc: Global,
    depth: usize,
    room: &mut usize,
    operands: &mut Operands<'_>,
) -> Result<Pattern, StatementFault> {
    if depth == 0 || *room == 0 {
        return Err(StatementFault::Slip(Slip::Limit));
    }
    *room -= 1;
    let name = operands.word()?;
    let node = match name {
        "all" => Node::All,
        "and" => Node::And(read_parts(alloc, depth - 1, room, operands)?),
        "or" => Node::Or(read_parts(alloc, depth - 1, room, operands)?),
        "not" => Node::Not(Box::new(alloc, read_part(alloc, depth - 1, room, operands)?)?),
        _ => read_test(name, operands)?,
    };
    Ok(Pattern::new(node))
}

// Skips a word that must come next.
fn expect(operands: &mut Operands<'_>, word: &str) -> Result<(), StatementFault> {
    if operands.takes(word) {
        Ok(())
    } else {
        Err(StatementFault::Slip(Slip::Pattern))
    }
}

// Reads one pattern in parentheses.
#[cycle(reading)]
fn read_part(
    alloc: Global,
    depth: usize,
    room: &mut usize,
    operands: &mut Operands<'_>,
) -> Result<Pattern, StatementFault> {
    expect(operands, "(")?;
    let part = read_pattern(alloc, depth, room, operands)?;
    expect(operands, ")")?;
    Ok(part)
}

// Reads patterns in parentheses, separated by commas. There may be none.
#[cycle(reading)]
fn read_parts(
    alloc: Global,
    depth: usize,
    room: &mut usize,
    operands: &mut Operands<'_>,
) -> Result<Vec<Pattern>, StatementFault> {
    let mut parts = Vec::new(alloc);
    expect(operands, "(")?;
    if operands.takes(")") {
        return Ok(parts);
    }
    // A node has at most `u8::MAX` parts.
    for _ in 0..=u8::MAX {
        parts.push(read_pattern(alloc, depth, room, operands)?)?;
        if operands.takes(")") {
            return Ok(parts);
        }
        expect(operands, ",")?;
    }
    Err(StatementFault::Slip(Slip::Limit))
}

// Reads the dimension and the operand of a test.
fn read_test(name: &str, operands: &mut Operands<'_>) -> Result<Node, Slip> {
    match relation_of(name) {
        Some(relation) => Ok(Node::Ordered {
            relation,
            dim: operands.number()?,
            operand: operands.number()?,
        }),
        None if name == "is" => Ok(Node::Is {
            dim: operands.number()?,
            operand: operands.number()?,
        }),
        None => Err(Slip::Pattern),
    }
}
