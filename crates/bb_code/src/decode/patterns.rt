//! Queries and their patterns at the start of bytes. `decode` calls it.

ghost use Rattle.std.specs.Prelude.{map};
ghost use Rattle.bb_basis.specs.Results.{Gives};
ghost use Rattle.bb_pattern.specs.View.{tree_of};
ghost use Rattle.bb_code.specs.Answers.{map_ok};
ghost use Rattle.bb_code.specs.Patterns.{parts_at, node_after, node_at, pattern_at};

use super::fields::{Field, read_byte, read_number, read_short_list};
use crate::fault::CodeFault;
use crate::table::{NodeForm, node_form};
use crate::{NODE_LIMIT, Node, OPERAND_LIMIT, OperandKind, Pattern, Query};
use std::alloc::Global;

impl Field for OperandKind {
    ghost use Rattle.bb_code.specs.Patterns.{operand_kind_at};

    ghost at = { operand_kind_at };

    #[tactic(auto, unfolding(crate::specs::Patterns::operand_kind_at))]
    fn read(_alloc: Global, bytes: &[u8]) -> Result<(OperandKind, &[u8]), CodeFault> {
        let (tag, rest) = read_byte(bytes)?;
        match tag {
            0 => Ok((OperandKind::Interval, rest)),
            1 => {
                let (set, rest) = read_number(rest)?;
                Ok((OperandKind::Label(set), rest))
            }
            _ => Err(CodeFault::Operand),
        }
    }
}

impl Field for Query {
    ghost use Rattle.bb_code.specs.Patterns.{query_at};

    ghost at = { query_at };

    #[tactic(auto, unfolding(crate::specs::Patterns::query_at))]
    fn read(alloc: Global, bytes: &[u8]) -> Result<(Query, &[u8]), CodeFault> {
        let (class, rest) = read_number(bytes)?;
        let (space, rest) = read_number(rest)?;
        let (kinds, rest) = read_short_list(alloc, rest, OPERAND_LIMIT)?;
        let (pattern, _, rest) = read_pattern(alloc, NODE_LIMIT, NODE_LIMIT, rest)?;
        Ok((
            Query {
                class,
                space,
                kinds,
                pattern,
            },
            rest,
        ))
    }
}

// Reads a pattern of at most `depth` levels and `room` nodes, and returns the number of nodes left of `room`.
#[cycle(reading)]
fn read_pattern(
    alloc: Global,
    depth: usize,
    room: usize,
    bytes: &[u8],
) -> Result<(Pattern, usize, &[u8]), CodeFault>
    ensures { Gives CodeFault.Memory (λ x. (x.0, (x.1, x.2.now))) result (pattern_at depth (room, bytes.now)) }
{
    if depth == 0 || room == 0 {
        return Err(CodeFault::Limit);
    }
    read_tagged(alloc, depth - 1, room - 1, bytes)
}

// Reads a node whose parts have at most `depth` levels.
#[cycle(reading)]
#[tactic(auto, unfolding(crate::specs::Patterns::node_at))]
fn read_tagged(
    alloc: Global,
    depth: usize,
    room: usize,
    bytes: &[u8],
) -> Result<(Pattern, usize, &[u8]), CodeFault>
    ensures { Gives CodeFault.Memory (λ x. (x.0, (x.1, x.2.now))) result
        (node_at (pattern_at depth) (room, bytes.now)) }
{
    let (tag, rest) = read_byte(bytes)?;
    let form = node_form(tag).ok_or(CodeFault::Operand)?;
    let (node, room, rest) = read_node(alloc, depth, form, room, rest)?;
    Ok((Pattern::new(node), room, rest))
}

// Reads what follows the byte of a node.
#[cycle(reading)]
#[tactic(auto, unfolding(crate::specs::Patterns::node_after, crate::specs::Patterns::test_at))]
fn read_node(
    alloc: Global,
    depth: usize,
    form: NodeForm,
    room: usize,
    bytes: &[u8],
) -> Result<(Node, usize, &[u8]), CodeFault>
    ensures { Gives CodeFault.Memory (λ x. (tree_of x.0, (x.1, x.2.now))) result
        (node_after (pattern_at depth) form (room, bytes.now)) }
{
    match form {
        NodeForm::All => Ok((Node::All, room, bytes)),
        NodeForm::And => {
            let (parts, room, rest) = read_parts(alloc, depth, room, bytes)?;
            Ok((Node::And(parts), room, rest))
        }
        NodeForm::Or => {
            let (parts, room, rest) = read_parts(alloc, depth, room, bytes)?;
            Ok((Node::Or(parts), room, rest))
        }
        NodeForm::Not => {
            let (part, room, rest) = read_pattern(alloc, depth, room, bytes)?;
            Ok((Node::Not(Box::new(alloc, part)?), room, rest))
        }
        NodeForm::Ordered(relation) => {
            let (dim, rest) = read_byte(bytes)?;
            let (operand, rest) = read_byte(rest)?;
            Ok((
                Node::Ordered {
                    relation,
                    dim,
                    operand,
                },
                room,
                rest,
            ))
        }
        NodeForm::Is => {
            let (dim, rest) = read_byte(bytes)?;
            let (operand, rest) = read_byte(rest)?;
            Ok((Node::Is { dim, operand }, room, rest))
        }
    }
}

// Reads the number of parts of a node, and then the parts, which have at most `depth` levels.
#[cycle(reading)]
#[tactic(auto, unfolding(crate::specs::Patterns::parts_at))]
fn read_parts(
    alloc: Global,
    depth: usize,
    room: usize,
    bytes: &[u8],
) -> Result<(Vec<Pattern>, usize, &[u8]), CodeFault>
    ensures { Gives CodeFault.Memory (λ x. (x.0.items, (x.1, x.2.now))) result
        (parts_at (pattern_at depth) (room, bytes.now)) }
{
    let (count, mut rest) = read_byte(bytes)?;
    let mut left = room;
    let mut parts = Vec::new(alloc);
    for _ in 0..count {
        let (part, room, after) = read_pattern(alloc, depth, left, rest)?;
        parts.push(part)?;
        left = room;
        rest = after;
    }
    Ok((parts, left, rest))
}
