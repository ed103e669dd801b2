//! Whether the parts of a code are within its limits. `Code::new` calls it.

ghost use Rattle.std.specs.Prelude.{◌≡◌, ◌↔◌, ◌≤◌, IsTrue, All, IfSome};
ghost use Rattle.bb_pattern.specs.Fits.{room_after, rooms_after};
ghost use Rattle.bb_pattern.specs.Trees.{node_count};
ghost use Rattle.bb_pattern.specs.View.{trees_of};
ghost use Rattle.bb_code.specs.Code.{InByte, IsText, AreTexts, IsOperandKind, IsTree, AreTrees, IsQuery};
ghost use Rattle.bb_code.specs.Code.{AreQueries, IsKind, IsFrame, AreFrames, IsLoop, AreLoops, IsOp, AreOps, IsCode};

use crate::frame::{FrameEntry, Kind, Loop};
use crate::op::Op;
use crate::parts::{
    CodeParts, FRAME_LIMIT, LOCAL_LIMIT, LOOP_LIMIT, OP_LIMIT, QUERY_LIMIT, SAID_LIMIT,
    STACK_LIMIT, TEXT_BYTES_LIMIT, TEXT_COUNT_LIMIT,
};
use bb_basis::Text;
use bb_pattern::{NODE_LIMIT, Node, OPERAND_LIMIT, OperandKind, Pattern, Query};

/// Returns whether the parts are within the limits of a code.
pub fn are_parts(parts: &CodeParts) -> bool
    ensures { IsTrue result ↔ IsCode parts.now }
{
    if parts.locals < 1 || LOCAL_LIMIT < parts.locals {
        return false;
    }
    are_texts(parts.texts.as_slice())
        && are_queries(parts.queries.as_slice())
        && are_frames(parts.locals, parts.frames.as_slice())
        && are_loops(parts.loops.as_slice())
        && are_ops(parts.ops.as_slice())
}

fn are_texts(texts: &[Text]) -> bool
    ensures { IsTrue result ↔ AreTexts texts.now }
{
    if texts.len() > TEXT_COUNT_LIMIT as usize {
        return false;
    }
    for text in texts {
        if !is_text(text) {
            return false;
        }
    }
    true
}

fn is_text(text: &Text) -> bool
    ensures { IsTrue result ↔ IsText text.now }
{
    text.as_str().len() <= TEXT_BYTES_LIMIT as usize
}

fn are_queries(queries: &[Query]) -> bool
    ensures { IsTrue result ↔ AreQueries queries.now }
{
    if queries.len() > QUERY_LIMIT as usize {
        return false;
    }
    for query in queries {
        if !is_query(query) {
            return false;
        }
    }
    true
}

fn is_query(query: &Query) -> bool
    ensures { IsTrue result ↔ IsQuery query.now }
{
    let (_class, _space) = (query.class, query.space);
    operand_kinds_fit(query.kinds.as_slice());
    query.kinds.len() <= OPERAND_LIMIT && is_pattern(&query.pattern)
}

// The numbers in operand kinds have two bytes.
fn operand_kinds_fit(kinds: &[OperandKind])
    ensures { All IsOperandKind kinds.now }
{
    for kind in kinds {
        operand_kind_fits(*kind);
    }
}

fn operand_kind_fits(kind: OperandKind)
    ensures { IsOperandKind kind }
{
    match kind {
        OperandKind::Interval => {}
        OperandKind::Label(_set) => {}
    }
}

fn is_pattern(pattern: &Pattern) -> bool
    ensures few { IsTrue result ↔ node_count pattern.now ≤ NODE_LIMIT }
    ensures fits { IsTrue result → IsTree pattern.now }
{
    match room_after(pattern, NODE_LIMIT) {
        Some(_) => true,
        None => false,
    }
}

// Subtracts the nodes of the pattern from `room`; `None` if it has more. Goes no deeper than `room`.
#[cycle(room)]
fn room_after(pattern: &Pattern, room: usize) -> Option<usize>
    ensures left { result ≡ room_after room pattern.now }
    ensures fits { IfSome result (λ left. IsTree pattern.now) }
{
    if room == 0 {
        return None;
    }
    match pattern.node() {
        Node::All => Some(room - 1),
        Node::And(parts) => rooms_after(parts.as_slice(), room - 1),
        Node::Or(parts) => rooms_after(parts.as_slice(), room - 1),
        Node::Not(part) => room_after(part, room - 1),
        Node::Ordered { dim, operand, .. } => {
            test_fits(*dim, *operand);
            Some(room - 1)
        }
        Node::Is { dim, operand } => {
            test_fits(*dim, *operand);
            Some(room - 1)
        }
    }
}

// A dimension and an operand have one byte each.
fn test_fits(dim: u8, operand: u8)
    ensures { InByte dim × InByte operand }
{}

// Subtracts the nodes of some patterns from `room`; `None` if they have more.
#[cycle(room)]
fn rooms_after(patterns: &[Pattern], room: usize) -> Option<usize>
    ensures left { result ≡ rooms_after room (trees_of patterns.now) }
    ensures fits { IfSome result (λ left. AreTrees (trees_of patterns.now)) }
{
    let mut left = room;
    for pattern in patterns {
        left = room_after(pattern, left)?;
    }
    Some(left)
}

fn are_frames(locals: u8, frames: &[FrameEntry]) -> bool
    ensures { IsTrue result ↔ AreFrames locals frames.now }
{
    if frames.len() > FRAME_LIMIT as usize {
        return false;
    }
    for frame in frames {
        if !is_frame(locals, frame) {
            return false;
        }
    }
    true
}

fn is_frame(locals: u8, entry: &FrameEntry) -> bool
    ensures { IsTrue result ↔ IsFrame locals entry.now }
{
    let _place = entry.place;
    kinds_fit(entry.frame.locals.as_slice());
    kinds_fit(entry.frame.stack.as_slice());
    entry.frame.locals.len() == locals as usize && entry.frame.stack.len() <= STACK_LIMIT
}

// The numbers in kinds have two bytes.
fn kinds_fit(kinds: &[Kind])
    ensures { All IsKind kinds.now }
{
    for kind in kinds {
        kind_fits(*kind);
    }
}

fn kind_fits(kind: Kind)
    ensures { IsKind kind }
{
    match kind {
        Kind::Label(_set) => {}
        Kind::Ref(_class) => {}
        Kind::Old(_class) => {}
        Kind::Seq(_class) => {}
        _ => {}
    }
}

fn are_loops(loops: &[Loop]) -> bool
    ensures { IsTrue result ↔ AreLoops loops.now }
{
    loops_fit(loops);
    loops.len() <= LOOP_LIMIT as usize
}

// The numbers in loops have two bytes.
fn loops_fit(loops: &[Loop])
    ensures { All IsLoop loops.now }
{
    for l in loops {
        loop_fits(*l);
    }
}

fn loop_fits(l: Loop)
    ensures { IsLoop l }
{}

fn are_ops(ops: &[Op]) -> bool
    ensures { IsTrue result ↔ AreOps ops.now }
{
    if ops.is_empty() || ops.len() > OP_LIMIT as usize {
        return false;
    }
    for op in ops {
        if !is_op(*op) {
            return false;
        }
    }
    true
}

fn is_op(op: Op) -> bool
    ensures { IsTrue result ↔ IsOp op }
{
    match op {
        Op::Divide(_, by) => by >= 1,
        Op::Say(count) => count <= SAID_LIMIT,
        _ => true,
    }
}
