//! Writes the text of a code. bbasm and the cases call `disassemble`.

use crate::text_table::relation_name;
use crate::writing::{write_kind, write_op};
use bb_code::{Code, FrameEntry, Kind, Node, Op, OperandKind, Pattern, Query, Version};
use serde_json::Value;
use std::alloc::{AllocError, Global};
use std::fmt::Write;

/// Returns the text of a code, one statement a line: the version if it is 2, the number of locals, the texts, the
/// queries, the frames, the loops and the ops. `assemble` makes the same code of it.
pub fn disassemble(alloc: Global, code: &Code) -> Result<String, AllocError> {
    let mut text = String::new(alloc);
    write_tables(alloc, &mut text, code)?;
    write_ops(&mut text, code.ops())?;
    Ok(text)
}

/// Appends all statements except the ops.
pub(crate) fn write_tables(
    alloc: Global,
    text: &mut String,
    code: &Code,
) -> Result<(), AllocError> {
    if code.version() == Version::Two {
        text.push_str("version 2\n")?;
    }
    writeln!(text, "locals {}", code.locals())?;
    for said in code.texts() {
        writeln!(text, "text {}", json_of(alloc, said.as_str())?.as_str())?;
    }
    for query in code.queries() {
        write_query(text, query)?;
    }
    for entry in code.frames() {
        write_frame(text, entry)?;
    }
    for l in code.loops() {
        writeln!(text, "loop {}-{}", l.head, l.end)?;
    }
    Ok(())
}

/// Returns a text as JSON writes it.
pub(crate) fn json_of(alloc: Global, text: &str) -> Result<String, AllocError> {
    Value::String(String::from_str(alloc, text)?).to_string(alloc)
}

fn write_ops(text: &mut String, ops: &[Op]) -> Result<(), AllocError> {
    for op in ops {
        write_op(text, *op)?;
        text.push_str("\n")?;
    }
    Ok(())
}

fn write_query(text: &mut String, query: &Query) -> Result<(), AllocError> {
    write!(text, "query {} {} ", query.class, query.space)?;
    for kind in query.kinds.as_slice() {
        match kind {
            OperandKind::Interval => text.push_str("interval ")?,
            OperandKind::Label(set) => write!(text, "label:{set} ")?,
        }
    }
    text.push_str("where ")?;
    write_pattern(text, &query.pattern)?;
    text.push_str("\n")
}

// Appends a pattern.
#[cycle(writing)]
fn write_pattern(text: &mut String, pattern: &Pattern) -> Result<(), AllocError> {
    match pattern.node() {
        Node::All => text.push_str("all"),
        Node::And(parts) => {
            text.push_str("and")?;
            write_parts(text, parts.as_slice())
        }
        Node::Or(parts) => {
            text.push_str("or")?;
            write_parts(text, parts.as_slice())
        }
        Node::Not(part) => {
            text.push_str("not(")?;
            write_pattern(text, part)?;
            text.push_str(")")
        }
        Node::Ordered {
            relation,
            dim,
            operand,
        } => write!(text, "{} {dim} {operand}", relation_name(*relation)),
        Node::Is { dim, operand } => write!(text, "is {dim} {operand}"),
    }
}

// Appends patterns in parentheses.
#[cycle(writing)]
fn write_parts(text: &mut String, parts: &[Pattern]) -> Result<(), AllocError> {
    text.push_str("(")?;
    for (index, part) in parts.iter().enumerate() {
        if index > 0 {
            text.push_str(", ")?;
        }
        write_pattern(text, part)?;
    }
    text.push_str(")")
}

fn write_frame(text: &mut String, entry: &FrameEntry) -> Result<(), AllocError> {
    write!(text, "frame {}", entry.place)?;
    write_kinds(text, entry.frame.locals.as_slice())?;
    if entry.frame.stack.len() > 0 {
        text.push_str(" /")?;
        write_kinds(text, entry.frame.stack.as_slice())?;
    }
    text.push_str("\n")
}

fn write_kinds(text: &mut String, kinds: &[Kind]) -> Result<(), AllocError> {
    for kind in kinds {
        text.push_str(" ")?;
        write_kind(text, *kind)?;
    }
    Ok(())
}
