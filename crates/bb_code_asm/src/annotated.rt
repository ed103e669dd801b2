//! A code's text with a comment after each op: its index, its byte, and the names of what its numbers refer to. bbasm
//! prints it.

use crate::text::{json_of, write_tables};
use crate::writing::write_op;
use bb_code::{Code, Op, Query, Schema};
use std::alloc::{AllocError, Global};
use std::fmt::Write;

/// Returns the text of a code, which `assemble` reads like any other. A comment after each op has its index and the
/// index of its first byte in the code, both from 0, and a text's characters; with a schema also the names of slots,
/// classes, spaces and labels.
pub fn listing(alloc: Global, code: &Code, schema: Option<&Schema>) -> Result<String, AllocError> {
    let mut text = String::new(alloc);
    write_tables(alloc, &mut text, code)?;
    let mut byte = code
        .encode(alloc)?
        .len()
        .saturating_sub(bytes_of_all(code.ops()));
    for (place, op) in code.ops().iter().enumerate() {
        let mut line = String::new(alloc);
        write_op(&mut line, *op)?;
        write!(text, "{:<24} # {place:>4} {byte:>6}", line.as_str())?;
        write_names(alloc, &mut text, code, schema, *op)?;
        text.push_str("\n")?;
        byte = byte.saturating_add(bytes_of(*op));
    }
    Ok(text)
}

// The number of bytes that spell an op.
fn bytes_of(op: Op) -> usize {
    match op {
        Op::PushInt(_) | Op::Divide(_, _) => 9,
        Op::One(_, _) | Op::As(_, _) => 5,
        Op::PushLabel(_, _) | Op::Next(_, _) => 4,
        Op::PushText(_) | Op::Get(_) | Op::Links(_) | Op::Find(_) | Op::Alive(_) => 3,
        Op::New(_) | Op::Set(_) | Op::Relink(_, _) | Op::Enter(_) | Op::Leave(_) => 3,
        Op::Jump(_) | Op::Unless(_) | Op::Back(_) => 3,
        Op::PushBool(_) | Op::Load(_) | Op::Store(_) | Op::Say(_) => 2,
        _ => 1,
    }
}

fn bytes_of_all(ops: &[Op]) -> usize {
    let mut count = 0usize;
    for op in ops {
        count = count.saturating_add(bytes_of(*op));
    }
    count
}

// Appends the names of what an op refers to.
fn write_names(
    alloc: Global,
    text: &mut String,
    code: &Code,
    schema: Option<&Schema>,
    op: Op,
) -> Result<(), AllocError> {
    if let Op::PushText(index) = op {
        if let Some(said) = code.texts().get(usize::from(index)) {
            write!(text, "  {}", json_of(alloc, said.as_str())?.as_str())?;
        }
    }
    let Some(schema) = schema else {
        return Ok(());
    };
    if let Op::Find(index) = op {
        if let Some(query) = code.queries().get(usize::from(index)) {
            write_query_names(text, schema, query)?;
        }
    }
    match name_of(schema, op) {
        Some(name) => write!(text, "  {name}"),
        None => Ok(()),
    }
}

// Appends the class and the space of a query.
fn write_query_names(text: &mut String, schema: &Schema, query: &Query) -> Result<(), AllocError> {
    let class = schema.class_name(query.class).unwrap_or("?");
    let space = schema.space_name(query.space).unwrap_or("?");
    write!(text, "  {class} on {space}")
}

// The name of the slot, class, space or label of an op.
fn name_of(schema: &Schema, op: Op) -> Option<&str> {
    match op {
        Op::PushLabel(set, label) => schema.label_name(set, label),
        Op::Get(slot) | Op::Set(slot) | Op::One(slot, _) | Op::Links(slot) => schema.slot_name(
            slot,
        ),
        Op::Relink(_, slot) => schema.slot_name(slot),
        Op::As(class, _) | Op::New(class) => schema.class_name(class),
        Op::Enter(space) | Op::Leave(space) => schema.space_name(space),
        _ => None,
    }
}
