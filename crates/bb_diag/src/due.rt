//! What an op needs on the stack, in words, with the names of the schema. The notes on codes show it next to the stack.

use crate::kinds::write_kind;
use bb_basis::Memory;
use bb_code::{Code, Kind, Op, OperandKind};
use bb_schema::{Schema, SpaceId};
use bb_schema_classes::{Kind as SlotKind, SlotId};
use std::fmt::Write;

/// Appends what an op needs on the stack, the deepest first; nothing if it needs nothing.
pub(crate) fn write_due(
    text: &mut String,
    schema: &Schema,
    code: &Code,
    op: Op,
) -> Result<(), Memory> {
    match op {
        Op::Find(query) => write_operands(text, schema, code, query as usize),
        Op::Get(slot) => write_unit_with(text, schema, slot),
        Op::One(slot, _) => write_unit_with(text, schema, slot),
        Op::Links(slot) => write_unit_with(text, schema, slot),
        Op::Set(slot) => {
            write_unit_with(text, schema, slot)?;
            text.push_str(", ")?;
            write_value(text, schema, slot)
        }
        Op::Relink(_, slot) => {
            write_unit_with(text, schema, slot)?;
            text.push_str(", ")?;
            write_value(text, schema, slot)
        }
        Op::Enter(space) => write_unit_in(text, schema, space),
        Op::Say(count) => write!(text, "{count} of any kind but Seq"),
        plain => text.push_str(plain_due(plain)),
    }
}

// Returns what an op needs if neither the schema nor the code is needed to say it.
fn plain_due(op: Op) -> &'static str {
    match op {
        Op::Store(_) | Op::Pop => "anything",
        Op::Calculate(_) | Op::Compare(_) | Op::MakeInterval => "Int, Int",
        Op::Divide(_, _) | Op::Rate => "Int",
        Op::EqText => "Text, Text",
        Op::EqLabel => "two labels of one set",
        Op::EqUnit => "two units, Ref or Old",
        Op::Not | Op::Unless(_) | Op::Answer => "Bool",
        Op::Combine(_) => "Bool, Bool",
        Op::BoundOf(_) => "Interval",
        Op::Size => "Seq",
        Op::Alive(_) => "a unit, Ref or Old",
        Op::As(_, _) | Op::Leave(_) | Op::Delete => "a live unit (Ref)",
        _ => "",
    }
}

// Appends a live unit that has a slot.
fn write_unit_with(text: &mut String, schema: &Schema, slot: SlotId) -> Result<(), Memory> {
    match schema.slot_name(slot) {
        None => text.push_str("a live unit (Ref)"),
        Some(name) => write!(text, "a live unit (Ref) with slot {name}"),
    }
}

// Appends the value of an ordinary slot, or a unit of a link slot's target class.
fn write_value(text: &mut String, schema: &Schema, slot: SlotId) -> Result<(), Memory> {
    if slot as usize >= schema.slot_count() {
        return text.push_str("a value");
    }
    match schema.kind(slot) {
        SlotKind::Int => text.push_str("Int"),
        SlotKind::Text => text.push_str("Text"),
        SlotKind::Bool => text.push_str("Bool"),
        SlotKind::Label(set) => write_kind(text, schema, Kind::Label(set)),
        SlotKind::Interval => text.push_str("Interval"),
        SlotKind::Link(link) => write_kind(text, schema, Kind::Ref(link.to)),
    }
}

// Appends a unit that a space admits.
fn write_unit_in(text: &mut String, schema: &Schema, space: SpaceId) -> Result<(), Memory> {
    match schema.space_name(space) {
        None => text.push_str("a live unit (Ref)"),
        Some(name) => write!(text, "a live unit (Ref) of a class of space {name}"),
    }
}

// Appends the operands of a query.
fn write_operands(
    text: &mut String,
    schema: &Schema,
    code: &Code,
    query: usize,
) -> Result<(), Memory> {
    let Some(query) = code.queries().get(query) else {
        return Ok(());
    };
    for (index, kind) in query.kinds.as_slice().iter().enumerate() {
        if index > 0 {
            text.push_str(", ")?;
        }
        match kind {
            OperandKind::Interval => text.push_str("Interval")?,
            OperandKind::Label(set) => write_kind(text, schema, Kind::Label(*set))?,
        }
    }
    Ok(())
}
