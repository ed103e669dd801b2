//! What a slot holds, in words, with the names of the schema. The notes on initial units use it.

use bb_basis::Memory;
use bb_schema::Schema;
use bb_schema_classes::{ClassId, Kind, LabelSetId, SlotId};
use std::fmt::Write;

/// Appends what a slot holds.
pub(crate) fn write_slot_kind(
    text: &mut String,
    schema: &Schema,
    slot: SlotId,
) -> Result<(), Memory> {
    if slot as usize >= schema.slot_count() {
        return Ok(());
    }
    match schema.kind(slot) {
        Kind::Int => text.push_str("a whole number of 64 bits"),
        Kind::Text => text.push_str("a text of at most 65,535 bytes"),
        Kind::Bool => text.push_str("`true` or `false`"),
        Kind::Label(set) => write_labels(text, schema, set),
        Kind::Interval => text.push_str("a list of two whole numbers, the lesser first"),
        Kind::Link(link) => {
            text.push_str("a link to ")?;
            write_class(text, schema, link.to)
        }
    }
}

// Appends the name of a class.
fn write_class(text: &mut String, schema: &Schema, class: ClassId) -> Result<(), Memory> {
    match schema.class_name(class) {
        None => write!(text, "{class}"),
        Some(name) => text.push_str(name),
    }
}

// Appends that a value is a label of a set, with the set's first label as an example.
fn write_labels(text: &mut String, schema: &Schema, set: LabelSetId) -> Result<(), Memory> {
    text.push_str("a label of its set")?;
    match schema.label_name(set, 0) {
        None => Ok(()),
        Some(first) => write!(text, ", as \"{first}\""),
    }
}
