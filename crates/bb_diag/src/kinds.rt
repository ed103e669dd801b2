//! Kinds of values in words, with the names of the schema. The notes on codes use them.

use bb_basis::Memory;
use bb_code::Kind as FrameKind;
use bb_schema::Schema;
use bb_schema_classes::ClassId;
use std::fmt::Write;

/// Appends the kind of a frame's entry, with names: `Old(box)`. A class that the schema lacks stays a number.
pub(crate) fn write_kind(
    text: &mut String,
    schema: &Schema,
    kind: FrameKind,
) -> Result<(), Memory> {
    match kind {
        FrameKind::Any => text.push_str("Any"),
        FrameKind::Int => text.push_str("Int"),
        FrameKind::Text => text.push_str("Text"),
        FrameKind::Bool => text.push_str("Bool"),
        FrameKind::Interval => text.push_str("Interval"),
        FrameKind::Label(set) => write!(text, "Label({set})"),
        FrameKind::Ref(class) => write_of_class(text, "Ref(", schema, class),
        FrameKind::Old(class) => write_of_class(text, "Old(", schema, class),
        FrameKind::Seq(class) => write_of_class(text, "Seq(", schema, class),
    }
}

fn write_of_class(
    text: &mut String,
    front: &str,
    schema: &Schema,
    class: ClassId,
) -> Result<(), Memory> {
    text.push_str(front)?;
    write_class(text, schema, class)?;
    text.push_str(")")
}

// Appends the name of a class.
fn write_class(text: &mut String, schema: &Schema, class: ClassId) -> Result<(), Memory> {
    match schema.class_name(class) {
        None => write!(text, "{class}"),
        Some(name) => text.push_str(name),
    }
}
