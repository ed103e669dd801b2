//! What is wrong at an entry of a schema, with the names there.

use crate::documents::dimension_notes::write_dimension;
use crate::documents::entry::{entry_at, list_of, name_of, text_at, write_called};
use crate::documents::json_notes::{json_of, note_json};
use crate::documents::shape_notes::{Shape, write_shape};
use crate::{Section, write_note, write_phrase, write_quoted};
use bb_basis::{Memory, NAME_LIMIT};
use bb_schema_classes::{DocumentPlace, ListKey, SchemaFault, SchemaFlaw};
use serde_json::Value;
use std::alloc::Global;
use std::fmt::Write;

/// Appends the notes on a schema's fault.
pub fn note_schema(
    alloc: Global,
    text: &mut String,
    fault: SchemaFault,
    schema: Section<'_>,
) -> Result<(), Memory> {
    let SchemaFault::At { flaw, place } = fault else {
        return Ok(());
    };
    if flaw == SchemaFlaw::Json {
        return note_json(alloc, text, schema);
    }
    let Some(document) = json_of(alloc, schema.text)? else {
        return Ok(());
    };
    let mut called = String::new(alloc);
    write_called(&mut called, &document, place)?;
    let mut flawed = String::new(alloc);
    write_flaw(&mut flawed, &document, flaw, place)?;
    write_note(text, called.as_str(), flawed.as_str())
}

// Appends what is wrong with the entry.
fn write_flaw(
    text: &mut String,
    document: &Value,
    flaw: SchemaFlaw,
    place: DocumentPlace,
) -> Result<(), Memory> {
    let Some(entry) = entry_at(document, place) else {
        return Ok(());
    };
    match flaw {
        SchemaFlaw::Json | SchemaFlaw::Limit => Ok(()),
        SchemaFlaw::Dimension => write_dimension(text, document, entry, place),
        SchemaFlaw::Shape => write_shape(text, entry, shape_of(place)),
        SchemaFlaw::Name => match name_of(entry) {
            None => Ok(()),
            Some(name) => {
                write_quoted(text, name)?;
                write_misnamed(text, name)
            }
        },
        SchemaFlaw::Twice => match name_of(entry) {
            None => Ok(()),
            Some(name) => {
                write_quoted(text, name)?;
                text.push_str(" is declared already")
            }
        },
        SchemaFlaw::Unknown => write_unknown(text, document, entry, place),
        SchemaFlaw::Inverse => write_inverse(text, entry),
    }
}

// Appends why a text is not a name.
fn write_misnamed(text: &mut String, name: &str) -> Result<(), Memory> {
    let len = name.len();
    if name.bytes().any(|byte| byte.is_ascii_uppercase()) {
        return text.push_str(" is no name: it has a capital");
    }
    if len > NAME_LIMIT {
        return write!(
            text,
            " is no name: it has {len} bytes, and {NAME_LIMIT} are allowed"
        );
    }
    text.push_str(" is no name")
}

// Returns the form required of an entry at a location of a schema.
fn shape_of(place: DocumentPlace) -> Shape {
    match list_of(place) {
        None => Shape::Schema,
        Some(ListKey::Labels) => Shape::LabelSet,
        Some(ListKey::Classes) => match place {
            DocumentPlace::Inner(_, _) => Shape::Text,
            _ => Shape::Class,
        },
        Some(ListKey::Slots) => Shape::Slot,
        Some(ListKey::Links) => Shape::Link,
        Some(ListKey::Spaces) => Shape::Space,
        Some(ListKey::Dims) => Shape::Dim,
        Some(_) => Shape::Text,
    }
}

// Appends which name is not declared.
fn write_unknown(
    text: &mut String,
    document: &Value,
    entry: &Value,
    place: DocumentPlace,
) -> Result<(), Memory> {
    match list_of(place) {
        Some(ListKey::Slots | ListKey::Dims) => write_unknown_label(text, document, entry),
        Some(ListKey::Links) => write_undeclared(text, "no class", text_at(entry, "to")),
        Some(ListKey::Classes) => match entry.as_str() {
            Some(class) => write_undeclared(text, "no class", Some(class)),
            None => write_unknown_parent(text, entry),
        },
        _ => Ok(()),
    }
}

// Appends that nothing with a name is declared, if there is a name.
fn write_undeclared(text: &mut String, what: &str, name: Option<&str>) -> Result<(), Memory> {
    match name {
        None => Ok(()),
        Some(name) => {
            write_phrase(text, what, name)?;
            text.push_str(" is declared")
        }
    }
}

fn write_unknown_parent(text: &mut String, entry: &Value) -> Result<(), Memory> {
    match text_at(entry, "parent") {
        None => Ok(()),
        Some(parent) => {
            write_phrase(text, "no class", parent)?;
            text.push_str(" is declared before it")
        }
    }
}

// Appends that a label set is not declared, or else that it lacks the label of a default.
fn write_unknown_label(text: &mut String, document: &Value, entry: &Value) -> Result<(), Memory> {
    let Some(set) = text_at(entry, "of") else {
        return Ok(());
    };
    if !declares(document, "labels", set) {
        return write_undeclared(text, "no label set", Some(set));
    }
    match text_at(entry, "default") {
        None => Ok(()),
        Some(label) => {
            write_phrase(text, "label set", set)?;
            write_phrase(text, " has no label", label)
        }
    }
}

// Returns whether a list of a document declares a name.
fn declares(document: &Value, list: &str, name: &str) -> bool {
    match document.get(list).and_then(|value| value.as_array()) {
        None => false,
        Some(entries) => entries
            .iter()
            .any(|entry| text_at(entry, "name") == Some(name)),
    }
}

fn write_inverse(text: &mut String, entry: &Value) -> Result<(), Memory> {
    let (Some(to), Some(inverse)) = (text_at(entry, "to"), text_at(entry, "inverse")) else {
        return Ok(());
    };
    write_phrase(text, "class", to)?;
    write_phrase(text, " has no link", inverse)?;
    text.push_str(" that leads back by this one")?;
    if owns(entry) {
        text.push_str(", is singular and does not own, as this one owns")?;
    }
    Ok(())
}

// Returns whether an entry of a link has `owns`.
fn owns(entry: &Value) -> bool {
    entry
        .get("owns")
        .and_then(|it| it.as_bool())
        .unwrap_or(false)
}
