//! Names of a schema that are reserved words of the language. The advice on an input begins with them.

use bb_basis::Memory;
use bb_diag_text::{RESERVED, is_reserved};
use bb_schema::{ClassId, LabelId, LabelSetId, Schema, SpaceId};
use std::fmt::Write;

// Ends a warning that began with its entry.
fn write_word(text: &mut String, word: &str, called: &str) -> Result<(), Memory> {
    writeln!(
        text,
        ": \"{word}\" is a reserved word, so a text has no name for this {called}"
    )
}

// Returns the reserved word that is the name of a label set, if it is one.
fn name_of_set(schema: &Schema, set: LabelSetId) -> Option<&'static str> {
    RESERVED
        .split(' ')
        .find(|word| schema.label_set(word) == Some(set))
}

// Appends the label sets and labels whose names are reserved words.
fn write_labels(text: &mut String, schema: &Schema) -> Result<(), Memory> {
    for set in 0..schema.label_set_count() {
        let number = set as LabelSetId;
        if let Some(word) = name_of_set(schema, number) {
            write!(text, "input: warning[reserved]: schema, labels[{set}]")?;
            write_word(text, word, "label set")?;
        }
        for label in 0..=LabelId::MAX {
            let Some(name) = schema.label_name(number, label) else {
                break;
            };
            if is_reserved(name) {
                write!(
                    text,
                    "input: warning[reserved]: schema, labels[{set}].values[{label}]"
                )?;
                write_word(text, name, "label")?;
            }
        }
    }
    Ok(())
}

// Appends the classes whose names are reserved words. The first class is in no document.
fn write_classes(text: &mut String, schema: &Schema) -> Result<(), Memory> {
    for class in 1..schema.class_count() {
        let name = schema.class_name(class as ClassId).unwrap_or("");
        if is_reserved(name) {
            write!(
                text,
                "input: warning[reserved]: schema, classes[{}]",
                class.saturating_sub(1)
            )?;
            write_word(text, name, "class")?;
        }
    }
    Ok(())
}

// Appends the spaces and dimensions whose names are reserved words.
fn write_spaces(text: &mut String, schema: &Schema) -> Result<(), Memory> {
    for space in 0..schema.space_count() {
        let name = schema.space_name(space as SpaceId).unwrap_or("");
        if is_reserved(name) {
            write!(text, "input: warning[reserved]: schema, spaces[{space}]")?;
            write_word(text, name, "space")?;
        }
        for (dim, named) in schema.dims(space as SpaceId).iter().enumerate() {
            if is_reserved(named.name.as_str()) {
                write!(
                    text,
                    "input: warning[reserved]: schema, spaces[{space}].dims[{dim}]"
                )?;
                write_word(text, named.name.as_str(), "dimension")?;
            }
        }
    }
    Ok(())
}

/// Appends the label sets, labels, classes, spaces and dimensions that no text can name, because their names are
/// reserved words. A slot may have any name, since it follows a `.`.
pub(crate) fn write_reserved(text: &mut String, schema: &Schema) -> Result<(), Memory> {
    write_labels(text, schema)?;
    write_classes(text, schema)?;
    write_spaces(text, schema)
}
