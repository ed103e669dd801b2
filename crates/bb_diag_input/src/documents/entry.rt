//! The entry of a document at a location, and how messages call it: `link "parts" of class "thing"`. The notes on
//! schemas and initial units begin with that.

use crate::write_phrase;
use bb_basis::Memory;
use bb_schema_classes::{DocumentPlace, ListItem, ListKey};
use serde_json::Value;

/// Returns the entry at a location, if the document has one there.
pub(crate) fn entry_at(document: &Value, place: DocumentPlace) -> Option<&Value> {
    match place {
        DocumentPlace::Whole => Some(document),
        DocumentPlace::Entry(item) => item_of(document, item),
        DocumentPlace::Inner(item, inner) => item_of(item_of(document, item)?, inner),
    }
}

fn item_of(value: &Value, item: ListItem) -> Option<&Value> {
    value.get(item.list.key())?.as_array()?.get(item.index)
}

/// Returns the text at a key of an object, if there is one.
pub fn text_at<'a>(value: &'a Value, key: &str) -> Option<&'a str> {
    value.get(key)?.as_str()
}

/// Returns the name that an entry declares: the text at its key `name`, or the entry itself if it is a text.
pub(crate) fn name_of(entry: &Value) -> Option<&str> {
    match entry.as_str() {
        Some(name) => Some(name),
        None => text_at(entry, "name"),
    }
}

/// Returns the list that a location is in.
pub(crate) fn list_of(place: DocumentPlace) -> Option<ListKey> {
    match place {
        DocumentPlace::Whole => None,
        DocumentPlace::Entry(item) => Some(item.list),
        DocumentPlace::Inner(_, item) => Some(item.list),
    }
}

/// Appends a description of the entry at a location of a schema, as in `link "parts" of class "thing"`; nothing if the
/// document has no name there.
pub(crate) fn write_called(
    text: &mut String,
    document: &Value,
    place: DocumentPlace,
) -> Result<(), Memory> {
    match place {
        DocumentPlace::Whole => Ok(()),
        DocumentPlace::Entry(item) => write_item(text, "", document, item),
        DocumentPlace::Inner(item, inner) => {
            if let Some(outer) = item_of(document, item) {
                write_item(text, "", outer, inner)?;
            }
            write_item(text, " of ", document, item)
        }
    }
}

// Appends `front`, and after it the word for an entry, and its name.
fn write_item(text: &mut String, front: &str, value: &Value, item: ListItem) -> Result<(), Memory> {
    match item_of(value, item).and_then(name_of) {
        None => Ok(()),
        Some(name) => {
            text.push_str(front)?;
            write_phrase(text, word_of(item.list), name)
        }
    }
}

// Returns the word for an entry of a list.
fn word_of(list: ListKey) -> &'static str {
    match list {
        ListKey::Labels => "label set",
        ListKey::Values => "label",
        ListKey::Classes => "class",
        ListKey::Slots => "slot",
        ListKey::Links => "link",
        ListKey::Spaces => "space",
        ListKey::Dims => "dimension",
        ListKey::Units => "unit",
    }
}
