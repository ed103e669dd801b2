//! Which class of a space has no slot that fits a dimension, and why. The notes on schemas call it.

use crate::documents::entry::{entry_at, text_at};
use crate::write_phrase;
use bb_basis::Memory;
use bb_schema_classes::DocumentPlace;
use serde_json::Value;

// Returns the entry of a list of a document that declares a name.
fn declared<'a>(document: &'a Value, list: &str, name: &str) -> Option<&'a Value> {
    document
        .get(list)?
        .as_array()?
        .iter()
        .find(|entry| text_at(entry, "name") == Some(name))
}

// Returns the number of classes that a document declares.
fn class_count(document: &Value) -> usize {
    match document.get("classes").and_then(|value| value.as_array()) {
        None => 0,
        Some(classes) => classes.len(),
    }
}

// Returns the slot with a name of a class or an ancestor.
fn slot_of<'a>(document: &'a Value, class: &str, name: &str) -> Option<&'a Value> {
    let mut entry = declared(document, "classes", class)?;
    for _turn in 0..class_count(document) {
        if let Some(slot) = declared(entry, "slots", name) {
            return Some(slot);
        }
        entry = declared(document, "classes", text_at(entry, "parent")?)?;
    }
    None
}

// Returns whether a slot fits a dimension, which has the labels of a set or is ordered.
fn fits(slot: &Value, set: Option<&str>) -> bool {
    match set {
        None => matches!(text_at(slot, "kind"), Some("int" | "interval")),
        Some(_) => text_at(slot, "kind") == Some("label") && text_at(slot, "of") == set,
    }
}

/// Appends the first class of a dimension's space without a slot that fits the dimension.
pub(crate) fn write_dimension(
    text: &mut String,
    document: &Value,
    dim: &Value,
    place: DocumentPlace,
) -> Result<(), Memory> {
    let DocumentPlace::Inner(space, _) = place else {
        return Ok(());
    };
    let Some(space) = entry_at(document, DocumentPlace::Entry(space)) else {
        return Ok(());
    };
    let (Some(name), Some(classes)) = (
        text_at(dim, "name"),
        space.get("classes").and_then(|value| value.as_array()),
    ) else {
        return Ok(());
    };
    for class in classes {
        let class = class.as_str().unwrap_or("");
        let slot = slot_of(document, class, name);
        if !slot.is_some_and(|slot| fits(slot, text_at(dim, "of"))) {
            return write_misfit(text, class, name, slot, text_at(dim, "of"));
        }
    }
    Ok(())
}

// Appends that a class has no slot with a dimension's name, or that the slot has another kind.
fn write_misfit(
    text: &mut String,
    class: &str,
    name: &str,
    slot: Option<&Value>,
    set: Option<&str>,
) -> Result<(), Memory> {
    let Some(slot) = slot else {
        write_phrase(text, "class", class)?;
        return write_phrase(text, " has no ordinary slot", name);
    };
    write_phrase(text, "slot", name)?;
    write_phrase(text, " of class", class)?;
    text.push_str(" is of kind `")?;
    text.push_str(text_at(slot, "kind").unwrap_or(""))?;
    text.push_str("`, and ")?;
    match set {
        None => text.push_str("an ordered dimension reads `int` or `interval`"),
        Some(set) => write_phrase(text, "this dimension reads a label of set", set),
    }
}
