//! What is wrong with the form of an entry: a key that is unknown or missing, or a value of the wrong form. The notes
//! on both documents call it.

use crate::{write_phrase, write_quoted};
use bb_basis::Memory;
use serde_json::Value;

/// The required form of an entry.
#[derive(Clone, Copy, Debug, PartialEq, Eq)]
pub(crate) enum Shape {
    Schema,
    LabelSet,
    Class,
    Slot,
    Link,
    Space,
    Dim,
    Units,
    Unit,
    /// The names of an initial unit, a link slot and an initial unit.
    FirstLink,
    /// The names of an initial unit and a space.
    Member,
    Text,
}

// The required form of a key's value.
#[derive(Clone, Copy, Debug, PartialEq, Eq)]
enum Form {
    Text,
    Truth,
    List,
    Filled,
    Object,
    SlotKind,
    DimKind,
    Any,
}

// A key that an object may have, whether it is required, and the form of its value.
type Key = (&'static str, bool, Form);

const SCHEMA: [Key; 3] = [
    ("labels", false, Form::List),
    ("classes", false, Form::List),
    ("spaces", false, Form::List),
];

const LABEL_SET: [Key; 2] = [("name", true, Form::Text), ("values", true, Form::Filled)];

const CLASS: [Key; 4] = [
    ("name", true, Form::Text),
    ("parent", false, Form::Text),
    ("slots", false, Form::List),
    ("links", false, Form::List),
];

const SLOT: [Key; 4] = [
    ("name", true, Form::Text),
    ("kind", true, Form::SlotKind),
    ("of", false, Form::Text),
    ("default", false, Form::Any),
];

const LINK: [Key; 5] = [
    ("name", true, Form::Text),
    ("to", true, Form::Text),
    ("many", true, Form::Truth),
    ("inverse", true, Form::Text),
    ("owns", false, Form::Truth),
];

const SPACE: [Key; 3] = [
    ("name", true, Form::Text),
    ("classes", true, Form::List),
    ("dims", true, Form::List),
];

const DIM: [Key; 3] = [
    ("name", true, Form::Text),
    ("kind", true, Form::DimKind),
    ("of", false, Form::Text),
];

const UNITS: [Key; 3] = [
    ("units", false, Form::List),
    ("links", false, Form::List),
    ("spaces", false, Form::List),
];

const UNIT: [Key; 3] = [
    ("name", true, Form::Text),
    ("class", true, Form::Text),
    ("slots", false, Form::Object),
];

/// Appends why an entry does not have its required form.
pub(crate) fn write_shape(text: &mut String, entry: &Value, shape: Shape) -> Result<(), Memory> {
    match shape {
        Shape::Schema => write_keys(text, entry, &SCHEMA),
        Shape::LabelSet => write_keys(text, entry, &LABEL_SET),
        Shape::Class => write_keys(text, entry, &CLASS),
        Shape::Slot => write_keys(text, entry, &SLOT),
        Shape::Link => write_keys(text, entry, &LINK),
        Shape::Space => write_keys(text, entry, &SPACE),
        Shape::Dim => write_keys(text, entry, &DIM),
        Shape::Units => write_keys(text, entry, &UNITS),
        Shape::Unit => write_keys(text, entry, &UNIT),
        Shape::FirstLink => text.push_str(
            "due is a list of three texts: a unit, a link slot and a unit",
        ),
        Shape::Member => text.push_str("due is a list of two texts: a unit and a space"),
        Shape::Text => text.push_str("due is a text"),
    }
}

// Appends the first of these faults: the entry is not an object, a key is unknown, a key is missing, a value has the
// wrong form. If there is none of them, the fault is `of` or a default that does not fit the kind.
fn write_keys(text: &mut String, entry: &Value, keys: &[Key]) -> Result<(), Memory> {
    let Some(members) = entry.as_object() else {
        return text.push_str("due is an object");
    };
    for (key, _) in members {
        if !keys.iter().any(|known| known.0 == key.as_str()) {
            write_phrase(text, "no key", key.as_str())?;
            return text.push_str(" may stand here");
        }
    }
    write_values(text, entry, keys)
}

fn write_values(text: &mut String, entry: &Value, keys: &[Key]) -> Result<(), Memory> {
    for (key, is_due, form) in keys {
        match entry.get(*key) {
            None => {
                if *is_due {
                    write_phrase(text, "the key", key)?;
                    return text.push_str(" is missing");
                }
            }
            Some(value) => {
                if !has_form(value, *form) {
                    write_quoted(text, key)?;
                    return text.push_str(words_of(*form));
                }
            }
        }
    }
    write_pairing(text, entry)
}

// Appends what does not fit the kind of a slot or dimension: `of`, or the default.
fn write_pairing(text: &mut String, entry: &Value) -> Result<(), Memory> {
    let kind = entry
        .get("kind")
        .and_then(|value| value.as_str())
        .unwrap_or("");
    let has_set = entry.get("of").is_some();
    if kind == "label" && !has_set {
        return text.push_str("\"of\" is missing: the kind `label` names its label set there");
    }
    if kind != "label" && has_set {
        return text.push_str("\"of\" goes with the kind `label` alone");
    }
    text.push_str("\"default\" has to be ")?;
    text.push_str(match kind {
        "int" => "a whole number of 64 bits",
        "text" => "a text",
        "bool" => "`true` or `false`",
        "label" => "the name of a label",
        _ => "a list of two whole numbers, the lesser first",
    })
}

fn has_form(value: &Value, form: Form) -> bool {
    match form {
        Form::Text => value.is_string(),
        Form::Truth => value.is_boolean(),
        Form::List => value.is_array(),
        Form::Filled => match value.as_array() {
            None => false,
            Some(list) => list.len() > 0,
        },
        Form::Object => value.is_object(),
        Form::SlotKind => match value.as_str() {
            Some("int" | "text" | "bool" | "label" | "interval") => true,
            _ => false,
        },
        Form::DimKind => match value.as_str() {
            Some("ordered" | "label") => true,
            _ => false,
        },
        Form::Any => true,
    }
}

fn words_of(form: Form) -> &'static str {
    match form {
        Form::Text => " has to be a text",
        Form::Truth => " has to be `true` or `false`",
        Form::List => " has to be a list",
        Form::Filled => " has to be a list of one entry or more",
        Form::Object => " has to be an object",
        Form::SlotKind => " has to be `int`, `text`, `bool`, `label` or `interval`",
        Form::DimKind => " has to be `ordered` or `label`",
        Form::Any => "",
    }
}
