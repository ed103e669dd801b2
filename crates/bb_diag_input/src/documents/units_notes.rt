//! What is wrong at an entry of the document of initial units, with the names there.

use crate::documents::entry::{entry_at, list_of, text_at, write_called};
use crate::documents::json_notes::{json_of, note_json};
use crate::documents::shape_notes::{Shape, write_shape};
use crate::documents::slot_kind::write_slot_kind;
use crate::{Section, write_note, write_phrase, write_quoted};
use bb_basis::Memory;
use bb_board::{UnitsFault, UnitsFlaw};
use bb_schema::Schema;
use bb_schema_classes::{ClassId, DocumentPlace, Kind, LabelSetId, ListKey, SlotId, TEXT_LIMIT};
use serde_json::Value;
use std::alloc::Global;

/// Appends the notes on a fault of the initial units.
pub fn note_units(
    alloc: Global,
    text: &mut String,
    fault: UnitsFault,
    schema: &str,
    units: Section<'_>,
) -> Result<(), Memory> {
    let UnitsFault::At { flaw, place } = fault else {
        return Ok(());
    };
    if flaw == UnitsFlaw::Json {
        return note_json(alloc, text, units);
    }
    let Some(document) = json_of(alloc, units.text)? else {
        return Ok(());
    };
    let Ok(schema) = Schema::read(alloc, schema) else {
        return Ok(());
    };
    let Some(entry) = entry_at(&document, place) else {
        return Ok(());
    };
    let mut called = String::new(alloc);
    write_called(&mut called, &document, place)?;
    let mut flawed = String::new(alloc);
    if flaw == UnitsFlaw::Shape {
        write_shape(&mut flawed, entry, shape_of(place))?;
    } else {
        let context = Context {
            schema: &schema,
            document: &document,
            entry,
        };
        write_flaw(&mut flawed, context, flaw, list_of(place))?;
    }
    write_note(text, called.as_str(), flawed.as_str())
}

// What a note is written from.
#[derive(Clone, Copy)]
struct Context<'a> {
    schema: &'a Schema,
    document: &'a Value,
    entry: &'a Value,
}

// Returns the form required of an entry at a location.
fn shape_of(place: DocumentPlace) -> Shape {
    match list_of(place) {
        Some(ListKey::Units) => Shape::Unit,
        Some(ListKey::Links) => Shape::FirstLink,
        Some(ListKey::Spaces) => Shape::Member,
        _ => Shape::Units,
    }
}

// Appends what is wrong with the entry.
fn write_flaw(
    text: &mut String,
    context: Context<'_>,
    flaw: UnitsFlaw,
    list: Option<ListKey>,
) -> Result<(), Memory> {
    match list {
        Some(ListKey::Units) => match flaw {
            UnitsFlaw::Unknown => write_unknown(text, context),
            UnitsFlaw::Kind => write_misfit(text, context),
            _ => Ok(()),
        },
        Some(ListKey::Links) => write_link(text, context),
        Some(ListKey::Spaces) => write_member(text, context),
        _ => Ok(()),
    }
}

// ---- a unit

// Appends that the class of a unit is not declared, or else the first slot that the class lacks.
fn write_unknown(text: &mut String, context: Context<'_>) -> Result<(), Memory> {
    let Some(name) = text_at(context.entry, "class") else {
        return Ok(());
    };
    let Some(class) = context.schema.class(name) else {
        write_phrase(text, "no class", name)?;
        return text.push_str(" is declared");
    };
    let Some(slots) = context
        .entry
        .get("slots")
        .and_then(|value| value.as_object())
    else {
        return Ok(());
    };
    for (slot, _) in slots {
        if ordinary_slot(context.schema, class, slot.as_str()).is_none() {
            write_phrase(text, "class", name)?;
            return write_phrase(text, " has no ordinary slot", slot.as_str());
        }
    }
    Ok(())
}

fn ordinary_slot(schema: &Schema, class: ClassId, name: &str) -> Option<SlotId> {
    let slot = schema.slot(class, name)?;
    if schema.is_ordinary(slot) {
        return Some(slot);
    }
    None
}

// Appends the first slot of the class, in its order, whose value does not fit.
fn write_misfit(text: &mut String, context: Context<'_>) -> Result<(), Memory> {
    let Some(class) = text_at(context.entry, "class").and_then(|name| context.schema.class(name))
    else {
        return Ok(());
    };
    let Some(given) = context.entry.get("slots") else {
        return Ok(());
    };
    if class as usize >= context.schema.class_count() {
        return Ok(());
    }
    for slot in context.schema.slots(class) {
        let Some(name) = context.schema.slot_name(*slot) else {
            continue;
        };
        let Some(value) = given.get(name) else {
            continue;
        };
        if !fits(context.schema, *slot, value) {
            write_phrase(text, "the value of slot", name)?;
            text.push_str(" has to be ")?;
            return write_slot_kind(text, context.schema, *slot);
        }
    }
    Ok(())
}

// Returns whether JSON is a value for a slot.
fn fits(schema: &Schema, slot: SlotId, value: &Value) -> bool {
    if slot as usize >= schema.slot_count() {
        return false;
    }
    match schema.kind(slot) {
        Kind::Int => value.is_i64(),
        Kind::Text => match value.as_str() {
            None => false,
            Some(text) => text.len() <= TEXT_LIMIT,
        },
        Kind::Bool => value.is_boolean(),
        Kind::Label(set) => match value.as_str() {
            None => false,
            Some(label) => schema.label(set, label).is_some(),
        },
        Kind::Interval => is_interval(value),
        Kind::Link(_) => false,
    }
}

// Returns whether JSON is a list of two whole numbers, the second not less than the first.
fn is_interval(value: &Value) -> bool {
    let Some(ends) = value.as_array() else {
        return false;
    };
    match ends.as_slice() {
        [low, high] => match (low.as_i64(), high.as_i64()) {
            (Some(low), Some(high)) => low <= high,
            _ => false,
        },
        _ => false,
    }
}

// ---- links, and units in spaces

// Returns the text at an index of a list.
fn word_at(entry: &Value, index: usize) -> &str {
    match entry.as_array().and_then(|words| words.get(index)) {
        None => "",
        Some(word) => word.as_str().unwrap_or(""),
    }
}

// Returns the class of an initial unit, by the name of the unit.
fn class_of(context: Context<'_>, unit: &str) -> Option<ClassId> {
    let units = context.document.get("units")?.as_array()?;
    let found = units
        .iter()
        .find(|entry| text_at(entry, "name") == Some(unit))?;
    context.schema.class(text_at(found, "class")?)
}

// Appends that no initial unit has a name.
fn write_no_unit(text: &mut String, unit: &str) -> Result<(), Memory> {
    write_phrase(text, "no unit", unit)?;
    text.push_str(" stands in `units`")
}

// Appends the class of a unit.
fn write_is(
    text: &mut String,
    context: Context<'_>,
    unit: &str,
    class: ClassId,
) -> Result<(), Memory> {
    write_phrase(text, "unit", unit)?;
    text.push_str(" is of class ")?;
    write_quoted(text, context.schema.class_name(class).unwrap_or(""))
}

// Appends what is wrong with a link: an unknown unit, a slot that its class lacks, or a unit that is not of the slot's
// target class.
fn write_link(text: &mut String, context: Context<'_>) -> Result<(), Memory> {
    let (unit, slot, partner) = (
        word_at(context.entry, 0),
        word_at(context.entry, 1),
        word_at(context.entry, 2),
    );
    let Some(class) = class_of(context, unit) else {
        return write_no_unit(text, unit);
    };
    let Some(other) = class_of(context, partner) else {
        return write_no_unit(text, partner);
    };
    let link = context
        .schema
        .slot(class, slot)
        .and_then(|slot| context.schema.link(slot));
    match link {
        None => {
            write_is(text, context, unit, class)?;
            write_phrase(text, ", which has no link slot", slot)
        }
        Some(link) => {
            write_phrase(text, "link slot", slot)?;
            text.push_str(" leads to class ")?;
            write_quoted(text, context.schema.class_name(link.to).unwrap_or(""))?;
            text.push_str(", and ")?;
            write_is(text, context, partner, other)
        }
    }
}

// Appends what is wrong with an entry of `spaces`: an unknown unit or space, or a space that does not admit the class
// of the unit.
fn write_member(text: &mut String, context: Context<'_>) -> Result<(), Memory> {
    let (unit, space) = (word_at(context.entry, 0), word_at(context.entry, 1));
    let Some(class) = class_of(context, unit) else {
        return write_no_unit(text, unit);
    };
    if context.schema.space(space).is_none() {
        write_phrase(text, "no space", space)?;
        return text.push_str(" is declared");
    }
    write_is(text, context, unit, class)?;
    write_phrase(text, ", which is none of those of space", space)
}
