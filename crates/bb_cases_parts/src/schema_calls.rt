//! The calls of schemas, as lines ask for them. Cases of schemas (schemas.rt) write their results.

use bb_cases_format::{Fault, number};
use bb_schema::{CoupleId, Dim, Kind, Link, Schema, Side, SlotId, Value};
use bb_trace::add_value;
use std::alloc::{AllocError, Global};
use std::fmt::Write;

/// What a call returns.
#[derive(Clone, Copy)]
pub(crate) enum Answer<'a> {
    Number(Option<u16>),
    Name(Option<&'a str>),
    Count(usize),
    Truth(bool),
    Kind(Kind),
    Value(&'a Value),
    End(CoupleId, Side),
    Slots(&'a [SlotId]),
    Dims(&'a [Dim]),
}

/// Returns the result of a call, given the words after its name. `Call`: no call has this name. `Number`: a word is not
/// a number.
pub(crate) fn answer_of<'a>(
    schema: &'a Schema,
    call: &str,
    words: &str,
) -> Result<Answer<'a>, Fault> {
    let (first, second) = words.split_once(' ').unwrap_or((words, ""));
    Ok(match call {
        "class" => Answer::Number(schema.class(words)),
        "space" => Answer::Number(schema.space(words)),
        "label_set" => Answer::Number(schema.label_set(words)),
        "label" => Answer::Number(schema.label(number(first)?, second).map(u16::from)),
        "slot" => Answer::Number(schema.slot(number(first)?, second)),
        "class_name" => Answer::Name(schema.class_name(number(words)?)),
        "slot_name" => Answer::Name(schema.slot_name(number(words)?)),
        "space_name" => Answer::Name(schema.space_name(number(words)?)),
        "label_name" => Answer::Name(schema.label_name(number(first)?, number(second)?)),
        "class_count" => Answer::Count(schema.class_count()),
        "slot_count" => Answer::Count(schema.slot_count()),
        "space_count" => Answer::Count(schema.space_count()),
        "couple_count" => Answer::Count(schema.couple_count()),
        "label_set_count" => Answer::Count(schema.label_set_count()),
        "descends" => Answer::Truth(schema.descends(number(first)?, number(second)?)),
        "related" => Answer::Truth(schema.related(number(first)?, number(second)?)),
        "allowed" => Answer::Truth(schema.allowed(number(first)?, number(second)?)),
        "is_ordinary" => Answer::Truth(schema.is_ordinary(number(words)?)),
        "is_link" => Answer::Truth(schema.is_link(number(words)?)),
        "owns" => Answer::Truth(schema.owns(number(words)?)),
        "owns_any" => Answer::Truth(schema.owns_any()),
        "strikes" => Answer::Truth(schema.strikes(number(first)?, number(second)?)),
        _ => entry_answer(schema, call, number(words)?)?,
    })
}

// Returns the result of a call that needs an entry with this number; no number if there is no such entry.
fn entry_answer<'a>(schema: &'a Schema, call: &str, entry: u16) -> Result<Answer<'a>, Fault> {
    let at = usize::from(entry);
    Ok(match call {
        "parent" if at < schema.class_count() => Answer::Number(schema.parent(entry)),
        "slots" if at < schema.class_count() => Answer::Slots(schema.slots(entry)),
        "kind" if at < schema.slot_count() => Answer::Kind(schema.kind(entry)),
        "owner" if at < schema.slot_count() => Answer::Number(Some(schema.owner(entry))),
        "default" if schema.is_ordinary(entry) => Answer::Value(schema.default(entry)),
        "couple" if schema.is_link(entry) => {
            let (couple, side) = schema.couple(entry);
            Answer::End(couple, side)
        }
        "dims" if at < schema.space_count() => Answer::Dims(schema.dims(entry)),
        "label_count" if at < schema.label_set_count() => {
            Answer::Count(schema.label_count(entry))
        }
        "parent" | "slots" | "kind" | "owner" | "default" | "couple" | "dims" | "label_count" => {
            Answer::Number(None)
        }
        _ => return Err(Fault::Call),
    })
}

/// Appends a space and a result.
pub(crate) fn add_answer(
    alloc: Global,
    text: &mut String,
    schema: &Schema,
    answer: &Answer<'_>,
) -> Result<(), AllocError> {
    match answer {
        Answer::Number(None) | Answer::Name(None) => text.push_str(" none"),
        Answer::Number(Some(number)) => write!(text, " {number}"),
        Answer::Name(Some(name)) => write!(text, " {name}"),
        Answer::Count(count) => write!(text, " {count}"),
        Answer::Truth(truth) => write!(text, " {truth}"),
        Answer::Kind(kind) => add_kind(text, *kind),
        Answer::Value(value) => {
            text.push_str(" ")?;
            add_value(alloc, text, schema, value)
        }
        Answer::End(couple, Side::A) => write!(text, " {couple} A"),
        Answer::End(couple, Side::B) => write!(text, " {couple} B"),
        Answer::Slots(slots) => add_slots(text, slots),
        Answer::Dims(dims) => add_dims(text, dims),
    }
}

fn add_kind(text: &mut String, kind: Kind) -> Result<(), AllocError> {
    match kind {
        Kind::Int => text.push_str(" Int"),
        Kind::Text => text.push_str(" Text"),
        Kind::Bool => text.push_str(" Bool"),
        Kind::Label(set) => write!(text, " Label:{set}"),
        Kind::Interval => text.push_str(" Interval"),
        Kind::Link(
            Link {
                to,
                many,
                inverse,
                owns: _,
            },
        ) => {
            let sort = if many { "Many" } else { "One" };
            write!(text, " {sort}:{to} inverse {inverse}")
        }
    }
}

fn add_slots(text: &mut String, slots: &[SlotId]) -> Result<(), AllocError> {
    for slot in slots {
        write!(text, " {slot}")?;
    }
    Ok(())
}

// Appends dimensions: an ordered one by its name, an enumerated one by its name and label set.
fn add_dims(text: &mut String, dims: &[Dim]) -> Result<(), AllocError> {
    for dim in dims {
        match dim.set {
            Some(set) => write!(text, " {}:{set}", dim.name.as_str())?,
            None => write!(text, " {}", dim.name.as_str())?,
        }
    }
    Ok(())
}
