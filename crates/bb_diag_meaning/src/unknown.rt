//! The message on an unknown name: what it should name, and which names there are.

use bb_basis::Memory;
use bb_compile_scope::{ClassId, Place};
use bb_diag_source::scope::{
    Judge, Statement, class_names, dim_names, label_names, slot_names, space_names, word_at,
    write_names,
};
use bb_diag_text::{Token, TokenKind, is_reserved, write_phrase, write_quoted};
use bb_schema::{LabelSetId, Schema, SpaceId};
use std::fmt::Write;

// What a word of a statement names.
#[derive(Clone, Copy)]
enum Role {
    Slot,
    Class,
    Space,
    Label,
    LabelSet,
    Dimension,
    // A value, or a unit.
    Name,
    // It is declared here, or is not a name.
    Other,
}

/// Returns whether a word is the relation of a pattern's test.
pub(crate) fn is_relation(word: &str) -> bool {
    matches!(
        word,
        "within" | "covers" | "overlaps" | "less" | "more" | "is"
    )
}

// Returns the word `by` tokens before an index, if there is one.
fn back<'a>(tokens: &[Token<'a>], index: usize, by: usize) -> &'a str {
    match index.checked_sub(by) {
        Some(at) => word_at(tokens, at),
        None => "",
    }
}

fn role_of(tokens: &[Token<'_>], index: usize) -> Role {
    let first = word_at(tokens, 0);
    let behind = word_at(tokens, index.saturating_add(1));
    match back(tokens, index, 1) {
        "." => return Role::Slot,
        "as" | "find" | "on" => return Role::Class,
        ":" if first == "new" => return Role::Class,
        ":" => return Role::Label,
        "let" | "new" | "with" | "for" => return Role::Other,
        "in" if back(tokens, index, 3) == "find" => return Role::Space,
        _ => {}
    }
    if index == 2 && (first == "enter" || first == "leave") {
        return Role::Space;
    }
    if is_relation(behind) {
        return Role::Dimension;
    }
    if behind == ":" {
        return Role::LabelSet;
    }
    let word = word_at(tokens, index);
    if is_reserved(word) && word != "ev" {
        return Role::Other;
    }
    Role::Name
}

/// Appends which name of a statement is unknown, and returns its location.
pub(crate) fn write_unknown(
    text: &mut String,
    judge: &Judge<'_, '_>,
    statement: Statement<'_, '_>,
) -> Result<Option<Place>, Memory> {
    let tokens = statement.tokens();
    for (index, token) in tokens.iter().enumerate() {
        if token.kind == TokenKind::Word && write_missing(text, judge, tokens, index)? {
            return Ok(Some(place_of(token)));
        }
    }
    Ok(None)
}

/// Returns the location of the start of a token.
pub(crate) fn place_of(token: &Token<'_>) -> Place {
    Place {
        line: token.line,
        column: token.column,
    }
}

// Appends that the name at an index is unknown, if it is.
fn write_missing(
    text: &mut String,
    judge: &Judge<'_, '_>,
    tokens: &[Token<'_>],
    index: usize,
) -> Result<bool, Memory> {
    let word = word_at(tokens, index);
    match role_of(tokens, index) {
        Role::Slot => write_no_slot(text, judge, back(tokens, index, 2), word),
        Role::Class => write_no_class(text, judge, word),
        Role::Space => write_no_space(text, judge, word),
        Role::Label => write_no_label(text, judge, back(tokens, index, 2), word),
        Role::LabelSet => write_no_set(text, judge, word),
        Role::Dimension => {
            let relation = word_at(tokens, index.saturating_add(1));
            let space = judge.schema.space(searched(tokens, index));
            space.map_or(
                Ok(false),
                |space| write_no_dim(text, judge, space, word, relation),
            )
        }
        Role::Name => {
            let behind = tokens.get(index.saturating_add(1)..).unwrap_or(&[]);
            write_no_name(text, judge, word, behind)
        }
        Role::Other => Ok(false),
    }
}

// Returns the name of the space of the search before an index.
fn searched<'a>(tokens: &[Token<'a>], index: usize) -> &'a str {
    let before = tokens.get(..index).unwrap_or(&[]);
    match before.iter().rposition(|it| it.is("find")) {
        Some(at) => word_at(tokens, at.saturating_add(3)),
        None => "",
    }
}

fn write_no_slot(
    text: &mut String,
    judge: &Judge<'_, '_>,
    unit: &str,
    slot: &str,
) -> Result<bool, Memory> {
    match judge.class_named(unit) {
        None => Ok(false),
        Some(class) => write_no_slot_of(text, judge, class, slot),
    }
}

/// Appends that a class has no slot with a name, if it has none.
pub(crate) fn write_no_slot_of(
    text: &mut String,
    judge: &Judge<'_, '_>,
    class: ClassId,
    slot: &str,
) -> Result<bool, Memory> {
    if judge.schema.slot(class, slot).is_some() {
        return Ok(false);
    }
    write!(text, "class {}", judge.class_name(class))?;
    write_phrase(text, " has no slot", slot)?;
    let names = slot_names(judge.alloc, judge.schema, class)?;
    if names.is_empty() {
        return Ok(true);
    }
    text.push_str("; it has ")?;
    write_names(text, names.as_slice(), slot)?;
    Ok(true)
}

/// Appends that no class with a name is declared, if none is.
pub(crate) fn write_no_class(
    text: &mut String,
    judge: &Judge<'_, '_>,
    class: &str,
) -> Result<bool, Memory> {
    if judge.schema.class(class).is_some() {
        return Ok(false);
    }
    write_phrase(text, "no class", class)?;
    text.push_str(" is declared; declared: ")?;
    let names = class_names(judge.alloc, judge.schema)?;
    write_names(text, names.as_slice(), class)?;
    Ok(true)
}

/// Appends that no space with a name is declared, if none is.
pub(crate) fn write_no_space(
    text: &mut String,
    judge: &Judge<'_, '_>,
    space: &str,
) -> Result<bool, Memory> {
    if judge.schema.space(space).is_some() {
        return Ok(false);
    }
    write_phrase(text, "no space", space)?;
    text.push_str(" is declared")?;
    let names = space_names(judge.alloc, judge.schema)?;
    if names.is_empty() {
        return Ok(true);
    }
    text.push_str("; declared: ")?;
    write_names(text, names.as_slice(), space)?;
    Ok(true)
}

fn write_no_label(
    text: &mut String,
    judge: &Judge<'_, '_>,
    set: &str,
    label: &str,
) -> Result<bool, Memory> {
    let Some(id) = judge.schema.label_set(set) else {
        return Ok(false);
    };
    if judge.schema.label(id, label).is_some() {
        return Ok(false);
    }
    write!(text, "label set {set}")?;
    write_phrase(text, " has no label", label)?;
    text.push_str("; it has ")?;
    let names = label_names(judge.alloc, judge.schema, id)?;
    write_names(text, names.as_slice(), label)?;
    Ok(true)
}

fn write_no_set(text: &mut String, judge: &Judge<'_, '_>, set: &str) -> Result<bool, Memory> {
    if judge.schema.label_set(set).is_some() {
        return Ok(false);
    }
    write_phrase(text, "no label set", set)?;
    text.push_str(" is declared: a label is written SET:LABEL")?;
    Ok(true)
}

// Appends that a space has no dimension with a name, or one of the wrong kind.
fn write_no_dim(
    text: &mut String,
    judge: &Judge<'_, '_>,
    space: SpaceId,
    dim: &str,
    relation: &str,
) -> Result<bool, Memory> {
    if space as usize >= judge.schema.space_count() {
        return Ok(false);
    }
    let found = judge
        .schema
        .dims(space)
        .iter()
        .find(|it| it.name.as_str() == dim);
    match found {
        None => {
            write!(
                text,
                "space {}",
                judge.schema.space_name(space).unwrap_or("")
            )?;
            write_phrase(text, " has no dimension", dim)?;
            text.push_str("; it has ")?;
            let names = dim_names(judge.alloc, judge.schema, space)?;
            write_names(text, names.as_slice(), dim)?;
        }
        Some(found) => match (relation == "is", found.set.is_some()) {
            (true, false) => write!(
                text,
                "\"is\" wants a dimension of labels, and {dim} is ordered"
            )?,
            (false, true) => {
                write!(
                    text,
                    "\"{relation}\" wants an ordered dimension, and {dim} is one of labels"
                )?
            }
            _ => return Ok(false),
        },
    }
    Ok(true)
}

// Returns whether a name and the tokens after it are a label, written with a `.`.
fn is_dotted_label(judge: &Judge<'_, '_>, name: &str, behind: &[Token<'_>]) -> bool {
    match (judge.schema.label_set(name), behind) {
        (Some(set), [dot, label, ..]) if dot.is(".") => {
            judge.schema.label(set, label.text).is_some()
        }
        _ => false,
    }
}

// Appends that a name is not in scope, given the tokens after it.
fn write_no_name(
    text: &mut String,
    judge: &Judge<'_, '_>,
    name: &str,
    behind: &[Token<'_>],
) -> Result<bool, Memory> {
    if judge.find(name).is_some() {
        return Ok(false);
    }
    if is_dotted_label(judge, name, behind) {
        write!(text, "a label is written {name}:{}", word_at(behind, 1))?;
        return Ok(true);
    }
    match name {
        "ev" => text.push_str("\"ev\" is there in obviate and retrigger alone")?,
        "null" | "nil" | "none" | "undefined" => {
            write!(
                text,
                "there is no \"{name}\": \"with\" tests whether a unit is there"
            )?
        }
        _ => write_hint(text, judge, name)?,
    }
    Ok(true)
}

/// Returns the name of the label set that has a label; `SET` if several have it, and `None` if none has.
pub(crate) fn set_with<'s>(schema: &'s Schema, label: &str) -> Option<&'s str> {
    let mut found = None;
    for set in 0..schema.label_set_count() {
        let set = set as LabelSetId;
        if schema.label(set, label).is_some() {
            if found.is_some() {
                return Some("SET");
            }
            found = schema.label_set_name(set);
        }
    }
    found
}

// Appends what a name that is not in scope may be meant to be, or else the names in scope.
fn write_hint(text: &mut String, judge: &Judge<'_, '_>, name: &str) -> Result<(), Memory> {
    write_quoted(text, name)?;
    text.push_str(" is no name here")?;
    if let Some(set) = set_with(judge.schema, name) {
        return write!(text, ": a label is written {set}:{name}");
    }
    if judge.schema.class(name).is_some() {
        return write!(
            text,
            ": it is a class, and with n = it as {name} {{ .. }} names a unit of it"
        );
    }
    if judge.schema.space(name).is_some() {
        return text.push_str(": it is a space");
    }
    let mut names = Vec::new(judge.alloc);
    for known in &judge.known {
        if !known.name.is_empty() {
            names.push(known.name)?;
        }
    }
    if names.is_empty() {
        return Ok(());
    }
    text.push_str("; in scope: ")?;
    write_names(text, names.as_slice(), name)
}
