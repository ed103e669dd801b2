//! The messages on units: one that may be gone, and one whose class a link slot or a space does not accept.

use crate::unknown::place_of;
use bb_basis::Memory;
use bb_code::Kind;
use bb_compile_scope::{ClassId, Place, link_slot};
use bb_diag_source::scope::{Judge, Statement, admitted_names, owning_path, word_at, write_names};
use bb_diag_text::Token;
use std::fmt::Write;

// Returns whether the word at an index is a unit that has to be live.
fn is_used(tokens: &[Token<'_>], index: usize) -> bool {
    let behind = word_at(tokens, index.saturating_add(1));
    if behind == "." {
        return true;
    }
    match word_at(tokens, 0) {
        "delete" | "enter" | "leave" => index == 1,
        "link" | "unlink" => index == 4,
        _ => false,
    }
}

/// Appends which unit may be gone, and why, and returns the location of its name.
pub(crate) fn write_gone(
    text: &mut String,
    judge: &Judge<'_, '_>,
    statement: Statement<'_, '_>,
) -> Result<Option<Place>, Memory> {
    let tokens = statement.tokens();
    for (index, token) in tokens.iter().enumerate() {
        if is_used(tokens, index) && write_old(text, judge, token.text)? {
            return Ok(Some(place_of(token)));
        }
    }
    for (index, token) in tokens.iter().enumerate() {
        if is_used(tokens, index) && write_looped(text, judge, statement, token.text)? {
            return Ok(Some(place_of(token)));
        }
    }
    Ok(None)
}

// Appends that a name's unit may be gone, if the name is old.
fn write_old(text: &mut String, judge: &Judge<'_, '_>, name: &str) -> Result<bool, Memory> {
    let Some(known) = judge.find(name) else {
        return Ok(false);
    };
    let Kind::Old(class) = known.kind else {
        return Ok(false);
    };
    write!(text, "{name} may be gone: ")?;
    if let Some(gone) = known.gone {
        let line = gone.line;
        write!(text, "the \"delete\" in line {line} may have deleted it")?;
        write_owning(text, judge, gone.class, class)?;
        text.push_str(", and ")?;
    }
    let class = judge.class_name(class);
    write!(text, "with n = {name} as {class} {{ .. }} tests it")?;
    Ok(true)
}

// Appends the owning slots through which a deletion reaches units of a class, if it needs any.
fn write_owning(
    text: &mut String,
    judge: &Judge<'_, '_>,
    deleted: ClassId,
    class: ClassId,
) -> Result<(), Memory> {
    let path = owning_path(judge.alloc, judge.schema, deleted, class)?;
    for (index, slot) in path.iter().enumerate() {
        if *slot as usize >= judge.schema.slot_count() {
            break;
        }
        let owner = judge.class_name(judge.schema.owner(*slot));
        let name = judge.schema.slot_name(*slot).unwrap_or("");
        let before = if index == 0 { ", as" } else { " and" };
        write!(text, "{before} {owner}.{name}")?;
    }
    match path.len() {
        0 => Ok(()),
        1 => write!(text, " owns what it holds"),
        _ => write!(text, " own what they hold"),
    }
}

// Appends that the loop around a statement may have deleted a name's unit, if a `delete` follows the statement.
fn write_looped(
    text: &mut String,
    judge: &Judge<'_, '_>,
    statement: Statement<'_, '_>,
    name: &str,
) -> Result<bool, Memory> {
    let Some(Kind::Ref(class)) = judge.find(name).map(|it| it.kind) else {
        return Ok(false);
    };
    let rest = statement.rest();
    let Some(at) = rest.iter().position(|it| it.is("delete")) else {
        return Ok(false);
    };
    let line = rest.get(at).map_or(0, |it| it.line);
    let class = judge.class_name(class);
    write!(
        text,
        "{name} may be gone: the \"delete\" in line {line} of the loop may have deleted it, and "
    )?;
    write!(text, "with n = {name} as {class} {{ .. }} tests it")?;
    Ok(true)
}

/// Appends the target class of a link slot, and the class of the unit.
pub(crate) fn write_wrong_class(
    text: &mut String,
    judge: &Judge<'_, '_>,
    statement: Statement<'_, '_>,
) -> Result<(), Memory> {
    let (unit, slot, other) = (statement.word(1), statement.word(3), statement.word(4));
    let Some(class) = judge.class_named(unit) else {
        return Ok(());
    };
    let Some(own) = judge.class_named(other) else {
        return Ok(());
    };
    let Ok((_, link)) = link_slot(judge.schema, class, slot) else {
        return Ok(());
    };
    let (to, class, own) = (
        judge.class_name(link.to),
        judge.class_name(class),
        judge.class_name(own),
    );
    write!(
        text,
        "link slot {slot} of {class} leads to class {to}, and {other} is of class {own}"
    )
}

/// Appends which classes a space admits, and the class of the unit.
pub(crate) fn write_space(
    text: &mut String,
    judge: &Judge<'_, '_>,
    statement: Statement<'_, '_>,
) -> Result<(), Memory> {
    let (unit, name) = (statement.word(1), statement.word(2));
    let Some(space) = judge.schema.space(name) else {
        return Ok(());
    };
    let Some(class) = judge.class_named(unit) else {
        return Ok(());
    };
    let class = judge.class_name(class);
    write!(text, "{unit} is of class {class}, and space {name} admits ")?;
    let names = admitted_names(judge.alloc, judge.schema, space)?;
    write_names(text, names.as_slice(), class)
}
