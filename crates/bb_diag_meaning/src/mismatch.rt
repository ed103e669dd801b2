//! The message on a value, name or slot of the wrong kind, for each statement.

use crate::operations::{write_due, write_looped, write_no_unit, write_operands};
use bb_basis::Memory;
use bb_code::Kind;
use bb_compile_scope::{assigned, class_of, link_slot, partner_slot, value_slot};
use bb_diag_source::scope::{
    Judge, Statement, kind_of, position_of, word_at, write_kind, write_value,
};
use bb_diag_text::Token;
use std::fmt::Write;

/// Appends what in a statement has the wrong kind.
pub(crate) fn write_mismatch(
    text: &mut String,
    judge: &Judge<'_, '_>,
    statement: Statement<'_, '_>,
) -> Result<(), Memory> {
    let tokens = statement.tokens();
    let _found = match statement.word(0) {
        "let" => write_operands(text, judge, behind(tokens, 3))?,
        "if" => write_valued(text, judge, "\"if\" wants", Kind::Bool, behind(tokens, 1))?,
        "rate" => write_valued(text, judge, "\"rate\" wants", Kind::Int, behind(tokens, 1))?,
        "answer" => write_valued(
            text,
            judge,
            "\"answer\" wants",
            Kind::Bool,
            behind(tokens, 1),
        )?,
        "say" => write_said(text, judge, behind(tokens, 1))?,
        "set" => write_set(text, judge, statement)?,
        "link" | "unlink" => write_link(text, judge, statement)?,
        "enter" | "leave" | "delete" => write_no_unit(text, judge, statement.word(1))?,
        "with" => write_with(text, judge, statement)?,
        "for" => write_looped(text, judge, behind(tokens, 3))?,
        name => write_operands(text, judge, behind(tokens, 2))?
            || write_assigned(text, judge, name, behind(tokens, 2))?,
    };
    Ok(())
}

// Returns the tokens after the first `count`.
fn behind<'t>(tokens: &'t [Token<'t>], count: usize) -> &'t [Token<'t>] {
    tokens.get(count..).unwrap_or(&[])
}

// Appends what is wrong inside a value, or else that its kind is wrong.
fn write_valued(
    text: &mut String,
    judge: &Judge<'_, '_>,
    wants: &str,
    due: Kind,
    value: &[Token<'_>],
) -> Result<bool, Memory> {
    if write_operands(text, judge, value)? {
        return Ok(true);
    }
    write_due(text, judge, wants, due, value)
}

// Appends what is wrong in the values of a `say`.
fn write_said(
    text: &mut String,
    judge: &Judge<'_, '_>,
    values: &[Token<'_>],
) -> Result<bool, Memory> {
    let mut rest = values;
    for _turn in 0..values.len() {
        let Some(at) = position_of(rest, &[","]) else {
            return write_operands(text, judge, rest);
        };
        if write_operands(text, judge, rest.get(..at).unwrap_or(&[]))? {
            return Ok(true);
        }
        rest = rest.get(at.saturating_add(1)..).unwrap_or(&[]);
    }
    Ok(false)
}

// Appends why a value can't be assigned to a name.
fn write_assigned(
    text: &mut String,
    judge: &Judge<'_, '_>,
    name: &str,
    value: &[Token<'_>],
) -> Result<bool, Memory> {
    let (held, kind) = (judge.kind_named(name), kind_of(judge, value));
    if matches!(held, Kind::Any) || matches!(kind, Kind::Any) {
        return Ok(false);
    }
    if assigned(judge.schema, held, kind).is_some() {
        return Ok(false);
    }
    write!(text, "{name} is ")?;
    write_kind(text, judge, held)?;
    text.push_str(", and ")?;
    write_value(text, value)?;
    text.push_str(" is ")?;
    write_kind(text, judge, kind)?;
    if class_of(held).is_some() && class_of(kind).is_some() {
        text.push_str(": a name holds units of the class that it began with, or below it")?;
    }
    Ok(true)
}

// Appends what is wrong in a `set`.
fn write_set(
    text: &mut String,
    judge: &Judge<'_, '_>,
    statement: Statement<'_, '_>,
) -> Result<bool, Memory> {
    let value = statement.tokens().get(5..).unwrap_or(&[]);
    let (unit, slot) = (statement.word(1), statement.word(3));
    if write_no_unit(text, judge, unit)? || write_operands(text, judge, value)? {
        return Ok(true);
    }
    let Some(class) = judge.class_named(unit) else {
        return Ok(false);
    };
    match value_slot(judge.schema, class, slot) {
        Ok((_, due)) => {
            let wants = format!(in judge.alloc;
                "slot {slot} of {} holds",
                judge.class_name(class)
            )?;
            write_due(text, judge, wants.as_str(), due, value)
        }
        Err(_) => {
            write!(
                text,
                "{slot} is a link slot: link {unit}.{slot} v; makes a link"
            )?;
            Ok(true)
        }
    }
}

// Appends what is wrong in a `link` or `unlink`.
fn write_link(
    text: &mut String,
    judge: &Judge<'_, '_>,
    statement: Statement<'_, '_>,
) -> Result<bool, Memory> {
    let (unit, slot, other) = (statement.word(1), statement.word(3), statement.word(4));
    if write_no_unit(text, judge, unit)? || write_no_unit(text, judge, other)? {
        return Ok(true);
    }
    let Some(class) = judge.class_named(unit) else {
        return Ok(false);
    };
    if link_slot(judge.schema, class, slot).is_ok() {
        return Ok(false);
    }
    write!(
        text,
        "{slot} is no link slot: set {unit}.{slot} = E; gives it a value"
    )?;
    Ok(true)
}

// Appends what is wrong in a `with`.
fn write_with(
    text: &mut String,
    judge: &Judge<'_, '_>,
    statement: Statement<'_, '_>,
) -> Result<bool, Memory> {
    let (unit, word) = (statement.word(3), statement.word(5));
    if write_no_unit(text, judge, unit)? {
        return Ok(true);
    }
    let Some(class) = judge.class_named(unit) else {
        return Ok(false);
    };
    if statement.word(4) == "as" {
        return write_as(text, judge, unit, word);
    }
    if partner_slot(judge.schema, class, word).is_ok() {
        return Ok(false);
    }
    if link_slot(judge.schema, class, word).is_ok() {
        write!(text, "{word} holds many: for n in {unit}.{word} {{ .. }}")?;
    } else {
        write!(text, "{word} is no link slot: {unit}.{word} is a value")?;
    }
    Ok(true)
}

// Appends why a unit can't be tested to be of a class.
fn write_as(
    text: &mut String,
    judge: &Judge<'_, '_>,
    unit: &str,
    class: &str,
) -> Result<bool, Memory> {
    let kind = judge.kind_named(unit);
    let Some(own) = class_of(kind) else {
        return Ok(false);
    };
    let name = judge.class_name(own);
    if name == class {
        write!(text, "{unit} is of class {class} already")?;
        return Ok(true);
    }
    write!(
        text,
        "{unit} is of class {name}, and {class} is not below it"
    )?;
    Ok(true)
}
