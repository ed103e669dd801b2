//! Operands of the wrong kind. The message on a mismatch searches values for them.

use crate::unknown::{is_relation, set_with};
use bb_basis::Memory;
use bb_code::Kind;
use bb_compile_scope::{assigned, class_of, equality, link_slot, value_slot};
use bb_diag_source::scope::{
    COMPARISONS, Judge, LOGIC, SUMS, kind_of, position_of, word_at, write_kind, write_value,
};
use bb_diag_text::{Token, TokenKind};
use std::fmt::Write;

/// Appends that a value has a kind other than `due`, if that is known. Returns whether it does.
pub(crate) fn write_due(
    text: &mut String,
    judge: &Judge<'_, '_>,
    wants: &str,
    due: Kind,
    value: &[Token<'_>],
) -> Result<bool, Memory> {
    let kind = kind_of(judge, value);
    if matches!(kind, Kind::Any) || assigned(judge.schema, due, kind).is_some() {
        return Ok(false);
    }
    text.push_str(wants)?;
    text.push_str(" ")?;
    write_kind(text, judge, due)?;
    text.push_str(", and ")?;
    write_value(text, value)?;
    text.push_str(" is ")?;
    write_kind(text, judge, kind)?;
    if matches!(due, Kind::Label(_)) {
        write_label_of(text, judge, value)?;
    }
    Ok(true)
}

// Appends how the label is written that a text has the name of, if the value is such a text.
fn write_label_of(
    text: &mut String,
    judge: &Judge<'_, '_>,
    value: &[Token<'_>],
) -> Result<(), Memory> {
    let [token] = value else {
        return Ok(());
    };
    let name = token
        .text
        .get(1..token.text.len().saturating_sub(1))
        .unwrap_or("");
    if token.kind != TokenKind::Text {
        return Ok(());
    }
    match set_with(judge.schema, name) {
        None => Ok(()),
        Some(set) => write!(text, ": a label is written {set}:{name}"),
    }
}

// Values whose operands are still to be examined.
type Parts<'a, 't> = Vec<&'t [Token<'a>]>;

/// Appends the first operand in a value that has the wrong kind for its operation, if there is one.
pub(crate) fn write_operands(
    text: &mut String,
    judge: &Judge<'_, '_>,
    value: &[Token<'_>],
) -> Result<bool, Memory> {
    let mut parts = Vec::new(judge.alloc);
    parts.push(value)?;
    write_parts(text, judge, parts, value.len())
}

/// Appends why a unit's slot is not a sequence, or the fault in the tests of a search, if there is one.
pub(crate) fn write_looped(
    text: &mut String,
    judge: &Judge<'_, '_>,
    sequence: &[Token<'_>],
) -> Result<bool, Memory> {
    let mut parts = Vec::new(judge.alloc);
    if write_sequence(text, judge, sequence, &mut parts)? {
        return Ok(true);
    }
    write_parts(text, judge, parts, sequence.len())
}

// Appends the first operand with the wrong kind in some values, which have `count` tokens in all.
fn write_parts<'a, 't>(
    text: &mut String,
    judge: &Judge<'_, '_>,
    parts: Parts<'a, 't>,
    count: usize,
) -> Result<bool, Memory> {
    let mut parts = parts;
    for _turn in 0..count.saturating_mul(3).saturating_add(3) {
        let Some(part) = parts.pop() else {
            return Ok(false);
        };
        if write_operation(text, judge, part, &mut parts)? {
            return Ok(true);
        }
    }
    Ok(false)
}

// Appends what is wrong with the operands of the weakest operator, and adds them to the parts.
fn write_operation<'a, 't>(
    text: &mut String,
    judge: &Judge<'_, '_>,
    part: &'t [Token<'a>],
    parts: &mut Parts<'a, 't>,
) -> Result<bool, Memory> {
    let logic = position_of(part, LOGIC);
    let comparison = position_of(part, COMPARISONS);
    let Some(at) = logic.or(comparison).or(position_of(part, SUMS)) else {
        return write_factor(text, judge, part, parts);
    };
    let left = part.get(..at).unwrap_or(&[]);
    let right = part.get(at.saturating_add(1)..).unwrap_or(&[]);
    parts.push(right)?;
    parts.push(left)?;
    let sign = word_at(part, at);
    if sign == "=" && logic.is_none() {
        return write_equality(text, judge, left, right);
    }
    let due = if logic.is_some() {
        Kind::Bool
    } else {
        Kind::Int
    };
    write_both(text, judge, sign, due, [left, right])
}

// Appends which of two operands has the wrong kind for an operator.
fn write_both(
    text: &mut String,
    judge: &Judge<'_, '_>,
    sign: &str,
    due: Kind,
    operands: [&[Token<'_>]; 2],
) -> Result<bool, Memory> {
    for operand in operands {
        let kind = kind_of(judge, operand);
        if !matches!(kind, Kind::Any) && assigned(judge.schema, due, kind).is_none() {
            let wanted = if matches!(due, Kind::Bool) {
                "truth values"
            } else {
                "numbers"
            };
            write!(text, "\"{sign}\" wants {wanted}, and ")?;
            write_value(text, operand)?;
            text.push_str(" is ")?;
            write_kind(text, judge, kind)?;
            return Ok(true);
        }
    }
    Ok(false)
}

// Appends that two values can't be compared.
fn write_equality(
    text: &mut String,
    judge: &Judge<'_, '_>,
    left: &[Token<'_>],
    right: &[Token<'_>],
) -> Result<bool, Memory> {
    let (one, other) = (kind_of(judge, left), kind_of(judge, right));
    if matches!(one, Kind::Any) || matches!(other, Kind::Any) || equality(one, other).is_some() {
        return Ok(false);
    }
    match (one, other) {
        (Kind::Bool, Kind::Bool) => {
            text.push_str("\"=\" compares no truth values: write the value alone, or not(..)")?;
        }
        (Kind::Interval, Kind::Interval) => {
            text.push_str("\"=\" compares no intervals: compare low(..) and high(..)")?;
        }
        _ => {
            text.push_str("\"=\" compares two of one kind, and these are ")?;
            write_kind(text, judge, one)?;
            text.push_str(" and ")?;
            write_kind(text, judge, other)?;
        }
    }
    if matches!(one, Kind::Label(_)) {
        write_label_of(text, judge, right)?;
    }
    if matches!(other, Kind::Label(_)) {
        write_label_of(text, judge, left)?;
    }
    Ok(true)
}

// Appends what is wrong with a value without an operator, and adds what is in its brackets to the parts.
fn write_factor<'a, 't>(
    text: &mut String,
    judge: &Judge<'_, '_>,
    part: &'t [Token<'a>],
    parts: &mut Parts<'a, 't>,
) -> Result<bool, Memory> {
    match part {
        [open, inner @ .., _] if open.is("(") => {
            parts.push(inner)?;
            Ok(false)
        }
        [open, inner @ .., _] if open.is("[") => {
            write_pair(text, judge, "\"[ , ]\" wants", inner, parts)
        }
        [unit, dot, slot] if dot.is(".") => write_slot(text, judge, unit.text, slot.text),
        [word, open, inner @ .., _] if open.is("(") => {
            write_function(text, judge, word.text, inner, parts)
        }
        _ => Ok(false),
    }
}

// Appends what is wrong with the arguments of a function, and adds them to the parts.
fn write_function<'a, 't>(
    text: &mut String,
    judge: &Judge<'_, '_>,
    word: &str,
    inner: &'t [Token<'a>],
    parts: &mut Parts<'a, 't>,
) -> Result<bool, Memory> {
    let due = match word {
        "min" => return write_pair(text, judge, "\"min\" wants", inner, parts),
        "max" => return write_pair(text, judge, "\"max\" wants", inner, parts),
        "size" => return write_sequence(text, judge, inner, parts),
        "not" => Kind::Bool,
        _ => Kind::Interval,
    };
    parts.push(inner)?;
    let wants = format!(in judge.alloc; "\"{word}\" wants")?;
    write_due(text, judge, wants.as_str(), due, inner)
}

// Appends which of two values separated by a comma is not a number.
fn write_pair<'a, 't>(
    text: &mut String,
    judge: &Judge<'_, '_>,
    wants: &str,
    inner: &'t [Token<'a>],
    parts: &mut Parts<'a, 't>,
) -> Result<bool, Memory> {
    let Some(at) = position_of(inner, &[","]) else {
        return Ok(false);
    };
    let Some((left, rest)) = inner.split_at_checked(at) else {
        return Ok(false);
    };
    let Some((_comma, right)) = rest.split_first() else {
        return Ok(false);
    };
    parts.push(right)?;
    parts.push(left)?;
    if write_due(text, judge, wants, Kind::Int, left)? {
        return Ok(true);
    }
    write_due(text, judge, wants, Kind::Int, right)
}

/// Appends that a name does not hold a unit, if that is known. Returns whether it does.
pub(crate) fn write_no_unit(
    text: &mut String,
    judge: &Judge<'_, '_>,
    unit: &str,
) -> Result<bool, Memory> {
    let kind = judge.kind_named(unit);
    if matches!(kind, Kind::Any) || class_of(kind).is_some() {
        return Ok(false);
    }
    write!(text, "{unit} is ")?;
    write_kind(text, judge, kind)?;
    text.push_str(", and no unit")?;
    Ok(true)
}

// Appends why a slot is not a value.
fn write_slot(
    text: &mut String,
    judge: &Judge<'_, '_>,
    unit: &str,
    slot: &str,
) -> Result<bool, Memory> {
    if write_no_unit(text, judge, unit)? {
        return Ok(true);
    }
    let Some(class) = judge.class_named(unit) else {
        return Ok(false);
    };
    if value_slot(judge.schema, class, slot).is_ok() {
        return Ok(false);
    }
    let Ok((_, link)) = link_slot(judge.schema, class, slot) else {
        return Ok(false);
    };
    if link.many {
        write!(
            text,
            "{slot} is a link slot that holds many: for n in {unit}.{slot} {{ .. }}"
        )?;
    } else {
        write!(
            text,
            "{slot} is a link slot: with n = {unit}.{slot} {{ .. }}"
        )?;
    }
    Ok(true)
}

// Appends why a unit's slot is not a sequence, or which operand of a search is not an interval, and adds the operands
// to the parts.
fn write_sequence<'a, 't>(
    text: &mut String,
    judge: &Judge<'_, '_>,
    sequence: &'t [Token<'a>],
    parts: &mut Parts<'a, 't>,
) -> Result<bool, Memory> {
    if word_at(sequence, 0) == "find" {
        return write_tests(text, judge, sequence, parts);
    }
    let (unit, slot) = (word_at(sequence, 0), word_at(sequence, 2));
    if write_no_unit(text, judge, unit)? {
        return Ok(true);
    }
    let Some(class) = judge.class_named(unit) else {
        return Ok(false);
    };
    if value_slot(judge.schema, class, slot).is_err() {
        return Ok(false);
    }
    write!(text, "{slot} is no link slot, and so no sequence")?;
    Ok(true)
}

// Appends which operand in the tests of a search should be an interval and is not, and adds the operands to the parts.
fn write_tests<'a, 't>(
    text: &mut String,
    judge: &Judge<'_, '_>,
    sequence: &'t [Token<'a>],
    parts: &mut Parts<'a, 't>,
) -> Result<bool, Memory> {
    for (index, token) in sequence.iter().enumerate() {
        let relation = token.text;
        if is_relation(relation) {
            let operand = operand_of(sequence.get(index.saturating_add(1)..).unwrap_or(&[]));
            parts.push(operand)?;
            if relation != "is" && write_interval(text, judge, relation, operand)? {
                return Ok(true);
            }
        }
    }
    Ok(false)
}

// Returns the tokens of a value up to the comma or bracket after it.
fn operand_of<'a, 't>(tokens: &'t [Token<'a>]) -> &'t [Token<'a>] {
    let mut depth: usize = 0;
    for (index, token) in tokens.iter().enumerate() {
        match token.text {
            "(" | "[" => depth = depth.saturating_add(1),
            ")" | "]" | "," if depth == 0 => return tokens.get(..index).unwrap_or(tokens),
            ")" | "]" => depth = depth.saturating_sub(1),
            _ => {}
        }
    }
    tokens
}

// Appends that a relation needs an interval.
fn write_interval(
    text: &mut String,
    judge: &Judge<'_, '_>,
    relation: &str,
    operand: &[Token<'_>],
) -> Result<bool, Memory> {
    let kind = kind_of(judge, operand);
    if matches!(kind, Kind::Any | Kind::Interval) {
        return Ok(false);
    }
    write!(text, "\"{relation}\" wants an interval")?;
    if !matches!(kind, Kind::Int) {
        text.push_str(", and ")?;
        write_value(text, operand)?;
        text.push_str(" is ")?;
        write_kind(text, judge, kind)?;
        return Ok(true);
    }
    if operand.len() > 3 {
        text.push_str(": [E, E]")?;
        return Ok(true);
    }
    text.push_str(": [")?;
    write_value(text, operand)?;
    text.push_str(", ")?;
    write_value(text, operand)?;
    text.push_str("]")?;
    Ok(true)
}
