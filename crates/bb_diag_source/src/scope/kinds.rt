//! The kinds of values, as far as their tokens show them, and how messages call them.

use crate::scope::judge::Judge;
use crate::scope::statement::word_at;
use bb_basis::Memory;
use bb_code::Kind;
use bb_compile_scope::value_slot;
use bb_diag_text::{Token, TokenKind, write_shown};
use std::fmt::Write;

// The maximum number of brackets stripped from a value.
const BRACKETS: usize = 64;

/// Operators in three groups, the weakest binding first. All of a group have the same kind of result.
pub const LOGIC: &[&str] = &["or", "and"];

pub const COMPARISONS: &[&str] = &["<", "<=", "="];

pub const SUMS: &[&str] = &["+", "-", "*", "/", "%"];

// Returns whether a `-` after this word is the sign of a number.
fn is_before_sign(word: &str) -> bool {
    matches!(
        word,
        "" | "(" | "[" | "," | "or" | "and" | "<" | "<=" | "=" | "+" | "-" | "*"
    )
}

/// Returns the index of the first of some operators outside all brackets. The first token and the sign of a number do
/// not count.
pub fn position_of(tokens: &[Token<'_>], words: &[&str]) -> Option<usize> {
    let mut depth: usize = 0;
    let mut before = "";
    for (index, token) in tokens.iter().enumerate() {
        let word = token.text;
        let is_sign = word == "-" && is_before_sign(before);
        if depth == 0 && !is_sign && index > 0 && words.iter().any(|it| *it == word) {
            return Some(index);
        }
        match word {
            "(" | "[" => depth = depth.saturating_add(1),
            ")" | "]" => depth = depth.saturating_sub(1),
            _ => {}
        }
        before = word;
    }
    None
}

/// Returns the kind of a value, as far as its tokens show it, else `Any`.
pub fn kind_of(judge: &Judge<'_, '_>, value: &[Token<'_>]) -> Kind {
    let mut value = value;
    for _turn in 0..BRACKETS {
        if position_of(value, LOGIC).is_some() || position_of(value, COMPARISONS).is_some() {
            return Kind::Bool;
        }
        if position_of(value, SUMS).is_some() {
            return Kind::Int;
        }
        match value {
            [open, inner @ .., _] if open.is("(") => value = inner,
            _ => return kind_of_factor(judge, value),
        }
    }
    Kind::Any
}

// Returns the kind of a value without an operator.
fn kind_of_factor(judge: &Judge<'_, '_>, value: &[Token<'_>]) -> Kind {
    let Some(first) = value.first() else {
        return Kind::Any;
    };
    match first.kind {
        TokenKind::Int => return Kind::Int,
        TokenKind::Text => return Kind::Text,
        _ => {}
    }
    match first.text {
        "-" | "size" | "low" | "high" | "min" | "max" => Kind::Int,
        "[" => Kind::Interval,
        "not" | "true" | "false" => Kind::Bool,
        name => kind_of_name(judge, name, word_at(value, 1), word_at(value, 2)),
    }
}

// Returns the kind of a name, which may have a slot or a label.
fn kind_of_name(judge: &Judge<'_, '_>, name: &str, sign: &str, member: &str) -> Kind {
    match sign {
        ":" => judge
            .schema
            .label_set(name)
            .map_or(Kind::Any, |set| Kind::Label(set)),
        "." => match judge.class_named(name) {
            None => Kind::Any,
            Some(class) => match value_slot(judge.schema, class, member) {
                Ok((_, kind)) => kind,
                Err(_) => Kind::Any,
            },
        },
        _ => judge.kind_named(name),
    }
}

/// Appends a kind in words.
pub fn write_kind(text: &mut String, judge: &Judge<'_, '_>, kind: Kind) -> Result<(), Memory> {
    match kind {
        Kind::Any => text.push_str("of another kind"),
        Kind::Int => text.push_str("a number"),
        Kind::Text => text.push_str("a text"),
        Kind::Bool => text.push_str("a truth value"),
        Kind::Label(_) => text.push_str("a label"),
        Kind::Interval => text.push_str("an interval"),
        Kind::Ref(class) | Kind::Old(class) => {
            write!(text, "a unit of class {}", judge.class_name(class))
        }
        Kind::Seq(class) => write!(text, "a sequence of class {}", judge.class_name(class)),
    }
}

/// Appends a value as the text has it, or "this" if it has more than three tokens.
pub fn write_value(text: &mut String, value: &[Token<'_>]) -> Result<(), Memory> {
    if value.len() > 3 {
        return text.push_str("this");
    }
    for token in value {
        write_shown(text, token.text)?;
    }
    Ok(())
}
