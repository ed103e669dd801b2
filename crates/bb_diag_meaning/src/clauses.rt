//! The message on a clause of a source that does not fit its class: the location of the clause, and its fault.

use crate::unknown::{write_no_class, write_no_slot_of, write_no_space};
use bb_basis::Memory;
use bb_compile_scope::{ClassId, Place};
use bb_diag_source::scope::{Judge, until_end, word_at};
use bb_diag_text::{Piece, Token, source_tokens};
use bb_schema::Schema;
use std::alloc::Global;
use std::fmt::Write;

// The numbers of the faults that a clause can have.
const SLOT: u8 = 1;

const SPACE: u8 = 2;

const CLASS: u8 = 5;

/// A clause of a source.
#[derive(Clone, Copy, Debug)]
pub struct Clause<'a> {
    /// The name of the source.
    pub source: &'a str,
    /// The word of the reaction it belongs to: `obviate`, `retrigger`; empty for a trigger.
    pub reaction: &'a str,
    /// Its index in that list, from 0.
    pub index: usize,
}

/// The location of the fault of a clause or a statement, and its explanation.
#[derive(Drop)]
pub struct Reason {
    pub place: Place,
    /// The number of the fault: of a clause 1 slot, 2 space, 5 class.
    pub number: u8,
    pub text: String,
}

// Returns where a clause begins among the tokens of its source.
fn position_of(tokens: &[Token<'_>], clause: Clause<'_>) -> Option<usize> {
    let mut depth: usize = 0;
    let mut reaction = "";
    let mut count: usize = 0;
    let mut before = "";
    for (index, token) in tokens.iter().enumerate() {
        match token.text {
            "{" => depth = depth.saturating_add(1),
            "}" => depth = depth.saturating_sub(1),
            "obviate" | "retrigger" if depth == 1 && before != "." => reaction = token.text,
            "when" if depth == 1 && before != "." && reaction == clause.reaction => {
                if count == clause.index {
                    return Some(index);
                }
                count = count.saturating_add(1);
            }
            _ => {}
        }
        before = token.text;
    }
    None
}

// Returns the name of the class that a clause's class has to equal or descend from: the word after the last `on`.
fn class_before<'a>(tokens: &[Token<'a>], index: usize) -> &'a str {
    let before = tokens.get(..index).unwrap_or(&[]);
    match before.iter().rposition(|it| it.is("on")) {
        Some(at) => word_at(tokens, at.saturating_add(1)),
        None => "",
    }
}

/// Explains the fault of a clause of a text of sources; `None` if the text lacks the clause or no fault is found. The
/// source is the first one with the name in a piece of a text. `Memory`: memory ran out.
pub fn explain_clause(
    alloc: Global,
    schema: &Schema,
    piece: Piece<'_>,
    clause: Clause<'_>,
) -> Result<Option<Reason>, Memory> {
    let tokens = source_tokens(alloc, piece, clause.source)?;
    let Some(index) = position_of(tokens.as_slice(), clause) else {
        return Ok(None);
    };
    let own = class_before(tokens.as_slice(), index);
    reason_at(alloc, schema, tokens.as_slice(), index, own)
}

/// Explains the fault of the first clause of a source that does not fit; `None` if all fit. The source is the first one
/// with the name in a piece of a text. `Memory`: memory ran out.
pub fn explain_clauses(
    alloc: Global,
    schema: &Schema,
    piece: Piece<'_>,
    name: &str,
) -> Result<Option<Reason>, Memory> {
    let tokens = source_tokens(alloc, piece, name)?;
    let mut own = "";
    let mut before = "";
    for (index, token) in tokens.iter().enumerate() {
        if token.is("on") && before != "." {
            own = word_at(tokens.as_slice(), index.saturating_add(1));
        }
        if token.is("when") && before != "." {
            let found = reason_at(alloc, schema, tokens.as_slice(), index, own)?;
            if found.is_some() {
                return Ok(found);
            }
        }
        before = token.text;
    }
    Ok(None)
}

// Returns where the clause at an index of tokens is, and what is wrong with it, if anything is. `own` is the class of
// its source or reaction.
fn reason_at(
    alloc: Global,
    schema: &Schema,
    tokens: &[Token<'_>],
    index: usize,
    own: &str,
) -> Result<Option<Reason>, Memory> {
    let Some(first) = tokens.get(index) else {
        return Ok(None);
    };
    let place = Place {
        line: first.line,
        column: first.column,
    };
    let event = until_end(tokens.get(index..).unwrap_or(&[]));
    let mut text = String::new(alloc);
    let number = write_clause(&mut text, &Judge::of(alloc, schema), own, event)?;
    if text.is_empty() {
        return Ok(None);
    }
    Ok(Some(Reason {
        place,
        number,
        text,
    }))
}

// Appends what is wrong with a clause, and returns the number of that fault; `own` is the class of its source or
// reaction.
fn write_clause(
    text: &mut String,
    judge: &Judge<'_, '_>,
    own: &str,
    event: &[Token<'_>],
) -> Result<u8, Memory> {
    let name = word_at(event, 2);
    let word = word_at(event, 1);
    if word == "quiescence" {
        return Ok(CLASS);
    }
    let Some(class) = judge.schema.class(name) else {
        let _found = write_no_class(text, judge, name)?;
        return Ok(CLASS);
    };
    if let Some(above) = judge.schema.class(own) {
        if !judge.schema.descends(class, above) {
            write!(
                text,
                "class {name} is neither {own}, which stands behind \"on\", nor below it"
            )?;
            return Ok(CLASS);
        }
    }
    match word {
        "update" | "link" | "unlink" => {
            write_slot(text, judge, class, event, word)?;
            Ok(SLOT)
        }
        "enter" | "leave" => {
            let _found = write_no_space(text, judge, word_at(event, 3))?;
            Ok(SPACE)
        }
        _ => Ok(CLASS),
    }
}

// Appends what is wrong with the slot of a clause.
fn write_slot(
    text: &mut String,
    judge: &Judge<'_, '_>,
    class: ClassId,
    event: &[Token<'_>],
    word: &str,
) -> Result<(), Memory> {
    let (name, slot) = (word_at(event, 2), word_at(event, 4));
    if write_no_slot_of(text, judge, class, slot)? {
        return Ok(());
    }
    let is_link = judge
        .schema
        .slot(class, slot)
        .is_some_and(|it| judge.schema.is_link(it));
    if is_link && word == "update" {
        return write!(text, "{slot} is a link slot: when link {name}.{slot};");
    }
    if !is_link && word != "update" {
        return write!(text, "{slot} is no link slot: when update {name}.{slot};");
    }
    Ok(())
}
