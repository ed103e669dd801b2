//! The messages on misplaced statements, and on limits.

use crate::unknown::is_relation;
use bb_basis::{Memory, Names};
use bb_code::{
    LOCAL_LIMIT, NODE_LIMIT, OP_LIMIT, OPERAND_LIMIT, QUERY_LIMIT, SAID_LIMIT, TEXT_COUNT_LIMIT,
};
use bb_diag_source::scope::{Judge, Statement, position_of, word_at};
use bb_diag_text::{Token, TokenKind, write_quoted};
use std::fmt::Write;

// The maximum nesting of loops.
const MOST_LOOPS: usize = 4;

/// Appends the change that was found, and the part that has it.
pub(crate) fn write_effect(
    text: &mut String,
    judge: &Judge<'_, '_>,
    statement: Statement<'_, '_>,
) -> Result<(), Memory> {
    let (word, part) = (statement.word(0), judge.part);
    write!(
        text,
        "\"{word}\" stands in \"do\" alone, and this is \"{part}\""
    )
}

// Returns how a part ends.
fn end_of(part: &str) -> &'static str {
    match part {
        "require" | "retrigger" => "rate E; or decline;",
        _ => "answer E;",
    }
}

/// Appends that a path through a part has no end, that an end belongs to another part, or that a statement follows an
/// end.
pub(crate) fn write_end(
    text: &mut String,
    judge: &Judge<'_, '_>,
    statement: Statement<'_, '_>,
) -> Result<(), Memory> {
    let word = statement.word(0);
    match word {
        "require" | "retrigger" => {
            write!(
                text,
                "\"{word}\" may end without rate E; or decline; add decline; before its last \"}}\""
            )
        }
        "obviate" | "revalidate" => {
            write!(
                text,
                "\"{word}\" may end without answer E; add answer false; before its last \"}}\""
            )
        }
        "rate" | "decline" if !matches!(judge.part, "require" | "retrigger") => write_other_end(
            text, judge, word,
        ),
        "answer" if !matches!(judge.part, "obviate" | "revalidate") => write_other_end(
            text, judge, word,
        ),
        _ => text.push_str("no statement may stand here: the one before always ends the part"),
    }
}

// Appends that a statement can't end a part.
fn write_other_end(text: &mut String, judge: &Judge<'_, '_>, word: &str) -> Result<(), Memory> {
    let part = judge.part;
    write_quoted(text, word)?;
    text.push_str(" ends no ")?;
    write_quoted(text, part)?;
    if part == "do" {
        return text.push_str(", which ends behind its last statement");
    }
    text.push_str(": write ")?;
    text.push_str(end_of(part))
}

/// Appends which limit a statement or a part exceeds.
pub(crate) fn write_limit(
    text: &mut String,
    judge: &Judge<'_, '_>,
    statement: Statement<'_, '_>,
) -> Result<(), Memory> {
    if is_part(statement.word(0)) {
        return write_limit_of_part(text, judge, statement);
    }
    let tokens = statement.tokens();
    let values = count_of(tokens);
    match statement.word(0) {
        "say" if values > SAID_LIMIT as usize => {
            write!(
                text,
                "{values} values, and \"say\" takes {SAID_LIMIT} at most"
            )
        }
        "for" if open_loops(judge) >= MOST_LOOPS => text.push_str(
            "four loops stand around this one, as many as there may be",
        ),
        _ if words(tokens, "find") == 1 => write_pattern(text, tokens),
        _ => Ok(()),
    }
}

// Appends that the only search of a statement has too many tests or too many nodes, if it has.
fn write_pattern(text: &mut String, tokens: &[Token<'_>]) -> Result<(), Memory> {
    let tests = tokens.iter().filter(|it| is_relation(it.text)).count();
    if tests > OPERAND_LIMIT {
        return write!(
            text,
            "{tests} tests, and a search has {OPERAND_LIMIT} at most"
        );
    }
    let nodes = tests.saturating_add(connectives(tokens));
    if nodes <= NODE_LIMIT {
        return Ok(());
    }
    write!(
        text,
        "{nodes} tests, \"all\", \"and\", \"or\" and \"not\", and a search has {NODE_LIMIT} at most"
    )
}

// Counts the `all`, `and(..)`, `or(..)` and `not(..)` of a pattern.
fn connectives(tokens: &[Token<'_>]) -> usize {
    let mut count: usize = 0;
    let mut before = "";
    for (index, token) in tokens.iter().enumerate() {
        let opens = word_at(tokens, index.saturating_add(1)) == "(";
        let is_first = matches!(before, "where" | "(" | ",");
        let is_one = match token.text {
            "all" => is_first,
            "and" | "or" | "not" => is_first && opens,
            _ => false,
        };
        if is_one {
            count = count.saturating_add(1);
        }
        before = token.text;
    }
    count
}

// Counts the loops around a statement: each declares a name that no text can have.
fn open_loops(judge: &Judge<'_, '_>) -> usize {
    judge.known.iter().filter(|it| it.name.is_empty()).count()
}

// Whether a word begins a part.
fn is_part(word: &str) -> bool {
    matches!(
        word,
        "do" | "require" | "obviate" | "retrigger" | "revalidate"
    )
}

// Appends which limit a part exceeds. If it exceeds no other limit, it has too many ops.
fn write_limit_of_part(
    text: &mut String,
    judge: &Judge<'_, '_>,
    part: Statement<'_, '_>,
) -> Result<(), Memory> {
    if Judge::most_names(judge.alloc, judge.schema, part)? > LOCAL_LIMIT as usize {
        write!(
            text,
            "more than {LOCAL_LIMIT} names at once: \"it\" and \"ev\" are names too, and "
        )?;
        return text.push_str("each open \"for\" has two");
    }
    let tokens = block_of(part.rest());
    let texts = different_texts(judge, tokens)?;
    if texts > TEXT_COUNT_LIMIT as usize {
        return write!(
            text,
            "{texts} different texts, and a part has {TEXT_COUNT_LIMIT} at most"
        );
    }
    let finds = words(tokens, "find");
    if finds > QUERY_LIMIT as usize {
        return write!(
            text,
            "{finds} \"find\", and a part has {QUERY_LIMIT} at most"
        );
    }
    write!(
        text,
        "more than {OP_LIMIT} ops, which are the steps of a part: cut the source in two"
    )
}

// Returns the tokens of a part up to the end of its block.
fn block_of<'a, 't>(tokens: &'t [Token<'a>]) -> &'t [Token<'a>] {
    let mut depth: usize = 0;
    for (index, token) in tokens.iter().enumerate() {
        if token.is("{") {
            depth = depth.saturating_add(1);
        } else if token.is("}") {
            depth = depth.saturating_sub(1);
            if depth == 0 {
                return tokens.get(..index).unwrap_or(tokens);
            }
        }
    }
    tokens
}

// Counts the different text constants.
fn different_texts(judge: &Judge<'_, '_>, tokens: &[Token<'_>]) -> Result<usize, Memory> {
    let mut texts = Names::new(judge.alloc);
    for token in tokens {
        if token.kind == TokenKind::Text {
            texts.insert(judge.alloc, token.text)?;
        }
    }
    Ok(texts.len())
}

// Counts the occurrences of a reserved word. After a `.` it is a slot, which does not count.
fn words(tokens: &[Token<'_>], word: &str) -> usize {
    let mut count: usize = 0;
    let mut before = "";
    for token in tokens {
        if token.is(word) && before != "." {
            count = count.saturating_add(1);
        }
        before = token.text;
    }
    count
}

// Counts the values separated by commas outside brackets.
fn count_of(tokens: &[Token<'_>]) -> usize {
    let mut count: usize = 1;
    let mut rest = tokens;
    for _turn in 0..tokens.len() {
        let Some(at) = position_of(rest, &[","]) else {
            return count;
        };
        rest = rest.get(at.saturating_add(1)..).unwrap_or(&[]);
        count = count.saturating_add(1);
    }
    count
}
