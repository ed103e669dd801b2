//! The message on a fault of a source's code. Reports (bb_diag) call it.

use crate::clauses::Reason;
use crate::mismatch::write_mismatch;
use crate::others::{write_effect, write_end, write_limit};
use crate::units::{write_gone, write_space, write_wrong_class};
use crate::unknown::write_unknown;
use bb_basis::Memory;
use bb_compile_scope::{Place, TextFlaw};
use bb_diag_source::scope::{Judge, Statement};
use bb_diag_text::{Piece, source_tokens};
use bb_schema::Schema;
use std::alloc::Global;

// The maximum number of tokens of a statement that is examined: the time is quadratic in it.
const LONGEST: usize = 8_192;

/// The fault of a source, and its location.
#[derive(Clone, Copy, Debug)]
pub struct Found<'a> {
    /// The name of the source.
    pub name: &'a str,
    pub flaw: TextFlaw,
    pub place: Place,
}

/// Explains the fault in the statement at the fault's location: the word at fault, or else the statement, and a text
/// without a line feed; `None` if there is nothing to add to the fault's own sentence. The source is the first one with
/// the name in a piece of a text. `Memory`: memory ran out.
pub fn explain_statement(
    alloc: Global,
    schema: &Schema,
    piece: Piece<'_>,
    found: Found<'_>,
) -> Result<Option<Reason>, Memory> {
    let tokens = source_tokens(alloc, piece, found.name)?;
    let Some(statement) = Statement::at(tokens.as_slice(), found.place) else {
        return Ok(None);
    };
    if statement.tokens().len() > LONGEST {
        return Ok(None);
    }
    let judge = Judge::before(alloc, schema, statement)?;
    let mut text = String::new(alloc);
    let mut word = None;
    match found.flaw {
        TextFlaw::Unknown => word = write_unknown(&mut text, &judge, statement)?,
        TextFlaw::Kind => write_mismatch(&mut text, &judge, statement)?,
        TextFlaw::DeadName => word = write_gone(&mut text, &judge, statement)?,
        TextFlaw::LinkClass => write_wrong_class(&mut text, &judge, statement)?,
        TextFlaw::Space => write_space(&mut text, &judge, statement)?,
        TextFlaw::Effect => write_effect(&mut text, &judge, statement)?,
        TextFlaw::NoEnd => write_end(&mut text, &judge, statement)?,
        TextFlaw::Limit => write_limit(&mut text, &judge, statement)?,
    }
    if text.is_empty() {
        return Ok(None);
    }
    Ok(Some(Reason {
        place: word.unwrap_or(found.place),
        number: found.flaw.number(),
        text,
    }))
}
