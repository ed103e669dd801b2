//! The message on a fault of a text. Reports (bb_diag) call it.

use crate::characters::write_character;
use crate::limits::{write_limit, write_nesting, write_twice};
use crate::slips::write_slip;
use crate::tokens::write_token;
use bb_basis::Memory;
use bb_diag_text::{Piece, Spot, TokenKind, look, write_phrase};
use bb_lang_tree::{LangFault, Place};
use std::alloc::Global;

// The kinds of fault that have a location.
#[derive(Clone, Copy, Debug)]
enum Kind {
    Character,
    Token,
    Nesting,
    Twice,
    Limit,
}

// Returns the kind and the location of a fault that more can be said about.
fn kind_of(fault: LangFault) -> Option<(Kind, Place)> {
    match fault {
        LangFault::Character { place } => Some((Kind::Character, place)),
        LangFault::Token { place } => Some((Kind::Token, place)),
        LangFault::Nesting { place } => Some((Kind::Nesting, place)),
        LangFault::Twice { place } => Some((Kind::Twice, place)),
        LangFault::Limit { place } => Some((Kind::Limit, place)),
        LangFault::Memory => None,
    }
}

/// Explains the fault at a location in a piece of a text, without a line feed; `None` if nothing can be added to the
/// fault's own sentence. The location is given for the whole text, `source`. `Memory`: memory ran out.
pub fn explain(
    alloc: Global,
    source: &str,
    piece: Piece<'_>,
    fault: LangFault,
) -> Result<Option<String>, Memory> {
    let Some((kind, place)) = kind_of(fault) else {
        return Ok(None);
    };
    let spot = look(alloc, piece, place.line, place.column)?;
    let mut text = String::new(alloc);
    match kind {
        Kind::Character => write_character(&mut text, &spot, source)?,
        Kind::Token => write_token(&mut text, &spot)?,
        Kind::Nesting => write_nesting(&mut text, &spot)?,
        Kind::Twice => write_twice(&mut text, &spot, source)?,
        Kind::Limit => write_limit(&mut text, &spot)?,
    }
    if text.is_empty() {
        return Ok(None);
    }
    Ok(Some(text))
}

/// Explains what to write instead of an operator of another language, without a line feed. `Memory`: memory ran out.
pub fn explain_operator(alloc: Global, source: &str, spot: &Spot<'_>) -> Result<String, Memory> {
    let mut text = String::new(alloc);
    if write_slip(&mut text, spot)? {
        return Ok(text);
    }
    if spot.at.kind == TokenKind::Other {
        write_character(&mut text, spot, source)?;
    } else {
        write_phrase(&mut text, "no", spot.at.text)?;
        text.push_str(" stands here")?;
    }
    Ok(text)
}
