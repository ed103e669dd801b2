//! Expands the inserts of a text. Every text of a case goes through `expanded`.

use crate::codes::hex_of;
use crate::fault::Fault;
use crate::header::number;
use crate::names::Names;
use crate::pieces::{Piece, cut};
use std::alloc::Global;

// The maximum nesting of inserts.
const DEPTH_LIMIT: u8 = 8;

// What ends the first word of an insert.
const BETWEEN: [char; 2] = [' ', '\n'];

/// The possible meanings of inserts at a location.
#[derive(Clone, Copy)]
pub struct Scope<'a> {
    alloc: Global,
    names: &'a Names,
    // The iteration number, from 0, inside a `$(times)`.
    n: Option<u64>,
    // The iteration number of the `$(times)` around that one.
    m: Option<u64>,
}

impl<'a> Scope<'a> {
    /// Makes the scope outside `$(times)`.
    pub fn new(alloc: Global, names: &'a Names) -> Scope<'a> {
        Scope {
            alloc,
            names,
            n: None,
            m: None,
        }
    }

    // Returns the product of the words between `*`.
    fn product(self, text: &str) -> Result<u64, Fault> {
        let mut product = 1u64;
        for word in text.split('*') {
            let factor = match word {
                "n" => self.n.ok_or(Fault::Insert)?,
                "m" => self.m.ok_or(Fault::Insert)?,
                _ => number(word)?,
            };
            product = product.checked_mul(factor).ok_or(Fault::Number)?;
        }
        Ok(product)
    }

    // Returns the sum of the products between `+`.
    fn sum(self, text: &str) -> Result<u64, Fault> {
        let mut sum = 0u64;
        for part in text.split('+') {
            sum = sum.checked_add(self.product(part)?).ok_or(Fault::Number)?;
        }
        Ok(sum)
    }
}

/// Returns the bytes of a text with its inserts expanded.
pub fn expanded(scope: Scope<'_>, text: &str) -> Result<Vec<u8>, Fault> {
    let mut out = Vec::new(scope.alloc);
    put(scope, text, DEPTH_LIMIT, &mut out)?;
    Ok(out)
}

/// Returns a text with its inserts expanded. `Utf8`: the result is not UTF-8.
pub fn expanded_text(scope: Scope<'_>, text: &str) -> Result<String, Fault> {
    let bytes = expanded(scope, text)?;
    Ok(String::from_str(scope.alloc, text_of(&bytes)?)?)
}

/// Returns bytes as a text. `Utf8`: they are not UTF-8.
pub(crate) fn text_of(bytes: &[u8]) -> Result<&str, Fault> {
    str::from_utf8(bytes).ok().ok_or(Fault::Utf8)
}

// Appends a text with its inserts expanded.
#[cycle(putting)]
fn put(scope: Scope<'_>, text: &str, depth: u8, out: &mut Vec<u8>) -> Result<(), Fault> {
    for piece in &cut(scope.alloc, text)? {
        match *piece {
            Piece::Text(text) => out.extend_from_slice(text.as_bytes())?,
            Piece::Insert(insert) => put_insert(scope, insert, depth, out)?,
        }
    }
    Ok(())
}

// Appends the meaning of an insert.
#[cycle(putting)]
fn put_insert(scope: Scope<'_>, insert: &str, depth: u8, out: &mut Vec<u8>) -> Result<(), Fault> {
    if depth == 0 {
        return Err(Fault::Depth);
    }
    let (word, rest) = insert.split_once(BETWEEN).unwrap_or((insert, ""));
    match word {
        "times" => put_times(scope, rest, depth - 1, out),
        "code" => put_code(scope, rest, depth - 1, out),
        "byte" => put_bytes(rest, out),
        _ => put_value(scope, insert, out),
    }
}

// Appends a text repeatedly, as often as the number before it says.
#[cycle(putting)]
fn put_times(scope: Scope<'_>, text: &str, depth: u8, out: &mut Vec<u8>) -> Result<(), Fault> {
    let (word, text) = text.split_once(BETWEEN).unwrap_or((text, ""));
    let has_inserts = text.contains("$(");
    for turn in 0..number::<u64>(word)? {
        if has_inserts {
            let scope = Scope {
                n: Some(turn),
                m: scope.n,
                ..scope
            };
            put(scope, text, depth, out)?;
        } else {
            out.extend_from_slice(text.as_bytes())?;
        }
    }
    Ok(())
}

// Appends the bytes of the code of a text, in hex.
#[cycle(putting)]
fn put_code(scope: Scope<'_>, text: &str, depth: u8, out: &mut Vec<u8>) -> Result<(), Fault> {
    let mut code = Vec::new(scope.alloc);
    put(scope, text, depth, &mut code)?;
    let digits = hex_of(scope.alloc, text_of(&code)?)?;
    out.extend_from_slice(digits.as_bytes())?;
    Ok(())
}

// Appends bytes that are written in hex.
fn put_bytes(words: &str, out: &mut Vec<u8>) -> Result<(), Fault> {
    for word in words.split(' ') {
        let byte = u8::from_str_radix(word, 16).ok().ok_or(Fault::Hex)?;
        out.push(byte)?;
    }
    Ok(())
}

// Appends a number, or the meaning of a name.
fn put_value(scope: Scope<'_>, insert: &str, out: &mut Vec<u8>) -> Result<(), Fault> {
    if insert == "n" || insert == "m" || insert.contains(['+', '*']) {
        let sum = scope.sum(insert)?;
        out.extend_from_slice(format!(in scope.alloc; "{sum}")?.as_bytes())?;
    } else {
        let text = scope.names.text(insert)?;
        out.extend_from_slice(text.strip_suffix(b"\n".as_slice()).unwrap_or(text))?;
    }
    Ok(())
}
