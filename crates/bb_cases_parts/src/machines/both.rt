//! One execution by both machines. Cases of codes and rows of a table of runs (bb_cases) ask for it.

use crate::machines::accepted::add_accepted;
use crate::machines::executions::{Asked, add_trial};
use crate::machines::fitting::fitting_parts;
use crate::machines::pictures::add_picture;
use bb_board::Board;
use bb_cases_format::Difference;
use bb_code::Code;
use std::alloc::{AllocError, Global};
use std::fmt::Write;

/// Two equal blackboards.
#[derive(Drop)]
pub struct Boards {
    /// For the machine that tests each op.
    pub tested: Board,
    /// For the machine for verified code.
    pub verified: Board,
}

/// Executes a code by the machine that tests each op, and appends how it ends and the lines of its notes. If it ends
/// within the limit of steps, the machine for verified code executes it too, for the part, or else for the first part
/// that accepts it. A line is appended if the outcome differs.
pub fn add_execution(
    alloc: Global,
    text: &mut String,
    boards: &mut Boards,
    code: &Code,
    asked: Asked,
) -> Result<(), AllocError> {
    let mut lines = String::new(alloc);
    let ended = add_trial(alloc, &mut lines, &mut boards.tested, code, asked)?;
    text.push_str(lines.as_str())?;
    if !ended {
        return Ok(());
    }
    let mut others = String::new(alloc);
    if !add_verified(&mut others, &mut boards.verified, code, asked)? {
        return Ok(());
    }
    add_picture(alloc, &mut lines, &mut boards.tested)?;
    add_picture(alloc, &mut others, &mut boards.verified)?;
    add_difference(alloc, text, lines.as_str(), others.as_str())
}

// Executes a code by the machine for verified code, for its part, or else for the first part that accepts it, and
// appends how it ends and the lines of its notes. Returns whether it was accepted.
fn add_verified(
    lines: &mut String,
    board: &mut Board,
    code: &Code,
    asked: Asked,
) -> Result<bool, AllocError> {
    if let Some(part) = asked.part {
        return add_accepted(lines, board, code, part, asked.entry);
    }
    let parts = fitting_parts(*lines.allocator(), board, asked.entry)?;
    for part in &parts {
        if add_accepted(lines, board, code, *part, asked.entry)? {
            return Ok(true);
        }
    }
    Ok(false)
}

// Appends the first line where the outcome of verified code differs, if there is one.
fn add_difference(
    alloc: Global,
    text: &mut String,
    lines: &str,
    others: &str,
) -> Result<(), AllocError> {
    match Difference::of(alloc, lines.as_bytes(), others.as_bytes())? {
        None => Ok(()),
        Some(difference) => {
            let given = difference.given.as_str();
            writeln!(text, "verified code gives {given}")
        }
    }
}
