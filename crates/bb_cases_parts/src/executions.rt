//! The execution of a code on the blackboard of a scene, for cases of codes and tables of runs.

use crate::board::board_of;
use crate::machines::{Asked, Boards, Entry, add_execution};
use bb_cases_format::{Fault, Scene, number};
use bb_code::Code;
use std::alloc::Global;

/// Returns the units of an entry, `N` or `N:M`. `Number`: one is not a number.
pub fn entry_of(word: &str) -> Result<Entry, Fault> {
    let (it, ev) = match word.split_once(':') {
        None => (word, None),
        Some((it, ev)) => (it, Some(number(ev)?)),
    };
    let it = number(it)?;
    Ok(Entry { it, ev })
}

/// Executes a code on the blackboard of a scene, and appends how it ends and the lines of its notes.
pub fn add_on_scene(
    alloc: Global,
    text: &mut String,
    scene: &Scene,
    code: &Code,
    asked: Asked,
) -> Result<(), Fault> {
    let mut boards = Boards {
        tested: board_of(alloc, scene)?,
        verified: board_of(alloc, scene)?,
    };
    Ok(add_execution(alloc, text, &mut boards, code, asked)?)
}
