//! The parts of sources that an entry fits. A table of runs does not state the parts of its codes; all of these are
//! therefore tried.

use crate::machines::accepted::entry_fits;
use bb_board::Board;
use bb_machine::Entry;
use bb_schema::ClassId;
use bb_verify::Part;
use std::alloc::{AllocError, Global};

/// Returns the parts that an entry fits, for all classes of the blackboard's schema.
pub(crate) fn fitting_parts(
    alloc: Global,
    board: &Board,
    entry: Entry,
) -> Result<Vec<Part>, AllocError> {
    let mut parts = Vec::new(alloc);
    for class in 0..board.schema().class_count() as ClassId {
        match entry.ev {
            None => {
                add_fitting(&mut parts, board, entry, Part::Do { class })?;
                add_fitting(&mut parts, board, entry, Part::Require { class })?;
                add_fitting(&mut parts, board, entry, Part::Revalidate { class })?;
            }
            Some(_) => add_reactions(&mut parts, board, entry, class)?,
        }
    }
    Ok(parts)
}

// Adds the parts of a class that answer an event, if the entry fits them.
fn add_reactions(
    parts: &mut Vec<Part>,
    board: &Board,
    entry: Entry,
    class: ClassId,
) -> Result<(), AllocError> {
    for of in 0..board.schema().class_count() as ClassId {
        add_fitting(parts, board, entry, Part::Obviate { class, of })?;
        add_fitting(parts, board, entry, Part::Retrigger { class, of })?;
    }
    Ok(())
}

// Adds a part if the entry fits it.
fn add_fitting(
    parts: &mut Vec<Part>,
    board: &Board,
    entry: Entry,
    part: Part,
) -> Result<(), AllocError> {
    if entry_fits(board, part, entry) {
        parts.push(part)?;
    }
    Ok(())
}
