//! A blackboard as lines. Cases compare two blackboards by them.

ghost use Rattle.std.specs.Prelude.{IsTrue};
ghost use Rattle.bb_units.specs.Units.{is_live};

use crate::machines::executions::add_notes;
use bb_board::Board;
use bb_schema::{SlotId, UnitId};
use bb_trace::add_value;
use std::alloc::{AllocError, Global};
use std::fmt::Write;

/// Appends the number of the next unit, every unit with its class and values, and the notes when the units are deleted
/// one after another, which show their links and spaces. No unit is left afterwards.
pub(crate) fn add_picture(
    alloc: Global,
    text: &mut String,
    board: &mut Board,
) -> Result<(), AllocError> {
    let next = board.next();
    writeln!(text, "next {next}")?;
    for unit in 1..next {
        if board.live(unit) {
            add_unit(alloc, text, board, unit)?;
            board.delete(unit)?;
        }
    }
    add_notes(alloc, text, board)
}

// Appends the class of a live unit, and the values of its ordinary slots.
fn add_unit(alloc: Global, text: &mut String, board: &Board, unit: UnitId) -> Result<(), AllocError>
    requires { IsTrue (is_live board.now.world.units unit) }
{
    let class = board.class_of(unit);
    write!(text, "unit {unit} of {class}:")?;
    let count = SlotId::try_from(board.schema().slot_count()).unwrap_or(SlotId::MAX);
    for slot in 0..count {
        if board.has(unit, slot) {
            text.push_str(" ")?;
            add_value(alloc, text, board.schema(), board.get(unit, slot))?;
        }
    }
    text.push_str("\n")
}
