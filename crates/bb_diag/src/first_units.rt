//! The initial units of an input, judged apart from a run. A check (bb_main) does not need them; it adds why they would
//! be refused, or advice that follows from what they note.

use crate::heading::Severity;
use crate::reporting::{Input, write_message};
use bb_basis::Memory;
use bb_board::{Board, Note, UnitsFault};
use bb_diag_input::documents::{json_of, text_at};
use bb_diag_text::FirstFocus;
use bb_refusal::InputFault;
use bb_schema::Schema;
use bb_schema_classes::ClassId;
use serde_json::Value;
use std::alloc::Global;

/// The initial units of an input.
#[derive(Drop)]
pub enum FirstUnits {
    /// They would be refused: the warning for people, in the form of `report`.
    Refused(String),
    /// They are accepted, and note these changes.
    Noted {
        notes: Vec<Note>,
        /// The foci among them, in order.
        foci: Vec<FirstFocus>,
    },
}

/// Judges the initial units of an input. Returns `None` if the schema is refused. `Memory`: memory ran out.
pub fn read_first_units(alloc: Global, input: Input<'_>) -> Result<Option<FirstUnits>, Memory> {
    let Ok(schema) = Schema::read(alloc, input.schema) else {
        return Ok(None);
    };
    let foci = foci_of(alloc, &schema, input.units)?;
    let units = match notes_of(alloc, schema, input.units) {
        Ok(notes) => FirstUnits::Noted { notes, foci },
        Err(fault) => {
            let mut text = String::new(alloc);
            write_message(
                alloc,
                &mut text,
                Severity::Warning,
                &InputFault::Units(fault),
                input,
            )?;
            FirstUnits::Refused(text)
        }
    };
    Ok(Some(units))
}

// Returns what initial units note under a schema.
fn notes_of(alloc: Global, schema: Schema, units: &str) -> Result<Vec<Note>, UnitsFault> {
    let mut board = Board::new(alloc, schema)?;
    board.load(units)?;
    Ok(board.take_notes())
}

// The class of foci, which is the first of every schema.
const FOCUS: ClassId = 0;

// Lists the foci of a document of initial units. What is no unit of such a class is left out.
fn foci_of(alloc: Global, schema: &Schema, units: &str) -> Result<Vec<FirstFocus>, Memory> {
    let mut foci = Vec::new(alloc);
    let Some(document) = json_of(alloc, units)? else {
        return Ok(foci);
    };
    let Some(entries) = document.get("units").and_then(|value| value.as_array()) else {
        return Ok(foci);
    };
    for (index, entry) in entries.iter().enumerate() {
        let class = text_at(entry, "class").and_then(|name| schema.class(name));
        if class.is_some_and(|class| schema.descends(class, FOCUS)) {
            foci.push(FirstFocus {
                index,
                source: named(alloc, entry, "source")?,
                area: named(alloc, entry, "area")?,
            })?;
        }
    }
    Ok(foci)
}

// Returns the text that an entry gives a slot; empty if it gives none.
fn named(alloc: Global, entry: &Value, slot: &str) -> Result<String, Memory> {
    let text = entry.get("slots").and_then(|slots| text_at(slots, slot));
    String::from_str(alloc, text.unwrap_or(""))
}
