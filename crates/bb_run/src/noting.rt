//! Moves the blackboard's notes into the notes of the run. Executions (execution.rt, calling.rt) end with it, and a run
//! (whole.rt) begins with it.

ghost use Rattle.std.specs.Prelude.{◌≡◌, ◌++◌, IfOk, Option, map};
ghost use Rattle.bb_trace.specs.End.{End};
ghost use Rattle.bb_trace.specs.declared.note.Note.TheVariants.{Board as BoardNote};
ghost use Rattle.bb_run.specs.Run.{noted};
ghost use Rattle.bb_run.specs.Seen.{seen};
ghost use Rattle.bb_run.specs.Emitting.{IsResponse, option_list};

use crate::state::State;
use bb_run_plan::tell_notes;
use bb_trace::{BoardNote as Noted, NativeSource, Note};
use std::alloc::AllocError;

// Appends the notes of a blackboard as notes of the run.
fn add_board_notes(notes: &mut Vec<Note>, noted: Vec<Noted>) -> Result<(), AllocError>
    ensures { IfOk result (λ _. notes.new.items ≡ notes.old.items ++ map BoardNote noted.items) }
{
    for note in noted {
        notes.push(Note::Board(note))?;
    }
    Ok(())
}

/// Takes the blackboard's notes: reports the units that they name to the agenda, and appends the blackboard's notes to
/// `notes`, and then `last` if there is one.
pub(crate) fn take_noted<N: NativeSource>(
    state: &mut State<N>,
    last: Option<Note>,
    notes: &mut Vec<Note>,
) -> Result<(), AllocError>
    ensures { IfOk result (λ _. (end : Option End) →
        IsResponse (noted (seen N.meaning state.old) (option_list last) end)
        notes.old.items notes.new.items (seen N.meaning state.new) end) }
{
    let noted = state.board.take_notes();
    tell_notes(&mut state.agenda, &state.board, &noted)?;
    add_board_notes(notes, noted)?;
    if let Some(note) = last {
        notes.push(note)?;
    }
    Ok(())
}
