//! What an event that triggers a source does. processing.rt calls it.

ghost use Rattle.std.specs.Prelude.{◌≡◌, IfOk, None};
ghost use Rattle.bb_run.specs.Asking.{asking, entry_of};
ghost use Rattle.bb_run.specs.Processing.{activating, required_by};
ghost use Rattle.bb_trace.specs.Events.{unit_of};
ghost use Rattle.bb_run.specs.Seen.{seen};
ghost use Rattle.bb_run.specs.Serving.{CanExecute};
ghost use Rattle.bb_run.specs.Emitting.{IsResponse};

use crate::asking::{Reply, ask, entry_of};
use crate::state::State;
use bb_agenda::{Activation, AddFault};
use bb_machine::Answer;
use bb_rules::Question;
use bb_trace::{End, Event, NativeSource, Note};
use std::alloc::AllocError;

/// Gives the source at an index an activation for an event, with this base. The run is over if the agenda is full.
pub(crate) fn activate<N: NativeSource>(
    event: Event,
    place: u16,
    base: i64,
    state: &mut State<N>,
    notes: &mut Vec<Note>,
) -> Result<Option<End>, AllocError>
    ensures { IfOk result (IsResponse (activating event place base (seen N.meaning state.old))
        notes.old.items notes.new.items (seen N.meaning state.new)) }
{
    let unit = event.unit();
    match state.agenda.add(place, unit, base) {
        Ok(number) => {
            notes.push(Note::Triggered(Activation {
                number,
                source: place,
                unit,
                base,
            }))?;
            Ok(None)
        }
        Err(AddFault::Full) => Ok(Some(End::FULL)),
        Err(AddFault::Memory) => Err(AllocError),
    }
}

/// Asks the requirement of the source at an index whether an event gives it an activation. Any answer but a rating
/// declines.
pub(crate) fn require<N: NativeSource>(
    code: &Question,
    event: Event,
    place: u16,
    state: &mut State<N>,
    notes: &mut Vec<Note>,
) -> Result<Option<End>, AllocError>
    requires begins { CanExecute code.now (entry_of (unit_of event) None) state.old.board }
    ensures { IfOk result (IsResponse
        (asking code.now.code (entry_of (unit_of event) None) (required_by event place) (seen N.meaning state.old))
        notes.old.items notes.new.items (seen N.meaning state.new)) }
{
    let unit = event.unit();
    match &ask(
        *notes.allocator(),
        code,
        entry_of(unit, None),
        &mut state.board,
    )? {
        Reply::Answer(Answer::Rated(base)) => activate(event, place, *base, state, notes),
        Reply::Answer(_) => {
            notes.push(Note::Declined {
                source: place,
                unit,
            })?;
            Ok(None)
        }
        Reply::Over(end) => Ok(Some(*end)),
    }
}
