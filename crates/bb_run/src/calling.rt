//! Applies asks to the blackboard, one by one: the asks of a native, which a cycle calls (execution.rt) or whose host
//! answers for it, and the asks from outside (cycles.rt).

ghost use Rattle.std.specs.Prelude.{◌≡◌, ◌<◌, IfOk, Some, length, map};
ghost use Rattle.bb_trace.specs.Applied.{applied};
ghost use Rattle.bb_trace.specs.declared.note.Note.TheVariants.{NativeEnded, PostEnded};
ghost use Rattle.bb_run.specs.Run.{asked, calling, each_applied, upon_ask};
ghost use Rattle.bb_run.specs.Seen.{seen};
ghost use Rattle.bb_run.specs.Emitting.{IsResponse};

use crate::noting::take_noted;
use crate::state::State;
use bb_agenda::Activation;
use bb_trace::{Ask, Denial, End, NativeSource, Note, View, apply};
use std::alloc::AllocError;

// Applies the ask with this number. A refused ask is noted; if no unit can be created, the run is over.
fn apply_one<N: NativeSource>(
    number: u64,
    ask: Ask,
    state: &mut State<N>,
    notes: &mut Vec<Note>,
) -> Result<Option<End>, AllocError>
    ensures { IfOk result (IsResponse (upon_ask number (applied ask state.old.board) (seen N.meaning state.old))
        notes.old.items notes.new.items (seen N.meaning state.new)) }
{
    match apply(*notes.allocator(), ask, &mut state.board) {
        Ok(()) => {
            take_noted(state, None, notes)?;
            Ok(None)
        }
        Err(Denial::Refused(refusal)) => {
            notes.push(Note::Refused {
                ask: number,
                refusal,
            })?;
            Ok(None)
        }
        Err(Denial::Full) => Ok(Some(End::FULL)),
        Err(Denial::Memory) => Err(AllocError),
    }
}

// Applies asks in order, numbered from 1, until the run is over.
fn apply_each<N: NativeSource>(
    asks: Vec<Ask>,
    state: &mut State<N>,
    notes: &mut Vec<Note>,
) -> Result<Option<End>, AllocError>
    ensures { IfOk result (IsResponse (each_applied 1 asks.items (seen N.meaning state.old))
        notes.old.items notes.new.items (seen N.meaning state.new)) }
{
    let mut number = 0u64;
    for ask in asks {
        number += 1;
        if let Some(end) = apply_one(number, ask, state, notes)? {
            return Ok(Some(end));
        }
    }
    Ok(None)
}

/// Calls the native at an index for the unit of an activation, applies its asks, and appends their notes. Returns the
/// end of the run if it ends there.
pub(crate) fn call<N: NativeSource>(
    place: usize,
    activation: Activation,
    state: &mut State<N>,
    notes: &mut Vec<Note>,
) -> Result<Option<End>, AllocError>
    requires { place < length (map N.meaning state.old.roster.natives.items) }
    ensures { IfOk result (IsResponse (calling (Some place) activation (seen N.meaning state.old))
        notes.old.items notes.new.items (seen N.meaning state.new)) }
{
    let alloc = *notes.allocator();
    let view = View::new(&state.board);
    let asks = state.roster.act(alloc, place, activation.unit, &view)?;
    apply_answer(asks, state, notes)
}

/// Applies the asks of a native and appends their notes. Returns the end of the run if it ends there.
pub(crate) fn apply_answer<N: NativeSource>(
    asks: Vec<Ask>,
    state: &mut State<N>,
    notes: &mut Vec<Note>,
) -> Result<Option<End>, AllocError>
    ensures { IfOk result (IsResponse (asked NativeEnded asks.items (seen N.meaning state.old))
        notes.old.items notes.new.items (seen N.meaning state.new)) }
{
    let count = asks.len() as u64;
    if let Some(end) = apply_each(asks, state, notes)? {
        return Ok(Some(end));
    }
    notes.push(Note::NativeEnded { asks: count })?;
    Ok(None)
}

/// Applies asks from outside the run and appends their notes. Returns the end of the run if it ends there.
pub(crate) fn apply_posted<N: NativeSource>(
    asks: Vec<Ask>,
    state: &mut State<N>,
    notes: &mut Vec<Note>,
) -> Result<Option<End>, AllocError>
    ensures { IfOk result (IsResponse (asked PostEnded asks.items (seen N.meaning state.old))
        notes.old.items notes.new.items (seen N.meaning state.new)) }
{
    let count = asks.len() as u64;
    if let Some(end) = apply_each(asks, state, notes)? {
        return Ok(Some(end));
    }
    notes.push(Note::PostEnded { asks: count })?;
    Ok(None)
}
