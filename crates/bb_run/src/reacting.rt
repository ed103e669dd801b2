//! What a source does about its pending activations at an event. processing.rt calls it.

ghost use Rattle.std.specs.Prelude.{◌≡◌, IfOk, None, filter};
ghost use Rattle.bb_agenda.specs.Agenda.{is_on, pending_for};
ghost use Rattle.bb_run.specs.Processing.{obviated_by, reacting_to, reacting_to_each, rerated_by};
ghost use Rattle.bb_run.specs.proving.Own.{asked_about};
ghost use Rattle.bb_run.specs.Seen.{seen};
ghost use Rattle.bb_run.specs.Serving.{ReactsTo, ReactsToAll};
ghost use Rattle.bb_run.specs.Emitting.{IsResponse};

use crate::asking::{Reply, ask, entry_of};
use crate::state::State;
use bb_agenda::{Activation, Agenda};
use bb_machine::Answer;
use bb_rules::Reaction;
use bb_schema::UnitId;
use bb_trace::{End, Event, NativeSource, Note};
use std::alloc::{AllocError, Global};

// The pending activations of the source at a place, in order.
fn waiting_for(alloc: Global, agenda: &Agenda, place: u16) -> Result<Vec<Activation>, AllocError>
    ensures { IfOk result (λ waiting. waiting.items ≡ pending_for agenda.now place) }
{
    let mut waiting = Vec::new(alloc);
    for number in agenda.pending_for(place) {
        waiting.push(agenda.activation(number))?;
    }
    Ok(waiting)
}

// The pending activations of the source at a place for a unit, in order.
fn waiting_on(
    alloc: Global,
    agenda: &Agenda,
    place: u16,
    unit: UnitId,
) -> Result<Vec<Activation>, AllocError>
    ensures { IfOk result (λ waiting. waiting.items ≡ filter (is_on unit) (pending_for agenda.now place)) }
{
    let mut waiting = Vec::new(alloc);
    for number in agenda.pending_on(place, unit) {
        waiting.push(agenda.activation(number))?;
    }
    Ok(waiting)
}

// The pending activations of the source at a place that a reaction is asked about at an event, in order: only those for
// the event's unit if it says no about any other.
fn asked_about(
    alloc: Global,
    agenda: &Agenda,
    reaction: &Reaction,
    event: Event,
    place: u16,
) -> Result<Vec<Activation>, AllocError>
    ensures { IfOk result (λ waiting.
        waiting.items ≡ asked_about reaction.now event (pending_for agenda.now place)) }
{
    if reaction.code.asks_own() {
        waiting_on(alloc, agenda, place, event.unit())
    } else {
        waiting_for(alloc, agenda, place)
    }
}

// Asks whether a pending activation is needless, and obviates it if it is.
fn obviate_one<N: NativeSource>(
    reaction: &Reaction,
    event: Event,
    activation: Activation,
    state: &mut State<N>,
    notes: &mut Vec<Note>,
) -> Result<Option<End>, AllocError>
    requires begins { ReactsTo reaction.now event state.old.board activation }
    ensures noted { IfOk result (IsResponse
        (reacting_to event obviated_by reaction.now activation (seen N.meaning state.old))
        notes.old.items notes.new.items (seen N.meaning state.new)) }
    ensures kept { IfOk result (λ _. state.new.board ≡ state.old.board) }
{
    let entry = entry_of(activation.unit, Some(event.unit()));
    match &ask(*notes.allocator(), &reaction.code, entry, &mut state.board)? {
        Reply::Answer(Answer::Yes) => {
            let number = activation.number;
            state.agenda.obviate(number)?;
            notes.push(Note::Obviated { number })?;
            Ok(None)
        }
        Reply::Answer(_) => Ok(None),
        Reply::Over(end) => Ok(Some(*end)),
    }
}

// Gives a pending activation another base, if the answer is one.
fn rerate<N: NativeSource>(
    activation: Activation,
    answer: Answer,
    state: &mut State<N>,
    notes: &mut Vec<Note>,
) -> Result<(), AllocError>
    ensures noted { IfOk result (λ _. IsResponse (rerated_by activation answer (seen N.meaning state.old))
        notes.old.items notes.new.items (seen N.meaning state.new) None) }
    ensures kept { IfOk result (λ _. state.new.board ≡ state.old.board) }
{
    let Answer::Rated(base) = answer else {
        return Ok(());
    };
    let number = activation.number;
    state.agenda.rerate(number, base)?;
    notes.push(Note::Retriggered { number, base })?;
    Ok(())
}

// Asks whether a pending activation gets another base, and gives it that base if it does.
fn retrigger_one<N: NativeSource>(
    reaction: &Reaction,
    event: Event,
    activation: Activation,
    state: &mut State<N>,
    notes: &mut Vec<Note>,
) -> Result<Option<End>, AllocError>
    requires begins { ReactsTo reaction.now event state.old.board activation }
    ensures noted { IfOk result (IsResponse
        (reacting_to event rerated_by reaction.now activation (seen N.meaning state.old))
        notes.old.items notes.new.items (seen N.meaning state.new)) }
    ensures kept { IfOk result (λ _. state.new.board ≡ state.old.board) }
{
    let entry = entry_of(activation.unit, Some(event.unit()));
    match ask(*notes.allocator(), &reaction.code, entry, &mut state.board)? {
        Reply::Answer(answer) => {
            rerate(activation, answer, state, notes)?;
            Ok(None)
        }
        Reply::Over(end) => Ok(Some(end)),
    }
}

/// Obviates the pending activations of the source at an index that an event makes needless.
pub(crate) fn obviate_all<N: NativeSource>(
    reaction: &Reaction,
    event: Event,
    place: u16,
    state: &mut State<N>,
    notes: &mut Vec<Note>,
) -> Result<Option<End>, AllocError>
    requires begins { ReactsToAll reaction.now event state.old.board (pending_for state.old.agenda place) }
    ensures { IfOk result (IsResponse
        (reacting_to_each event obviated_by reaction.now (pending_for state.old.agenda place)
        (seen N.meaning state.old))
        notes.old.items notes.new.items (seen N.meaning state.new)) }
{
    let alloc = *notes.allocator();
    for activation in asked_about(alloc, &state.agenda, reaction, event, place)? {
        if let Some(end) = obviate_one(reaction, event, activation, state, notes)? {
            return Ok(Some(end));
        }
    }
    Ok(None)
}

/// Gives another base to the pending activations of the source at an index that an event rates again.
pub(crate) fn retrigger_all<N: NativeSource>(
    reaction: &Reaction,
    event: Event,
    place: u16,
    state: &mut State<N>,
    notes: &mut Vec<Note>,
) -> Result<Option<End>, AllocError>
    requires begins { ReactsToAll reaction.now event state.old.board (pending_for state.old.agenda place) }
    ensures { IfOk result (IsResponse
        (reacting_to_each event rerated_by reaction.now (pending_for state.old.agenda place)
        (seen N.meaning state.old))
        notes.old.items notes.new.items (seen N.meaning state.new)) }
{
    let alloc = *notes.allocator();
    for activation in asked_about(alloc, &state.agenda, reaction, event, place)? {
        if let Some(end) = retrigger_one(reaction, event, activation, state, notes)? {
            return Ok(Some(end));
        }
    }
    Ok(None)
}
