//! Processes an event. The runner (runner.rt) calls it for every event, and for quiescence.

ghost use Rattle.std.specs.Prelude.{◌≡◌, IfOk, None, Some, option_map, slice_get, true};
ghost use Rattle.bb_agenda.specs.Agenda.{pending_for};
ghost use Rattle.bb_trace.specs.Events.{unit_of};
ghost use Rattle.bb_rules.specs.Match.{any_match};
ghost use Rattle.bb_rules.specs.declared.source.Reaction.{Reaction};
ghost use Rattle.bb_verify.specs.Accepted.{Checked};
ghost use Rattle.bb_run.specs.Asking.{entry_of};
ghost use Rattle.bb_run.specs.Processing.{if_triggered, obviated_by, reacting, rerated_by, response, source_response};
ghost use Rattle.bb_run.specs.proving.Responding.{response_at};
ghost use Rattle.bb_run.specs.Seen.{seen};
ghost use Rattle.bb_run.specs.Serving.{CanExecute, ReactsToAll, ServesAt};
ghost use Rattle.bb_run.specs.Emitting.{IsResponse};

use crate::reacting::{obviate_all, retrigger_all};
use crate::state::State;
use crate::triggering::{activate, require};
use bb_rules::Source;
use bb_run_plan::Plan;
use bb_schema::Schema;
use bb_trace::{End, Event, NativeSource, Note};
use std::alloc::AllocError;

// A source and its place among the sources of a plan.
#[derive(Clone, Copy)]
struct Placed<'a> {
    source: &'a Source,
    place: u16,
}

// Lets a source obviate its pending activations, if the clauses of its reaction name the event.
fn obviate<N: NativeSource>(
    schema: &Schema,
    placed: Placed<'_>,
    event: Event,
    state: &mut State<N>,
    notes: &mut Vec<Note>,
) -> Result<Option<End>, AllocError>
    requires begins { (reaction : Reaction) → placed.source.now.obviate ≡ Some reaction
        → any_match schema.now reaction.clauses event ≡ true
        → ReactsToAll reaction event state.old.board (pending_for state.old.agenda placed.place) }
    ensures { IfOk result (IsResponse
        (reacting schema.now event placed.entry.place obviated_by placed.entry.source.now.obviate
        (seen N.meaning state.old))
        notes.old.items notes.new.items (seen N.meaning state.new)) }
{
    match &placed.source.parts().obviate {
        Some(reaction) if reaction.clauses.match_any(schema, event) => {
            obviate_all(reaction, event, placed.place, state, notes)
        }
        _ => Ok(None),
    }
}

// Lets a source rate its pending activations again, if the clauses of its reaction name the event.
fn retrigger<N: NativeSource>(
    schema: &Schema,
    placed: Placed<'_>,
    event: Event,
    state: &mut State<N>,
    notes: &mut Vec<Note>,
) -> Result<Option<End>, AllocError>
    requires begins { (reaction : Reaction) → placed.source.now.retrigger ≡ Some reaction
        → any_match schema.now reaction.clauses event ≡ true
        → ReactsToAll reaction event state.old.board (pending_for state.old.agenda placed.place) }
    ensures { IfOk result (IsResponse
        (reacting schema.now event placed.entry.place rerated_by placed.entry.source.now.retrigger
        (seen N.meaning state.old))
        notes.old.items notes.new.items (seen N.meaning state.new)) }
{
    match &placed.source.parts().retrigger {
        Some(reaction) if reaction.clauses.match_any(schema, event) => {
            retrigger_all(reaction, event, placed.place, state, notes)
        }
        _ => Ok(None),
    }
}

// Lets an event trigger a source, if one of its clauses names the event.
fn trigger<N: NativeSource>(
    schema: &Schema,
    placed: Placed<'_>,
    event: Event,
    state: &mut State<N>,
    notes: &mut Vec<Note>,
) -> Result<Option<End>, AllocError>
    requires begins { (code : Checked) → placed.source.now.require ≡ Some code
        → any_match schema.now placed.source.now.triggers event ≡ true
        → CanExecute code (entry_of (unit_of event) None) state.old.board }
    ensures { IfOk result (IsResponse
        (if_triggered schema.now event placed.entry.place placed.entry.source.now (seen N.meaning state.old))
        notes.old.items notes.new.items (seen N.meaning state.new)) }
{
    let source = placed.source.parts();
    if !source.triggers.match_any(schema, event) {
        return Ok(None);
    }
    match &source.require {
        None => activate(event, placed.place, source.rate, state, notes),
        Some(code) => require(code, event, placed.place, state, notes),
    }
}

// Lets a source respond to an event.
fn source_responds<N: NativeSource>(
    plan: &Plan,
    placed: Placed<'_>,
    event: Event,
    state: &mut State<N>,
    notes: &mut Vec<Note>,
) -> Result<Option<End>, AllocError>
    requires serves { ServesAt plan.now event (seen N.meaning state.old) }
    requires there { slice_get plan.now.sources placed.place ≡ Some placed.source.now }
    ensures { IfOk result (IsResponse
        (source_response plan.now.schema event placed.entry.place placed.entry.source.now
        (seen N.meaning state.old))
        notes.old.items notes.new.items (seen N.meaning state.new)) }
{
    let schema = plan.schema();
    if let Some(end) = obviate(schema, placed, event, state, notes)? {
        return Ok(Some(end));
    }
    if let Some(end) = retrigger(schema, placed, event, state, notes)? {
        return Ok(Some(end));
    }
    trigger(schema, placed, event, state, notes)
}

/// Returns the source at an index, if there is one.
pub(crate) fn source_at(sources: &[Source], place: u16) -> Option<&Source>
    ensures { option_map (λ s. s.now) result ≡ slice_get sources.now place }
{
    sources.get(place as usize)
}

// Lets the source at a place respond to an event.
fn place_responds<N: NativeSource>(
    plan: &Plan,
    place: u16,
    event: Event,
    state: &mut State<N>,
    notes: &mut Vec<Note>,
) -> Result<Option<End>, AllocError>
    requires serves { ServesAt plan.now event (seen N.meaning state.old) }
    ensures { IfOk result (IsResponse
        (response_at plan.now.schema event plan.now.sources place (seen N.meaning state.old))
        notes.old.items notes.new.items (seen N.meaning state.new)) }
{
    match source_at(plan.sources(), place) {
        None => Ok(None),
        Some(source) => {
            let placed = Placed { source, place };
            source_responds(plan, placed, event, state, notes)
        }
    }
}

/// Processes an event: each source in order obviates and retriggers its pending activations and is triggered, and the
/// notes are appended. Sources without a clause of the event's kind are skipped, since they would do nothing. Returns
/// the end of the run if it ends there.
pub(crate) fn respond<N: NativeSource>(
    plan: &Plan,
    event: Event,
    state: &mut State<N>,
    notes: &mut Vec<Note>,
) -> Result<Option<End>, AllocError>
    requires serves { ServesAt plan.now event (seen N.meaning state.old) }
    ensures { IfOk result (IsResponse (response plan.now event (seen N.meaning state.old))
        notes.old.items notes.new.items (seen N.meaning state.new)) }
{
    for place in plan.concerned(event) {
        if let Some(end) = place_responds(plan, *place, event, state, notes)? {
            return Ok(Some(end));
        }
    }
    Ok(None)
}
