//! What a run writes: segments, and the parts of the run that emit them. The cycles (cycles.rt) are made through it.

ghost use Rattle.std.specs.Prelude.{◌≡◌, ◌≤◌, ◌∷◌, [], All, false, length};
ghost use Rattle.bb_trace.specs.Page.{stopped_by_write};
ghost use Rattle.bb_run.specs.Processing.{event_in, events_in, processing, processing_all, reported};
ghost use Rattle.bb_run.specs.Run.{quiet};
ghost use Rattle.bb_run.specs.Emission.{emitting};
ghost use Rattle.bb_run.specs.Unstuck.{IsEventOf};
ghost use Rattle.bb_run.specs.Seen.{seen};
ghost use Rattle.bb_run.specs.Serving.{Serves, ServesAt};
ghost use Rattle.bb_run.specs.Emitting.{Makes, Same, Emits, at, option_list};

use crate::processing::respond;
use crate::state::State;
use bb_run_plan::Plan;
use bb_trace::{BoardNote as Noted, End, Event, Halt, NativeSource, Note, Out, Page};
use std::alloc::Global;

/// Makes a run and writes it: the page, and the output that it is written to. A `Halt` means that the run is cut short.
#[derive(Drop)]
pub struct Runner<'a, O: Out> {
    pub page: &'a mut Page,
    pub out: &'a mut O,
}

// The event of a note, if it has one.
fn event_in(note: &Note) -> Option<Event>
    ensures { option_list result ≡ event_in note.now }
{
    match note {
        Note::Board(Noted::Event(event)) => Some(*event),
        _ => None,
    }
}

impl<O: Out> Runner<'_, O> {
    /// Returns the allocator of the page.
    pub(crate) fn alloc(&self) -> Global {
        self.page.alloc()
    }

    /// Emits a segment and spills the page.
    pub(crate) fn emit(&mut self, plan: &Plan, notes: &[Note]) -> Result<(), Halt>
        requires open { O.has_failed self.old.out.now ≡ false }
        ensures same { Same self.old self.new }
        ensures emitted { Emits plan.now (at O.taken self.old) (at O.taken self.new) (notes.now ∷ []) result }
        ensures failed { O.has_failed self.new.out.now ≡ stopped_by_write result }
    {
        self.page.add_segment(plan, notes)?;
        self.page.spill(self.out)
    }

    // Emits a segment and writes the page.
    fn emit_now(&mut self, plan: &Plan, notes: &[Note]) -> Result<(), Halt>
        requires open { O.has_failed self.old.out.now ≡ false }
        ensures same { Same self.old self.new }
        ensures emitted { Emits plan.now (at O.taken self.old) (at O.taken self.new) (notes.now ∷ []) result }
        ensures failed { O.has_failed self.new.out.now ≡ stopped_by_write result }
    {
        self.page.add_segment(plan, notes)?;
        self.page.flush(self.out)
    }

    // Processes an event.
    fn process<N: NativeSource>(
        &mut self,
        plan: &Plan,
        event: Event,
        state: &mut State<N>,
    ) -> Result<Option<End>, Halt>
        requires open { O.has_failed self.old.out.now ≡ false }
        requires serves { ServesAt plan.now event (seen N.meaning state.old) }
        ensures same { Same self.old self.new }
        ensures made { Makes plan.now (at O.taken self.old) (at O.taken self.new)
            (processing plan.now event (seen N.meaning state.old)) (seen N.meaning state.new) result }
        ensures failed { O.has_failed self.new.out.now ≡ stopped_by_write result }
    {
        let mut notes = Vec::new(self.alloc());
        let end = respond(plan, event, state, &mut notes)?;
        self.emit(plan, &notes)?;
        Ok(end)
    }

    // Processes the events among notes, one by one, until the run ends.
    fn process_all<N: NativeSource>(
        &mut self,
        plan: &Plan,
        notes: &[Note],
        state: &mut State<N>,
    ) -> Result<Option<End>, Halt>
        requires open { O.has_failed self.old.out.now ≡ false }
        requires serves { Serves plan.now (seen N.meaning state.old) }
        requires events { All (IsEventOf plan.now.schema state.old.board) (events_in notes.now) }
        ensures same { Same self.old self.new }
        ensures made { Makes plan.now (at O.taken self.old) (at O.taken self.new)
            (processing_all plan.now (events_in notes.now) (seen N.meaning state.old))
            (seen N.meaning state.new) result }
        ensures failed { O.has_failed self.new.out.now ≡ stopped_by_write result }
    {
        for note in notes {
            let Some(event) = event_in(note) else {
                continue;
            };
            if let Some(end) = self.process(plan, event, state)? {
                return Ok(Some(end));
            }
        }
        Ok(None)
    }

    /// Emits quiescence and processes it. Writes the page at once, since readers following the run wait for it.
    pub(crate) fn quiesce<N: NativeSource>(
        &mut self,
        plan: &Plan,
        state: &mut State<N>,
    ) -> Result<Option<End>, Halt>
        requires open { O.has_failed self.old.out.now ≡ false }
        requires serves { Serves plan.now (seen N.meaning state.old) }
        ensures same { Same self.old self.new }
        ensures made { Makes plan.now (at O.taken self.old) (at O.taken self.new)
            (quiet plan.now (seen N.meaning state.old)) (seen N.meaning state.new) result }
        ensures failed { O.has_failed self.new.out.now ≡ stopped_by_write result }
    {
        let mut notes = Vec::new(self.alloc());
        notes.push(Note::Board(Noted::Event(Event::Quiescence)))?;
        let end = respond(plan, Event::Quiescence, state, &mut notes)?;
        self.emit_now(plan, &notes)?;
        Ok(end)
    }

    /// Emits the notes of a response and processes their events, unless the run ended in it.
    pub(crate) fn report<N: NativeSource>(
        &mut self,
        plan: &Plan,
        notes: &[Note],
        end: Option<End>,
        state: &mut State<N>,
    ) -> Result<Option<End>, Halt>
        requires open { O.has_failed self.old.out.now ≡ false }
        requires serves { Serves plan.now (seen N.meaning state.old) }
        requires events { All (IsEventOf plan.now.schema state.old.board) (events_in notes.now) }
        ensures same { Same self.old self.new }
        ensures made { Makes plan.now (at O.taken self.old) (at O.taken self.new)
            (reported plan.now (emitting notes.now (seen N.meaning state.old) end)) (seen N.meaning state.new) result }
        ensures failed { O.has_failed self.new.out.now ≡ stopped_by_write result }
    {
        self.emit(plan, notes)?;
        if let Some(end) = end {
            return Ok(Some(end));
        }
        self.process_all(plan, notes, state)
    }
}
