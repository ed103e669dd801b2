//! How a run ends and is written: its last segment, or the rest of the page if it is cut short. whole.rt and
//! bb_run_held call it.

ghost use Rattle.std.specs.Prelude.{◌≡◌, [], ◌∷◌, IfOk, Ok, false, map};
ghost use Rattle.bb_trace.specs.Page.{halted_by_write, stopped_by_write};
ghost use Rattle.bb_trace.specs.declared.note.Note.TheVariants.{Closed as ClosedNote, Finished};
ghost use Rattle.bb_run.specs.Emitting.{Concludes, CutsShort, EndsAll, GivesUp, Same, WritesEmitted, at};

use crate::runner::Runner;
use bb_run_plan::Plan;
use bb_trace::{Closed, End, Halt, Note, Out};
use std::alloc::{AllocError, Global};

impl<O: Out> Runner<'_, O> {
    // Emits the end and what each native reports at its close, and writes everything.
    fn conclude(&mut self, plan: &Plan, end: End, closed: Closed) -> Result<End, Halt>
        requires open { O.has_failed self.old.out.now ≡ false }
        ensures same { Same self.old self.new }
        ensures end { IfOk result (λ emitted. emitted ≡ end) }
        ensures concludes { Concludes plan.now (at O.taken self.old) (O.taken self.new.out.now)
            ((Finished end ∷ map ClosedNote closed) ∷ []) result }
        ensures failed { O.has_failed self.new.out.now ≡ stopped_by_write result }
    {
        let Ok(notes) = last_notes(self.alloc(), end, closed) else {
            return Err(self.give_up());
        };
        match self.page.add_segment(plan, &notes) {
            Ok(()) => {}
            Err(_) => return Err(self.give_up()),
        }
        self.page.flush(self.out)?;
        Ok(end)
    }

    // Ends a run that is cut short: if memory ran out, writes what was emitted before. Returns why it is cut short.
    fn cut_short(&mut self, halt: Halt) -> Halt
        requires open { O.has_failed self.old.out.now ≡ halted_by_write halt }
        ensures same { Same self.old self.new }
        ensures cut { CutsShort (at O.taken self.old) (O.taken self.new.out.now) halt result }
        ensures failed { O.has_failed self.new.out.now ≡ halted_by_write result }
    {
        match halt {
            Halt::Memory => self.give_up(),
            Halt::Write => Halt::Write,
        }
    }

    /// Writes what a part of a run emitted, whether the run was cut short in it or not.
    pub fn written<X: Copy>(&mut self, emitted: Result<X, Halt>) -> Result<X, Halt>
        requires open { O.has_failed self.old.out.now ≡ stopped_by_write emitted }
        ensures same { Same self.old self.new }
        ensures writes { WritesEmitted (at O.taken self.old) (O.taken self.new.out.now) emitted result }
        ensures failed { O.has_failed self.new.out.now ≡ stopped_by_write result }
    {
        match emitted {
            Ok(end) => {
                self.page.flush(self.out)?;
                Ok(end)
            }
            Err(halt) => Err(self.cut_short(halt)),
        }
    }

    /// Ends a run, whether it was made or was cut short: emits its end and what each native reports at its close, and
    /// writes everything emitted.
    pub fn end_by(
        &mut self,
        plan: &Plan,
        made: Result<End, Halt>,
        closed: Closed,
    ) -> Result<End, Halt>
        requires open { O.has_failed self.old.out.now ≡ stopped_by_write made }
        ensures same { Same self.old self.new }
        ensures ends { EndsAll plan.now (at O.taken self.old) (O.taken self.new.out.now) closed made result }
        ensures made { IfOk result (λ end. made ≡ Ok end) }
        ensures failed { O.has_failed self.new.out.now ≡ stopped_by_write result }
    {
        match made {
            Ok(end) => self.conclude(plan, end, closed),
            Err(halt) => Err(self.cut_short(halt)),
        }
    }

    // Writes what was emitted before memory ran out. Returns why the run is cut short.
    fn give_up(&mut self) -> Halt
        requires open { O.has_failed self.old.out.now ≡ false }
        ensures same { Same self.old self.new }
        ensures written { GivesUp (O.taken self.old.out.now) (O.taken self.new.out.now) self.old.page.now result }
        ensures failed { O.has_failed self.new.out.now ≡ halted_by_write result }
    {
        match self.page.flush(self.out) {
            Ok(()) => Halt::Memory,
            Err(halt) => halt,
        }
    }
}

// The notes of the last segment: the end of the run, and what each native reports at its close.
fn last_notes(alloc: Global, end: End, closed: Closed) -> Result<Vec<Note>, AllocError>
    ensures { IfOk result (λ notes. notes.items ≡ Finished end ∷ map ClosedNote closed) }
{
    let mut notes = Vec::new(alloc);
    notes.push(Note::Finished(end))?;
    for closing in closed.into_vec() {
        notes.push(Note::Closed(closing))?;
    }
    Ok(notes)
}
