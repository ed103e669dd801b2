//! The moves of a held run that apply asks: from outside, and of a native that is due.

ghost use Rattle.std.specs.Prelude.{◌≡◌, None, false};
ghost use Rattle.bb_run.specs.Page.{stopped_by_write};
ghost use Rattle.bb_run.specs.Seen.{seen};
ghost use Rattle.bb_run.specs.Turns.{answering, posting};
ghost use Rattle.bb_run_held.specs.Making.{Makes, halt_of, stands};
ghost use Rattle.bb_run_held.specs.Moves.{after, answer, moved, post};

use crate::pause::{Pause, pause_by};
use crate::running::Running;
use bb_run::{Ask, Halt, NativeSource, Out, Page, Runner};

impl<N: NativeSource> Running<N> {
    /// Posts what happened outside: applies asks in order, like the asks of a native, and processes their events. Does
    /// nothing if the run is over or a native is due. `Memory`, `Write`: the run is cut short.
    pub fn post<O: Out>(&mut self, asks: Vec<Ask>, out: &mut O) -> Result<Pause, Halt>
        requires open { O.has_failed out.old ≡ false }
        requires whole { self.old.cut ≡ None }
        ensures made { Makes self.old.plan (moved self.old.plan (post asks.items)
            (stands (seen N.meaning self.old.state) self.old.made self.old.pause))
            (stands (seen N.meaning self.new.state) self.new.made self.new.pause)
            (O.taken out.old) (O.taken out.new) result }
        ensures kept { (self.new.plan ≡ self.old.plan) × (self.new.cut ≡ halt_of result) }
        ensures failed { O.has_failed out.new ≡ stopped_by_write result }
    {
        match &self.pause {
            Pause::Going => self.post_on(asks, out),
            Pause::Resting => self.post_on(asks, out),
            Pause::Due(activation) => Ok(Pause::Due(*activation)),
            Pause::Over(end) => Ok(Pause::Over(*end)),
        }
    }

    // Applies asks from outside, if the run is not over and no native is due.
    fn post_on<O: Out>(&mut self, asks: Vec<Ask>, out: &mut O) -> Result<Pause, Halt>
        requires open { O.has_failed out.old ≡ false }
        requires whole { self.old.cut ≡ None }
        ensures made { Makes self.old.plan
            (after self.old.made (posting self.old.plan asks.items (seen N.meaning self.old.state)))
            (stands (seen N.meaning self.new.state) self.new.made self.new.pause)
            (O.taken out.old) (O.taken out.new) result }
        ensures kept { (self.new.plan ≡ self.old.plan) × (self.new.cut ≡ halt_of result) }
        ensures failed { O.has_failed out.new ≡ stopped_by_write result }
    {
        // For the proof: the invariants of the schema, the plan and the blackboard.
        self.plan.schema().fits();
        let _ = self.plan.sources();
        self.state.board.fits();
        let mut page = Page::new(self.alloc);
        let mut runner = Runner {
            page: &mut page,
            out,
        };
        let emitted = runner.post(&self.plan, asks, &mut self.state);
        match runner.written(emitted) {
            Ok(end) => {
                self.pause = pause_by(end);
                Ok(self.pause)
            }
            Err(halt) => {
                self.cut = Some(halt);
                Err(halt)
            }
        }
    }

    /// Answers for the native that is due: applies its asks in order and processes their events. Does nothing if no
    /// native is due. `Memory`, `Write`: the run is cut short.
    pub fn answer<O: Out>(&mut self, asks: Vec<Ask>, out: &mut O) -> Result<Pause, Halt>
        requires open { O.has_failed out.old ≡ false }
        requires whole { self.old.cut ≡ None }
        ensures made { Makes self.old.plan (moved self.old.plan (answer asks.items)
            (stands (seen N.meaning self.old.state) self.old.made self.old.pause))
            (stands (seen N.meaning self.new.state) self.new.made self.new.pause)
            (O.taken out.old) (O.taken out.new) result }
        ensures kept { (self.new.plan ≡ self.old.plan) × (self.new.cut ≡ halt_of result) }
        ensures failed { O.has_failed out.new ≡ stopped_by_write result }
    {
        match &self.pause {
            Pause::Going => Ok(Pause::Going),
            Pause::Resting => Ok(Pause::Resting),
            Pause::Due(_) => self.answer_on(asks, out),
            Pause::Over(end) => Ok(Pause::Over(*end)),
        }
    }

    // Applies the asks of a native that is due.
    fn answer_on<O: Out>(&mut self, asks: Vec<Ask>, out: &mut O) -> Result<Pause, Halt>
        requires open { O.has_failed out.old ≡ false }
        requires whole { self.old.cut ≡ None }
        ensures made { Makes self.old.plan
            (after self.old.made (answering self.old.plan asks.items (seen N.meaning self.old.state)))
            (stands (seen N.meaning self.new.state) self.new.made self.new.pause)
            (O.taken out.old) (O.taken out.new) result }
        ensures kept { (self.new.plan ≡ self.old.plan) × (self.new.cut ≡ halt_of result) }
        ensures failed { O.has_failed out.new ≡ stopped_by_write result }
    {
        // For the proof: the invariants of the schema, the plan and the blackboard.
        self.plan.schema().fits();
        let _ = self.plan.sources();
        self.state.board.fits();
        let mut page = Page::new(self.alloc);
        let mut runner = Runner {
            page: &mut page,
            out,
        };
        let emitted = runner.answer(&self.plan, asks, &mut self.state);
        match runner.written(emitted) {
            Ok(end) => {
                self.pause = pause_by(end);
                Ok(self.pause)
            }
            Err(halt) => {
                self.cut = Some(halt);
                Err(halt)
            }
        }
    }
}
