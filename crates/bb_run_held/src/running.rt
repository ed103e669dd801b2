//! A run between two moves of its host. Hosts in Rattle hold one.

ghost use Rattle.std.specs.Prelude.{◌≡◌, ◌+◌, All, IfOk, IfSome, None, Some, false, is_some, map};
ghost use Rattle.std.specs.Io.KnownBytes.{Appends};
ghost use Rattle.bb_run.specs.Emitting.{Makes as MakesStretch, Same, at};
ghost use Rattle.bb_run.specs.Finish.{WritesFront, end_of, is_write};
ghost use Rattle.bb_run.specs.Knowing.{Knows};
ghost use Rattle.bb_run.specs.Law.{IsMade};
ghost use Rattle.bb_run.specs.Page.{stopped_by_write};
ghost use Rattle.bb_run.specs.Roster.{closings_of};
ghost use Rattle.bb_run.specs.Run.{choice};
ghost use Rattle.bb_run.specs.Seen.{seen};
ghost use Rattle.bb_run.specs.Serving.{Lasts, Serves};
ghost use Rattle.bb_run.specs.TraceText.{trace_text};
ghost use Rattle.bb_run_held.specs.Making.{Begins, Makes, halt_of, stands};
ghost use Rattle.bb_run.specs.Sight.{sight_of};
ghost use Rattle.bb_run.specs.Turns.{turn};
ghost use Rattle.bb_run_held.specs.Moves.{advance, advanced, after, finished, is_due, made_by, moved, one_turn};
ghost use Rattle.bb_run_held.specs.Moves.{started};

mod asks;

use crate::pause::{Pause, ended, pause_by};
use bb_run::{
    Activation, Agenda, Board, Closed, End, Finish, Halt, NativeSource, Out, Page, Plan, Runner,
    Start, State, View, choose, first_state,
};
use std::alloc::Global;

/// A run between two moves of its host: its plan, its blackboard and agenda, and the natives passed in. It can't be
/// dropped, because the natives must be closed: `finish` and `close` consume it. After a move was cut short, because
/// memory ran out or the output failed, no other move can be made, and the blackboard is one from the middle of that
/// move.
pub struct Running<N: NativeSource> {
    alloc: Global,
    plan: Plan,
    state: State<N>,
    made: u64,
    pause: Pause,
    cut: Option<Halt>,
    ghost lasts: { cut ≡ None → Lasts plan (seen N.meaning state) },
}

// Makes the cycle with this number and counts it, or emits quiescence if nothing can be chosen.
fn take_turn<N: NativeSource, O: Out>(
    runner: &mut Runner<'_, O>,
    plan: &Plan,
    number: u64,
    made: &mut u64,
    state: &mut State<N>,
) -> Result<Option<End>, Halt>
    requires open { O.has_failed runner.old.out.now ≡ false }
    requires knows { Knows plan.now (seen N.meaning state.old) }
    requires serves { Serves plan.now (seen N.meaning state.old) }
    requires next { number ≡ made.old + 1 }
    ensures same { Same runner.old runner.new }
    ensures made { MakesStretch plan.now (at O.taken runner.old) (at O.taken runner.new)
        (turn plan.now made.old (seen N.meaning state.old)) (seen N.meaning state.new) result }
    ensures counted { made.new ≡ made_by made.old (choice plan.now (seen N.meaning state.old)) }
    ensures failed { O.has_failed runner.new.out.now ≡ stopped_by_write result }
{
    match choose(plan, state) {
        Some(activation) => {
            *made = number;
            runner.make_cycle(plan, number, activation, state)
        }
        None => runner.rest(plan, state),
    }
}

impl<N: NativeSource> Running<N> {
    /// Begins a run from the first state of a blackboard with the natives passed in: emits what the creation of the
    /// initial units noted, and processes its events. `Memory`: memory ran out. `Write`: the output failed. After an
    /// error every native is closed, and the blackboard is dropped. The blackboard has the plan's schema, and the
    /// sources were made under it, from codes that the verifier accepted under it. If a source has neither a code for
    /// its act nor a native of its name, the native is due when the source is to act, and the host answers for it.
    pub fn start<O: Out>(
        alloc: Global,
        plan: Plan,
        start: Start<N>,
        out: &mut O,
    ) -> Result<Running<N>, Halt>
        requires made { ∥ All (IsMade plan.schema) plan.sources ∥₁ }
        requires of_schema { start.board.schema ≡ plan.schema }
        requires open { O.has_failed out.old ≡ false }
        ensures begun { Begins plan (started plan start.board (map N.meaning start.roster.natives.items))
            (λ r. stands (seen N.meaning r.state) r.made r.pause) (O.taken out.old) (O.taken out.new) result }
        ensures kept { IfOk result (λ r. (r.plan ≡ plan) × (r.cut ≡ None)) }
        ensures failed { O.has_failed out.new ≡ stopped_by_write result }
    {
        // For the proof: the invariants of the schema, the plan and the blackboard.
        plan.schema().fits();
        let _ = plan.sources();
        start.board.fits();
        let mut state = first_state(alloc, &plan, start)?;
        let mut page = Page::new(alloc);
        let mut runner = Runner {
            page: &mut page,
            out,
        };
        let emitted = runner.begin(&plan, &mut state);
        match runner.written(emitted) {
            Ok(end) => Ok(Running {
                alloc,
                plan,
                state,
                made: 0,
                pause: pause_by(end),
                cut: None,
            }),
            Err(halt) => {
                let (closed, board) = state.close();
                drop(closed);
                drop(board);
                Err(halt)
            }
        }
    }

    /// Makes a cycle, or emits quiescence if nothing can be chosen. Does nothing if the run can't continue. `Memory`,
    /// `Write`: the run is cut short.
    pub fn turn<O: Out>(&mut self, out: &mut O) -> Result<Pause, Halt>
        requires open { O.has_failed out.old ≡ false }
        requires whole { self.old.cut ≡ None }
        ensures made { Makes self.old.plan
            (moved self.old.plan one_turn (stands (seen N.meaning self.old.state) self.old.made self.old.pause))
            (stands (seen N.meaning self.new.state) self.new.made self.new.pause)
            (O.taken out.old) (O.taken out.new) result }
        ensures kept { (self.new.plan ≡ self.old.plan) × (self.new.cut ≡ halt_of result) }
        ensures failed { O.has_failed out.new ≡ stopped_by_write result }
    {
        match &self.pause {
            Pause::Going => self.turn_on(out),
            Pause::Resting => Ok(Pause::Resting),
            Pause::Due(activation) => Ok(Pause::Due(*activation)),
            Pause::Over(end) => Ok(Pause::Over(*end)),
        }
    }

    // Makes a cycle, or emits quiescence, in a run that can continue.
    fn turn_on<O: Out>(&mut self, out: &mut O) -> Result<Pause, Halt>
        requires open { O.has_failed out.old ≡ false }
        requires whole { self.old.cut ≡ None }
        ensures made { Makes self.old.plan
            (after (made_by self.old.made (choice self.old.plan (seen N.meaning self.old.state)))
            (turn self.old.plan self.old.made (seen N.meaning self.old.state)))
            (stands (seen N.meaning self.new.state) self.new.made self.new.pause)
            (O.taken out.old) (O.taken out.new) result }
        ensures kept { (self.new.plan ≡ self.old.plan) × (self.new.cut ≡ halt_of result) }
        ensures failed { O.has_failed out.new ≡ stopped_by_write result }
    {
        // For the proof: the invariants of the schema, the plan and the blackboard.
        self.plan.schema().fits();
        let _ = self.plan.sources();
        self.state.board.fits();
        // Never fails: a cycle takes an activation, and activations are numbered below 2^63.
        let Some(number) = self.made.checked_add(1) else {
            self.cut = Some(Halt::Memory);
            return Err(Halt::Memory);
        };
        let mut page = Page::new(self.alloc);
        let mut runner = Runner {
            page: &mut page,
            out,
        };
        let emitted = take_turn(
            &mut runner,
            &self.plan,
            number,
            &mut self.made,
            &mut self.state,
        );
        match runner.written(emitted) {
            Ok(end) => {
                self.pause = pause_by(end);
                Ok(self.pause)
            }
            Err(halt) => {
                self.cut = Some(halt);
                Err(halt)
            }
        }
    }

    /// Makes up to `cycles` more cycles, then emits quiescence if nothing can be chosen. Does nothing if the run can't
    /// continue. `Memory`, `Write`: the run is cut short.
    pub fn advance<O: Out>(&mut self, cycles: u32, out: &mut O) -> Result<Pause, Halt>
        requires open { O.has_failed out.old ≡ false }
        requires whole { self.old.cut ≡ None }
        ensures made { Makes self.old.plan
            (moved self.old.plan (advance cycles) (stands (seen N.meaning self.old.state) self.old.made self.old.pause))
            (stands (seen N.meaning self.new.state) self.new.made self.new.pause)
            (O.taken out.old) (O.taken out.new) result }
        ensures kept { (self.new.plan ≡ self.old.plan) × (self.new.cut ≡ halt_of result) }
        ensures failed { O.has_failed out.new ≡ stopped_by_write result }
    {
        match &self.pause {
            Pause::Going => self.advance_on(cycles, out),
            Pause::Resting => Ok(Pause::Resting),
            Pause::Due(activation) => Ok(Pause::Due(*activation)),
            Pause::Over(end) => Ok(Pause::Over(*end)),
        }
    }

    // Makes up to `count` more cycles of a run that can continue.
    fn advance_on<O: Out>(&mut self, count: u32, out: &mut O) -> Result<Pause, Halt>
        requires open { O.has_failed out.old ≡ false }
        requires whole { self.old.cut ≡ None }
        ensures made { Makes self.old.plan
            (advanced self.old.plan self.old.made count (seen N.meaning self.old.state))
            (stands (seen N.meaning self.new.state) self.new.made self.new.pause)
            (O.taken out.old) (O.taken out.new) result }
        ensures kept { (self.new.plan ≡ self.old.plan) × (self.new.cut ≡ halt_of result) }
        ensures failed { O.has_failed out.new ≡ stopped_by_write result }
    {
        // For the proof: the invariants of the schema, the plan and the blackboard.
        self.plan.schema().fits();
        let _ = self.plan.sources();
        self.state.board.fits();
        // As in a turn, never fails.
        let Some(last) = self.made.checked_add(u64::from(count)) else {
            self.cut = Some(Halt::Memory);
            return Err(Halt::Memory);
        };
        let mut page = Page::new(self.alloc);
        let mut runner = Runner {
            page: &mut page,
            out,
        };
        let emitted = runner.make_cycles(&self.plan, &mut self.made, last, &mut self.state);
        match runner.written(emitted) {
            Ok(end) => {
                self.pause = pause_by(Some(end));
                Ok(self.pause)
            }
            Err(halt) => {
                self.cut = Some(halt);
                Err(halt)
            }
        }
    }

    /// Ends the run; if it can still continue, it first reaches rest, or its limit. Emits its end and what every native
    /// reports at its close, and returns the blackboard. `Memory`: memory ran out. `Write`: the output failed. A run
    /// that was cut short can't be finished, only closed. Nor can a run with a native due, which can be answered first,
    /// or closed.
    pub fn finish<O: Out>(self, out: &mut O) -> (Finish, Board)
        requires open { O.has_failed out.old ≡ false }
        requires whole { self.cut ≡ None }
        requires rests { is_due self.pause ≡ false }
        ensures finish { IfSome (end_of result.0) (λ end.
            (finished self.plan (stands (seen N.meaning self.state) self.made self.pause)).end ≡ Some end) }
        ensures text { IfSome (end_of result.0) (λ _. Appends (O.taken out.old) (O.taken out.new)
            (trace_text self.plan (finished self.plan (stands (seen N.meaning self.state) self.made self.pause)).emitted)) }
        ensures front { WritesFront self.plan
            (finished self.plan (stands (seen N.meaning self.state) self.made self.pause))
            result.0 (O.taken out.old) (O.taken out.new) }
        ensures board { IfSome (end_of result.0) (λ _. result.1
            ≡ (finished self.plan (stands (seen N.meaning self.state) self.made self.pause)).state.board) }
        ensures failed { O.has_failed out.new ≡ is_write result.0 }
    {
        let Running {
            alloc,
            plan,
            state,
            made,
            pause,
            cut: _cut,
        } = self;
        // For the proof: the invariants of the schema, the plan and the blackboard.
        plan.schema().fits();
        let _ = plan.sources();
        state.board.fits();
        let mut page = Page::new(alloc);
        let mut runner = Runner {
            page: &mut page,
            out,
        };
        let (ended, board) = runner.finish(&plan, made, ended(&pause), state);
        match ended {
            Ok(end) => (Finish::of(end), board),
            Err(Halt::Memory) => (Finish::Memory, board),
            Err(Halt::Write) => (Finish::Write, board),
        }
    }

    /// Closes every native once, in order; returns what each reported and the blackboard. Writes nothing and needs no
    /// memory; the trace has no finish.
    pub fn close(self) -> (Closed, Board)
        ensures closed { result.0 ≡ closings_of (map N.meaning self.state.roster.natives.items) }
        ensures board { result.1 ≡ self.state.board }
    {
        let Running {
            alloc: _alloc,
            plan,
            state,
            made: _made,
            pause: _pause,
            cut: _cut,
        } = self;
        drop(plan);
        state.close()
    }

    /// Returns a view of the blackboard, also of a run that was cut short.
    pub fn view(&self) -> View<'_>
        ensures { result ≡ sight_of self.now.state.board }
    {
        View::new(&self.state.board)
    }

    /// Returns the plan: the sources, the schema and the floor.
    pub fn plan(&self) -> &Plan
        ensures { result.now ≡ self.now.plan }
    {
        &self.plan
    }

    /// Returns the agenda: the pending activations, and what became of the earlier ones.
    pub fn agenda(&self) -> &Agenda
        ensures { result.now ≡ self.now.state.agenda }
    {
        &self.state.agenda
    }

    /// Returns whether the run was cut short, so that no other move can be made.
    pub fn was_cut(&self) -> bool
        ensures { result ≡ is_some self.now.cut }
    {
        self.cut.is_some()
    }

    /// Returns the state of the run.
    pub fn pause(&self) -> Pause
        ensures { result ≡ self.now.pause }
    {
        self.pause
    }

    /// Returns the number of cycles made.
    pub fn made(&self) -> u64
        ensures { result ≡ self.now.made }
    {
        self.made
    }

    /// Returns what a turn would choose, if anything can be chosen.
    pub fn next(&self) -> Option<Activation>
        requires whole { self.now.cut ≡ None }
        ensures { result ≡ choice self.now.plan (seen N.meaning self.now.state) }
    {
        // For the proof: the invariants of the schema, the plan and the blackboard.
        self.plan.schema().fits();
        let _ = self.plan.sources();
        self.state.board.fits();
        choose(&self.plan, &self.state)
    }
}
