//! The cycles of a run, in the parts of its definition, and what else a host lets a run do between them. A whole run
//! (whole.rt) is built from them.

ghost use Rattle.std.specs.Prelude.{◌≡◌, ◌+◌, ◌-◌, Some, OnOk, false, option_and_then, option_map, slice_get};
ghost use Rattle.bb_trace.specs.Page.{stopped_by_write};
ghost use Rattle.bb_run.specs.Run.{acting, choice, cycle, cycles, if_valid};
ghost use Rattle.bb_run.specs.Turns.{answering, choices_of, posting, rested};
ghost use Rattle.bb_run.specs.Unstuck.{SuitsSource};
ghost use Rattle.bb_run.specs.Knowing.{Knows};
ghost use Rattle.bb_run.specs.Seen.{seen};
ghost use Rattle.bb_run.specs.Serving.{Serves};
ghost use Rattle.bb_run.specs.Emitting.{Finishes, Makes, Same, Waits, at};

use crate::calling::{apply_answer, apply_posted};
use crate::execution::{Verdict, execute, take_choice, validate};
use crate::processing::source_at;
use crate::runner::Runner;
use crate::state::State;
use bb_agenda::Activation;
use bb_rules::{Question, Source};
use bb_run_plan::Plan;
use bb_trace::{Ask, End, Halt, NativeSource, Note, Out};

/// The decision before a cycle: an activation is chosen, or the run is over.
#[derive(Clone, Copy, Debug)]
pub(crate) enum Decision {
    Act(Activation),
    Over(End),
}

/// Chooses an activation, if one can be chosen. The agenda rates by the foci reported to it, which are the
/// blackboard's.
pub fn choose<N: NativeSource>(plan: &Plan, state: &State<N>) -> Option<Activation>
    requires knows { Knows plan.now (seen N.meaning state.now) }
    ensures { result ≡ choice plan.now (seen N.meaning state.now) }
{
    let number = state.agenda.choose(plan.floor())?;
    Some(state.agenda.activation(number))
}

// The code with which a source revalidates, if it has one.
fn revalidation(source: Option<&Source>) -> Option<&Question>
    ensures { option_map (λ c. c.now) result
        ≡ option_and_then (λ t. t.revalidate) (option_map (λ s. s.now) source.entry) }
{
    source?.parts().revalidate.as_ref()
}

// The source that acts, if the verdict on its activation is that it is valid.
fn if_valid(verdict: Verdict, source: Option<&Source>) -> Option<&Source>
    ensures { option_map (λ s. s.now) result ≡ if_valid verdict (option_map (λ s. s.now) source.entry) }
{
    match verdict {
        Verdict::Valid => source,
        _ => None,
    }
}

impl<O: Out> Runner<'_, O> {
    // Chooses an activation, after quiescence if none can be chosen at once. The run is over if none can be chosen
    // after quiescence either.
    fn decide<N: NativeSource>(
        &mut self,
        plan: &Plan,
        state: &mut State<N>,
    ) -> Result<Decision, Halt>
        requires open { O.has_failed self.old.out.now ≡ false }
        requires knows { Knows plan.now (seen N.meaning state.old) }
        requires serves { Serves plan.now (seen N.meaning state.old) }
        ensures same { Same self.old self.new }
        ensures waited { Waits plan.now (at O.taken self.old) (at O.taken self.new)
            (seen N.meaning state.old) (seen N.meaning state.new) result }
        ensures failed { O.has_failed self.new.out.now ≡ stopped_by_write result }
    {
        if let Some(activation) = choose(plan, state) {
            return Ok(Decision::Act(activation));
        }
        if let Some(end) = self.quiesce(plan, state)? {
            return Ok(Decision::Over(end));
        }
        match choose(plan, state) {
            Some(activation) => Ok(Decision::Act(activation)),
            None => Ok(Decision::Over(End::QUIESCENCE)),
        }
    }

    // Lets a source act for an activation.
    fn act<N: NativeSource>(
        &mut self,
        plan: &Plan,
        source: &Source,
        activation: Activation,
        state: &mut State<N>,
    ) -> Result<Option<End>, Halt>
        requires open { O.has_failed self.old.out.now ≡ false }
        requires serves { Serves plan.now (seen N.meaning state.old) }
        requires there { slice_get plan.now.sources activation.source ≡ Some source.now }
        requires suits { SuitsSource plan.now state.old.board activation }
        ensures same { Same self.old self.new }
        ensures made { Makes plan.now (at O.taken self.old) (at O.taken self.new)
            (acting plan.now (Some source.now) activation (seen N.meaning state.old))
            (seen N.meaning state.new) result }
        ensures failed { O.has_failed self.new.out.now ≡ stopped_by_write result }
    {
        let mut notes = Vec::new(self.alloc());
        let end = execute(source, activation, state, &mut notes)?;
        self.report(plan, &notes, end, state)
    }

    /// Makes a cycle: asks whether the activation is still needed, emits the choice, removes the activation from the
    /// pending ones, and lets its source act if it is valid. Returns the end of the run if it ends there.
    pub fn make_cycle<N: NativeSource>(
        &mut self,
        plan: &Plan,
        number: u64,
        activation: Activation,
        state: &mut State<N>,
    ) -> Result<Option<End>, Halt>
        requires open { O.has_failed self.old.out.now ≡ false }
        requires knows { Knows plan.now (seen N.meaning state.old) }
        requires serves { Serves plan.now (seen N.meaning state.old) }
        requires suits { SuitsSource plan.now state.old.board activation }
        ensures same { Same self.old self.new }
        ensures made { Makes plan.now (at O.taken self.old) (at O.taken self.new)
            (cycle plan.now number activation (seen N.meaning state.old)) (seen N.meaning state.new) result }
        ensures failed { O.has_failed self.new.out.now ≡ stopped_by_write result }
    {
        let source = source_at(plan.sources(), activation.source);
        let verdict = validate(
            self.alloc(),
            revalidation(source),
            activation,
            &mut state.board,
        )?;
        let mut notes = Vec::new(self.alloc());
        let end = take_choice(number, activation, &verdict, state, &mut notes)?;
        self.emit(plan, &notes)?;
        if let Some(end) = end {
            return Ok(Some(end));
        }
        match if_valid(verdict, source) {
            Some(source) => self.act(plan, source, activation, state),
            None => Ok(None),
        }
    }

    /// Makes cycles up to the cycle with number `last`, after `made` earlier cycles; counts them in `made`. Returns the
    /// end of the run.
    pub fn make_cycles<N: NativeSource>(
        &mut self,
        plan: &Plan,
        made: &mut u64,
        last: u64,
        state: &mut State<N>,
    ) -> Result<End, Halt>
        requires open { O.has_failed self.old.out.now ≡ false }
        requires knows { Knows plan.now (seen N.meaning state.old) }
        requires serves { Serves plan.now (seen N.meaning state.old) }
        ensures same { Same self.old self.new }
        ensures made { Finishes plan.now (at O.taken self.old) (at O.taken self.new)
            (cycles plan.now made.old (last - made.old) (seen N.meaning state.old))
            (seen N.meaning state.new) result }
        ensures counted { OnOk result (made.new
            ≡ made.old + choices_of (cycles plan.now made.old (last - made.old) (seen N.meaning state.old))) }
        ensures failed { O.has_failed self.new.out.now ≡ stopped_by_write result }
    {
        for done in *made..last {
            let activation = match self.decide(plan, state)? {
                Decision::Act(activation) => activation,
                Decision::Over(end) => return Ok(end),
            };
            *made = done + 1;
            if let Some(end) = self.make_cycle(plan, done + 1, activation, state)? {
                return Ok(end);
            }
        }
        match self.decide(plan, state)? {
            Decision::Act(_) => Ok(End::LIMIT),
            Decision::Over(end) => Ok(end),
        }
    }

    /// Emits quiescence and processes it. Returns the end of the run if it ends there, or if nothing can be chosen
    /// afterwards either.
    pub fn rest<N: NativeSource>(
        &mut self,
        plan: &Plan,
        state: &mut State<N>,
    ) -> Result<Option<End>, Halt>
        requires open { O.has_failed self.old.out.now ≡ false }
        requires knows { Knows plan.now (seen N.meaning state.old) }
        requires serves { Serves plan.now (seen N.meaning state.old) }
        ensures same { Same self.old self.new }
        ensures made { Makes plan.now (at O.taken self.old) (at O.taken self.new)
            (rested plan.now (seen N.meaning state.old)) (seen N.meaning state.new) result }
        ensures failed { O.has_failed self.new.out.now ≡ stopped_by_write result }
    {
        if let Some(end) = self.quiesce(plan, state)? {
            return Ok(Some(end));
        }
        match choose(plan, state) {
            Some(_) => Ok(None),
            None => Ok(Some(End::QUIESCENCE)),
        }
    }

    /// Applies asks from outside the run and processes their events. Returns the end of the run if it ends there.
    pub fn post<N: NativeSource>(
        &mut self,
        plan: &Plan,
        asks: Vec<Ask>,
        state: &mut State<N>,
    ) -> Result<Option<End>, Halt>
        requires open { O.has_failed self.old.out.now ≡ false }
        requires serves { Serves plan.now (seen N.meaning state.old) }
        ensures same { Same self.old self.new }
        ensures made { Makes plan.now (at O.taken self.old) (at O.taken self.new)
            (posting plan.now asks.items (seen N.meaning state.old)) (seen N.meaning state.new) result }
        ensures failed { O.has_failed self.new.out.now ≡ stopped_by_write result }
    {
        let mut notes = Vec::new(self.alloc());
        notes.push(Note::Posted)?;
        let end = apply_posted(asks, state, &mut notes)?;
        self.report(plan, &notes, end, state)
    }

    /// Applies the asks of a native that is due and processes their events. Returns the end of the run if it ends
    /// there.
    pub fn answer<N: NativeSource>(
        &mut self,
        plan: &Plan,
        asks: Vec<Ask>,
        state: &mut State<N>,
    ) -> Result<Option<End>, Halt>
        requires open { O.has_failed self.old.out.now ≡ false }
        requires serves { Serves plan.now (seen N.meaning state.old) }
        ensures same { Same self.old self.new }
        ensures made { Makes plan.now (at O.taken self.old) (at O.taken self.new)
            (answering plan.now asks.items (seen N.meaning state.old)) (seen N.meaning state.new) result }
        ensures failed { O.has_failed self.new.out.now ≡ stopped_by_write result }
    {
        let mut notes = Vec::new(self.alloc());
        let end = apply_answer(asks, state, &mut notes)?;
        self.report(plan, &notes, end, state)
    }
}
