//! A whole run of the blackboard machine, from its start to its finish. The shell (bb_shell) calls `run_to_end`.

ghost use Rattle.std.specs.Prelude.{◌≡◌, [], All, Some, IfOk, IsSomeAnd, false, map};
ghost use Rattle.bb_run_plan.specs.Foci.{first_agenda};
ghost use Rattle.bb_rules.specs.Law.{IsMade};
ghost use Rattle.bb_trace.specs.Page.{stopped_by_write};
ghost use Rattle.bb_run.specs.Causes.{LacksNative};
ghost use Rattle.bb_run.specs.Finish.{end_of};
ghost use Rattle.bb_run.specs.Run.{run, start};
ghost use Rattle.bb_run.specs.Turns.{settled};
ghost use Rattle.bb_run.specs.Knowing.{Knows, MayKnow};
ghost use Rattle.bb_run.specs.Unstuck.{IsUnstuck};
ghost use Rattle.bb_run.specs.Seen.{seen};
ghost use Rattle.bb_run.specs.Serving.{MayServe, Serves};
ghost use Rattle.bb_run.specs.Emitting.{EndsRun, Finishes, Makes, Same, Writes, at};

use crate::finish::Finish;
use crate::noting::take_noted;
use crate::runner::Runner;
use crate::state::{Start, State};
use bb_agenda::Agenda;
use bb_run_plan::{Plan, rated_sources, tell_all};
use bb_trace::{Board, End, Halt, NativeSource, Out, Page};
use std::alloc::{AllocError, Global};

impl<O: Out> Runner<'_, O> {
    /// Emits what the creation of the initial units noted, and processes its events.
    pub fn begin<N: NativeSource>(
        &mut self,
        plan: &Plan,
        state: &mut State<N>,
    ) -> Result<Option<End>, Halt>
        requires open { O.has_failed self.old.out.now ≡ false }
        requires new { state.old.agenda ≡ first_agenda plan.now state.old.board }
        requires serves { MayServe plan.now state.old.board }
        ensures same { Same self.old self.new }
        ensures made { Makes plan.now (at O.taken self.old) (at O.taken self.new)
            (start plan.now state.old.board (map N.meaning state.old.roster.natives.items))
            (seen N.meaning state.new) result }
        ensures failed { O.has_failed self.new.out.now ≡ stopped_by_write result }
    {
        let mut notes = Vec::new(self.alloc());
        take_noted(state, None, &mut notes)?;
        self.report(plan, &notes, None, state)
    }

    // Makes the whole run and writes all of its text. Every native is closed, also if the run is cut short; returns the
    // end and the blackboard that is left.
    fn make_run<N: NativeSource>(
        &mut self,
        plan: &Plan,
        limit: u64,
        state: State<N>,
    ) -> (Result<End, Halt>, Board)
        requires open { O.has_failed self.old.out.now ≡ false }
        requires new { state.agenda ≡ first_agenda plan.now state.board }
        requires may { MayKnow plan.now state.board }
        requires serves { MayServe plan.now state.board }
        requires empty { self.old.page.now ≡ [] }
        ensures same { Same self.old self.new }
        ensures end { IfOk result.0 (λ end.
            (run plan.now state.board (map N.meaning state.roster.natives.items) limit).end ≡ Some end) }
        ensures board { IfOk result.0 (λ _. result.1
            ≡ (run plan.now state.board (map N.meaning state.roster.natives.items) limit).state.board) }
        ensures written { Writes plan.now (O.taken self.old.out.now) (O.taken self.new.out.now)
            (run plan.now state.board (map N.meaning state.roster.natives.items) limit).emitted result.0 }
        ensures failed { O.has_failed self.new.out.now ≡ stopped_by_write result.0 }
    {
        let mut state = state;
        let made = match self.begin(plan, &mut state) {
            Ok(None) => {
                let mut cycles = 0;
                self.make_cycles(plan, &mut cycles, limit, &mut state)
            }
            Ok(Some(end)) => Ok(end),
            Err(halt) => Err(halt),
        };
        let (closed, board) = state.close();
        (self.end_by(plan, made, closed), board)
    }

    /// Ends a run after `made` cycles. If it has no end yet, it first reaches quiescence, or its limit. Every native is
    /// closed, also if the run is cut short; returns the end and the blackboard that is left.
    pub fn finish<N: NativeSource>(
        &mut self,
        plan: &Plan,
        made: u64,
        ended: Option<End>,
        state: State<N>,
    ) -> (Result<End, Halt>, Board)
        requires open { O.has_failed self.old.out.now ≡ false }
        requires knows { Knows plan.now (seen N.meaning state) }
        requires serves { Serves plan.now (seen N.meaning state) }
        requires empty { self.old.page.now ≡ [] }
        ensures same { Same self.old self.new }
        ensures ends { EndsRun plan.now (O.taken self.old.out.now) (O.taken self.new.out.now)
            (settled plan.now made ended (seen N.meaning state)) result.0 }
        ensures board { IfOk result.0 (λ _. result.1
            ≡ (settled plan.now made ended (seen N.meaning state)).state.board) }
        ensures failed { O.has_failed self.new.out.now ≡ stopped_by_write result.0 }
    {
        let mut state = state;
        let settled = self.settle(plan, made, ended, &mut state);
        let (closed, board) = state.close();
        (self.end_by(plan, settled, closed), board)
    }

    // Lets a run come to rest, or to its limit, if it has no end yet.
    fn settle<N: NativeSource>(
        &mut self,
        plan: &Plan,
        made: u64,
        ended: Option<End>,
        state: &mut State<N>,
    ) -> Result<End, Halt>
        requires open { O.has_failed self.old.out.now ≡ false }
        requires knows { Knows plan.now (seen N.meaning state.old) }
        requires serves { Serves plan.now (seen N.meaning state.old) }
        ensures same { Same self.old self.new }
        ensures made { Finishes plan.now (at O.taken self.old) (at O.taken self.new)
            (settled plan.now made ended (seen N.meaning state.old)) (seen N.meaning state.new) result }
        ensures failed { O.has_failed self.new.out.now ≡ stopped_by_write result }
    {
        if let Some(end) = ended {
            return Ok(end);
        }
        let mut last = made;
        self.make_cycles(plan, &mut last, made, state)
    }
}

// The agenda that a run begins with: nothing is pending, and it knows the foci of the blackboard.
fn first_agenda(alloc: Global, plan: &Plan, board: &Board) -> Result<Agenda, AllocError>
    ensures agenda { IfOk result (λ agenda. agenda ≡ first_agenda plan.now board.now) }
    ensures may { IfOk result (λ _. MayKnow plan.now board.now) }
{
    // For the proof: the numbers of live units were given out.
    board.fits();
    let sources = rated_sources(alloc, plan.sources())?;
    let mut agenda = Agenda::new(alloc, plan.shared_schema()?, sources);
    tell_all(&mut agenda, board)?;
    Ok(agenda)
}

/// Creates the state that a run begins with; the contract has the facts that let it begin. If memory runs out, every
/// native is closed, in order, and the blackboard is dropped.
pub fn first_state<N: NativeSource>(
    alloc: Global,
    plan: &Plan,
    start: Start<N>,
) -> Result<State<N>, AllocError>
    ensures agenda { IfOk result (λ s. s.agenda ≡ first_agenda plan.now s.board) }
    ensures board { IfOk result (λ s. s.board ≡ start.board) }
    ensures natives { IfOk result (λ s.
        map N.meaning s.roster.natives.items ≡ map N.meaning start.roster.natives.items) }
    ensures may { IfOk result (λ _. MayKnow plan.now start.board) }
{
    let Start { board, roster } = start;
    match first_agenda(alloc, plan, &board) {
        Ok(agenda) => Ok(State {
            board,
            agenda,
            roster,
        }),
        Err(refused) => {
            drop(roster.close_all());
            Err(refused)
        }
    }
}

/// Runs a blackboard from its first state with the natives passed in, for at most `limit` cycles, and writes the trace.
/// Returns how the run ended and the blackboard that it leaves. At the end every native is closed once, in order, also
/// if the run was cut short. `Memory`: memory ran out. `Write`: the output failed. The blackboard has the plan's
/// schema, and the sources were made under it, from codes that the verifier accepted under it; each source has a code
/// for its act, or there is a native of its name. Therefore no execution can get stuck, and no native is due at the
/// end; the machine's run is not stuck and keeps its budgets, also if it is cut short here.
pub fn run_to_end<N: NativeSource, O: Out>(
    alloc: Global,
    plan: &Plan,
    start: Start<N>,
    limit: u32,
    out: &mut O,
) -> Result<(Finish, Board), Halt>
    requires made { ∥ All (IsMade plan.now.schema) plan.now.sources ∥₁ }
    requires acts { ¬ LacksNative plan.now (map N.meaning start.roster.natives.items) }
    requires of_schema { start.board.schema ≡ plan.now.schema }
    requires open { O.has_failed out.old ≡ false }
    ensures finish { IfOk result (λ r. IsSomeAnd (end_of r.0) (λ end.
        (run plan.now start.board (map N.meaning start.roster.natives.items) limit).end ≡ Some end)) }
    ensures board { IfOk result (λ r.
        r.1 ≡ (run plan.now start.board (map N.meaning start.roster.natives.items) limit).state.board) }
    ensures written { Writes plan.now (O.taken out.old) (O.taken out.new)
        (run plan.now start.board (map N.meaning start.roster.natives.items) limit).emitted result }
    ensures unstuck { IsUnstuck (run plan.now start.board (map N.meaning start.roster.natives.items) limit) }
    ensures failed { O.has_failed out.new ≡ stopped_by_write result }
{
    // For the proof: the invariants of the schema and the plan.
    plan.schema().fits();
    let _ = plan.sources();
    // For the proof: the invariant of the blackboard.
    start.board.fits();
    let state = first_state(alloc, plan, start)?;
    let mut page = Page::new(alloc);
    let mut runner = Runner {
        page: &mut page,
        out,
    };
    let (ended, board) = runner.make_run(plan, u64::from(limit), state);
    match ended {
        Ok(end) => Ok((Finish::of(end), board)),
        Err(halt) => Err(halt),
    }
}
