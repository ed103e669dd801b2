//! A blackboard with the sources that run on it. Hosts make one and run it; `run_texts` makes one from an input.

ghost use Rattle.std.specs.Prelude.{◌≡◌, ◌≤◌, true, false, length, map, All, None, Some, IfOk, IfSome, IsSomeAnd};
ghost use Rattle.std.specs.Io.KnownBytes.{Appends};
ghost use Rattle.bb_basis.specs.Results.{Gives};
ghost use Rattle.bb_run.specs.Emitting.{Writes};
ghost use Rattle.bb_run.specs.Finish.{WritesFront, end_of, is_write};
ghost use Rattle.bb_rules.specs.Law.{IsMade};
ghost use Rattle.bb_run.specs.Page.{stopped_by_write};
ghost use Rattle.bb_run.specs.Roster.{all_open};
ghost use Rattle.bb_run.specs.Run.{run};
ghost use Rattle.bb_run.specs.TraceText.{trace_text};
ghost use Rattle.bb_run.specs.Unstuck.{IsUnstuck};
ghost use Rattle.bb_shell.specs.Fitting.{HasAct, names_in, native_names};
ghost use Rattle.bb_shell.specs.Meaning.{meaning};
ghost use Rattle.bb_shell.specs.Shell.{shell_of};

use crate::fitting::{Unfit, fit_all};
use crate::texts::{Texts, read_input};
use bb_refusal::InputFault;
use bb_rules::{RuleFault, Source};
use bb_run::{Board, Closing, Finish, Halt, NativeSource, Out, Plan, Roster, Start, run_to_end};
use std::alloc::Global;

/// A blackboard, the sources that run on it, in order, the natives passed in, and the minimum rating that can be chosen
/// (GBBopen Reference Manual, Agenda Shell). It can't be dropped, because its natives must be closed: `run`,
/// `run_to_end` and `into_parts` consume it.
pub struct Shell<N: NativeSource> {
    plan: Plan,
    board: Board,
    roster: Roster<N>,
    ghost of_schema: { board.schema ≡ plan.schema },
    ghost made: { ∥ All (IsMade plan.schema) plan.sources ∥₁ },
    ghost acted: { All (HasAct (native_names (map N.meaning roster.natives.items))) plan.sources },
}

impl<N: NativeSource> Shell<N> {
    /// Creates a shell of these sources, in order, with the natives of a roster. The host has made the sources under
    /// the schema of the blackboard, from codes that were verified under it. The fault is the first, source by source:
    /// `Twice`; `Limit` past 256 sources; `Native` if no native of its name was passed in. `Memory`: memory ran out.
    /// After a fault every native is closed, in order, and blackboard and sources are dropped.
    pub fn new(
        alloc: Global,
        board: Board,
        sources: Vec<Source>,
        roster: Roster<N>,
        floor: i64,
    ) -> Result<Shell<N>, RuleFault>
        requires made { All (IsMade board.schema) sources.items }
        ensures shell { Gives RuleFault.Memory (λ s. record { plan = s.plan; board = s.board }) result
            (shell_of (native_names (map N.meaning roster.natives.items)) board sources.items floor) }
        ensures natives { IfOk result (λ s.
            map N.meaning s.roster.natives.items ≡ map N.meaning roster.natives.items) }
    {
        match plan_for(alloc, roster.handed_in(), &board, sources, floor) {
            Ok(plan) => Ok(Shell {
                plan,
                board,
                roster,
            }),
            Err(fault) => {
                drop(roster.close_all());
                Err(fault)
            }
        }
    }

    /// Creates a shell from the texts of an input, with the natives passed in: schema, initial units, the sources that
    /// are text and then the sources of a bundle. An input is refused at the first step that refuses it, in the order
    /// of `run_texts`; then every native is closed, in order.
    pub fn of_texts(
        alloc: Global,
        texts: &Texts<'_>,
        natives: Vec<N>,
        floor: i64,
    ) -> Result<Shell<N>, InputFault>
        requires { all_open (map N.meaning natives.items) ≡ true }
        ensures means { Gives InputFault.Memory (λ s. record { plan = s.plan; board = s.board }) result
            (meaning (native_names (map N.meaning natives.items)) texts.now.schema.now texts.now.units.now
            texts.now.sources.now texts.now.bundle.now floor) }
        ensures natives { IfOk result (λ s. map N.meaning s.roster.natives.items ≡ map N.meaning natives.items) }
    {
        let roster = Roster::new(alloc, natives)?;
        match read_input(alloc, roster.handed_in(), texts, floor) {
            Ok((plan, board)) => Ok(Shell {
                plan,
                board,
                roster,
            }),
            Err(fault) => {
                drop(roster.close_all());
                Err(fault)
            }
        }
    }

    /// Runs the shell for at most `limit` cycles and writes the trace. Every native is closed once, in order, however
    /// the run ends. `Memory`: memory ran out. `Write`: the output failed. The machine's run is not stuck and keeps its
    /// budgets, also if it is cut short here.
    pub fn run<O: Out>(self, alloc: Global, limit: u32, out: &mut O) -> Finish
        requires open { O.has_failed out.old ≡ false }
        ensures finish { IfSome (end_of result) (λ end.
            (run self.plan self.board (map N.meaning self.roster.natives.items) limit).end ≡ Some end) }
        ensures text { IfSome (end_of result) (λ _. Appends (O.taken out.old) (O.taken out.new)
            (trace_text self.plan (run self.plan self.board (map N.meaning self.roster.natives.items) limit).emitted)) }
        ensures front { WritesFront self.plan (run self.plan self.board (map N.meaning self.roster.natives.items) limit)
            result (O.taken out.old) (O.taken out.new) }
        ensures unstuck { IsUnstuck (run self.plan self.board (map N.meaning self.roster.natives.items) limit) }
        ensures failed { O.has_failed out.new ≡ is_write result }
    {
        let Shell {
            plan,
            board,
            roster,
        } = self;
        match run_to_end(alloc, &plan, Start { board, roster }, limit, out) {
            Ok((finish, left)) => {
                drop(left);
                finish
            }
            Err(halt) => match halt {
                Halt::Memory => Finish::Memory,
                Halt::Write => Finish::Write,
            },
        }
    }

    /// Runs the shell as `run` does; returns how the run ended and the blackboard that it leaves. `Memory`: memory ran
    /// out. `Write`: the output failed.
    pub fn run_to_end<O: Out>(
        self,
        alloc: Global,
        limit: u32,
        out: &mut O,
    ) -> Result<(Finish, Board), Halt>
        requires open { O.has_failed out.old ≡ false }
        ensures finish { IfOk result (λ r. IsSomeAnd (end_of r.0) (λ end.
            (run self.plan self.board (map N.meaning self.roster.natives.items) limit).end ≡ Some end)) }
        ensures board { IfOk result (λ r.
            r.1 ≡ (run self.plan self.board (map N.meaning self.roster.natives.items) limit).state.board) }
        ensures written { Writes self.plan (O.taken out.old) (O.taken out.new)
            (run self.plan self.board (map N.meaning self.roster.natives.items) limit).emitted result }
        ensures unstuck { IsUnstuck (run self.plan self.board (map N.meaning self.roster.natives.items) limit) }
        ensures failed { O.has_failed out.new ≡ stopped_by_write result }
    {
        let Shell {
            plan,
            board,
            roster,
        } = self;
        run_to_end(alloc, &plan, Start { board, roster }, limit, out)
    }

    /// Returns the plan: the sources, the schema and the floor.
    pub fn plan(&self) -> &Plan
        ensures { result.now ≡ self.now.plan }
    {
        &self.plan
    }

    /// Returns the plan, the blackboard and the natives, for `Running::of_shell` (bb_run_held) to begin a run with that
    /// the host holds.
    pub fn into_parts(self) -> (Plan, Board, Roster<N>)
        ensures plan { result.0 ≡ self.plan }
        ensures board { result.1 ≡ self.board }
        ensures natives { map N.meaning result.2.natives.items ≡ map N.meaning self.roster.natives.items }
        ensures of_schema { result.1.schema ≡ result.0.schema }
        ensures made { ∥ All (IsMade result.0.schema) result.0.sources ∥₁ }
    {
        let Shell {
            plan,
            board,
            roster,
        } = self;
        (plan, board, roster)
    }
}

// The plan of sources for a blackboard and the natives handed in.
#[tactic(auto, unfolding(crate::specs::Shell::shell_of))]
fn plan_for(
    alloc: Global,
    natives: &[Closing],
    board: &Board,
    sources: Vec<Source>,
    floor: i64,
) -> Result<Plan, RuleFault>
    requires made { All (IsMade board.now.schema) sources.items }
    ensures shell { Gives RuleFault.Memory (λ p. record { plan = p; board = board.now }) result
        (shell_of (names_in natives.now) board.now sources.items floor) }
    ensures of_schema { IfOk result (λ p. board.now.schema ≡ p.schema) }
    ensures made { IfOk result (λ p. All (IsMade p.schema) p.sources) }
    ensures acts { IfOk result (λ p. All (HasAct (names_in natives.now)) p.sources) }
{
    let schema = board.shared_schema()?;
    match fit_all(alloc, natives, sources) {
        Ok(source_set) => {
            let plan = Plan::new(alloc, schema, source_set.into_sources(), floor)?;
            Ok(plan)
        }
        Err(Unfit::Source { fault, .. }) => Err(fault),
        Err(Unfit::Memory) => Err(RuleFault::Memory),
    }
}
