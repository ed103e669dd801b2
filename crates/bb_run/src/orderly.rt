//! The properties of every run. No code calls this; it states the properties of the runs that `run_texts` writes.

ghost use Rattle.std.specs.Prelude.{◌≡◌, ℕ, ◌+◌, ◌-◌, ℤ, List, ◌∷◌, ◌++◌};
ghost use Rattle.bb_agenda.specs.declared.focusing.activation.Activation.{Activation};
ghost use Rattle.bb_rules.specs.declared.source.Act.{Act};
ghost use Rattle.bb_trace.specs.Board.{Board};
ghost use Rattle.bb_trace.specs.declared.note.Note.{Note};
ghost use Rattle.bb_trace.specs.declared.note.Note.TheVariants.{Chosen};
ghost use Rattle.bb_trace.specs.Native.{Native};
ghost use Rattle.bb_run_plan.specs.Plan.{Plan};
ghost use Rattle.bb_run.specs.State.{State};
ghost use Rattle.bb_run.specs.Run.{execution, run};
ghost use Rattle.bb_run.specs.Acts.{IsDone};
ghost use Rattle.bb_run.specs.Order.{notes_of, At, EndsOnce, Extends, IsChosenAfter};
ghost use Rattle.bb_run.specs.Executed.{IsFollowed};
ghost use Rattle.bb_run.specs.Left.{IsLeft};
ghost use Rattle.bb_run.specs.Phases.{GoesByPhases};
ghost use Rattle.bb_run.specs.Responds.{Responds};
ghost use Rattle.bb_run.specs.Reads.{AsksByReading, ReadsOnly};
ghost use Rattle.bb_run.specs.Unstuck.{BeginsEach, FitsPlan, IsReady, IsUnstuck, IsWellMade};

/// States the properties of every run, for any plan, first state of the blackboard, natives and limit.
///
/// - `phases`: a run begins with what its blackboard had noted. After that, a note of the blackboard comes between a
///   choice and the end of its cycle, or is quiescence. Quiescence comes only while no cycle is open, not twice without
///   a choice in between, and only if no activation that is pending by the notes can be chosen in its state. A cycle
///   ends before the next begins. A run that finishes by quiescence has emitted it and made no choice after it.
///   Activations are numbered from 1.
/// - `choices`: up to the choice of a cycle, a run is the run whose limit is one less than the cycle's number, and the
///   activation is chosen in the last state of that run. It is pending by the notes, and was never chosen or obviated;
///   it is rated at least the floor, no pending activation is rated higher, and of equals it is the earliest. Cycles
///   are numbered from 1.
/// - `followed`: right after a choice comes what its source's act emits for the activation's unit, executed on the
///   blackboard and with the natives of that state, and the finish if the run ends there. If the source's revalidation
///   says no, it is the note that the activation is invalid.
/// - `acts`: an executed code emits what the blackboard noted during it, and then its steps, the units that it found
///   and its budget; if it ends without an answer, the run is over. For a called native, every ask is reported, from
///   number 1: what the blackboard noted, or that the ask was refused. Each ask is applied to the blackboard that the
///   earlier ones left. If the native is missing, the run is over with it due.
/// - `responds`: right after events are emitted, the sources respond to them: to what the blackboard had noted, to what
///   is emitted upon a choice, and to quiescence. Event by event and source by source, they emit what their codes
///   answer on the blackboard in its state at that time. First, every pending activation of the source is obviated if
///   the code of `obviate` says yes about it. Then each of these still pending gets the base that the code of
///   `retrigger` rates. Then, if the event triggers the source, the source gets the next activation, with the base that
///   its requirement rates, or its rate if it requires nothing, or it declines. If a code ends without an answer, or
///   the agenda is full, the finish comes; else, after all responses, comes quiescence, a choice or the finish. A
///   choice has the blackboard and the natives that the execution before it left; the first choice has the blackboard
///   and the natives that were passed in. This holds for plans whose codes write nothing if a source asks them; by
///   `reads`, it holds for every plan.
/// - `reads`: responses to an event change only the agenda, and the codes asked about a choice change nothing.
/// - `ends`: a run has an end, which it emits once. After it come only the closings of its natives: each is closed
///   once, in order, as the run left it, the same except for what it holds. The run is full only if, in its last state,
///   65,536 activations are pending, or the last number was given, or no unit can be created and either its last
///   execution was stopped for that or its last native asked for one. It is stuck only if its last execution was. A
///   native is due only if the source of the chosen activation has a native for its act, and no native of its name
///   exists. A run makes no more cycles than its limit. If it ends by its limit, it made that many, and something can
///   still be chosen; if it ends in quiescence, nothing can be.
/// - `longer`: a longer limit changes nothing before the finish of a run that ends by its limit, and nothing at all of
///   any other run.
/// - `leaves`: in the last state of a run, and therefore at each choice, no more than 65,536 activations are pending,
///   and the agenda was given the foci that the blackboard then has. If the sources were made under the blackboard's
///   schema, from codes that the verifier accepted under it, the state is ready: the blackboard fits, and the unit of
///   every pending activation was created with its source's class, or is the unit of quiescence.
/// - `begins`: in a ready state, every code begins with units that fit its part: the act and the revalidation of a
///   pending activation, and what sources ask about an event of the blackboard. Both leave a ready state, and the
///   events of an act belong to the blackboard that it leaves.
/// - `unstuck`: therefore no run of such sources is stuck, for any reason, and no execution makes more steps than the
///   budget on its line.
///
/// Consequences of these clauses are not clauses: that sources are triggered as the events demand, that each execution
/// follows its choice, and that no native is due at the end if none is lacking. Lemmas derive them from the clauses
/// only (`proofs/Corollaries`).
pub fn runs_are_orderly()
    ensures phases { (plan : Plan) (board : Board) (natives : List Native) (limit : ℕ) →
        GoesByPhases plan board natives (run plan board natives limit) }
    ensures choices { (plan : Plan) (board : Board) (natives : List Native) (limit : ℕ)
        (before : List Note) (cycle : ℕ) (a : Activation) (r : ℤ) →
        At (notes_of (run plan board natives limit)) before (Chosen cycle a r) →
        IsChosenAfter plan (run plan board natives (cycle - 1)) before cycle a r }
    ensures followed { (plan : Plan) (board : Board) (natives : List Native) (limit : ℕ)
        (before after : List Note) (cycle : ℕ) (a : Activation) (r : ℤ) →
        notes_of (run plan board natives limit) ≡ before ++ Chosen cycle a r ∷ after →
        IsFollowed plan (run plan board natives (cycle - 1)).state a after }
    ensures acts { (s : State) (name : List ℕ) (act : Act) (a : Activation) →
        IsDone s name act a (execution name act a s) }
    ensures responds { (plan : Plan) (board : Board) (natives : List Native) (limit : ℕ) →
        AsksByReading plan → Responds plan board natives limit }
    ensures reads { (plan : Plan) → ReadsOnly plan }
    ensures ends { (plan : Plan) (board : Board) (natives : List Native) (limit : ℕ) →
        EndsOnce plan natives limit (run plan board natives limit) }
    ensures longer { (plan : Plan) (board : Board) (natives : List Native) (limit more : ℕ) →
        Extends (run plan board natives limit) (run plan board natives (limit + more)) }
    ensures leaves { (plan : Plan) (board : Board) (natives : List Native) (limit : ℕ) →
        IsLeft plan board (run plan board natives limit).state }
    ensures begins { (plan : Plan) (s : State) → IsWellMade plan → IsReady plan s → BeginsEach plan s }
    ensures unstuck { (plan : Plan) (board : Board) (natives : List Native) (limit : ℕ) →
        IsWellMade plan → FitsPlan plan board → IsUnstuck (run plan board natives limit) }
{}
