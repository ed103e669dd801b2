//! The effects of those executions of a run whose sources are text. No code calls it.

ghost use Rattle.std.specs.Prelude.{◌≡◌, ℕ, List, Some, slice_get};
ghost use Rattle.bb_board.specs.Board.{Board};
ghost use Rattle.bb_lang.specs.SourceText.{SourceText};
ghost use Rattle.bb_rules.specs.Parts.{Source};
ghost use Rattle.bb_run_plan.specs.Plan.{Plan};
ghost use Rattle.bb_run.specs.Native.{Native};
ghost use Rattle.bb_run.specs.Run.{run};
ghost use Rattle.bb_run.specs.State.{State};
ghost use Rattle.bb_run.specs.Unstuck.{FitsPlan, IsReady, IsWellMade};
ghost use Rattle.bb_theorem_texts.specs.Executions.{AreTold};
ghost use Rattle.bb_theorem_texts.specs.Texts.{IsAsWritten};

use bb_run::runs_are_orderly;

/// States that the executions of a run do what the texts of their sources say, for any source of the run that is as a
/// text says, as `run_as_written` of `text_sources_mean_their_text` states of an input's texts.
///
/// - `told`: in a ready state of a run, each execution of a code of such a source gives the answer that the text of its
///   part means, and leaves the blackboard that the text means, with its notes; it is full exactly if the text is, and
///   never stuck. That is its act and its revalidation, for each of its pending activations; its requirement, at each
///   event that triggers it; and its reactions to events, about each of its pending activations. By `begins` of
///   `runs_are_orderly`, each of these and the response to an event leave a ready state.
/// - `at_choices`: the same holds in the state that a run leaves, for any limit of the run. These are the states that
///   choices are made in and whose activations are executed (`choices` and `followed` of `runs_are_orderly`).
pub fn executions_mean_their_text()
    ensures told { (plan : Plan) (s : State) (i : ℕ) (source : Source) (text : SourceText) →
        IsWellMade plan → IsReady plan s → slice_get plan.sources i ≡ Some source →
        IsAsWritten plan.schema text source → AreTold plan s i source text }
    ensures at_choices { (plan : Plan) (board : Board) (natives : List Native) (limit : ℕ)
        (i : ℕ) (source : Source) (text : SourceText) →
        IsWellMade plan → FitsPlan plan board → slice_get plan.sources i ≡ Some source →
        IsAsWritten plan.schema text source →
        AreTold plan (run plan board natives limit).state i source text }
{
    // For the proof: what every run is like.
    runs_are_orderly();
}
