//! What a cycle does with its activation: it asks whether the activation is still needed, and executes the source's
//! act. The cycle (cycles.rt) emits the notes.

ghost use Rattle.std.specs.Prelude.{◌≡◌, IfOk, None, Some, option_map};
ghost use Rattle.bb_agenda.specs.Rating.{rating_in};
ghost use Rattle.bb_rules.specs.declared.source.Act.TheVariants.{Code as DoesCode, Native};
ghost use Rattle.bb_verify.specs.Accepted.{Checked};
ghost use Rattle.bb_run.specs.Asking.{entry_of};
ghost use Rattle.bb_run.specs.Run.{chosen_with, executing, execution, validity, verdict_by};
ghost use Rattle.bb_run.specs.Seen.{seen};
ghost use Rattle.bb_run.specs.Serving.{CanExecute};
ghost use Rattle.bb_run.specs.Emitting.{IsResponse, Validates};

use crate::asking::{Reply, ask, entry_of};
use crate::calling::call;
use crate::noting::take_noted;
use crate::state::State;
use bb_agenda::Activation;
use bb_exec::{Stop, exec};
use bb_exec_lower::Lowered;
use bb_machine::Answer;
use bb_rules::{Act, Question, Source};
use bb_trace::{Board, End, NativeSource, Note};
use std::alloc::{AllocError, Global};

/// The verdict of a revalidation on a chosen activation.
#[derive(Clone, Copy, Debug)]
pub(crate) enum Verdict {
    /// The activation is still needed.
    Valid,
    /// The activation is not needed any more.
    Invalid,
    /// The revalidation came to no answer, and the run is over.
    Over(End),
}

// The verdict by a revalidation's reply.
fn verdict_by(reply: &Reply) -> Verdict
    ensures { result ≡ verdict_by reply.now }
{
    match reply {
        Reply::Answer(Answer::No) => Verdict::Invalid,
        Reply::Answer(_) => Verdict::Valid,
        Reply::Over(end) => Verdict::Over(*end),
    }
}

/// Asks the revalidation of a source, if there is one, about an activation. Without one, it is valid.
pub(crate) fn validate(
    alloc: Global,
    code: Option<&Question>,
    activation: Activation,
    board: &mut Board,
) -> Result<Verdict, AllocError>
    requires begins { (asked : Checked) → option_map (λ c. c.now) code ≡ Some asked
        → CanExecute asked (entry_of activation.unit None) board.old }
    ensures { IfOk result (λ v. Validates
        (validity (option_map (λ c. c.now) code.entry) activation board.old) v board.new) }
{
    match code {
        None => Ok(Verdict::Valid),
        Some(code) => {
            let reply = ask(alloc, code, entry_of(activation.unit, None), board)?;
            Ok(verdict_by(&reply))
        }
    }
}

/// Appends the notes of a cycle's choice, with the verdict on it, and removes the activation from the pending ones. If
/// the verdict is that the run is over, the activation stays, and the end of the run is returned.
pub(crate) fn take_choice<N: NativeSource>(
    cycle: u64,
    activation: Activation,
    verdict: &Verdict,
    state: &mut State<N>,
    notes: &mut Vec<Note>,
) -> Result<Option<End>, AllocError>
    ensures { IfOk result (IsResponse
        (chosen_with cycle activation (rating_in state.old.agenda activation) verdict.now (seen N.meaning state.old))
        notes.old.items notes.new.items (seen N.meaning state.new)) }
{
    let number = activation.number;
    let rating = state.agenda.rating_of(&activation);
    notes.push(Note::Chosen {
        cycle,
        activation,
        rating,
    })?;
    match verdict {
        Verdict::Valid => {
            state.agenda.executed(number)?;
            Ok(None)
        }
        Verdict::Invalid => {
            state.agenda.obviate(number)?;
            notes.push(Note::Invalid { number })?;
            Ok(None)
        }
        Verdict::Over(end) => Ok(Some(*end)),
    }
}

/// Executes the act of a source for an activation and appends its notes. Returns the end of the run if the execution
/// ended without an answer, or if the act is a native that was not passed in.
pub(crate) fn execute<N: NativeSource>(
    source: &Source,
    activation: Activation,
    state: &mut State<N>,
    notes: &mut Vec<Note>,
) -> Result<Option<End>, AllocError>
    requires begins { (code : Checked) → source.now.act ≡ DoesCode code
        → CanExecute code (entry_of activation.unit None) state.old.board }
    ensures { IfOk result (IsResponse
        (execution source.now.name source.now.act activation (seen N.meaning state.old))
        notes.old.items notes.new.items (seen N.meaning state.new)) }
{
    let source = source.parts();
    match &source.act {
        Act::Code(code) => execute_code(code, activation, state, notes),
        Act::Native => execute_native(source.name.as_str(), activation, state, notes),
    }
}

// Calls the native with a name. If none was handed in, the native is due and nothing happens.
fn execute_native<N: NativeSource>(
    name: &str,
    activation: Activation,
    state: &mut State<N>,
    notes: &mut Vec<Note>,
) -> Result<Option<End>, AllocError>
    ensures { IfOk result (IsResponse (execution name.now Native activation (seen N.meaning state.old))
        notes.old.items notes.new.items (seen N.meaning state.new)) }
{
    match state.roster.place(name) {
        Some(place) => call(place, activation, state, notes),
        None => Ok(Some(End::due(activation))),
    }
}

fn execute_code<N: NativeSource>(
    code: &Lowered,
    activation: Activation,
    state: &mut State<N>,
    notes: &mut Vec<Note>,
) -> Result<Option<End>, AllocError>
    requires begins { CanExecute code.now (entry_of activation.unit None) state.old.board }
    ensures { IfOk result (IsResponse (executing code.now.code activation (seen N.meaning state.old))
        notes.old.items notes.new.items (seen N.meaning state.new)) }
{
    let entry = entry_of(activation.unit, None);
    match exec(*notes.allocator(), code, &mut state.board, entry) {
        Ok(outcome) => {
            let ended = Note::Ended {
                steps: outcome.steps,
                found: outcome.found,
                budget: code.checked().budget(outcome.found),
            };
            take_noted(state, Some(ended), notes)?;
            Ok(None)
        }
        Err(Stop::Full { .. }) => {
            take_noted(state, None, notes)?;
            Ok(Some(End::FULL))
        }
        Err(Stop::Memory) => Err(AllocError),
    }
}
