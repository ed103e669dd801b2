//! Asks the codes of a source. reacting.rt and triggering.rt ask about events, and execution.rt about the chosen
//! activation.

ghost use Rattle.std.specs.Prelude.{◌≡◌, IfOk};
ghost use Rattle.bb_run.specs.Asking.{attempt, entry_of, reply_by};
ghost use Rattle.bb_run.specs.Serving.{CanExecute};
ghost use Rattle.bb_run.specs.Emitting.{Replies};

use bb_exec::{Stop, exec};
use bb_machine::{Answer, Entry};
use bb_rules::Question;
use bb_schema::UnitId;
use bb_trace::{Board, End};
use std::alloc::{AllocError, Global};

/// The reply of a code that was asked.
#[derive(Clone, Copy, Debug)]
pub(crate) enum Reply {
    Answer(Answer),
    /// The code came to no answer, and the run is over.
    Over(End),
}

/// Returns the entry that the code of a part begins with.
pub(crate) fn entry_of(it: UnitId, ev: Option<UnitId>) -> Entry
    ensures { result ≡ entry_of it ev }
{
    Entry { it, ev }
}

/// Asks a question. The blackboard stays unchanged. The error: out of memory.
pub(crate) fn ask(
    alloc: Global,
    code: &Question,
    entry: Entry,
    board: &mut Board,
) -> Result<Reply, AllocError>
    requires begins { CanExecute code.now entry board.old }
    ensures replied { IfOk result (λ reply. Replies (attempt code.now.code entry board.old) reply board.new) }
    ensures kept { IfOk result (λ _. board.new ≡ board.old) }
{
    // For the proof: a question only reads.
    code.fits();
    match exec(alloc, code.lowered(), board, entry) {
        Ok(outcome) => Ok(Reply::Answer(outcome.answer)),
        Err(Stop::Full { .. }) => Ok(Reply::Over(End::FULL)),
        Err(Stop::Memory) => Err(AllocError),
    }
}
