//! The moves of a history, for a run that is taken up again. `Held::resume` makes them.

ghost use Rattle.std.specs.Prelude.{◌≡◌, map};
ghost use Rattle.bb_basis.specs.Results.{Gives};
ghost use Rattle.bb_moves.specs.Meant.{meant};
ghost use Rattle.bb_moves.specs.MovesText.{moves_of};
ghost use Rattle.bb_c_run.specs.History.{refusal_by, unopened};

use crate::held::OpenFault;
use crate::no_native::NoNative;
use bb_moves::{Move, MovesFault, moves_of};
use bb_shell::HostedShell;
use std::alloc::Global;

/// Why a run can't be taken up again.
#[derive(Clone, Copy, Debug, PartialEq, Eq)]
pub enum ResumeFault {
    /// The input is refused.
    Refused,
    /// The text is not a history: the number of its first wrong line, from 1.
    Line(u64),
    /// Memory ran out.
    Memory,
}

/// Returns why a run can't be taken up again if it can't be opened.
pub(crate) fn unopened(fault: OpenFault) -> ResumeFault
    ensures { result ≡ unopened fault }
{
    match fault {
        OpenFault::Refused => ResumeFault::Refused,
        OpenFault::Memory => ResumeFault::Memory,
    }
}

/// Returns why a run can't be taken up again if its history has this fault.
pub(crate) fn refusal_by(fault: MovesFault) -> ResumeFault
    ensures { result ≡ refusal_by fault }
{
    match fault {
        MovesFault::At { line, flaw: _ } => ResumeFault::Line(line),
        MovesFault::Memory => ResumeFault::Memory,
    }
}

/// Reads the moves of a history under the schema of a shell.
pub(crate) fn moves_under(
    alloc: Global,
    shell: &HostedShell<NoNative>,
    history: &str,
) -> Result<Vec<Move>, MovesFault>
    ensures { Gives MovesFault.Memory (λ v. map meant v.items) result (moves_of shell.now.plan.schema history.now) }
{
    moves_of(alloc, shell.plan().schema(), history)
}

/// Drops a shell whose run does not begin.
pub(crate) fn drop_shell(shell: HostedShell<NoNative>) {
    let (plan, board, roster) = shell.into_parts();
    drop(plan);
    drop(board);
    drop(roster.close_all());
}
