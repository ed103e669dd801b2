//! The state of a run between two moves of its host.

ghost use Rattle.std.specs.Prelude.{◌≡◌};
ghost use Rattle.bb_run_held.specs.Moves.{ended, is_due, pause_by};

use bb_run::{Activation, End, EndKind};

/// The state of a run between two moves of its host.
#[derive(Clone, Copy, Debug)]
pub enum Pause {
    /// The run can continue: something can be chosen, or a turn emits quiescence.
    Going,
    /// Quiescence was emitted and changed nothing: only asks from outside can continue the run.
    Resting,
    /// A native is due: the source of this activation acts by one that was not passed in. The host answers for it.
    Due(Activation),
    /// The run is over: its blackboard or its agenda is full.
    Over(End),
}

impl Pause {
    /// Returns whether a native is due. If one is, the run can't be finished.
    pub fn is_due(&self) -> bool
        ensures { result ≡ is_due self.now }
    {
        match self {
            Pause::Due(_) => true,
            Pause::Over(end) => matches!(end.kind, EndKind::Due(_)),
            Pause::Going | Pause::Resting => false,
        }
    }
}

/// Returns the state of a run after a part that ended by `end`, if it ended.
pub(crate) fn pause_by(end: Option<End>) -> Pause
    ensures { result ≡ pause_by end }
{
    let Some(end) = end else {
        return Pause::Going;
    };
    match end.kind {
        EndKind::Quiescence => Pause::Resting,
        EndKind::Limit => Pause::Going,
        EndKind::Full => Pause::Over(end),
        EndKind::Due(activation) => Pause::Due(activation),
    }
}

/// Returns the end of a run, if it has one.
pub(crate) fn ended(pause: &Pause) -> Option<End>
    ensures { result ≡ ended pause.now }
{
    match pause {
        Pause::Going => None,
        Pause::Resting => Some(End::QUIESCENCE),
        Pause::Due(activation) => Some(End::due(*activation)),
        Pause::Over(end) => Some(*end),
    }
}
