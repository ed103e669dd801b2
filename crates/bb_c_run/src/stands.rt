//! The state of a held run after a call.

ghost use Rattle.std.specs.Prelude.{◌≡◌};
ghost use Rattle.bb_c_run.specs.Sitting.{stands_by};

use bb_run_held::Pause;

/// The state of a held run after a call.
#[derive(Clone, Copy, Debug, PartialEq, Eq)]
pub enum Stands {
    /// The run can continue: something can be chosen, or a turn emits quiescence.
    Going,
    /// Quiescence was emitted, and nothing can be chosen after it: only a post continues the run.
    Resting,
    /// A native is due: only an answer for it continues the run.
    Due,
    /// The run is over: its blackboard or its agenda is full.
    Full,
    /// Memory ran out, now or before: the run can be read and closed, nothing else.
    Memory,
    /// The run is finished, and the call did nothing.
    Finished,
    /// The call can't be made now and did nothing: a native is due at a post, or none is due at an answer.
    Misused,
}

/// Returns the state of a run between two moves.
pub(crate) fn stands_by(pause: Pause) -> Stands
    ensures { result ≡ stands_by pause }
{
    match pause {
        Pause::Going => Stands::Going,
        Pause::Resting => Stands::Resting,
        Pause::Due(_) => Stands::Due,
        Pause::Over(_) => Stands::Full,
    }
}
