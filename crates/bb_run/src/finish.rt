//! How a run ends, including when it is cut short. `run_to_end` returns it, as do bb_shell and bb_run_held.

ghost use Rattle.std.specs.Prelude.{◌≡◌, Some};
ghost use Rattle.bb_run.specs.Finish.{end_of};
ghost use Rattle.bb_run.specs.Unstuck.{NotDue};

use bb_trace::{End, EndKind};

/// How a run ends.
#[derive(Clone, Copy, Debug, PartialEq, Eq)]
pub enum Finish {
    /// Nothing can be chosen, and quiescence changed nothing.
    Quiescence,
    /// The limit of cycles was reached, and something can still be chosen.
    Limit,
    /// The blackboard or the agenda is full.
    Full,
    /// Memory ran out.
    Memory,
    /// The output failed.
    Write,
}

impl Finish {
    /// Returns the finish of a run with this end. A run with a native due is not finished.
    pub fn of(end: End) -> Finish
        requires not_due { NotDue (Some end) }
        ensures { end_of result ≡ Some end }
    {
        match end.kind {
            EndKind::Quiescence => Finish::Quiescence,
            EndKind::Limit => Finish::Limit,
            EndKind::Full => Finish::Full,
            EndKind::Due(_) => unreachable!(),
        }
    }
}
