//! The input and the outcome of an execution. bb_exec shares most types; the run (bb_run) acts on the outcome.

ghost use Rattle.std.specs.Prelude.{◌≡◌};
ghost use Rattle.bb_machine.specs.Reasons.{reason_number};
ghost use Rattle.bb_machine.specs.declared.outcome.Stop.TheVariants.{Memory};

use bb_schema::UnitId;
use std::alloc::AllocError;

/// The units that an execution starts with.
#[derive(Clone, Copy, Debug, PartialEq, Eq)]
pub struct Entry {
    /// The activation's unit, in local 0.
    pub it: UnitId,
    /// The event's unit, in local 1, for the parts that respond to an event.
    pub ev: Option<UnitId>,
}

/// The answer of a part of a source.
#[derive(Clone, Copy, Debug, PartialEq, Eq)]
pub enum Answer {
    /// The part has done its work.
    Done,
    /// The activation gets this rating.
    Rated(i64),
    /// The part declines to give a rating.
    Declined,
    Yes,
    No,
}

/// Why an execution could not continue.
#[derive(Clone, Copy, Debug, PartialEq, Eq)]
pub enum Stuck {
    /// An operand, a table entry, a class, a label, a local or its value is missing.
    Missing,
    /// A value has the wrong kind.
    Kind,
    /// A unit is deleted, but has to be live.
    Deleted,
    /// The partner of a link has the wrong class.
    LinkClass,
    /// The index of the next op is outside the code, or the stack would have a 65th entry.
    Outside,
    /// A slot, a query or a space does not fit.
    Slot,
    /// The limit of steps was reached.
    Turns,
}

impl Stuck {
    /// Returns the number of the reason in traces, from 1 to 7.
    pub fn number(self) -> u8
        ensures { result ≡ reason_number self }
    {
        match self {
            Stuck::Missing => 1,
            Stuck::Kind => 2,
            Stuck::Deleted => 3,
            Stuck::LinkClass => 4,
            Stuck::Outside => 5,
            Stuck::Slot => 6,
            Stuck::Turns => 7,
        }
    }
}

/// An execution that ended with an answer.
#[derive(Clone, Copy, Debug, PartialEq, Eq)]
pub struct Outcome {
    pub answer: Answer,
    /// The number of executed ops, including the end.
    pub steps: u128,
    /// The maximum number of units of a sequence, at most 65,536; 0 if there was no sequence.
    pub found: u32,
}

/// Why an execution stopped before an end. `steps` includes the op that could not be done, if there was one; `found` is
/// as in `Outcome`.
#[derive(Clone, Copy, Debug, PartialEq, Eq)]
pub enum Stop {
    /// No more units can be created.
    Full {
        steps: u128,
        found: u32,
    },
    /// The execution could not continue.
    Stuck {
        reason: Stuck,
        steps: u128,
        found: u32,
    },
    /// Memory ran out.
    Memory,
}

impl From<AllocError> for Stop {
    ghost from_gives = { λ _ stop. stop ≡ Memory };

    fn from(_error: AllocError) -> Stop {
        Stop::Memory
    }
}
