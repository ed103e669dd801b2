//! The statuses of the calls on a held run, and the numbers of kinds of slots, with the names of `include/bb.h`.

ghost use Rattle.std.specs.Prelude.{◌≡◌};
ghost use Rattle.bb_c.specs.Called.{status_of};
ghost use Rattle.bb_c.specs.Looked.{Comes, kind_number};

use bb_c_run::{SlotKind, Stands};

/// The call was made. For a move: the run is at rest.
pub(crate) const OK: u8 = 0;

/// What is looked up does not exist.
pub(crate) const NONE: u8 = 1;

/// The input or a name is refused.
pub(crate) const REFUSED: u8 = 2;

/// The run can continue.
pub(crate) const GOING: u8 = 3;

/// The run is over: its blackboard or its agenda is full.
pub(crate) const FULL: u8 = 4;

/// Memory ran out.
pub(crate) const MEMORY: u8 = 5;

/// A native is due.
pub(crate) const DUE: u8 = 8;

/// The run does not exist, because none was begun or it was finished; or the call can't be made now.
pub(crate) const MISUSE: u8 = 9;

/// Returns the status that reports the state of a run.
pub(crate) fn status_of(stands: Stands) -> u8
    ensures { result ≡ status_of stands }
{
    match stands {
        Stands::Resting => OK,
        Stands::Going => GOING,
        Stands::Due => DUE,
        Stands::Full => FULL,
        Stands::Memory => MEMORY,
        Stands::Finished => MISUSE,
        Stands::Misused => MISUSE,
    }
}

/// A slot that holds a number.
pub(crate) const KIND_INT: u8 = 0;

/// A slot that holds a text.
pub(crate) const KIND_TEXT: u8 = 1;

/// A slot that holds a truth value.
pub(crate) const KIND_BOOL: u8 = 2;

/// A slot that holds a label.
pub(crate) const KIND_LABEL: u8 = 3;

/// A slot that holds an interval.
pub(crate) const KIND_INTERVAL: u8 = 4;

/// A link slot.
pub(crate) const KIND_LINK: u8 = 5;

/// Returns the number of a kind of slot.
pub(crate) fn kind_number(kind: SlotKind) -> u8
    ensures { result ≡ kind_number kind }
{
    match kind {
        SlotKind::Int => KIND_INT,
        SlotKind::Text => KIND_TEXT,
        SlotKind::Bool => KIND_BOOL,
        SlotKind::Label => KIND_LABEL,
        SlotKind::Interval => KIND_INTERVAL,
        SlotKind::Link => KIND_LINK,
    }
}

/// Writes what was looked up to `to`, and returns whether it exists.
pub(crate) fn given<T: Copy>(found: Option<T>, to: &mut T) -> u8
    ensures { Comes found (λ it. to.new ≡ it) (to.new ≡ to.old) result }
{
    match found {
        Some(it) => {
            *to = it;
            OK
        }
        None => NONE,
    }
}
