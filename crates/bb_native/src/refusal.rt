//! The reasons why an ask of a native is refused. applying.rt returns them, and a trace has their numbers.

ghost use Rattle.std.specs.Prelude.{◌≡◌};
ghost use Rattle.bb_native.specs.Refusals.{refusal_number, refusal_of};

use bb_board::Reason;

/// Why an ask is refused. If several reasons apply, it is the first in this order.
#[derive(Clone, Copy, Debug, PartialEq, Eq)]
pub enum Refusal {
    /// A unit that the ask names is not live.
    Deleted,
    /// The unit's class has no such ordinary slot (to set) or link slot (to link or unlink).
    Slot,
    /// The slot can't hold the value, or a text to be said is too long.
    Kind,
    /// The class of the unit to link to is not the link slot's target class or a class below it.
    LinkClass,
    /// The space doesn't exist, or doesn't admit units of the class.
    Space,
    /// The class doesn't exist.
    Class,
}

impl Refusal {
    /// Returns the refusal's number in a trace, from 1 to 6.
    pub fn number(self) -> u8
        ensures { result ≡ refusal_number self }
    {
        match self {
            Refusal::Deleted => 1,
            Refusal::Slot => 2,
            Refusal::Kind => 3,
            Refusal::LinkClass => 4,
            Refusal::Space => 5,
            Refusal::Class => 6,
        }
    }
}

impl From<Reason> for Refusal {
    ghost from_gives = { λ reason refusal. refusal ≡ refusal_of reason };

    fn from(reason: Reason) -> Refusal {
        match reason {
            Reason::Deleted => Refusal::Deleted,
            Reason::Slot => Refusal::Slot,
            Reason::Kind => Refusal::Kind,
            Reason::LinkClass => Refusal::LinkClass,
            Reason::Space => Refusal::Space,
        }
    }
}
