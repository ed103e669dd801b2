//! Why a change may not be made. The methods of `Board` that begin with `may` return it.

ghost use Rattle.std.specs.Prelude.{◌≡◌};
ghost use Rattle.bb_board.specs.May.{reason_number};

/// Why a change of a blackboard may not be made: the first reason, in this order.
#[derive(Clone, Copy, Debug, PartialEq, Eq)]
pub enum Reason {
    /// A unit is not live.
    Deleted,
    /// The unit's class has no such slot.
    Slot,
    /// The slot can't hold the value.
    Kind,
    /// The partner is not of the link slot's target class.
    LinkClass,
    /// The space does not exist, or does not accept units of the class.
    Space,
}

impl Reason {
    /// Returns the reason's number in a trace, from 1 to 5.
    pub fn number(self) -> u8
        ensures { result ≡ reason_number self }
    {
        match self {
            Reason::Deleted => 1,
            Reason::Slot => 2,
            Reason::Kind => 3,
            Reason::LinkClass => 4,
            Reason::Space => 5,
        }
    }
}
