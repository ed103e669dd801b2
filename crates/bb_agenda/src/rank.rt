//! The rank of a pending activation among the pending activations of its source. order.rt keeps the ranks of each
//! source in order.

ghost use Rattle.std.specs.Prelude.{◌≡◌};
ghost use Rattle.bb_agenda.specs.proving.Ranks.{rank_of};

use crate::focusing::Activation;
use std::cmp::Reverse;

/// The rank of an activation: first the higher base, then the lower number. A focus matches all activations of a source
/// or none of them; therefore ranks are in the order of ratings.
#[derive(Clone, Copy, PartialEq, Eq, PartialOrd, Ord)]
pub(crate) struct Rank {
    pub(crate) base: Reverse<i64>,
    pub(crate) number: u64,
}

impl Rank {
    /// Returns the rank of an activation.
    pub(crate) fn of(activation: &Activation) -> Rank
        ensures { result ≡ rank_of activation.now }
    {
        Rank {
            base: Reverse(activation.base),
            number: activation.number,
        }
    }
}
