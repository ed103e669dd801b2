//! The best activation among the first of each source. waiting.rt calls it.

ghost use Rattle.std.specs.Prelude.{◌≡◌, ◌<◌, ◌&&◌, ◌||◌, ℕ, true, false, nat_lt, int_lt, IfSome, IfNone};
ghost use Rattle.std.specs.Ordering.{int_eq};
ghost use Rattle.bb_agenda.specs.declared.rank.Rank.{Rank as Ranked};
ghost use Rattle.bb_agenda.specs.proving.Ranks.{is_ranked};
ghost use Rattle.bb_agenda.specs.proving.Best.{rate_by, precedes, StandsFor, IsFirst, better};

use crate::focusing::Steering;
use crate::rank::Rank;
use std::collections::BTreeSet;

/// A pending activation with its rating.
#[derive(Clone, Copy)]
pub(crate) struct Candidate {
    pub(crate) rating: i128,
    pub(crate) number: u64,
}

impl Candidate {
    // Whether the candidate is rated higher than another one, or the same with a lower number.
    fn is_before(&self, other: &Candidate) -> bool
        ensures { result ≡ precedes self.now.rating self.now.number other.now.rating other.now.number }
    {
        other.rating < self.rating || (other.rating == self.rating && self.number < other.number)
    }
}

// The better of the best so far, if any, and another candidate.
fn better(best: Option<Candidate>, next: Candidate) -> Candidate
    ensures { result ≡ better best next }
{
    match best {
        Some(best) if !next.is_before(&best) => best,
        _ => next,
    }
}

/// Returns the best pending activation; compares only the first of each source.
pub(crate) fn best_of(orders: &[BTreeSet<Rank>], steering: &Steering) -> Option<Candidate>
    ensures some { IfSome result (λ b. StandsFor (rate_by steering.now) orders.now b) }
    ensures all { (s : ℕ) (r : Ranked) → is_ranked orders.now s r ≡ true →
        IsFirst (rate_by steering.now s r.base.0) r.number result }
{
    let mut best: Option<Candidate> = None;
    for place in 0..orders.len() {
        let Some(first) = orders[place].first() else {
            continue;
        };
        let candidate = Candidate {
            rating: steering.rating_at(place, first.base.0),
            number: first.number,
        };
        best = Some(better(best, candidate));
    }
    best
}
