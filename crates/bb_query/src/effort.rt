//! The limits of what `find` may spend on candidates before it scans all members of the space instead. `near.rt` spends
//! it. The numbers, with their reasons, are in `index/costs.rt` of bb_space.

use bb_schema::UnitId;
use bb_space::Leaf;
use bb_space::index::{FIRST_CANDIDATES, FOUND, MORE_CANDIDATES, SORTED};

/// What may be spent: the maximum number of candidates for a test in this round, and the steps left for all rounds.
#[derive(Clone, Copy)]
pub(crate) struct Effort {
    most: usize,
    left: usize,
}

impl Effort {
    /// Returns the effort of the first round in a space of `members` members. All rounds together may spend one step
    /// for each.
    pub(crate) fn new(members: usize) -> Effort {
        Effort {
            most: FIRST_CANDIDATES,
            left: members,
        }
    }

    /// Returns the maximum number of candidates for a test: up to `most` if they are found in ascending order, as for
    /// one low end or one label. Others must be sorted; therefore fewer are allowed.
    pub(crate) fn most_of(&self, test: &Leaf) -> usize {
        let most = if test.has_one_key() {
            self.most
        } else {
            self.most / SORTED
        };
        most.min(self.left / FOUND)
    }

    /// Returns the maximum number of candidates for each of `pairs` pairs of tests.
    pub(crate) fn most_of_each(&self, pairs: usize) -> usize {
        self.most
            .min(self.left / FOUND.saturating_mul(pairs).max(1))
    }

    /// Subtracts what was spent: `walked` steps if no candidates were found, or else the cost of processing them.
    pub(crate) fn spend(&mut self, walked: usize, found: &Option<Vec<UnitId>>) {
        let steps = match found {
            None => walked,
            Some(list) => list.len().saturating_mul(FOUND),
        };
        self.left = self.left.saturating_sub(steps);
    }

    /// Starts the next round, which allows more candidates for a test. Returns `false` if the last round is over.
    pub(crate) fn grow(&mut self) -> bool {
        if self.most >= self.left {
            return false;
        }
        self.most = self.most.saturating_mul(MORE_CANDIDATES);
        true
    }
}
