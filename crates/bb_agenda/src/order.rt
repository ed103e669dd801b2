//! The execution order of the pending activations of each source, by their ranks. waiting.rt keeps it.

ghost use Rattle.std.specs.Prelude.{◌≡◌, ◌<◌, ℕ, length, OnOk, OnErr};
ghost use Rattle.bb_agenda.specs.declared.rank.Rank.{Rank as Ranked};
ghost use Rattle.bb_agenda.specs.proving.Ranks.{is_ranked, ranked_more, ranked_less};

use crate::rank::Rank;
use bb_basis::Memory;
use std::alloc::Global;
use std::collections::BTreeSet;

// Adds empty orders up to the index of a source. An error changes no order.
fn reach(alloc: Global, orders: &mut Vec<BTreeSet<Rank>>, source: u16) -> Result<(), Memory>
    ensures ok { OnOk result (source < length orders.new.items) }
    ensures same { (s : ℕ) (r : Ranked) → is_ranked orders.new.items s r ≡ is_ranked orders.old.items s r }
{
    for _order in orders.len()..=source as usize {
        orders.push(BTreeSet::new(alloc))?;
    }
    Ok(())
}

/// Adds a rank to the order of a source. An error changes no order.
pub(crate) fn rank_in(
    alloc: Global,
    orders: &mut Vec<BTreeSet<Rank>>,
    source: u16,
    rank: Rank,
) -> Result<(), Memory>
    ensures ok { OnOk result ((s : ℕ) (r : Ranked) →
        is_ranked orders.new.items s r ≡ ranked_more orders.old.items source rank s r) }
    ensures err { OnErr result ((s : ℕ) (r : Ranked) →
        is_ranked orders.new.items s r ≡ is_ranked orders.old.items s r) }
{
    reach(alloc, orders, source)?;
    orders[source as usize].insert(rank)?;
    Ok(())
}

/// Removes a rank from the order of a source.
pub(crate) fn rank_out(orders: &mut Vec<BTreeSet<Rank>>, source: u16, rank: Rank)
    ensures { (s : ℕ) (r : Ranked) →
        is_ranked orders.new.items s r ≡ ranked_less orders.old.items source rank s r }
{
    let place = source as usize;
    if place < orders.len() {
        orders[place].remove(&rank);
    }
}
