//! The changes of the lists and orders of pending activations. waiting.rt calls them.

ghost use Rattle.std.specs.Prelude.{◌≡◌, ℕ, ℤ, true, false, ◌&&◌, ◌==◌, ◌<◌, OnOk, OnErr, map, Some, if◌then◌else◌};
ghost use Rattle.std.specs.List.{AllByRecursion};
ghost use Rattle.std.specs.Map.{lookup, set_value};
ghost use Rattle.std.specs.Ordering.{nat_cmp};
ghost use Rattle.std.specs.BTreeMap.{is_at, insert_entry};
ghost use Rattle.bb_agenda.specs.declared.focusing.activation.Activation.{Activation as Given};
ghost use Rattle.bb_agenda.specs.declared.rank.Rank.{Rank as Ranked};
ghost use Rattle.bb_agenda.specs.Changes.{based_at};
ghost use Rattle.bb_agenda.specs.proving.Lists.{HasMore, IsBack};
ghost use Rattle.bb_agenda.specs.proving.Ranks.{is_ranked, ranked_more, same_rank, rank_of, reranked};

use crate::focusing::Activation;
use crate::lists::Lists;
use crate::order::{rank_in, rank_out};
use crate::rank::Rank;
use bb_basis::Memory;
use std::alloc::{AllocError, Global};
use std::cmp::Reverse;
use std::collections::{BTreeMap, BTreeSet};

// Adds an activation to its lists and to the order of its source. After an error it is in none of them, and the others
// are as before.
fn file(
    alloc: Global,
    lists: &mut Lists,
    orders: &mut Vec<BTreeSet<Rank>>,
    activation: &Activation,
) -> Result<(), Memory>
    ensures listed { OnOk result (HasMore lists.old activation.now lists.new) }
    ensures ranked { OnOk result ((s : ℕ) (r : Ranked) → is_ranked orders.new.items s r
        ≡ ranked_more orders.old.items activation.now.source (rank_of activation.now) s r) }
    ensures unlisted { OnErr result (IsBack lists.old activation.now lists.new) }
    ensures unranked { OnErr result ((s : ℕ) (r : Ranked) →
        (activation.now.source == s && same_rank (rank_of activation.now) r ≡ true
        → is_ranked orders.old.items s r ≡ false) → is_ranked orders.new.items s r ≡ is_ranked orders.old.items s r) }
{
    let rank = Rank::of(activation);
    rank_in(alloc, orders, activation.source, rank)?;
    if lists.add(activation).is_err() {
        rank_out(orders, activation.source, rank);
        return Err(AllocError);
    }
    Ok(())
}

/// Stores an activation whose number is above all others. After an error it is not stored, and the others are as
/// before.
pub(crate) fn store(
    alloc: Global,
    activations: &mut BTreeMap<u64, Activation>,
    lists: &mut Lists,
    orders: &mut Vec<BTreeSet<Rank>>,
    activation: &Activation,
) -> Result<(), Memory>
    requires { AllByRecursion (λ e. e.0 < activation.now.number) activations.old.entries }
    ensures kept { OnOk result (activations.new.entries
        ≡ insert_entry nat_cmp activations.old.entries activation.now.number activation.now) }
    ensures listed { OnOk result (HasMore lists.old activation.now lists.new) }
    ensures ranked { OnOk result ((s : ℕ) (r : Ranked) → is_ranked orders.new.items s r
        ≡ ranked_more orders.old.items activation.now.source (rank_of activation.now) s r) }
    ensures unkept { OnErr result (activations.new.entries ≡ activations.old.entries) }
    ensures unlisted { OnErr result (IsBack lists.old activation.now lists.new) }
    ensures unranked { OnErr result ((s : ℕ) (r : Ranked) →
        (activation.now.source == s && same_rank (rank_of activation.now) r ≡ true
        → is_ranked orders.old.items s r ≡ false) → is_ranked orders.new.items s r ≡ is_ranked orders.old.items s r) }
{
    activations.insert(activation.number, *activation)?;
    match file(alloc, lists, orders, activation) {
        Ok(()) => Ok(()),
        Err(refused) => {
            activations.remove(&activation.number);
            Err(refused)
        }
    }
}

/// Moves an activation within the order of its source, to the rank of another base. An error changes no order.
pub(crate) fn rerank(
    alloc: Global,
    orders: &mut Vec<BTreeSet<Rank>>,
    activation: &Activation,
    base: i64,
) -> Result<(), Memory>
    ensures ok { OnOk result ((s : ℕ) (r : Ranked) → is_ranked orders.new.items s r
        ≡ reranked orders.old.items activation.now base s r) }
    ensures err { OnErr result ((s : ℕ) (r : Ranked) →
        is_ranked orders.new.items s r ≡ is_ranked orders.old.items s r) }
{
    let rank = Rank {
        base: Reverse(base),
        number: activation.number,
    };
    rank_in(alloc, orders, activation.source, rank)?;
    rank_out(orders, activation.source, Rank::of(activation));
    Ok(())
}

/// Gives the activation with a number another base.
pub(crate) fn rebase(activations: &mut BTreeMap<u64, Activation>, number: u64, base: i64)
    ensures { (a : Given) → lookup (is_at (nat_cmp number)) activations.old.entries ≡ Some a →
        activations.new.entries ≡ set_value (is_at (nat_cmp number)) activations.old.entries (based_at base a) }
{
    if let Some(activation) = activations.get_mut(&number) {
        activation.base = base;
    }
}
