//! Maps from two numbers to one, ordered by the first and then by the second. `pairs.rt` stores the stamps of its pairs
//! in one, and `partners.rt` the partners of each unit under the stamps of their pairs.

ghost use Rattle.std.specs.Prelude.{◌≡◌, ℕ, Some, None, if◌then◌else◌, OnOk, OnErr, IfOk, IfNone, slice_get};
ghost use Rattle.std.specs.BTreeMap.{IsOrdered};
ghost use Rattle.bb_links.specs.Pairs.{same_pair};
ghost use Rattle.bb_links.specs.proving.Maps.{pair_cmp, value_at, row};

use bb_basis::Memory;
use std::alloc::{AllocError, Global};
use std::collections::BTreeMap;

/// Puts a value under a key. An error changes nothing.
pub(crate) fn put(
    map: &mut BTreeMap<(u64, u64), u64>,
    key: (u64, u64),
    value: u64,
) -> Result<(), AllocError>
    ensures ok { OnOk result ((q : ℕ × ℕ) →
        value_at map.new q ≡ (if same_pair key q then Some value else value_at map.old q)) }
    ensures err { OnErr result (map.new.entries ≡ map.old.entries) }
{
    map.insert(key, value)?;
    Ok(())
}

/// Removes and returns the value under a key.
pub(crate) fn take(map: &mut BTreeMap<(u64, u64), u64>, key: (u64, u64)) -> Option<u64>
    ensures value { result ≡ value_at map.old key }
    ensures gone { (q : ℕ × ℕ) → value_at map.new q ≡ (if same_pair key q then None else value_at map.old q) }
    ensures none { IfNone result (map.new.entries ≡ map.old.entries) }
{
    map.remove(&key)
}

/// Returns the first value under keys of a first number whose second number is below `end`.
pub(crate) fn first(map: &BTreeMap<(u64, u64), u64>, number: u64, end: u64) -> Option<u64>
    ensures value { result ≡ slice_get (row map.now number end) 0 }
    ensures ordered { IsOrdered pair_cmp map.now }
{
    let (_, value) = map.range((number, 0)..(number, end)).next()?;
    Some(*value)
}

/// Returns the values under keys of a first number whose second number is below `end`, in their order.
pub(crate) fn list(
    alloc: Global,
    map: &BTreeMap<(u64, u64), u64>,
    number: u64,
    end: u64,
) -> Result<Vec<u64>, Memory>
    ensures list { IfOk result (λ list. list.items ≡ row map.now number end) }
    ensures ordered { IsOrdered pair_cmp map.now }
{
    let mut list = Vec::new(alloc);
    for (_, value) in map.range((number, 0)..(number, end)) {
        list.push(*value)?;
    }
    Ok(list)
}
