//! Couples: a link slot and its inverse, an association. A schema counts them once, when it is read.

ghost use Rattle.std.specs.Prelude.{◌≡◌, ◌≤◌, ◌<◌, length, IfOk};
ghost use Rattle.bb_schema.specs.Couples.{comes_first, firsts, counts, couple_end, pair_of};
ghost use Rattle.bb_schema_classes.specs.declared.draft.TheConstants.{SLOT_LIMIT};

use crate::slot::{Content, Slot};
use crate::unit::UnitId;
use bb_schema_classes::{Link, SlotId};
use std::alloc::{AllocError, Global};

/// The number of a couple: a link slot and its inverse. Couples are ordered by their first slots.
pub type CoupleId = u16;

/// One of the two slots of a couple.
#[derive(Clone, Copy, Debug, PartialEq, Eq, Drop)]
pub enum Side {
    /// The slot with the lower number.
    A,
    /// The slot with the higher number.
    B,
}

impl Side {
    /// Returns a unit at this side and its partner at the other side, the unit at side A first.
    pub fn pair(self, unit: UnitId, partner: UnitId) -> (UnitId, UnitId)
        ensures { result ≡ pair_of self unit partner }
    {
        match self {
            Side::A => (unit, partner),
            Side::B => (partner, unit),
        }
    }
}

// Whether a slot is a link slot with a lower number than its inverse.
fn comes_first(number: usize, slot: &Slot) -> bool
    ensures { result ≡ comes_first number slot.now }
{
    match &slot.content {
        Content::Default(_) => false,
        Content::Link(link) => number < link.inverse as usize,
    }
}

/// Returns, for each slot, the number of couples before it, and the number of all couples.
pub(crate) fn count_couples(
    alloc: Global,
    slots: &[Slot],
) -> Result<(Vec<CoupleId>, usize), AllocError>
    requires { length slots.now ≤ SLOT_LIMIT }
    ensures before { IfOk result (λ counted. counted.0.items ≡ counts 0 0 slots.now) }
    ensures all { IfOk result (λ counted. counted.1 ≡ length (firsts 0 slots.now)) }
{
    let mut couples_before = Vec::new(alloc);
    let mut count = 0usize;
    for (number, slot) in slots.iter().enumerate() {
        couples_before.push(count as u16)?;
        if comes_first(number, slot) {
            count += 1;
        }
    }
    Ok((couples_before, count))
}

/// Returns the couple of a link slot, and the slot's side. `couples_before` has, for each slot, the number of couples
/// before it.
pub(crate) fn couple_end(
    slots: &[Slot],
    couples_before: &[CoupleId],
    slot: SlotId,
    link: Link,
) -> (CoupleId, Side)
    requires counted { couples_before.now ≡ counts 0 0 slots.now }
    requires slot { slot < length slots.now }
    requires inverse { link.inverse < length slots.now }
    ensures { result ≡ couple_end slots.now slot link }
{
    if slot < link.inverse {
        return (couples_before[slot as usize], Side::A);
    }
    (couples_before[link.inverse as usize], Side::B)
}
