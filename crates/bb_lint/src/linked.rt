//! Links that exist where an op makes them: in a loop over the partners of a unit, a `link` of the unit and the partner
//! does nothing, if nothing in the loop can remove such a link. The sentences on a code (sentence.rt) print the list.

use bb_basis::Memory;
use bb_code::{Code, LinkChange, LocalId, Loop, Op, Place, SlotId};
use bb_schema::Schema;
use std::alloc::Global;

/// An op that links what is linked already.
#[derive(Clone, Copy)]
pub(crate) struct VainLink {
    pub(crate) place: Place,
    /// The slot whose units the loop is over.
    pub(crate) slot: SlotId,
}

// A code, and which of its ops have a declared frame. Where another op than the one before can lead, there is one.
#[derive(Drop)]
struct Ops<'a> {
    code: &'a Code,
    declared: Vec<bool>,
}

// A loop over the partners of a unit.
#[derive(Clone, Copy)]
struct Walk {
    // The locals with the unit and with the partner.
    unit: LocalId,
    partner: LocalId,
    // The link slot of the unit, and its inverse.
    slot: SlotId,
    inverse: SlotId,
    // Whether a link by these slots can replace another: one of them holds at most one unit.
    replaces: bool,
    // The first op after the partner is stored, and the op after the loop.
    first: Place,
    end: Place,
}

// Returns which of the ops of a code have a declared frame.
fn declared_ops(alloc: Global, code: &Code) -> Result<Vec<bool>, Memory> {
    let mut declared = Vec::new(alloc);
    for _op in code.ops() {
        declared.push(false)?;
    }
    for entry in code.frames() {
        let place = entry.place as usize;
        if place < declared.len() {
            declared[place] = true;
        }
    }
    Ok(declared)
}

impl Ops<'_> {
    // Returns the op at an index, if only the op before it leads there.
    fn after(&self, place: Place) -> Option<Op> {
        match self.declared.get(place as usize).copied() {
            Some(false) => self.code.op(place as usize),
            _ => None,
        }
    }

    // Returns the loop over the partners of a unit that a loop is, if it is one. It is entered only from the op before
    // its head, and nothing in it is stored to the local of its sequence.
    fn walk_of(&self, schema: &Schema, one: Loop) -> Option<Walk> {
        let load = one.head.checked_sub(3)?;
        let Some(Op::Load(unit)) = self.code.op(load as usize) else {
            return None;
        };
        let Some(Op::Links(slot)) = self.after(load.saturating_add(1)) else {
            return None;
        };
        let Some(Op::Store(sequence)) = self.after(load.saturating_add(2)) else {
            return None;
        };
        let partner = self.partner_local(one.head, sequence)?;
        let link = schema.link(slot)?;
        let other = schema.link(link.inverse)?;
        if unit == partner {
            return None;
        }
        Some(Walk {
            unit,
            partner,
            slot,
            inverse: link.inverse,
            replaces: !link.many || !other.many,
            first: one.head.saturating_add(2),
            end: one.end,
        })
    }

    // Returns the local that each unit of a sequence is stored to, if the op at the head of a loop takes the units of
    // this local.
    fn partner_local(&self, head: Place, sequence: LocalId) -> Option<LocalId> {
        match (
            self.code.op(head as usize),
            self.after(head.saturating_add(1)),
        ) {
            (Some(Op::Next(local, _)), Some(Op::Store(partner))) if local == sequence => {
                Some(partner)
            }
            _ => None,
        }
    }

    // Returns whether an op links the unit of a walk and its partner.
    fn links_again(&self, walk: Walk, place: Place) -> bool {
        let Some(Op::Relink(LinkChange::Link, slot)) = self.after(place) else {
            return false;
        };
        let Some(load) = place.checked_sub(2) else {
            return false;
        };
        match (
            self.code.op(load as usize),
            self.after(load.saturating_add(1)),
        ) {
            (Some(Op::Load(one)), Some(Op::Load(other))) => walk.joins(slot, one, other),
            _ => false,
        }
    }

    // Returns whether an op can remove a link of a walk, or gives one of its locals another unit.
    fn changes(&self, walk: Walk, place: Place) -> bool {
        match self.code.op(place as usize) {
            Some(Op::Store(local)) => local == walk.unit || local == walk.partner,
            Some(Op::Relink(change, slot)) if slot == walk.slot || slot == walk.inverse => {
                let removes = change == LinkChange::Unlink || walk.replaces;
                removes && !self.links_again(walk, place)
            }
            Some(Op::Delete) => true,
            _ => false,
        }
    }

    // Returns whether each partner of a walk is still linked to its unit throughout its iteration.
    fn keeps_links(&self, walk: Walk) -> bool {
        !(walk.first..walk.end).any(|place| self.changes(walk, place))
    }
}

impl Walk {
    // Returns whether two locals and a slot of the first are those of the unit and its partner, in one order or the
    // other.
    fn joins(self, slot: SlotId, one: LocalId, other: LocalId) -> bool {
        let is_from_unit = slot == self.slot && one == self.unit && other == self.partner;
        let is_from_partner = slot == self.inverse && one == self.partner && other == self.unit;
        is_from_unit || is_from_partner
    }
}

/// Returns the ops of a code that link what is linked already each time, loop by loop.
pub(crate) fn vain_links(
    alloc: Global,
    schema: &Schema,
    code: &Code,
) -> Result<Vec<VainLink>, Memory> {
    let mut found = Vec::new(alloc);
    if code.loops().is_empty() {
        return Ok(found);
    }
    let ops = Ops {
        code,
        declared: declared_ops(alloc, code)?,
    };
    for one in code.loops() {
        let Some(walk) = ops.walk_of(schema, *one) else {
            continue;
        };
        if ops.keeps_links(walk) {
            add_links(&mut found, &ops, walk)?;
        }
    }
    Ok(found)
}

// Adds the ops that link the unit of a walk and its partner.
fn add_links(found: &mut Vec<VainLink>, ops: &Ops<'_>, walk: Walk) -> Result<(), Memory> {
    for place in walk.first..walk.end {
        if ops.links_again(walk, place) {
            let slot = walk.slot;
            found.push(VainLink { place, slot })?;
        }
    }
    Ok(())
}
