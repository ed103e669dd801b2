//! The path of owning slots from a deleted unit to units of another class. The message on a unit that may be gone names
//! them.

use bb_basis::Memory;
use bb_compile_scope::ClassId;
use bb_schema::{Schema, SlotId};
use std::alloc::Global;

// A class that a deletion reaches, with the owning slot that leads to it and the index of the class reached before.
#[derive(Clone, Copy)]
struct Reached {
    class: ClassId,
    slot: SlotId,
    from: usize,
}

// Returns the target class of a slot if it owns and units of the class may have it.
fn owned_by(schema: &Schema, class: ClassId, slot: SlotId) -> Option<ClassId> {
    if slot as usize >= schema.slot_count() {
        return None;
    }
    let link = schema.link(slot)?;
    if link.owns && schema.related(schema.owner(slot), class) {
        return Some(link.to);
    }
    None
}

// Returns the slots through which the last class was reached, the last slot first.
fn slots_to_last(alloc: Global, reached: &[Reached]) -> Result<Vec<SlotId>, Memory> {
    let mut slots = Vec::new(alloc);
    let mut at = reached.len().saturating_sub(1);
    for _turn in 0..reached.len() {
        let Some(one) = reached.get(at) else {
            break;
        };
        if at == 0 {
            break;
        }
        slots.push(one.slot)?;
        at = one.from;
    }
    Ok(slots)
}

/// Returns the path of owning slots from a deleted unit of a class to units of another, from the deleted unit on. Empty
/// if a unit can belong to both classes, or if no such path exists.
pub fn owning_path(
    alloc: Global,
    schema: &Schema,
    deleted: ClassId,
    class: ClassId,
) -> Result<Vec<SlotId>, Memory> {
    let mut reached: Vec<Reached> = Vec::new(alloc);
    if schema.related(deleted, class) {
        return Ok(Vec::new(alloc));
    }
    reached.push(Reached {
        class: deleted,
        slot: 0,
        from: 0,
    })?;
    for turn in 0..schema.class_count() {
        let Some(from) = reached.get(turn).copied() else {
            break;
        };
        if let Some(found) = reach_from(schema, &mut reached, from.class, turn, class)? {
            let mut slots = slots_to_last(alloc, reached.get(..found).unwrap_or(&[]))?;
            slots.reverse();
            return Ok(slots);
        }
    }
    Ok(Vec::new(alloc))
}

// Adds the classes that slots of a class lead to. Once one is related to the wanted class, returns how many were
// reached.
fn reach_from(
    schema: &Schema,
    reached: &mut Vec<Reached>,
    class: ClassId,
    from: usize,
    wanted: ClassId,
) -> Result<Option<usize>, Memory> {
    for number in 0..schema.slot_count() {
        let slot = number as SlotId;
        let Some(to) = owned_by(schema, class, slot) else {
            continue;
        };
        if reached.iter().any(|it| it.class == to) {
            continue;
        }
        reached.push(Reached {
            class: to,
            slot,
            from,
        })?;
        if schema.related(to, wanted) {
            return Ok(Some(reached.len()));
        }
    }
    Ok(None)
}
