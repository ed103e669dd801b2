//! The parts of the schema that the couples keep. `couples.rt` creates its couples from them.

ghost use Rattle.std.specs.Prelude.{◌≡◌, ◌<◌, IfOk, IfSome, length, map, slice_get, false, All};
ghost use Rattle.std.specs.Option.{option_map_or};
ghost use Rattle.bb_schema.specs.Couples.{comes_first, couples, couple_of};
ghost use Rattle.bb_links.specs.Couples.{no_pairs};
ghost use Rattle.bb_links.specs.Layout.{is_single, singular_of, singulars, slot_ends};

use crate::couple::{Couple, Singular};
use bb_basis::Memory;
use bb_schema::{CoupleId, Schema, Side, SlotId};
use std::alloc::Global;

// Whether a slot is a link slot that holds at most one unit.
fn is_single(schema: &Schema, slot: SlotId) -> bool
    ensures { result ≡ is_single schema.now.slots slot }
{
    match schema.link(slot) {
        None => false,
        Some(link) => !link.many,
    }
}

// Whether a slot is a link slot that comes before its inverse.
fn comes_first(schema: &Schema, slot: SlotId) -> bool
    ensures { result ≡ option_map_or (comes_first slot) (slice_get schema.now.slots slot) false }
{
    match schema.link(slot) {
        None => false,
        Some(link) => slot < link.inverse,
    }
}

// The couple and the side of a slot, if it is a link slot.
fn end_of(schema: &Schema, slot: SlotId) -> Option<(CoupleId, Side)>
    ensures value { result ≡ couple_of schema.now slot }
    ensures there { IfSome result (λ e. e.0 < length (couples schema.now)) }
{
    if !schema.is_link(slot) {
        return None;
    }
    Some(schema.couple(slot))
}

/// Returns by slot the couple and the side of a link slot.
pub(crate) fn slot_ends(
    alloc: Global,
    schema: &Schema,
) -> Result<Vec<Option<(CoupleId, Side)>>, Memory>
    ensures ends { IfOk result (λ ends. ends.items ≡ slot_ends schema.now) }
    ensures there { IfOk result (λ ends. All (λ e. IfSome e (λ x. x.0 < length (couples schema.now))) ends.items) }
{
    let mut ends = Vec::new(alloc);
    for slot in 0..schema.slot_count() {
        ends.push(end_of(schema, slot as SlotId))?;
    }
    Ok(ends)
}

/// Creates a couple without pairs for each couple of the schema.
pub(crate) fn couples_of(alloc: Global, schema: &Schema) -> Result<Vec<Couple>, Memory>
    ensures { IfOk result (λ couples. couples.items ≡ map no_pairs (singulars schema.now)) }
{
    let mut couples = Vec::new(alloc);
    for slot in 0..schema.slot_count() {
        if !comes_first(schema, slot as SlotId) {
            continue;
        }
        let singular = Singular {
            a: is_single(schema, slot as SlotId),
            b: is_single(schema, schema.inverse(slot as SlotId)),
        };
        couples.push(Couple::new(alloc, singular))?;
    }
    Ok(couples)
}
