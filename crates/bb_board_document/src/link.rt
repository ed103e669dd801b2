//! The entries of links and of members of spaces. `document.rt` puts them into the document.

ghost use Rattle.std.specs.Prelude.{◌≡◌, ◌++◌, IfOk, OnOk, map, false, slice_get};
ghost use Rattle.std.specs.List.{flat_map};
ghost use Rattle.std.specs.Option.{option_map_or};
ghost use Rattle.serde_json.specs.View.{view};
ghost use Rattle.bb_schema.specs.Couples.{comes_first, couples};
ghost use Rattle.bb_units.specs.Units.{live_units};
ghost use Rattle.bb_board_document.specs.Values.{list_data};
ghost use Rattle.bb_board_document.specs.Document.{link_data, links_by, member_data, members_of};

use crate::listing::Listing;
use crate::value::text_json;
use bb_basis::Memory;
use bb_schema::{Schema, SpaceId, UnitId};
use bb_schema_classes::SlotId;
use serde_json::{Value as Json, json};
use std::alloc::Global;

// Whether a slot is a link slot with a lower number than its inverse, so that it is side A of their couple.
fn comes_first(schema: &Schema, slot: SlotId) -> bool
    ensures { result ≡ option_map_or (comes_first slot) (slice_get schema.now.slots slot) false }
{
    match schema.link(slot) {
        None => false,
        Some(link) => slot < link.inverse,
    }
}

// The first slots of all couples, in their order.
fn first_slots(alloc: Global, schema: &Schema) -> Result<Vec<SlotId>, Memory>
    ensures { IfOk result (λ slots. slots.items ≡ couples schema.now) }
{
    let mut slots = Vec::new(alloc);
    for slot in 0..schema.slot_count() {
        if !comes_first(schema, slot as SlotId) {
            continue;
        }
        slots.push(slot as SlotId)?;
    }
    Ok(slots)
}

// The entry of a link: a pair of a couple, with the slot at side A.
fn link(
    alloc: Global,
    listing: &Listing<'_>,
    slot: SlotId,
    pair: (UnitId, UnitId),
) -> Result<Json, Memory>
    ensures { IfOk result (λ json. view json ≡ link_data listing.now slot pair) }
{
    let from = listing.name(alloc, pair.0)?;
    let name = text_json(alloc, listing.schema().slot_name(slot))?;
    let to = listing.name(alloc, pair.1)?;
    json!(in alloc; [from, name, to])
}

// Adds the entries of the links of a couple, given by its slot at side A, in the order of linking.
fn add_links(
    alloc: Global,
    list: &mut Vec<Json>,
    listing: &Listing<'_>,
    slot: SlotId,
) -> Result<(), Memory>
    ensures { OnOk result (map view list.new.items ≡ map view list.old.items ++ links_by listing.now slot) }
{
    let pairs = listing.view().pairs(slot)?;
    for pair in &pairs {
        list.push(link(alloc, listing, slot, *pair)?)?;
    }
    Ok(())
}

/// Returns the entries of all links, couple by couple.
pub(crate) fn links(alloc: Global, listing: &Listing<'_>) -> Result<Json, Memory>
    ensures { IfOk result (λ json. view json ≡ list_data (flat_map (links_by listing.now) (couples listing.now.schema))) }
{
    let mut list = Vec::new(alloc);
    let slots = first_slots(alloc, listing.schema())?;
    for slot in &slots {
        add_links(alloc, &mut list, listing, *slot)?;
    }
    Ok(Json::Array(list))
}

// The entry of a unit in a space.
fn member(
    alloc: Global,
    listing: &Listing<'_>,
    unit: UnitId,
    space: SpaceId,
) -> Result<Json, Memory>
    ensures { IfOk result (λ json. view json ≡ member_data listing.now unit space) }
{
    let name = listing.name(alloc, unit)?;
    let space = text_json(alloc, listing.schema().space_name(space))?;
    json!(in alloc; [name, space])
}

// Adds the entries of a unit in its spaces, ascending.
fn add_members(
    alloc: Global,
    list: &mut Vec<Json>,
    listing: &Listing<'_>,
    unit: UnitId,
) -> Result<(), Memory>
    ensures { OnOk result (map view list.new.items ≡ map view list.old.items ++ members_of listing.now unit) }
{
    for space in listing.view().spaces_of(unit) {
        list.push(member(alloc, listing, unit, *space)?)?;
    }
    Ok(())
}

/// Returns the entries of all units in their spaces, unit by unit.
pub(crate) fn members(alloc: Global, listing: &Listing<'_>) -> Result<Json, Memory>
    ensures { IfOk result (λ json. view json ≡
        list_data (flat_map (members_of listing.now) (live_units listing.now.world.units))) }
{
    let mut list = Vec::new(alloc);
    for unit in listing.units() {
        add_members(alloc, &mut list, listing, *unit)?;
    }
    Ok(Json::Array(list))
}
