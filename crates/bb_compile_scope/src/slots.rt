//! What the names of slots and dimensions mean. The checks of statements look them up.

ghost use Rattle.std.specs.Prelude.{◌≡◌, ◌<◌, IfSome, length, position};
ghost use Rattle.bb_compile_scope.specs.Slots.{slot_of, value_slot, link_slot, partner_slot, index_of, operand_due, dimension};

use crate::fault::TextFlaw;
use bb_code::Kind;
use bb_lang_tree::Relation;
use bb_schema::{Dim, Schema, SpaceId};
use bb_schema_classes::{ClassId, Kind as SlotKind, LabelSetId, Link, SlotId};

// Looks up the slot with a name in a class, with what it can hold.
#[tactic(auto, unfolding(crate::specs::Slots::slot_of))]
fn slot_of(schema: &Schema, class: ClassId, name: &str) -> Result<(SlotId, SlotKind), TextFlaw>
    ensures { result ≡ slot_of schema.now class name.now }
{
    let slot = schema.slot(class, name).ok_or(TextFlaw::Unknown)?;
    if slot as usize >= schema.slot_count() {
        return Err(TextFlaw::Unknown);
    }
    Ok((slot, schema.kind(slot)))
}

/// Looks up the ordinary slot with a name in a class, with the kind of its values. `Unknown`: the class has no such
/// slot. `Kind`: it is a link slot.
#[tactic(auto, unfolding(crate::specs::Slots::value_slot))]
pub fn value_slot(schema: &Schema, class: ClassId, name: &str) -> Result<(SlotId, Kind), TextFlaw>
    ensures { result ≡ value_slot schema.now class name.now }
{
    let (slot, kind) = slot_of(schema, class, name)?;
    match kind {
        SlotKind::Int => Ok((slot, Kind::Int)),
        SlotKind::Text => Ok((slot, Kind::Text)),
        SlotKind::Bool => Ok((slot, Kind::Bool)),
        SlotKind::Label(set) => Ok((slot, Kind::Label(set))),
        SlotKind::Interval => Ok((slot, Kind::Interval)),
        SlotKind::Link(_link) => Err(TextFlaw::Kind),
    }
}

/// Looks up the link slot with a name in a class, with its link. `Unknown`: the class has no such slot. `Kind`: it is
/// an ordinary slot.
#[tactic(auto, unfolding(crate::specs::Slots::link_slot))]
pub fn link_slot(schema: &Schema, class: ClassId, name: &str) -> Result<(SlotId, Link), TextFlaw>
    ensures { result ≡ link_slot schema.now class name.now }
{
    let (slot, kind) = slot_of(schema, class, name)?;
    match kind {
        SlotKind::Link(link) => Ok((slot, link)),
        _ => Err(TextFlaw::Kind),
    }
}

/// Looks up the singular link slot with a name in a class, with the partner's class. `Unknown`: the class has no such
/// slot. `Kind`: it is another sort of slot.
#[tactic(auto, unfolding(crate::specs::Slots::partner_slot))]
pub fn partner_slot(
    schema: &Schema,
    class: ClassId,
    name: &str,
) -> Result<(SlotId, ClassId), TextFlaw>
    ensures { result ≡ partner_slot schema.now class name.now }
{
    let (slot, link) = link_slot(schema, class, name)?;
    if link.many {
        return Err(TextFlaw::Kind);
    }
    Ok((slot, link.to))
}

// Returns the index of the dimension with a name.
fn index_of(dims: &[Dim], name: &str) -> Option<usize>
    ensures { result ≡ index_of dims.now name.now }
{
    dims.iter().position(|dim| dim.name.as_str() == name)
}

// Returns the kind that the operand of a relation must have, on a dimension with this label set, or with none.
fn operand_due(relation: Relation, set: Option<LabelSetId>) -> Option<Kind>
    ensures { result ≡ operand_due relation set }
{
    match (relation, set) {
        (Relation::Is, Some(set)) => Some(Kind::Label(set)),
        (Relation::Is, None) => None,
        (_, Some(_set)) => None,
        (_, None) => Some(Kind::Interval),
    }
}

/// Looks up the dimension with a name in a space, with the kind that its operand must have. `None`: the space has no
/// such dimension, or the relation does not apply to it.
#[tactic(auto, unfolding(crate::specs::Slots::dimension))]
pub fn dimension(
    schema: &Schema,
    space: SpaceId,
    name: &str,
    relation: Relation,
) -> Option<(u8, Kind)>
    ensures { result ≡ dimension schema.now space name.now relation }
{
    if space as usize >= schema.space_count() {
        return None;
    }
    let dims = schema.dims(space);
    let index = index_of(dims, name)?;
    let due = operand_due(relation, dims.get(index)?.set)?;
    if index >= 256 {
        return None;
    }
    Some((index as u8, due))
}
