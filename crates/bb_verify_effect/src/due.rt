//! Checks on the operands of ops: their kinds, and what the schema requires. The effects of ops call them.

ghost use Rattle.std.specs.Prelude.{◌≡◌, length};
ghost use Rattle.bb_code.specs.Each.{each};
ghost use Rattle.bb_verify_effect.specs.Due.{due, label_of, class_of, live, sequence_of, copy_of, sayable, operand_due, operands_due, held_in, plain_kind, link_kind, plain_slot, link_slot, single_slot, value_due, partner_due, space_due, known_space, query_due};

use crate::kind::is_same_plain;
use crate::{ClassId, Flaw, Kind, LabelSetId, OperandKind, Query, Schema, SlotId, SpaceId};
use bb_schema_classes::{Kind as SlotKind, Link};

/// Checks that the operand has this kind, which is not the kind of a unit or a sequence.
pub(crate) fn due(kind: Kind, operand: Kind) -> Result<(), Flaw>
    ensures { result ≡ due kind operand }
{
    if is_same_plain(kind, operand) {
        return Ok(());
    }
    Err(Flaw::Kind)
}

/// Returns the set of a label.
pub(crate) fn label_of(kind: Kind) -> Result<LabelSetId, Flaw>
    ensures { result ≡ label_of kind }
{
    match kind {
        Kind::Label(set) => Ok(set),
        _ => Err(Flaw::Kind),
    }
}

/// Returns the class of a unit, live or old.
pub(crate) fn class_of(kind: Kind) -> Result<ClassId, Flaw>
    ensures { result ≡ class_of kind }
{
    match kind {
        Kind::Ref(class) => Ok(class),
        Kind::Old(class) => Ok(class),
        _ => Err(Flaw::Kind),
    }
}

/// Checks that a unit is live. Other kinds pass.
pub(crate) fn live(kind: Kind) -> Result<(), Flaw>
    ensures { result ≡ live kind }
{
    match kind {
        Kind::Old(_) => Err(Flaw::Dead),
        _ => Ok(()),
    }
}

/// Returns the class of the units of a sequence.
pub(crate) fn sequence_of(kind: Kind) -> Result<ClassId, Flaw>
    ensures { result ≡ sequence_of kind }
{
    match kind {
        Kind::Seq(class) => Ok(class),
        _ => Err(Flaw::Kind),
    }
}

/// Returns the kind if a value of it can be copied: it is known and not a sequence.
pub(crate) fn copy_of(kind: Kind) -> Result<Kind, Flaw>
    ensures { result ≡ copy_of kind }
{
    match kind {
        Kind::Any => Err(Flaw::Kind),
        Kind::Seq(_) => Err(Flaw::Kind),
        _ => Ok(kind),
    }
}

/// Checks that the kind is not a sequence.
pub(crate) fn sayable(kind: Kind) -> Result<(), Flaw>
    ensures { result ≡ sayable kind }
{
    match kind {
        Kind::Seq(_) => Err(Flaw::Kind),
        _ => Ok(()),
    }
}

/// Checks that none of the kinds is a sequence.
pub(crate) fn all_sayable(kinds: &[Kind]) -> Result<(), Flaw>
    ensures { result ≡ each sayable kinds.now }
{
    for kind in kinds {
        sayable(*kind)?;
    }
    Ok(())
}

/// Checks an operand of a query.
pub(crate) fn operand_due(operand: OperandKind, kind: Kind) -> Result<(), Flaw>
    ensures { result ≡ operand_due operand kind }
{
    match operand {
        OperandKind::Interval => due(Kind::Interval, kind),
        OperandKind::Label(set) => due(Kind::Label(set), kind),
    }
}

/// Checks the operands of a query, one for each kind.
pub(crate) fn operands_due(operands: &[OperandKind], kinds: &[Kind]) -> Result<(), Flaw>
    requires { length operands.now ≡ length kinds.now }
    ensures { result ≡ operands_due operands.now kinds.now }
{
    for i in 0..operands.len() {
        operand_due(operands[i], kinds[i])?;
    }
    Ok(())
}

/// Returns what a slot holds, or `None` if the class does not have the slot.
#[tactic(auto, unfolding(crate::specs::Due::held_in))]
pub(crate) fn held_in(schema: &Schema, class: ClassId, slot: SlotId) -> Option<SlotKind>
    ensures { result ≡ held_in schema.now class slot }
{
    if slot as usize >= schema.slot_count() {
        return None;
    }
    if !schema.descends(class, schema.owner(slot)) {
        return None;
    }
    Some(schema.kind(slot))
}

/// Returns the kind of the values of an ordinary slot, or `None` for a link slot.
pub(crate) fn plain_kind(held: SlotKind) -> Option<Kind>
    ensures { result ≡ plain_kind held }
{
    match held {
        SlotKind::Int => Some(Kind::Int),
        SlotKind::Text => Some(Kind::Text),
        SlotKind::Bool => Some(Kind::Bool),
        SlotKind::Label(set) => Some(Kind::Label(set)),
        SlotKind::Interval => Some(Kind::Interval),
        SlotKind::Link(_) => None,
    }
}

pub(crate) fn link_kind(held: SlotKind) -> Option<Link>
    ensures { result ≡ link_kind held }
{
    match held {
        SlotKind::Link(link) => Some(link),
        _ => None,
    }
}

/// Returns the kind of the values of an ordinary slot. `Flaw::Slot`: the class has no such slot, or it is a link slot.
#[tactic(auto, unfolding(crate::specs::Due::plain_slot))]
pub(crate) fn plain_slot(schema: &Schema, class: ClassId, slot: SlotId) -> Result<Kind, Flaw>
    ensures { result ≡ plain_slot schema.now class slot }
{
    let held = held_in(schema, class, slot).ok_or(Flaw::Slot)?;
    plain_kind(held).ok_or(Flaw::Slot)
}

/// Returns the link of a link slot. `Flaw::Slot`: the class has no such slot, or it is not a link slot.
#[tactic(auto, unfolding(crate::specs::Due::link_slot))]
pub(crate) fn link_slot(schema: &Schema, class: ClassId, slot: SlotId) -> Result<Link, Flaw>
    ensures { result ≡ link_slot schema.now class slot }
{
    let held = held_in(schema, class, slot).ok_or(Flaw::Slot)?;
    link_kind(held).ok_or(Flaw::Slot)
}

/// Returns the link of a singular link slot; `Flaw::Slot` as for `link_slot`, and if the slot is plural.
#[tactic(auto, unfolding(crate::specs::Due::single_slot))]
pub(crate) fn single_slot(schema: &Schema, class: ClassId, slot: SlotId) -> Result<Link, Flaw>
    ensures { result ≡ single_slot schema.now class slot }
{
    let link = link_slot(schema, class, slot)?;
    if link.many {
        return Err(Flaw::Slot);
    }
    Ok(link)
}

/// Checks the kind of a value for an ordinary slot. If `plain_slot` finds a flaw, any kind passes.
#[tactic(auto, unfolding(crate::specs::Due::value_due))]
pub(crate) fn value_due(
    schema: &Schema,
    class: ClassId,
    slot: SlotId,
    kind: Kind,
) -> Result<(), Flaw>
    ensures { result ≡ value_due schema.now class slot kind }
{
    match plain_slot(schema, class, slot) {
        Ok(held) => due(held, kind),
        Err(_) => Ok(()),
    }
}

/// Checks that units of the class can be partners by a link to class `to`.
#[tactic(auto, unfolding(crate::specs::Due::partner_due))]
pub(crate) fn partner_due(schema: &Schema, class: ClassId, to: ClassId) -> Result<(), Flaw>
    ensures { result ≡ partner_due schema.now class to }
{
    if schema.descends(class, to) {
        return Ok(());
    }
    Err(Flaw::LinkClass)
}

/// Checks that units of the class may enter the space.
#[tactic(auto, unfolding(crate::specs::Due::space_due))]
pub(crate) fn space_due(schema: &Schema, space: SpaceId, class: ClassId) -> Result<(), Flaw>
    ensures { result ≡ space_due schema.now space class }
{
    if schema.allowed(space, class) {
        return Ok(());
    }
    Err(Flaw::Space)
}

/// Checks that the space exists.
#[tactic(auto, unfolding(crate::specs::Due::known_space))]
pub(crate) fn known_space(schema: &Schema, space: SpaceId) -> Result<(), Flaw>
    ensures { result ≡ known_space schema.now space }
{
    if (space as usize) < schema.space_count() {
        return Ok(());
    }
    Err(Flaw::Space)
}

/// Checks that the query fits the schema.
#[tactic(auto, unfolding(crate::specs::Due::query_due))]
pub(crate) fn query_due(schema: &Schema, query: &Query) -> Result<(), Flaw>
    ensures { result ≡ query_due schema.now query.now }
{
    match query.fits(schema) {
        Ok(()) => Ok(()),
        Err(_) => Err(Flaw::Query),
    }
}
