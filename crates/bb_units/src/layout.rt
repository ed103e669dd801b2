//! The parts of the schema that the units keep. `units.rt` asks for the values of a new unit.

ghost use Rattle.std.specs.Prelude.{◌≡◌, ◌<◌, ◌↔◌, [], IsTrue, IfOk, length, map, option_map, slice_get};
ghost use Rattle.std.specs.Option.{option_map_or};
ghost use Rattle.bb_schema_classes.specs.Values.{label_counts};
ghost use Rattle.bb_schema.specs.Schema.{default_of};
ghost use Rattle.bb_schema.specs.Slots.{default_in};
ghost use Rattle.bb_units.specs.Layout.{layout_of, default_at, can_hold, defaults_of, blank};
ghost use Rattle.bb_units.specs.proving.Blocks.{AreBlocks};

use crate::block::Block;
use crate::values::Values;
use bb_basis::Memory;
use bb_schema::Schema;
use bb_schema_classes::{ClassId, Kind, LabelSetId, SlotId, Value};
use std::alloc::Global;
use std::marker::Model;

/// The parts of the schema that the units keep: the slots of each class, the values of a new unit, and the values that
/// slots can hold.
#[derive(Drop)]
pub(crate) struct Layout {
    // By class, all its slots in class order.
    slots: Vec<Vec<SlotId>>,
    // By slot, the default of an ordinary one.
    defaults: Vec<Option<Value>>,
    // By class, its ordinary slots with their defaults.
    blocks: Vec<Block>,
    // By label set, the number of its labels.
    label_counts: Vec<usize>,
}

impl Model for Layout {
    ghost use Rattle.std.specs.Prelude.{map};
    ghost use Rattle.bb_units.specs.Layout.{Layout as Known};
    ghost use Rattle.bb_units.specs.proving.Codes.{layout_code};

    ghost Value = { Known };

    ghost coded = { layout_code };

    ghost view = { λ l. record {
      slots = map (λ v. v.items) l.slots.items;
      defaults = l.defaults.items;
      label_counts = l.label_counts.items;
    } };

    ghost use Rattle.bb_units.specs.proving.Blocks.{AreBlocks};

    ghost invariant = { λ l. AreBlocks l.slots.items l.defaults.items l.blocks.items };
}

// The default of an ordinary slot.
fn default_at(defaults: &[Option<Value>], slot: SlotId) -> Option<&Value>
    ensures { option_map (λ v. v.now) result ≡ default_at defaults.now slot }
{
    match defaults.get(slot as usize) {
        Some(Some(value)) => Some(value),
        _ => None,
    }
}

// The slots that have a default, in their order, each with its default.
fn defaults_of(
    alloc: Global,
    defaults: &[Option<Value>],
    slots: &[SlotId],
) -> Result<Vec<(SlotId, Value)>, Memory>
    ensures { IfOk result (λ entries. entries.items ≡ defaults_of defaults.now slots.now) }
{
    let mut entries = Vec::new(alloc);
    for slot in slots {
        let Some(value) = default_at(defaults, *slot) else {
            continue;
        };
        entries.push((*slot, value.clone()?))?;
    }
    Ok(entries)
}

// By class, all its slots in class order.
fn slots_by_class(alloc: Global, schema: &Schema) -> Result<Vec<Vec<SlotId>>, Memory>
    ensures { IfOk result (λ lists. map (λ v. v.items) lists.items ≡ map (λ k. k.slots) schema.now.classes) }
{
    let mut lists = Vec::new(alloc);
    for class in 0..schema.class_count() {
        lists.push(schema.slots(class as ClassId).to_vec(alloc)?)?;
    }
    Ok(lists)
}

// The default of a slot; `None` for a link slot.
fn default_of(schema: &Schema, slot: SlotId) -> Result<Option<Value>, Memory>
    requires { slot < length schema.now.slots }
    ensures { IfOk result (λ default. default ≡ default_of schema.now slot) }
{
    match schema.kind(slot) {
        Kind::Link(_) => Ok(None),
        _ => Ok(Some(schema.default(slot).clone()?)),
    }
}

// By slot, the default of an ordinary one.
fn defaults_by_slot(alloc: Global, schema: &Schema) -> Result<Vec<Option<Value>>, Memory>
    ensures { IfOk result (λ defaults. defaults.items ≡ map (λ t. default_in t.content) schema.now.slots) }
{
    let mut defaults = Vec::new(alloc);
    for slot in 0..schema.slot_count() {
        defaults.push(default_of(schema, slot as SlotId)?)?;
    }
    Ok(defaults)
}

// By class, its ordinary slots with their defaults, given all its slots.
fn blocks_by_class(
    alloc: Global,
    defaults: &[Option<Value>],
    lists: &[Vec<SlotId>],
) -> Result<Vec<Block>, Memory>
    ensures { IfOk result (λ blocks. AreBlocks lists.now defaults.now blocks.items) }
{
    let mut blocks = Vec::new(alloc);
    for slots in lists {
        blocks.push(Block::new(alloc, defaults_of(alloc, defaults, slots)?)?)?;
    }
    Ok(blocks)
}

// The values of a new unit of a class: those of its block, or none if the class doesn't exist.
fn new_values(alloc: Global, blocks: &[Block], class: ClassId) -> Result<Values, Memory>
    ensures { IfOk result (λ values. values ≡ option_map_or (λ b. b) (slice_get blocks.now class) []) }
{
    match blocks.get(class as usize) {
        None => Values::of(alloc, Block::new(alloc, Vec::new(alloc))?),
        Some(block) => Values::of(alloc, block.share()?),
    }
}

// By label set, the number of its labels.
fn label_counts(alloc: Global, schema: &Schema) -> Result<Vec<usize>, Memory>
    ensures { IfOk result (λ counts. counts.items ≡ label_counts schema.now.label_sets) }
{
    let mut counts = Vec::new(alloc);
    for set in 0..schema.label_set_count() {
        counts.push(schema.label_count(set as LabelSetId))?;
    }
    Ok(counts)
}

impl Layout {
    /// Builds the layout of the units of a schema.
    pub(crate) fn of(alloc: Global, schema: &Schema) -> Result<Layout, Memory>
        ensures { IfOk result (λ layout. layout ≡ layout_of schema.now) }
    {
        let slots = slots_by_class(alloc, schema)?;
        let defaults = defaults_by_slot(alloc, schema)?;
        let blocks = blocks_by_class(alloc, &defaults, &slots)?;
        Ok(Layout {
            slots,
            defaults,
            blocks,
            label_counts: label_counts(alloc, schema)?,
        })
    }

    /// Returns whether a number names a class.
    pub(crate) fn has_class(&self, class: ClassId) -> bool
        ensures { IsTrue result ↔ (class < length self.now.slots) }
    {
        (class as usize) < self.slots.len()
    }

    /// Returns whether a slot is an ordinary slot that can hold a value.
    pub(crate) fn can_hold(&self, slot: SlotId, value: &Value) -> bool
        ensures { result ≡ can_hold self.now slot value.now }
    {
        match default_at(&self.defaults, slot) {
            None => false,
            Some(default) => value.fits(&self.label_counts, default.kind()),
        }
    }

    /// Returns the values of a new unit: each ordinary slot of its class, with its default. A class that doesn't exist
    /// has none.
    pub(crate) fn blank(&self, alloc: Global, class: ClassId) -> Result<Values, Memory>
        ensures { IfOk result (λ values. values ≡ blank self.now class) }
    {
        new_values(alloc, &self.blocks, class)
    }
}
