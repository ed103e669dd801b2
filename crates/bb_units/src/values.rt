//! The values of a unit. `units.rt` reads and sets them; `layout.rt` builds the values of a new unit.

ghost use Rattle.std.specs.Prelude.{◌≡◌, IfOk, option_map, slice_get, slice_set};
ghost use Rattle.std.specs.Map.{values_of};
ghost use Rattle.bb_units.specs.Values.{place_of, value_at, with_value};

use crate::block::Block;
use bb_basis::Memory;
use bb_schema_classes::{SlotId, Value};
use std::alloc::Global;
use std::marker::Model;
use std::mem;

/// The values of a unit, each under the number of its slot.
#[derive(Drop)]
pub(crate) struct Values {
    // The slots, shared by all units of the class.
    block: Block,
    // The value of each slot, in the order of the block. A slot that was given none has its default, so that room for
    // any value is there before it is set.
    values: Vec<Value>,
}

impl Model for Values {
    ghost use Rattle.std.specs.Prelude.{List, ℕ};
    ghost use Rattle.bb_schema_classes.specs.declared.value.Value.{Value as SlotValue};
    ghost use Rattle.bb_units.specs.Values.{in_slots};

    ghost Value = { List (ℕ × SlotValue) };

    ghost view = { λ v. in_slots v.block v.values.items };
}

// The index of a slot in a block.
fn place(entries: &[(SlotId, Value)], slot: SlotId) -> Option<usize>
    ensures { result ≡ place_of slot entries.now }
{
    entries.iter().position(|entry| entry.0 == slot)
}

// The defaults of a block, in its order.
fn defaults(alloc: Global, entries: &[(SlotId, Value)]) -> Result<Vec<Value>, Memory>
    ensures { IfOk result (λ values. values.items ≡ values_of entries.now) }
{
    let mut values = Vec::with_capacity(alloc, entries.len())?;
    for entry in entries {
        values.push(entry.1.clone()?)?;
    }
    Ok(values)
}

// The value at an index.
fn at(values: &[Value], place: usize) -> Option<&Value>
    ensures { option_map (λ v. v.now) result ≡ slice_get values.now place }
{
    Some(values.get(place)?)
}

// Replaces the value at an index, if there is one.
fn replace(values: &mut Vec<Value>, place: usize, value: Value)
    ensures { values.new.items ≡ slice_set values.old.items place value }
{
    match values.get_mut(place) {
        None => drop(value),
        Some(found) => drop(mem::replace(found, value)),
    }
}

impl Values {
    /// Makes the values of a new unit: each slot of the block at its default.
    pub(crate) fn of(alloc: Global, block: Block) -> Result<Values, Memory>
        ensures { IfOk result (λ values. values ≡ block) }
    {
        let values = defaults(alloc, block.entries())?;
        Ok(Values { block, values })
    }

    /// Returns the value of a slot, if the unit has the slot.
    pub(crate) fn get(&self, slot: SlotId) -> Option<&Value>
        ensures { option_map (λ v. v.now) result ≡ value_at self.now slot }
    {
        let place = place(self.block.entries(), slot)?;
        at(&self.values, place)
    }

    /// Sets a slot to another value, if the unit has the slot.
    pub(crate) fn set(&mut self, slot: SlotId, value: Value)
        ensures { self.new ≡ with_value self.old slot value }
    {
        match place(self.block.entries(), slot) {
            None => drop(value),
            Some(place) => replace(&mut self.values, place, value),
        }
    }
}
