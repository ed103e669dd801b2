//! The units of a blackboard. The board reads and changes them.

ghost use Rattle.std.specs.Prelude.{◌≡◌, ◌<◌, ◌↔◌, IsTrue, IsSome, IfOk, OnOk, OnErr, Some, length, option_map};
ghost use Rattle.std.specs.FinMap as map;
ghost use Rattle.bb_basis.specs.Results.{Gives};
ghost use Rattle.bb_units.specs.Fits.{Fits};
ghost use Rattle.bb_units.specs.Layout.{layout_of, can_hold};
ghost use Rattle.bb_units.specs.Units.{no_units, live_units, is_live, class_of, value_of, has_slot, takes, next_number};
ghost use Rattle.bb_units.specs.Units.{after_create, after_delete, after_set, value_among};

use crate::fault::CreateFault;
use crate::layout::Layout;
use crate::numbered::Numbered;
use crate::unit::Unit;
use bb_basis::Memory;
use bb_schema::{Schema, UnitId};
use bb_schema_classes::{ClassId, SlotId, Value};
use std::alloc::Global;
use std::marker::Model;

/// The maximum number of live units.
pub const UNIT_LIMIT: usize = 65_536;

// The last number that a unit can get.
const NUMBER_LIMIT: u64 = (1 << 63) - 1;

/// The units of a blackboard, each under its number (GBBopen Reference Manual, unit instances).
#[derive(Drop)]
pub struct Units {
    alloc: Global,
    units: Numbered,
    layout: Layout,
}

impl Model for Units {
    ghost use Rattle.bb_units.specs.Units.{Units as Known};
    ghost use Rattle.bb_units.specs.proving.Codes.{units_code};

    ghost Value = { Known };

    ghost coded = { units_code };

    ghost view = { λ u. record { next = u.units.next; units = u.units.units; layout = u.layout } };

    ghost use Rattle.bb_units.specs.Fits.{Fits};

    ghost invariant = { λ u. Fits (record { next = u.units.next; units = u.units.units; layout = u.layout }) };
}

// The value of a slot of a unit, if the unit is live and has the slot.
fn value_in(units: &Numbered, unit: UnitId, slot: SlotId) -> Option<&Value>
    ensures { option_map (λ v. v.now) result ≡ value_among units.now.units unit slot }
{
    units.get(unit)?.values.get(slot)
}

impl Units {
    /// Creates the units of a blackboard with this schema: none yet.
    pub fn new(alloc: Global, schema: &Schema) -> Result<Units, Memory>
        ensures { IfOk result (λ units. units ≡ no_units (layout_of schema.now)) }
    {
        // For the proof: each ordinary slot can hold its default.
        schema.fits();
        Ok(Units {
            alloc,
            units: Numbered::new(alloc),
            layout: Layout::of(alloc, schema)?,
        })
    }

    /// Returns the number of live units, at most 65,536.
    pub fn count(&self) -> usize
        ensures { result ≡ map.len self.now.units }
    {
        self.units.len()
    }

    /// Returns the numbers of the live units, ascending, as a new list.
    pub fn list(&self, alloc: Global) -> Result<Vec<UnitId>, Memory>
        ensures { IfOk result (λ list. list.items ≡ live_units self.now) }
    {
        self.units.list(alloc)
    }

    /// Returns the number that the next unit gets, at most 2^63.
    pub fn next(&self) -> UnitId
        ensures { result ≡ self.now.next }
    {
        self.units.next()
    }

    /// Returns whether a number names a class. Only then can units of it be created.
    pub fn has_class(&self, class: ClassId) -> bool
        ensures { IsTrue result ↔ (class < length self.now.layout.slots) }
    {
        self.layout.has_class(class)
    }

    /// Returns whether a number names a live unit.
    pub fn live(&self, unit: UnitId) -> bool
        ensures { result ≡ is_live self.now unit }
    {
        self.units.get(unit).is_some()
    }

    /// Returns the class of a live unit.
    pub fn class_of(&self, unit: UnitId) -> ClassId
        requires { IsTrue (is_live self.now unit) }
        ensures { class_of self.now unit ≡ Some result }
    {
        self.units.get(unit).unwrap().class
    }

    /// Returns the class of a unit, or `None` if it is not live.
    pub fn class_if_live(&self, unit: UnitId) -> Option<ClassId>
        ensures { result ≡ class_of self.now unit }
    {
        Some(self.units.get(unit)?.class)
    }

    /// Returns the value of an ordinary slot of a live unit. The unit's class must have the slot.
    pub fn get(&self, unit: UnitId, slot: SlotId) -> &Value
        requires { IsSome (value_of self.now unit slot) }
        ensures { value_of self.now unit slot ≡ Some result.now }
    {
        value_in(&self.units, unit, slot).unwrap()
    }

    /// Returns whether a number names a live unit whose class has this ordinary slot.
    pub fn has(&self, unit: UnitId, slot: SlotId) -> bool
        ensures value { IsTrue result ↔ IsSome (value_of self.now unit slot) }
        ensures listed { result ≡ has_slot self.now unit slot }
    {
        value_in(&self.units, unit, slot).is_some()
    }

    /// Returns whether a slot is an ordinary slot of the schema and can hold a value: one of its kind, a text of at
    /// most 65,535 bytes, an existing label, an interval in order.
    pub fn can_hold(&self, slot: SlotId, value: &Value) -> bool
        ensures { result ≡ can_hold self.now.layout slot value.now }
    {
        self.layout.can_hold(slot, value)
    }

    /// Returns whether a number names a live unit whose class has this ordinary slot, and the slot can hold the value,
    /// as `can_hold` tests it.
    pub fn takes(&self, unit: UnitId, slot: SlotId, value: &Value) -> bool
        ensures { result ≡ takes self.now unit slot value.now }
    {
        self.has(unit, slot) && self.can_hold(slot, value)
    }

    /// Creates a unit of an existing class, with each ordinary slot at its default, and returns its number, the next
    /// one. `Full`: 65,536 units are live, or all numbers below 2^63 are used. An error changes nothing.
    pub fn create(&mut self, class: ClassId) -> Result<UnitId, CreateFault>
        requires { class < length self.old.layout.slots }
        ensures number { Gives CreateFault.Memory (λ number. number) result (next_number self.old) }
        ensures created { OnOk result (self.new ≡ after_create self.old class) }
        ensures err { OnErr result (self.new ≡ self.old) }
    {
        if self.units.len() >= UNIT_LIMIT || self.units.next() > NUMBER_LIMIT {
            return Err(CreateFault::Full);
        }
        let values = self.layout.blank(self.alloc, class)?;
        Ok(self.units.push(Unit { class, values })?)
    }

    /// Sets an ordinary slot of a live unit to a value that the slot can hold.
    pub fn set(&mut self, unit: UnitId, slot: SlotId, value: Value)
        requires { IsTrue (takes self.old unit slot value) }
        ensures { self.new ≡ after_set self.old unit slot value }
    {
        self.units.set(unit, slot, value);
    }

    /// Deletes a live unit. Its number is not used again.
    pub fn delete(&mut self, unit: UnitId)
        requires { IsTrue (is_live self.old unit) }
        ensures { self.new ≡ after_delete self.old unit }
    {
        self.units.remove(unit);
    }

    /// Does nothing, but states what always holds of the units: every number is above 0 and below the next one; at most
    /// 65,536 units are live; each unit has an existing class and exactly the ordinary slots of that class, in class
    /// order, each with a value that it can hold.
    pub fn fits(&self)
        ensures { Fits self.now }
    {
        let _next = self.units.next();
    }
}
