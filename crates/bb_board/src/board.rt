//! The blackboard and what can be read of it. `changes` has what changes it. The machine calls both (bb_machine), and a
//! run removes the notes (bb_run).

ghost use Rattle.std.specs.Prelude.{◌≡◌, ◌≤◌, ◌↔◌, Ok, Some, length, map, slice_get, IfOk, IsTrue, IsSome};
ghost use Rattle.bb_pattern.specs.Fits.{query_fits};
ghost use Rattle.bb_pattern.specs.Values.{kind_of_operand};
ghost use Rattle.bb_units.specs.Layout.{layout_of, can_hold};
ghost use Rattle.bb_units.specs.Units.{live_units, is_live, class_of, value_of, has_slot};
ghost use Rattle.bb_units.specs.declared.units.TheConstants.{UNIT_LIMIT};
ghost use Rattle.bb_links.specs.Links.{ends, pairs_by};
ghost use Rattle.bb_space.specs.Spaces.{spaces_of};
ghost use Rattle.bb_query.specs.Answer.{answer};
ghost use Rattle.bb_board.specs.World.{class_at};
ghost use Rattle.bb_board.specs.May.{has_link, leads_to, may_set, may_link, was};
ghost use Rattle.bb_board.specs.Spaces.{may_enter};
ghost use Rattle.bb_board.specs.Fits.{Fits, is_said_of};
ghost use Rattle.bb_board.specs.Board.{new_board, is_fresh};

mod changes;

use crate::note::Said;
use crate::reason::Reason;
use crate::state::State;
use bb_basis::Memory;
use bb_pattern::{DimValue, Query};
use bb_query::{count, find};
use bb_schema::{Schema, SharedSchema, SpaceId, UnitId};
use bb_schema_classes::{ClassId, SlotId, Value};
use std::alloc::Global;
use std::marker::Model;

/// A blackboard (Hayes-Roth, 1985): a schema, a state that fits it, and whether a change was refused memory. After such
/// a refusal every change is refused, and reads return what they returned before it.
pub struct Board {
    alloc: Global,
    schema: SharedSchema,
    state: State,
    refused: bool,
}

// By hand, so that a proof meets one call where a blackboard is dropped, and not all its parts.
impl Drop for Board {
    fn drop(self) {
        let Board {
            alloc: _,
            schema: _,
            state: _,
            refused: _,
        } = self;
    }
}

impl Model for Board {
    ghost use Rattle.bb_board.specs.Board.{Board as Blackboard};
    ghost use Rattle.bb_board.specs.proving.Codes.{board_code};

    ghost Value = { Blackboard };

    ghost coded = { board_code };

    ghost use Rattle.bb_schema.specs.Fits as schemas;
    ghost use Rattle.bb_board.specs.Fits.{Fits};

    ghost view = { λ b. record { schema = b.schema; world = b.state; refused = b.refused } };

    ghost invariant = { λ b. schemas.Fits b.schema × Fits b.schema b.state };
}

// Tests whether a slot is a link slot that leads to units of a class.
fn leads_to(schema: &Schema, slot: SlotId, class: ClassId) -> bool
    ensures { result ≡ leads_to schema.now slot class }
{
    match schema.link(slot) {
        None => false,
        Some(link) => schema.descends(class, link.to),
    }
}

impl Board {
    /// Makes a blackboard with no units.
    pub fn new(alloc: Global, schema: Schema) -> Result<Board, Memory>
        ensures { IfOk result (λ board. board ≡ new_board schema) }
    {
        Board::of_shared(alloc, SharedSchema::new(alloc, schema)?)
    }

    /// Makes a blackboard with no units, of a schema that has other owners too.
    pub(crate) fn of_shared(alloc: Global, schema: SharedSchema) -> Result<Board, Memory>
        ensures { IfOk result (λ board. board ≡ new_board schema) }
    {
        let state = State::new(alloc, schema.get())?;
        // For the proof: what holds of every schema and of the state.
        schema.get().fits();
        state.fits();
        Ok(Board {
            alloc,
            schema,
            state,
            refused: false,
        })
    }

    /// Returns the schema.
    pub fn schema(&self) -> &Schema
        ensures { result.now ≡ self.now.schema }
    {
        self.schema.get()
    }

    /// Returns the schema for another owner.
    pub fn shared_schema(&self) -> Result<SharedSchema, Memory>
        ensures { IfOk result (λ shared. shared ≡ self.now.schema) }
    {
        self.schema.share()
    }

    /// Tests whether no unit was ever created and no note is left to remove.
    pub fn fresh(&self) -> bool
        ensures { result ≡ is_fresh self.now }
    {
        self.state.units.next() == 1 && self.state.notes.len() == 0
    }

    /// Returns the number that the next unit gets, up to 2^63.
    pub fn next(&self) -> UnitId
        ensures { result ≡ self.now.world.units.next }
    {
        self.state.units.next()
    }

    /// Lists the numbers of the live units in ascending order. Fails only if memory runs out.
    pub fn units(&self) -> Result<Vec<UnitId>, Memory>
        ensures { IfOk result (λ found. found.items ≡ live_units self.now.world.units) }
    {
        self.state.units.list(self.alloc)
    }

    /// Tests whether a number belongs to a live unit.
    pub fn live(&self, unit: UnitId) -> bool
        ensures { result ≡ is_live self.now.world.units unit }
    {
        self.state.units.live(unit)
    }

    /// Tests whether a number is 0 or was given to a unit that, if it is still live, has the class or one below it.
    pub fn was(&self, unit: UnitId, class: ClassId) -> bool
        ensures { result ≡ was self.now.schema self.now.world unit class }
    {
        if unit == 0 {
            return true;
        }
        if unit >= self.state.units.next() {
            return false;
        }
        if !self.state.units.live(unit) {
            return true;
        }
        let own = self.state.units.class_of(unit);
        self.schema.get().descends(own, class)
    }

    /// Returns the class of a live unit.
    pub fn class_of(&self, unit: UnitId) -> ClassId
        requires { IsTrue (is_live self.now.world.units unit) }
        ensures { class_of self.now.world.units unit ≡ Some result }
    {
        self.state.units.class_of(unit)
    }

    /// Returns the class of a unit, or 0 if it is not live.
    pub(crate) fn class_at(&self, unit: UnitId) -> ClassId
        ensures { result ≡ class_at self.now.world unit }
    {
        self.state.class_at(unit)
    }

    /// Returns the value of an ordinary slot that the unit has.
    pub fn get(&self, unit: UnitId, slot: SlotId) -> &Value
        requires { IsSome (value_of self.now.world.units unit slot) }
        ensures { value_of self.now.world.units unit slot ≡ Some result.now }
    {
        self.state.units.get(unit, slot)
    }

    /// Tests whether a number belongs to a live unit whose class has the ordinary slot.
    pub fn has(&self, unit: UnitId, slot: SlotId) -> bool
        ensures value { IsTrue result ↔ IsSome (value_of self.now.world.units unit slot) }
        ensures listed { result ≡ has_slot self.now.world.units unit slot }
    {
        self.state.units.has(unit, slot)
    }

    /// Tests whether a slot is an ordinary one of the schema and can hold a value: the value has its kind, a text has
    /// at most 65,535 bytes, a label is in the slot's set, and an interval does not end before it begins.
    pub fn can_hold(&self, slot: SlotId, value: &Value) -> bool
        ensures { result ≡ can_hold (layout_of self.now.schema) slot value.now }
    {
        self.state.units.can_hold(slot, value)
    }

    /// Checks whether a unit may enter a space. Otherwise returns the first reason: `Deleted` if the unit is not live,
    /// `Space` if the space does not exist or does not accept units of its class.
    pub fn may_enter(&self, unit: UnitId, space: SpaceId) -> Result<(), Reason>
        ensures { result ≡ may_enter self.now.schema self.now.world unit space }
    {
        let Some(class) = self.state.units.class_if_live(unit) else {
            return Err(Reason::Deleted);
        };
        if !self.schema.get().allowed(space, class) {
            return Err(Reason::Space);
        }
        Ok(())
    }

    /// Answers a query that fits the schema, with operands of its kinds: lists the units in its space, of its class or
    /// one below it, whose present values match its pattern, in ascending number (GBBopen Reference Manual,
    /// find-instances). There are 65,536 at most. Fails only if memory runs out.
    pub fn find(&self, query: &Query, operands: &[DimValue]) -> Result<Vec<UnitId>, Memory>
        requires fits { query_fits self.now.schema query.now ≡ Ok tt }
        requires kinds { map kind_of_operand operands.now ≡ query.now.kinds }
        ensures answer { IfOk result (λ found.
            found.items ≡ answer self.now.schema self.now.world.units self.now.world.spaces query.now operands.now) }
        ensures few { IfOk result (λ found. length found.items ≤ UNIT_LIMIT) }
    {
        let State { units, spaces, .. } = &self.state;
        let schema = self.schema.get();
        find(self.alloc, schema, units, spaces, query, operands)
    }

    /// Counts the units that `find` would list for the query and operands: 65,536 at most. Fails only if memory runs
    /// out.
    pub fn count(&self, query: &Query, operands: &[DimValue]) -> Result<usize, Memory>
        requires fits { query_fits self.now.schema query.now ≡ Ok tt }
        requires kinds { map kind_of_operand operands.now ≡ query.now.kinds }
        ensures count { IfOk result (λ n. n
            ≡ length (answer self.now.schema self.now.world.units self.now.world.spaces query.now operands.now)) }
        ensures few { IfOk result (λ n. n ≤ UNIT_LIMIT) }
    {
        let State { units, spaces, .. } = &self.state;
        let schema = self.schema.get();
        count(self.alloc, schema, units, spaces, query, operands)
    }

    /// Checks whether a slot of a unit may be set to a value. Otherwise returns the first reason: `Deleted` if the unit
    /// is not live, `Slot` if its class has no such ordinary slot, `Kind` if the slot can't hold the value.
    pub fn may_set(&self, unit: UnitId, slot: SlotId, value: &Value) -> Result<(), Reason>
        ensures { result ≡ may_set self.now.world unit slot value.now }
    {
        if !self.state.units.live(unit) {
            return Err(Reason::Deleted);
        }
        if !self.has(unit, slot) {
            return Err(Reason::Slot);
        }
        if !self.state.units.takes(unit, slot, value) {
            return Err(Reason::Kind);
        }
        Ok(())
    }

    /// Lists the partners of a unit by a slot in the order of linking, 65,536 at most. The list is empty if the slot is
    /// not a link slot. Fails only if memory runs out.
    pub fn links(&self, unit: UnitId, slot: SlotId) -> Result<Vec<UnitId>, Memory>
        ensures links { IfOk result (λ found. found.items ≡ ends self.now.world.links unit slot) }
        ensures few { IfOk result (λ found. length found.items ≤ UNIT_LIMIT) }
    {
        self.state.links.ends(self.alloc, unit, slot)
    }

    /// Lists the pairs of a link slot's couple in the order of linking, each with the unit at side A first. The list is
    /// empty if the slot is not a link slot. Fails only if memory runs out.
    pub fn pairs(&self, slot: SlotId) -> Result<Vec<(UnitId, UnitId)>, Memory>
        ensures { IfOk result (λ found. found.items ≡ pairs_by self.now.world.links slot) }
    {
        self.state.links.pairs(self.alloc, slot)
    }

    /// Returns the spaces that a unit is in, in ascending number.
    pub fn spaces_of(&self, unit: UnitId) -> &[SpaceId]
        ensures { result.now ≡ spaces_of self.now.world.spaces unit }
    {
        self.state.spaces.spaces_of(unit)
    }

    /// Returns the first partner of a unit by a slot, which is the only one if the slot is singular.
    pub fn one(&self, unit: UnitId, slot: SlotId) -> Option<UnitId>
        ensures { result ≡ slice_get (ends self.now.world.links unit slot) 0 }
    {
        self.state.links.one(unit, slot)
    }

    /// Tests whether the class of a live unit has a link slot.
    pub fn has_link(&self, unit: UnitId, slot: SlotId) -> bool
        ensures { result ≡ has_link self.now.schema (class_at self.now.world unit) slot }
    {
        let schema = self.schema.get();
        if !schema.is_link(slot) {
            return false;
        }
        schema.descends(self.state.class_at(unit), schema.owner(slot))
    }

    /// Tests whether a value can be said: a label has to be one of the schema.
    pub fn can_say(&self, said: &Said) -> bool
        ensures { result ≡ is_said_of self.now.schema said.now }
    {
        match said {
            Said::Value(Value::Label(set, label)) => {
                self.schema.get().label_name(*set, *label).is_some()
            }
            _ => true,
        }
    }

    /// Checks whether a unit may be linked to another by a slot, which unlinking needs too. Otherwise returns the first
    /// reason: `Deleted` if one of them is not live, `Slot` if the unit's class has no such link slot, `LinkClass` if
    /// the other's class is neither the slot's target class nor below it.
    pub fn may_link(&self, unit: UnitId, slot: SlotId, partner: UnitId) -> Result<(), Reason>
        ensures { result ≡ may_link self.now.schema self.now.world unit slot partner }
    {
        if !self.state.units.live(unit) || !self.state.units.live(partner) {
            return Err(Reason::Deleted);
        }
        if !self.has_link(unit, slot) {
            return Err(Reason::Slot);
        }
        if !leads_to(self.schema.get(), slot, self.state.class_at(partner)) {
            return Err(Reason::LinkClass);
        }
        Ok(())
    }

    /// Does nothing. Its contract states what holds of the blackboard at any time: its units and links are sound; units
    /// have the slots of their classes; each pair of a couple joins live units of classes that have its slots; members
    /// of spaces are live, of classes that these accept, and the spaces know their present values; and the notes not
    /// yet removed belong to units that are or were live, and to classes, slots, spaces and labels of the schema.
    pub fn fits(&self)
        ensures { Fits self.now.schema self.now.world }
    {
        let _ = &self.state;
    }
}
