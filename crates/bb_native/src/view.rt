//! The view that a native has of a blackboard: everything that can be read of it, except its notes.

ghost use Rattle.std.specs.Prelude.{◌≡◌, ◌≤◌, ◌↔◌, Ok, Some, length, map, slice_get, IfOk, IsTrue, IsSome};
ghost use Rattle.bb_pattern.specs.Fits.{query_fits};
ghost use Rattle.bb_pattern.specs.Values.{kind_of_operand};
ghost use Rattle.bb_units.specs.Units.{live_units, is_live, class_of, value_of, has_slot};
ghost use Rattle.bb_units.specs.declared.units.TheConstants.{UNIT_LIMIT};
ghost use Rattle.bb_links.specs.Links.{ends, pairs_by};
ghost use Rattle.bb_board.specs.Members.{spaces_of};
ghost use Rattle.bb_board.specs.Answer.{answer};
ghost use Rattle.bb_board.specs.Fits.{Fits};
ghost use Rattle.bb_board.specs.May.{was};
ghost use Rattle.bb_native.specs.Sight.{sight_of};

use bb_basis::Memory;
use bb_board::Board;
use bb_pattern::{DimValue, Query};
use bb_schema::{Schema, SpaceId, UnitId};
use bb_schema_classes::{ClassId, SlotId, Value};
use std::marker::Model;

/// A blackboard that can be read but not changed. Its notes are hidden, so that natives can't depend on when notes were
/// last taken.
#[derive(Drop)]
pub struct View<'a> {
    board: &'a Board,
}

impl<'a> Model for View<'a> {
    ghost use Rattle.bb_native.specs.Sight.{Sight, sight_of};
    ghost use Rattle.bb_native.specs.proving.Codes.{sight_code};

    ghost Value = { Sight };

    ghost coded = { sight_code };

    ghost view = { λ v. sight_of v.board.now };
}

impl<'a> View<'a> {
    /// Makes a view of a blackboard.
    pub fn new(board: &'a Board) -> View<'a>
        ensures { result ≡ sight_of board.now }
    {
        View { board }
    }

    /// Returns the schema.
    pub fn schema(&self) -> &Schema
        ensures { result.now ≡ self.now.schema }
    {
        self.board.schema()
    }

    /// Returns the number that the next unit gets, up to 2^63.
    pub fn next(&self) -> UnitId
        ensures { result ≡ self.now.world.units.next }
    {
        self.board.next()
    }

    /// Returns the numbers of the live units, ascending. Fails only if memory runs out.
    pub fn units(&self) -> Result<Vec<UnitId>, Memory>
        ensures { IfOk result (λ found. found.items ≡ live_units self.now.world.units) }
    {
        self.board.units()
    }

    /// Returns whether a number belongs to a live unit.
    pub fn live(&self, unit: UnitId) -> bool
        ensures { result ≡ is_live self.now.world.units unit }
    {
        self.board.live(unit)
    }

    /// Returns whether a number is 0, or belongs to a unit that was created and, if it is live, has a class that
    /// descends from this one.
    pub fn was(&self, unit: UnitId, class: ClassId) -> bool
        ensures { result ≡ was self.now.schema self.now.world unit class }
    {
        self.board.was(unit, class)
    }

    /// Returns the class of a live unit.
    pub fn class_of(&self, unit: UnitId) -> ClassId
        requires { IsTrue (is_live self.now.world.units unit) }
        ensures { class_of self.now.world.units unit ≡ Some result }
    {
        self.board.class_of(unit)
    }

    /// Returns the value of an ordinary slot of a live unit. Its class must have the slot.
    pub fn get(&self, unit: UnitId, slot: SlotId) -> &Value
        requires { IsSome (value_of self.now.world.units unit slot) }
        ensures { value_of self.now.world.units unit slot ≡ Some result.now }
    {
        self.board.get(unit, slot)
    }

    /// Returns whether a number belongs to a live unit whose class has the ordinary slot.
    pub fn has(&self, unit: UnitId, slot: SlotId) -> bool
        ensures value { IsTrue result ↔ IsSome (value_of self.now.world.units unit slot) }
        ensures listed { result ≡ has_slot self.now.world.units unit slot }
    {
        self.board.has(unit, slot)
    }

    /// Returns the partners of a unit by a slot, in the order of linking, at most 65,536; none if the slot is not a
    /// link slot. Fails only if memory runs out.
    pub fn links(&self, unit: UnitId, slot: SlotId) -> Result<Vec<UnitId>, Memory>
        ensures links { IfOk result (λ found. found.items ≡ ends self.now.world.links unit slot) }
        ensures few { IfOk result (λ found. length found.items ≤ UNIT_LIMIT) }
    {
        self.board.links(unit, slot)
    }

    /// Returns the pairs of the couple of a slot, in the order of linking, each with the unit at side A first; none if
    /// the slot is not a link slot. Fails only if memory runs out.
    pub fn pairs(&self, slot: SlotId) -> Result<Vec<(UnitId, UnitId)>, Memory>
        ensures { IfOk result (λ found. found.items ≡ pairs_by self.now.world.links slot) }
    {
        self.board.pairs(slot)
    }

    /// Returns the spaces that a unit is in, ascending.
    pub fn spaces_of(&self, unit: UnitId) -> &[SpaceId]
        ensures { result.now ≡ spaces_of self.now.world.spaces unit }
    {
        self.board.spaces_of(unit)
    }

    /// Returns the first partner of a unit by a slot, which is the only one if the slot is singular.
    pub fn one(&self, unit: UnitId, slot: SlotId) -> Option<UnitId>
        ensures { result ≡ slice_get (ends self.now.world.links unit slot) 0 }
    {
        self.board.one(unit, slot)
    }

    /// Returns the answer of a query that fits the schema, with operands of its kinds: the units in its space, of its
    /// class or a class below it, whose present values match its pattern, ascending, at most 65,536 (GBBopen Reference
    /// Manual, find-instances). Fails only if memory runs out.
    pub fn find(&self, query: &Query, operands: &[DimValue]) -> Result<Vec<UnitId>, Memory>
        requires fits { query_fits self.now.schema query.now ≡ Ok tt }
        requires kinds { map kind_of_operand operands.now ≡ query.now.kinds }
        ensures answer { IfOk result (λ found.
            found.items ≡ answer self.now.schema self.now.world.units self.now.world.spaces query.now operands.now) }
        ensures few { IfOk result (λ found. length found.items ≤ UNIT_LIMIT) }
    {
        self.board.find(query, operands)
    }

    /// Does nothing, but shows proofs what holds of the blackboard at any time, as `Board::fits` does.
    pub fn fits(&self)
        ensures { Fits self.now.schema self.now.world }
    {
        // For the proof: what holds of the board.
        self.board.fits();
    }
}
