//! The steps of a blackboard's state that link and unlink units, and their notes. `Board` calls them.

ghost use Rattle.std.specs.Prelude.{◌≡◌, ◌<◌, ◌++◌, length, IfSome, IsSome, IfOk, OnOk, OnErr};
ghost use Rattle.bb_schema.specs.Slots.{link_of};
ghost use Rattle.bb_schema.specs.Couples.{couple_of};
ghost use Rattle.bb_board.specs.World.{class_at, event};
ghost use Rattle.bb_board.specs.Links.{joining, parting, pair_parting, own_pair, partners_pair, link_notes};
ghost use Rattle.bb_board.specs.Links.{after_link, after_unlink};

use crate::event::{Change, Event};
use crate::note::Note;
use crate::state::State;
use bb_basis::Memory;
use bb_links::Taken;
use bb_schema::{Schema, Side, UnitId};
use bb_schema_classes::{ClassId, SlotId};
use std::alloc::Global;

// Returns the pair that the unit at the side loses, if any.
fn own_pair(side: Side, taken: Taken) -> Option<(UnitId, UnitId)>
    ensures { result ≡ own_pair side taken }
{
    match side {
        Side::A => taken.first,
        Side::B => taken.second,
    }
}

// Returns the pair that its partner loses, if any.
fn partners_pair(side: Side, taken: Taken) -> Option<(UnitId, UnitId)>
    ensures { result ≡ partners_pair side taken }
{
    match side {
        Side::A => taken.second,
        Side::B => taken.first,
    }
}

// A link to make: from a unit, by a slot at a side of its couple, to a partner.
#[derive(Clone, Copy)]
struct Linking {
    side: Side,
    unit: UnitId,
    slot: SlotId,
    partner: UnitId,
}

impl State {
    /// Returns the class of a unit, or 0 if it is not live.
    pub(crate) fn class_at(&self, unit: UnitId) -> ClassId
        ensures { result ≡ class_at self.now unit }
    {
        self.units.class_if_live(unit).unwrap_or(0)
    }

    /// Makes the note of a change of a unit.
    pub(crate) fn event(&self, unit: UnitId, change: Change) -> Note
        ensures { result ≡ event unit (class_at self.now unit) change }
    {
        Note::Event(Event::Change {
            unit,
            class: self.class_at(unit),
            change,
        })
    }

    // Adds the notes that two units are linked, one at each.
    fn add_joining(
        &self,
        notes: &mut Vec<Note>,
        schema: &Schema,
        unit: UnitId,
        slot: SlotId,
        partner: UnitId,
    ) -> Result<(), Memory>
        ensures { OnOk result (notes.new.items ≡ notes.old.items ++ joining schema.now self.now unit slot partner) }
    {
        let inverse = schema.inverse(slot);
        notes.push(self.event(unit, Change::Link { slot, partner }))?;
        notes.push(self.event(
            partner,
            Change::Link {
                slot: inverse,
                partner: unit,
            },
        ))?;
        Ok(())
    }

    /// Adds the notes that two units are no longer linked, one at each.
    pub(crate) fn add_parting(
        &self,
        notes: &mut Vec<Note>,
        schema: &Schema,
        unit: UnitId,
        slot: SlotId,
        partner: UnitId,
    ) -> Result<(), Memory>
        ensures { OnOk result (notes.new.items ≡ notes.old.items ++ parting schema.now self.now unit slot partner) }
    {
        let inverse = schema.inverse(slot);
        notes.push(self.event(unit, Change::Unlink { slot, partner }))?;
        notes.push(self.event(
            partner,
            Change::Unlink {
                slot: inverse,
                partner: unit,
            },
        ))?;
        Ok(())
    }

    // Adds the notes that a pair goes, if there is one: first the note at its unit at the side.
    fn add_pair_parting(
        &self,
        notes: &mut Vec<Note>,
        schema: &Schema,
        side: Side,
        slot: SlotId,
        pair: Option<(UnitId, UnitId)>,
    ) -> Result<(), Memory>
        ensures { OnOk result (notes.new.items ≡ notes.old.items ++ pair_parting schema.now self.now side slot pair) }
    {
        let Some((a, b)) = pair else {
            return Ok(());
        };
        match side {
            Side::A => self.add_parting(notes, schema, a, slot, b),
            Side::B => self.add_parting(notes, schema, b, slot, a),
        }
    }

    // Lists the notes of a link: each pair that goes, then the new one if there was none.
    fn link_notes(
        &self,
        alloc: Global,
        schema: &Schema,
        link: Linking,
        taken: Taken,
    ) -> Result<Vec<Note>, Memory>
        ensures { IfOk result (λ notes. notes.items ≡
            link_notes schema.now self.now link.side link.unit link.slot link.partner taken) }
    {
        let mut notes = Vec::new(alloc);
        let own = own_pair(link.side, taken);
        let partners = partners_pair(link.side, taken);
        self.add_pair_parting(&mut notes, schema, link.side, link.slot, own)?;
        self.add_pair_parting(&mut notes, schema, link.side, link.slot, partners)?;
        if taken.added {
            self.add_joining(&mut notes, schema, link.unit, link.slot, link.partner)?;
        }
        Ok(notes)
    }

    /// Links two units by a link slot, and notes what changed. An error changes nothing.
    pub(crate) fn link(
        &mut self,
        alloc: Global,
        schema: &Schema,
        unit: UnitId,
        slot: SlotId,
        partner: UnitId,
    ) -> Result<(), Memory>
        requires link { IsSome (link_of schema.now.slots slot) }
        requires couple { IfSome (couple_of schema.now slot) (λ e. e.0 < length self.old.links.couples) }
        ensures ok { OnOk result (self.new ≡ after_link schema.now self.old unit slot partner) }
        ensures err { OnErr result (self.new ≡ self.old) }
    {
        let (couple, side) = schema.couple(slot);
        let (a, b) = side.pair(unit, partner);
        let taken = self.links.taken(couple, a, b);
        let link = Linking {
            side,
            unit,
            slot,
            partner,
        };
        let notes = self.link_notes(alloc, schema, link, taken)?;
        let count = self.notes.len();
        self.notes.append(notes)?;
        match self.links.link(couple, a, b) {
            Ok(_) => Ok(()),
            Err(refused) => {
                self.notes.truncate(count);
                Err(refused)
            }
        }
    }

    /// Removes the link of two units by a link slot, and notes it, if there is one. An error changes nothing.
    pub(crate) fn unlink(
        &mut self,
        alloc: Global,
        schema: &Schema,
        unit: UnitId,
        slot: SlotId,
        partner: UnitId,
    ) -> Result<(), Memory>
        requires link { IsSome (link_of schema.now.slots slot) }
        requires couple { IfSome (couple_of schema.now slot) (λ e. e.0 < length self.old.links.couples) }
        ensures ok { OnOk result (self.new ≡ after_unlink schema.now self.old unit slot partner) }
        ensures err { OnErr result (self.new ≡ self.old) }
    {
        let (couple, side) = schema.couple(slot);
        let (a, b) = side.pair(unit, partner);
        let mut notes = Vec::new(alloc);
        if self.links.linked(couple, a, b) {
            self.add_parting(&mut notes, schema, unit, slot, partner)?;
        }
        self.notes.append(notes)?;
        self.links.unlink(couple, a, b);
        Ok(())
    }
}
