//! The steps of a blackboard's state that delete a unit with its parts. `Board` calls `delete`.

ghost use Rattle.std.specs.Prelude.{◌≡◌, ◌<◌, ◌++◌, [], true, length, filter, IsTrue, IfOk, OnOk, OnErr};
ghost use Rattle.std.specs.List.{flat_map, fold, list_all};
ghost use Rattle.std.specs.List.Sorted.{IsStrictlyIncreasing};
ghost use Rattle.bb_schema.specs.Fits as schemas;
ghost use Rattle.bb_units.specs.Units.{is_live};
ghost use Rattle.bb_board.specs.Deletion.{after_delete, with_parts};
ghost use Rattle.bb_board.specs.Fits.{Fits};
ghost use Rattle.bb_board.specs.Links.{parting};
ghost use Rattle.bb_board.specs.World.{class_at};
ghost use Rattle.bb_board.specs.proving.Deleted.{is_turn, slot_partings, deletion_notes, all_deletion_notes};
ghost use Rattle.bb_board.specs.proving.Deleted.{AreLive, without_units, forgotten};
ghost use Rattle.bb_board.specs.proving.Found.{found_more, parts_by, parts_of};

use crate::event::Change;
use crate::found::Found;
use crate::note::Note;
use crate::state::State;
use bb_basis::Memory;
use bb_schema::{Schema, Side, UnitId};
use bb_schema_classes::SlotId;
use std::alloc::Global;

// A unit to delete, and the units deleted before it, in ascending number.
#[derive(Clone, Copy)]
struct Deleted<'a> {
    gone: &'a [UnitId],
    unit: UnitId,
}

// Tests whether a deleted unit's link is noted with its slot at a side: its partner is not deleted before, and a link
// to itself is noted at side A only.
fn is_turn(side: Side, deleted: Deleted, partner: UnitId) -> bool
    requires { IsStrictlyIncreasing deleted.gone.now }
    ensures { result ≡ is_turn deleted.entry.gone.now side deleted.entry.unit partner }
{
    if deleted.gone.binary_search(&partner).is_ok() {
        return false;
    }
    match side {
        Side::A => true,
        Side::B => partner != deleted.unit,
    }
}

impl State {
    // Adds the notes of the links that a deleted unit loses by a slot at a side, to these partners.
    fn add_partings(
        &self,
        notes: &mut Vec<Note>,
        schema: &Schema,
        end: (Side, SlotId),
        deleted: Deleted,
        partners: &[UnitId],
    ) -> Result<(), Memory>
        requires { IsStrictlyIncreasing deleted.gone.now }
        ensures { OnOk result (notes.new.items ≡ notes.old.items ++ flat_map
            (parting schema.now self.now deleted.entry.unit end.1)
            (filter (is_turn deleted.entry.gone.now end.0 deleted.entry.unit) partners.now)) }
    {
        for partner in partners {
            if !is_turn(end.0, deleted, *partner) {
                continue;
            }
            self.add_parting(notes, schema, deleted.unit, end.1, *partner)?;
        }
        Ok(())
    }

    // Adds the notes of the links that a deleted unit loses by a slot.
    fn add_slot_partings(
        &self,
        alloc: Global,
        notes: &mut Vec<Note>,
        schema: &Schema,
        deleted: Deleted,
        slot: SlotId,
    ) -> Result<(), Memory>
        requires { IsStrictlyIncreasing deleted.gone.now }
        ensures { OnOk result (notes.new.items ≡
            notes.old.items ++ slot_partings schema.now self.now deleted.entry.gone.now deleted.entry.unit slot) }
    {
        if !schema.is_link(slot) {
            return Ok(());
        }
        let (_, side) = schema.couple(slot);
        let partners = self.links.ends(alloc, deleted.unit, slot)?;
        self.add_partings(notes, schema, (side, slot), deleted, &partners)
    }

    // Adds the notes of the links that a deleted unit loses by some slots, slot by slot.
    fn add_all_partings(
        &self,
        alloc: Global,
        notes: &mut Vec<Note>,
        schema: &Schema,
        deleted: Deleted,
        slots: &[SlotId],
    ) -> Result<(), Memory>
        requires { IsStrictlyIncreasing deleted.gone.now }
        ensures { OnOk result (notes.new.items ≡ notes.old.items ++
            flat_map (slot_partings schema.now self.now deleted.entry.gone.now deleted.entry.unit) slots.now) }
    {
        for slot in slots {
            self.add_slot_partings(alloc, notes, schema, deleted, *slot)?;
        }
        Ok(())
    }

    // Adds the notes of a deleted unit: of its links, its spaces and its end.
    fn add_notes_of(
        &self,
        alloc: Global,
        notes: &mut Vec<Note>,
        schema: &Schema,
        deleted: Deleted,
    ) -> Result<(), Memory>
        requires class { class_at self.now deleted.unit < length schema.now.classes }
        requires rising { IsStrictlyIncreasing deleted.gone.now }
        ensures { OnOk result (notes.new.items ≡
            notes.old.items ++ deletion_notes schema.now self.now deleted.entry.gone.now deleted.entry.unit) }
    {
        let slots = schema.slots(self.class_at(deleted.unit));
        self.add_all_partings(alloc, notes, schema, deleted, slots)?;
        self.add_notes_of_leaving(notes, deleted.unit)?;
        notes.push(self.event(deleted.unit, Change::Delete))?;
        Ok(())
    }

    // Lists the notes of deleted units, one unit after another.
    fn deletion_notes(
        &self,
        alloc: Global,
        schema: &Schema,
        units: &[UnitId],
    ) -> Result<Vec<Note>, Memory>
        requires schema { schemas.Fits schema.now }
        requires fits { Fits schema.now self.now }
        requires live { list_all (is_live self.now.units) units.now ≡ true }
        requires rising { IsStrictlyIncreasing units.now }
        ensures { IfOk result (λ notes. notes.items ≡ all_deletion_notes schema.now self.now [] units.now) }
    {
        let mut notes = Vec::new(alloc);
        for index in 0..units.len() {
            let deleted = Deleted {
                gone: &units[..index],
                unit: units[index],
            };
            self.add_notes_of(alloc, &mut notes, schema, deleted)?;
        }
        Ok(notes)
    }

    // Removes units with all their links, and from all spaces. Notes nothing.
    fn forget(&mut self, units: &[UnitId])
        requires { AreLive self.old.units units.now }
        ensures { self.new ≡ forgotten self.old units.now }
    {
        for unit in units {
            self.links.forget(*unit);
            self.spaces.forget(*unit);
            self.units.delete(*unit);
        }
    }

    // Deletes live units, given in ascending number, and notes it. An error changes nothing.
    fn delete_all(&mut self, alloc: Global, schema: &Schema, units: &[UnitId]) -> Result<(), Memory>
        requires schema { schemas.Fits schema.now }
        requires fits { Fits schema.now self.old }
        requires live { list_all (is_live self.old.units) units.now ≡ true }
        requires rising { IsStrictlyIncreasing units.now }
        ensures ok { OnOk result (self.new ≡ without_units schema.now self.old units.now) }
        ensures err { OnErr result (self.new ≡ self.old) }
    {
        let notes = self.deletion_notes(alloc, schema, units)?;
        self.notes.append(notes)?;
        // From here on nothing needs memory.
        self.forget(units);
        Ok(())
    }

    // Adds the parts that a unit has by some slots to the units found so far.
    fn add_parts(
        &self,
        alloc: Global,
        schema: &Schema,
        unit: UnitId,
        slots: &[SlotId],
        found: &mut Found,
    ) -> Result<(), Memory>
        ensures { OnOk result (found.new ≡
            fold found_more found.old (flat_map (parts_by schema.now self.now unit) slots.now)) }
    {
        for slot in slots {
            if !schema.owns(*slot) {
                continue;
            }
            let parts = self.links.ends(alloc, unit, *slot)?;
            found.add_all(&parts)?;
        }
        Ok(())
    }

    // Lists a live unit with its parts, their parts, and so on, by the present links, in ascending number.
    fn with_parts(
        &self,
        alloc: Global,
        schema: &Schema,
        unit: UnitId,
    ) -> Result<Vec<UnitId>, Memory>
        requires schema { schemas.Fits schema.now }
        requires fits { Fits schema.now self.now }
        requires live { IsTrue (is_live self.now.units unit) }
        ensures { IfOk result (λ units. units.items ≡ with_parts schema.now self.now unit) }
    {
        let mut found = Found::new(alloc);
        found.add_all(&[unit])?;
        let mut place = 0;
        while let Some(whole) = found.get(place) {
            let slots = schema.slots(self.class_at(whole));
            self.add_parts(alloc, schema, whole, slots, &mut found)?;
            place += 1;
        }
        Ok(found.rising())
    }

    /// Deletes a live unit with its parts: each loses its links, leaves its spaces and is gone. Notes all that. An
    /// error changes nothing.
    pub(crate) fn delete(
        &mut self,
        alloc: Global,
        schema: &Schema,
        unit: UnitId,
    ) -> Result<(), Memory>
        requires schema { schemas.Fits schema.now }
        requires fits { Fits schema.now self.old }
        requires live { IsTrue (is_live self.old.units unit) }
        ensures ok { OnOk result (self.new ≡ after_delete schema.now self.old unit) }
        ensures err { OnErr result (self.new ≡ self.old) }
    {
        // Most schemas have no slot that owns: then no list of parts is made.
        if !schema.owns_any() {
            return self.delete_all(alloc, schema, &[unit]);
        }
        let units = self.with_parts(alloc, schema, unit)?;
        self.delete_all(alloc, schema, &units)
    }
}
