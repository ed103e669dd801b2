//! What changes a blackboard. A change is a step of its state, and is refused if a change before it was refused memory.
//! A unit that none of a change's notes names keeps its class and its values (`NotesChanges`).

ghost use Rattle.std.specs.Prelude.{◌≡◌, ◌<◌, Ok, Err, true, false, length, IfErr, IsErr, IsTrue, OnOk, OnErr, if◌then◌else◌};
ghost use Rattle.std.specs.List.{list_all};
ghost use Rattle.bb_basis.specs.Results.{Gives};
ghost use Rattle.bb_units.specs.Units.{is_live, next_number};
ghost use Rattle.bb_board.specs.World.{after_create, after_set, after_say, after_take};
ghost use Rattle.bb_board.specs.Links.{after_link, after_unlink};
ghost use Rattle.bb_board.specs.Deletion.{after_delete};
ghost use Rattle.bb_board.specs.May.{may_set, may_link};
ghost use Rattle.bb_board.specs.Spaces.{may_enter, after_enter, after_leave};
ghost use Rattle.bb_board.specs.Fits.{is_said_of};
ghost use Rattle.bb_board.specs.Named.{NotesChanges};
ghost use Rattle.bb_board.specs.Board.{with_world, when_refused, after_create_fault, after_units_fault, is_fresh};
ghost use Rattle.bb_board.specs.Load.{loaded};
ghost use Rattle.bb_board.specs.declared.units_fault.UnitsFault.TheVariants.{Memory as OutOfMemory};

use crate::board::Board;
use crate::loader::read_units;
use crate::note::{Note, Said};
use crate::units_fault::UnitsFault;
use bb_basis::{Items, Memory};
use bb_schema::{SpaceId, UnitId};
use bb_schema_classes::{ClassId, SlotId, Value};
use bb_units::CreateFault;
use std::alloc::AllocError;

impl Board {
    // Refuses a change if a change before it was refused memory.
    fn guard(&self) -> Result<(), Memory>
        ensures ok { OnOk result (self.now.refused ≡ false) }
        ensures err { OnErr result (self.now.refused ≡ true) }
    {
        if self.refused {
            return Err(AllocError);
        }
        Ok(())
    }

    // Notes whether a change was refused memory.
    fn keep(&mut self, refused: bool)
        ensures { self.new ≡ (if refused then when_refused self.old else self.old) }
    {
        if refused {
            self.refused = true;
        }
    }

    /// Creates a unit (GBBopen Reference Manual, unit instances) of a class of the schema, with each slot at its
    /// default, notes the event, and returns the unit's number, the next one. `Full` changes nothing: 65,536 units are
    /// live, or all numbers below 2^63 are used. `Memory`: this change or one before it was refused memory.
    pub fn create(&mut self, class: ClassId) -> Result<UnitId, CreateFault>
        requires { class < length self.old.schema.classes }
        ensures number { Gives CreateFault.Memory (λ number. number) result (next_number self.old.world.units) }
        ensures created { OnOk result (self.new ≡ with_world self.old (after_create self.old.world class)) }
        ensures err { IfErr result (λ fault. self.new ≡ after_create_fault self.old fault) }
        ensures closed { IsTrue self.old.refused → result ≡ Err CreateFault.Memory }
        ensures named { NotesChanges self.old.world self.new.world }
    {
        self.guard()?;
        let created = self.state.create(class);
        // For the proof: what holds of the state.
        self.state.fits();
        self.keep(matches!(created, Err(CreateFault::Memory)));
        created
    }

    /// Sets a slot of a unit to a value that it may be set to, reports the value to the unit's spaces, and notes the
    /// event, even if the value is equal. `Memory`: this change or one before it was refused memory.
    pub fn set(&mut self, unit: UnitId, slot: SlotId, value: Value) -> Result<(), Memory>
        requires { may_set self.old.world unit slot value ≡ Ok tt }
        ensures ok { OnOk result (self.new ≡
            with_world self.old (after_set self.old.schema self.old.world unit slot value)) }
        ensures err { OnErr result (self.new ≡ when_refused self.old) }
        ensures closed { IsTrue self.old.refused → IsErr result }
        ensures named { NotesChanges self.old.world self.new.world }
    {
        self.guard()?;
        let schema = self.schema.get();
        let changed = self.state.set(self.alloc, schema, unit, slot, value);
        // For the proof: what holds of the state.
        self.state.fits();
        self.keep(changed.is_err());
        changed
    }

    /// Links two units that may be linked by a slot. If the slot is singular, the unit's old link goes first; then, if
    /// its inverse is singular, the partner's. Notes each of these links and the new one at both of its units. Does
    /// nothing if the two are linked. `Memory`: this change or one before it was refused memory.
    pub fn link(&mut self, unit: UnitId, slot: SlotId, partner: UnitId) -> Result<(), Memory>
        requires { may_link self.old.schema self.old.world unit slot partner ≡ Ok tt }
        ensures ok { OnOk result (self.new ≡
            with_world self.old (after_link self.old.schema self.old.world unit slot partner)) }
        ensures err { OnErr result (self.new ≡ when_refused self.old) }
        ensures closed { IsTrue self.old.refused → IsErr result }
        ensures named { NotesChanges self.old.world self.new.world }
    {
        self.guard()?;
        let schema = self.schema.get();
        let changed = self.state.link(self.alloc, schema, unit, slot, partner);
        // For the proof: what holds of the state.
        self.state.fits();
        self.keep(changed.is_err());
        changed
    }

    /// Removes the link of two units that may be linked by a slot, and notes that at both. Does nothing if they are not
    /// linked. `Memory`: this change or one before it was refused memory.
    pub fn unlink(&mut self, unit: UnitId, slot: SlotId, partner: UnitId) -> Result<(), Memory>
        requires { may_link self.old.schema self.old.world unit slot partner ≡ Ok tt }
        ensures ok { OnOk result (self.new ≡
            with_world self.old (after_unlink self.old.schema self.old.world unit slot partner)) }
        ensures err { OnErr result (self.new ≡ when_refused self.old) }
        ensures closed { IsTrue self.old.refused → IsErr result }
        ensures named { NotesChanges self.old.world self.new.world }
    {
        self.guard()?;
        let schema = self.schema.get();
        let changed = self.state.unlink(self.alloc, schema, unit, slot, partner);
        // For the proof: what holds of the state.
        self.state.fits();
        self.keep(changed.is_err());
        changed
    }

    /// Deletes a live unit with its parts: the units that owning slots point to, their parts, and so on. Each, in
    /// ascending number, loses its links, leaves its spaces and is gone. Notes each link at both of its units, slot by
    /// slot in class order, then the spaces in ascending number, then the end. The numbers are never used again.
    /// `Memory`: this change or one before it was refused memory.
    pub fn delete(&mut self, unit: UnitId) -> Result<(), Memory>
        requires { IsTrue (is_live self.old.world.units unit) }
        ensures ok { OnOk result (self.new ≡ with_world self.old (after_delete self.old.schema self.old.world unit)) }
        ensures err { OnErr result (self.new ≡ when_refused self.old) }
        ensures closed { IsTrue self.old.refused → IsErr result }
        ensures named { NotesChanges self.old.world self.new.world }
    {
        self.guard()?;
        let schema = self.schema.get();
        let changed = self.state.delete(self.alloc, schema, unit);
        self.keep(changed.is_err());
        changed
    }

    /// Notes that values are said, on one line. Each label has to be one of the schema. `Memory`: this change or one
    /// before it was refused memory.
    pub fn say(&mut self, values: Vec<Said>) -> Result<(), Memory>
        requires { list_all (is_said_of self.old.schema) values.items ≡ true }
        ensures ok { OnOk result (self.new ≡ with_world self.old (after_say self.old.world values.items)) }
        ensures err { OnErr result (self.new ≡ when_refused self.old) }
        ensures closed { IsTrue self.old.refused → IsErr result }
        ensures named { NotesChanges self.old.world self.new.world }
    {
        self.guard()?;
        let changed = self.state.say(Items::from(values));
        self.keep(changed.is_err());
        changed
    }

    /// Lets a unit enter a space that it may enter, with its present values, and notes it. Does nothing if it is a
    /// member. `Memory`: this change or one before it was refused memory.
    pub fn enter(&mut self, unit: UnitId, space: SpaceId) -> Result<(), Memory>
        requires { may_enter self.old.schema self.old.world unit space ≡ Ok tt }
        ensures ok { OnOk result (self.new ≡
            with_world self.old (after_enter self.old.schema self.old.world unit space)) }
        ensures err { OnErr result (self.new ≡ when_refused self.old) }
        ensures closed { IsTrue self.old.refused → IsErr result }
        ensures named { NotesChanges self.old.world self.new.world }
    {
        self.guard()?;
        let schema = self.schema.get();
        let changed = self.state.enter(self.alloc, schema, unit, space);
        self.keep(changed.is_err());
        changed
    }

    /// Lets a live unit leave a space of the schema, and notes it. Does nothing if it is not a member. `Memory`: this
    /// change or one before it was refused memory.
    pub fn leave(&mut self, unit: UnitId, space: SpaceId) -> Result<(), Memory>
        requires live { IsTrue (is_live self.old.world.units unit) }
        requires space { space < length self.old.schema.spaces }
        ensures ok { OnOk result (self.new ≡ with_world self.old (after_leave self.old.world unit space)) }
        ensures err { OnErr result (self.new ≡ when_refused self.old) }
        ensures closed { IsTrue self.old.refused → IsErr result }
        ensures named { NotesChanges self.old.world self.new.world }
    {
        self.guard()?;
        let changed = self.state.leave(unit, space);
        self.keep(changed.is_err());
        changed
    }

    /// Takes the notes, in order, and leaves none.
    pub fn take_notes(&mut self) -> Vec<Note>
        ensures notes { result.items ≡ self.old.world.notes }
        ensures taken { self.new ≡ with_world self.old (after_take self.old.world) }
    {
        self.state.take_notes(self.alloc).into_vec()
    }

    /// Creates the initial units of a JSON document on a fresh blackboard, sets the values that it gives them, links
    /// them, lets them enter spaces, and notes all that. Otherwise returns the document's first fault and leaves the
    /// blackboard unchanged: `Json` if the text is not JSON, then `Shape` if the JSON has another form, then the first
    /// fault of the units in their order, then of the links, then of the spaces. A unit's name is checked first, then
    /// its class, then whether there is capacity for it, then its values; a link's units and slot by name, then the
    /// class of the second unit; a space entry's unit and space by name, then whether the space accepts the unit's
    /// class. `Memory` may come at any point: this load or a change before it was refused memory.
    pub fn load(&mut self, text: &str) -> Result<(), UnitsFault>
        requires { is_fresh self.old ≡ true }
        ensures gives { Gives OutOfMemory (λ _. self.new) result (loaded self.old text.now) }
        ensures err { IfErr result (λ fault. self.new ≡ after_units_fault self.old fault) }
        ensures closed { IsTrue self.old.refused → result ≡ Err OutOfMemory }
    {
        self.guard()?;
        match read_units(self.alloc, self, text) {
            Ok(board) => {
                *self = board;
                Ok(())
            }
            Err(fault) => {
                self.keep(fault.is_memory());
                Err(fault)
            }
        }
    }
}
