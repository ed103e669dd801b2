//! The state of a blackboard, with the steps that create a unit, set a slot, say values and remove the notes. A `Board`
//! keeps a state, and each of its changes is a step.

ghost use Rattle.std.specs.Prelude.{◌≡◌, ◌<◌, ◌^◌, ℕ, length, IfOk, IsTrue, OnOk, OnErr};
ghost use Rattle.bb_basis.specs.Results.{Gives};
ghost use Rattle.bb_schema.specs.Couples.{couple_of};
ghost use Rattle.bb_schema.specs.Fits as schemas;
ghost use Rattle.bb_units.specs.Fits as units;
ghost use Rattle.bb_units.specs.Units.{is_live, next_number, takes};
ghost use Rattle.bb_links.specs.Couples.{end_of};
ghost use Rattle.bb_links.specs.Fits as links;
ghost use Rattle.bb_board.specs.Fits.{Fits};
ghost use Rattle.bb_board.specs.World.{empty_world, event, after_note, after_create, after_set, after_say, after_take};

use crate::event::{Change, Event};
use crate::note::{Note, Said};
use bb_basis::{Items, Memory};
use bb_links::Couples;
use bb_query::{Setting, moves_of};
use bb_schema::{Schema, UnitId};
use bb_schema_classes::{ClassId, SlotId, Value};
use bb_space::Spaces;
use bb_units::{CreateFault, Units};
use std::alloc::Global;
use std::mem;

/// What a blackboard holds: its units, their links, the members of its spaces, and the notes not yet taken.
pub struct State {
    pub units: Units,
    pub links: Couples,
    pub spaces: Spaces,
    pub notes: Items<Note>,
}

// By hand, so that a proof meets one call where a state is dropped, and not all its parts.
impl Drop for State {
    fn drop(self) {
        let State {
            units: _,
            links: _,
            spaces: _,
            notes: _,
        } = self;
    }
}

impl State {
    /// Makes the state of a blackboard with no units.
    pub(crate) fn new(alloc: Global, schema: &Schema) -> Result<State, Memory>
        ensures empty { IfOk result (λ world. world ≡ empty_world schema.now) }
        ensures ends { IfOk result (λ world. (slot : ℕ) → end_of world.links slot ≡ couple_of schema.now slot) }
    {
        Ok(State {
            units: Units::new(alloc, schema)?,
            links: Couples::new(alloc, schema)?,
            spaces: Spaces::new(alloc, schema)?,
            notes: Items::new(alloc),
        })
    }

    /// Does nothing. Its contract states what holds of units and links at any time.
    pub(crate) fn fits(&self)
        ensures units { units.Fits self.now.units }
        ensures links { links.Fits self.now.links }
    {
        // For the proof: what holds of the units and the links.
        self.units.fits();
        self.links.fits();
    }

    /// Notes a change of a unit of this class. An error changes nothing.
    pub(crate) fn note(
        &mut self,
        unit: UnitId,
        class: ClassId,
        change: Change,
    ) -> Result<(), Memory>
        ensures ok { OnOk result (self.new ≡ after_note self.old (event unit class change)) }
        ensures err { OnErr result (self.new ≡ self.old) }
    {
        self.notes.push(Note::Event(Event::Change {
            unit,
            class,
            change,
        }))
    }

    /// Creates a unit of an existing class, notes it, and returns its number. An error changes nothing.
    pub(crate) fn create(&mut self, class: ClassId) -> Result<UnitId, CreateFault>
        requires { class < length self.old.units.layout.slots }
        ensures number { Gives CreateFault.Memory (λ number. number) result (next_number self.old.units) }
        ensures created { OnOk result (self.new ≡ after_create self.old class) }
        ensures err { OnErr result (self.new ≡ self.old) }
    {
        // The note comes first, since it can be taken back.
        let count = self.notes.len();
        let unit = self.units.next();
        self.note(unit, class, Change::Create)?;
        match self.units.create(class) {
            Ok(number) => Ok(number),
            Err(fault) => {
                self.notes.truncate(count);
                Err(fault)
            }
        }
    }

    /// Sets a slot to a value that it accepts, reports the value to the unit's spaces that read the slot, and notes it.
    /// The unit's other spaces know its present values already. An error changes nothing.
    pub(crate) fn set(
        &mut self,
        alloc: Global,
        schema: &Schema,
        unit: UnitId,
        slot: SlotId,
        value: Value,
    ) -> Result<(), Memory>
        requires schema { schemas.Fits schema.now }
        requires fits { Fits schema.now self.old }
        requires live { IsTrue (is_live self.old.units unit) }
        requires takes { IsTrue (takes self.old.units unit slot value) }
        requires spaces { length self.old.spaces.spaces ≡ length schema.now.spaces }
        requires few { length schema.now.spaces < 2 ^ 16 }
        ensures ok { OnOk result (self.new ≡ after_set schema.now self.old unit slot value) }
        ensures err { OnErr result (self.new ≡ self.old) }
    {
        let set = Setting {
            slot,
            value: &value,
        };
        let moves = moves_of(alloc, schema, &self.spaces, unit, &set)?;
        // The note comes first, since it can be taken back.
        let noted = self.notes.len();
        let class = self.units.class_of(unit);
        self.note(unit, class, Change::Update(slot))?;
        match self.spaces.moved_all(unit, moves) {
            Ok(()) => {
                self.units.set(unit, slot, value);
                Ok(())
            }
            Err(refused) => {
                self.notes.truncate(noted);
                Err(refused)
            }
        }
    }

    /// Notes that values are said. An error changes nothing.
    pub(crate) fn say(&mut self, values: Items<Said>) -> Result<(), Memory>
        ensures ok { OnOk result (self.new ≡ after_say self.old values) }
        ensures err { OnErr result (self.new ≡ self.old) }
    {
        self.notes.push(Note::Said(values))
    }

    /// Takes the notes, in order, and leaves none.
    pub(crate) fn take_notes(&mut self, alloc: Global) -> Items<Note>
        ensures notes { result ≡ self.old.notes }
        ensures world { self.new ≡ after_take self.old }
    {
        mem::replace(&mut self.notes, Items::new(alloc))
    }
}
