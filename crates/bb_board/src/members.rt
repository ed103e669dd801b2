//! The steps of a blackboard's state that let units enter and leave spaces. `Board` calls them.

ghost use Rattle.std.specs.Prelude.{◌≡◌, ◌<◌, ◌^◌, ◌++◌, IsTrue, OnOk, OnErr, length};
ghost use Rattle.bb_units.specs.Units.{is_live};
ghost use Rattle.bb_board.specs.Spaces.{after_enter, after_leave, leavings};

use crate::event::Change;
use crate::note::Note;
use crate::state::State;
use bb_basis::Memory;
use bb_query::values_of;
use bb_schema::{Schema, SpaceId, UnitId};
use std::alloc::Global;

impl State {
    /// Adds the notes that a deleted unit leaves its spaces, in ascending number.
    pub(crate) fn add_notes_of_leaving(
        &self,
        notes: &mut Vec<Note>,
        unit: UnitId,
    ) -> Result<(), Memory>
        ensures { OnOk result (notes.new.items ≡ notes.old.items ++ leavings self.now unit) }
    {
        let spaces = self.spaces.spaces_of(unit);
        for space in spaces {
            notes.push(self.event(unit, Change::Leave(*space)))?;
        }
        Ok(())
    }

    /// Lets a live unit enter a space, with its present values, and notes it. Does nothing if it is a member. An error
    /// changes nothing.
    pub(crate) fn enter(
        &mut self,
        alloc: Global,
        schema: &Schema,
        unit: UnitId,
        space: SpaceId,
    ) -> Result<(), Memory>
        requires live { IsTrue (is_live self.old.units unit) }
        requires space { space < length schema.now.spaces }
        requires spaces { length self.old.spaces.spaces ≡ length schema.now.spaces }
        ensures ok { OnOk result (self.new ≡ after_enter schema.now self.old unit space) }
        ensures err { OnErr result (self.new ≡ self.old) }
    {
        if self.spaces.contains(space, unit) {
            return Ok(());
        }
        let values = values_of(alloc, schema, &self.units, unit, space)?;
        // The note comes first, since it can be taken back.
        let count = self.notes.len();
        let class = self.units.class_of(unit);
        self.note(unit, class, Change::Enter(space))?;
        match self.spaces.enter(space, unit, values) {
            Ok(_) => Ok(()),
            Err(refused) => {
                self.notes.truncate(count);
                Err(refused)
            }
        }
    }

    /// Lets a live unit leave a space, and notes it. Does nothing if it is not a member. An error changes nothing.
    pub(crate) fn leave(&mut self, unit: UnitId, space: SpaceId) -> Result<(), Memory>
        requires live { IsTrue (is_live self.old.units unit) }
        requires space { space < length self.old.spaces.spaces }
        ensures ok { OnOk result (self.new ≡ after_leave self.old unit space) }
        ensures err { OnErr result (self.new ≡ self.old) }
    {
        if !self.spaces.contains(space, unit) {
            return Ok(());
        }
        let class = self.units.class_of(unit);
        self.note(unit, class, Change::Leave(space))?;
        self.spaces.leave(space, unit);
        Ok(())
    }
}
