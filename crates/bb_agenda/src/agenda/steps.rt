//! The four changes of an agenda that can need memory, if none was refused before. `changes` calls them.

ghost use Rattle.std.specs.Prelude.{◌≡◌, OnOk, OnErr};
ghost use Rattle.bb_basis.specs.Results.{Gives};
ghost use Rattle.bb_agenda.specs.Changes.{added_number, with_activation, with_obviated, with_base, with_focus};

use crate::agenda::Agenda;
use crate::fault::AddFault;
use crate::focusing::{Activation, Focus};
use bb_basis::Memory;
use bb_schema::UnitId;

impl Agenda {
    /// Adds an activation under the next number and returns that number. An error changes nothing.
    pub(crate) fn put(&mut self, source: u16, unit: UnitId, base: i64) -> Result<u64, AddFault>
        ensures number { Gives AddFault.Memory (λ number. number) result (added_number self.old) }
        ensures added { OnOk result (self.new ≡ with_activation self.old source unit base) }
        ensures err { OnErr result (self.new ≡ self.old) }
    {
        if self.is_full() {
            return Err(AddFault::Full);
        }
        let number = self.given + 1;
        self.waiting.push(Activation {
            number,
            source,
            unit,
            base,
        })?;
        self.given = number;
        Ok(number)
    }

    /// Obviates the pending activation with a number, if there is one. An error changes nothing.
    pub(crate) fn take_off(&mut self, number: u64) -> Result<(), Memory>
        ensures ok { OnOk result (self.new ≡ with_obviated self.old number) }
        ensures err { OnErr result (self.new ≡ self.old) }
    {
        if !self.waiting.has(number) {
            return Ok(());
        }
        self.obviated.insert(number)?;
        self.waiting.remove(number);
        Ok(())
    }

    /// Gives the pending activation with a number another base. An error changes nothing.
    pub(crate) fn put_base(&mut self, number: u64, base: i64) -> Result<(), Memory>
        ensures ok { OnOk result (self.new ≡ with_base self.old number base) }
        ensures err { OnErr result (self.new ≡ self.old) }
    {
        self.waiting.rerate(number, base)?;
        Ok(())
    }

    /// Sets the focus of a unit. An error changes nothing.
    pub(crate) fn put_focus(&mut self, unit: UnitId, focus: Focus) -> Result<(), Memory>
        ensures ok { OnOk result (self.new ≡ with_focus self.old unit focus) }
        ensures err { OnErr result (self.new ≡ self.old) }
    {
        self.steering.set(unit, focus)
    }
}
