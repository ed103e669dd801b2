//! The changes of an agenda. Once memory was refused to a change, every later change is refused.

ghost use Rattle.std.specs.Prelude.{◌≡◌, IsErr, IfErr, IsTrue, OnOk, OnErr, Err, true, false, if◌then◌else◌};
ghost use Rattle.bb_basis.specs.Results.{Gives};
ghost use Rattle.bb_agenda.specs.Changes.{with_activation, with_executed, with_obviated, with_base, when_refused};
ghost use Rattle.bb_agenda.specs.Changes.{with_focus, without_focus, added_number, after_add_fault};

use crate::agenda::Agenda;
use crate::fault::AddFault;
use crate::focusing::Focus;
use bb_basis::Memory;
use bb_schema::UnitId;
use std::alloc::AllocError;

impl Agenda {
    // Refuses a change if memory was refused to an earlier one.
    fn guard(&self) -> Result<(), Memory>
        ensures ok { OnOk result (self.now.refused ≡ false) }
        ensures err { OnErr result (self.now.refused ≡ true) }
    {
        if self.refused {
            return Err(AllocError);
        }
        Ok(())
    }

    // Records whether memory was refused to a change.
    fn keep(&mut self, refused: bool)
        ensures { self.new ≡ (if refused then when_refused self.old else self.old) }
    {
        if refused {
            self.refused = true;
        }
    }

    /// Adds an activation under the next number and returns that number. `Full` changes nothing: `PENDING_LIMIT` are
    /// pending, or every number up to `NUMBER_LIMIT` was given. `Memory`: memory was refused to this change or an
    /// earlier one.
    pub fn add(&mut self, source: u16, unit: UnitId, base: i64) -> Result<u64, AddFault>
        ensures number { Gives AddFault.Memory (λ number. number) result (added_number self.old) }
        ensures added { OnOk result (self.new ≡ with_activation self.old source unit base) }
        ensures err { IfErr result (λ fault. self.new ≡ after_add_fault self.old fault) }
        ensures closed { IsTrue self.old.refused → result ≡ Err AddFault.Memory }
    {
        self.guard()?;
        let added = self.put(source, unit, base);
        self.keep(matches!(added, Err(AddFault::Memory)));
        added
    }

    /// Obviates the pending activation with a number: it is no longer pending. Changes nothing if no pending activation
    /// has the number. `Memory`: memory was refused to this change or an earlier one.
    pub fn obviate(&mut self, number: u64) -> Result<(), Memory>
        ensures ok { OnOk result (self.new ≡ with_obviated self.old number) }
        ensures err { OnErr result (self.new ≡ when_refused self.old) }
        ensures closed { IsTrue self.old.refused → IsErr result }
    {
        self.guard()?;
        let changed = self.take_off(number);
        self.keep(changed.is_err());
        changed
    }

    /// Marks the pending activation with a number as executed: it is no longer pending. Changes nothing if no pending
    /// activation has the number. `Memory`: memory was refused to an earlier change.
    pub fn executed(&mut self, number: u64) -> Result<(), Memory>
        ensures ok { OnOk result (self.new ≡ with_executed self.old number) }
        ensures err { OnErr result (self.new ≡ when_refused self.old) }
        ensures closed { IsTrue self.old.refused → IsErr result }
    {
        self.guard()?;
        self.waiting.remove(number);
        Ok(())
    }

    /// Gives the pending activation with a number another base. Changes nothing if no pending activation has the
    /// number. `Memory`: memory was refused to this change or an earlier one.
    pub fn rerate(&mut self, number: u64, base: i64) -> Result<(), Memory>
        ensures ok { OnOk result (self.new ≡ with_base self.old number base) }
        ensures err { OnErr result (self.new ≡ when_refused self.old) }
        ensures closed { IsTrue self.old.refused → IsErr result }
    {
        self.guard()?;
        let changed = self.put_base(number, base);
        self.keep(changed.is_err());
        changed
    }

    /// Sets the focus of a unit, replacing any that it had. `Memory`: memory was refused to this change or an earlier
    /// one.
    pub fn focus_set(&mut self, unit: UnitId, focus: Focus) -> Result<(), Memory>
        ensures ok { OnOk result (self.new ≡ with_focus self.old unit focus) }
        ensures err { OnErr result (self.new ≡ when_refused self.old) }
        ensures closed { IsTrue self.old.refused → IsErr result }
    {
        self.guard()?;
        let changed = self.put_focus(unit, focus);
        self.keep(changed.is_err());
        changed
    }

    /// Removes the focus of a unit, if it had one. `Memory`: memory was refused to an earlier change.
    pub fn focus_gone(&mut self, unit: UnitId) -> Result<(), Memory>
        ensures ok { OnOk result (self.new ≡ without_focus self.old unit) }
        ensures err { OnErr result (self.new ≡ when_refused self.old) }
        ensures closed { IsTrue self.old.refused → IsErr result }
    {
        self.guard()?;
        self.steering.remove(unit);
        Ok(())
    }
}
