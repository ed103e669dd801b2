//! A host's view of a held run: its blackboard, its agenda, the native that is due, and its sources' possible costs.

ghost use Rattle.std.specs.Prelude.{◌≡◌, IfErr, IfOk, length, option_and_then, option_map};
ghost use Rattle.bb_c_run.specs.Costs.{creates_in, most_steps_in};
ghost use Rattle.bb_c_run.specs.Looking.{class_at, document_at, due_in, filled_if, interval_of, kind_at, label_name_at};
ghost use Rattle.bb_c_run.specs.Looking.{members_at, number_of, partners_at, text_of, truth_of, units_at, value_at};
ghost use Rattle.bb_c_run.specs.Sitting.{label_in, made_in, next_in};
ghost use Rattle.bb_c_run.specs.Waiting.{choice_in, pending_in, waits_in};

use crate::agenda::{self, Waits};
use crate::costs;
use crate::held::Held;
use crate::looking::{self, fill};
use crate::slot_kind::SlotKind;
use bb_basis::Memory;
use bb_schema::UnitId;
use bb_shell::Value;

impl Held {
    /// Returns a label, by the names of its set and of the label, if the schema has it. `None` once the run is
    /// finished.
    pub fn label(&self, set: &str, label: &str) -> Option<Value>
        ensures { result ≡ label_in self.now.running set.now label.now }
    {
        let running = self.running.as_ref()?;
        let view = running.view();
        let schema = view.schema();
        let set = schema.label_set(set)?;
        Some(Value::Label(set, schema.label(set, label)?))
    }

    /// Copies the name of a unit's class into `to`, up to its capacity, and returns the number of bytes of the name.
    /// `None` if the unit does not exist, or once the run is finished.
    pub fn class(&self, unit: UnitId, to: &mut [u8]) -> Option<usize>
        ensures count { result ≡ option_map length (class_at self.now.running unit) }
        ensures filled { to.new ≡ filled_if (class_at self.now.running unit) to.old }
    {
        let view = self.running.as_ref()?.view();
        Some(fill(looking::class(&view, unit)?.as_bytes(), to))
    }

    /// Returns the number in an ordinary slot of a unit. `None` if the unit or the slot does not exist, if the slot
    /// holds something else, or once the run is finished.
    pub fn number(&self, unit: UnitId, slot: &str) -> Option<i64>
        ensures { result ≡ option_and_then number_of (value_at self.now.running unit slot.now) }
    {
        looking::number(&self.running.as_ref()?.view(), unit, slot)
    }

    /// Returns the truth value in an ordinary slot of a unit, or `None` like `number`.
    pub fn truth(&self, unit: UnitId, slot: &str) -> Option<bool>
        ensures { result ≡ option_and_then truth_of (value_at self.now.running unit slot.now) }
    {
        looking::truth(&self.running.as_ref()?.view(), unit, slot)
    }

    /// Returns the first and last number of the interval in an ordinary slot of a unit, or `None` like `number`.
    pub fn interval(&self, unit: UnitId, slot: &str) -> Option<(i64, i64)>
        ensures { result ≡ option_and_then interval_of (value_at self.now.running unit slot.now) }
    {
        looking::interval(&self.running.as_ref()?.view(), unit, slot)
    }

    /// Copies the text in an ordinary slot of a unit into `to`, up to its capacity, and returns the number of bytes of
    /// the text, or `None` like `number`.
    pub fn text(&self, unit: UnitId, slot: &str, to: &mut [u8]) -> Option<usize>
        ensures count { result ≡ option_map length (option_and_then text_of (value_at self.now.running unit slot.now)) }
        ensures filled { to.new ≡ filled_if (option_and_then text_of (value_at self.now.running unit slot.now)) to.old }
    {
        let view = self.running.as_ref()?.view();
        Some(fill(looking::text(&view, unit, slot)?.as_bytes(), to))
    }

    /// Copies the name of the label in an ordinary slot of a unit, as `text` does, or returns `None` like `number`.
    pub fn label_name(&self, unit: UnitId, slot: &str, to: &mut [u8]) -> Option<usize>
        ensures count { result ≡ option_map length (label_name_at self.now.running unit slot.now) }
        ensures filled { to.new ≡ filled_if (label_name_at self.now.running unit slot.now) to.old }
    {
        let view = self.running.as_ref()?.view();
        Some(fill(looking::label_name(&view, unit, slot)?.as_bytes(), to))
    }

    /// Returns the kind of a slot of a unit. `None` if the unit or the slot does not exist, or once the run is
    /// finished.
    pub fn kind(&self, unit: UnitId, slot: &str) -> Option<SlotKind>
        ensures { result ≡ kind_at self.now.running unit slot.now }
    {
        looking::kind(&self.running.as_ref()?.view(), unit, slot)
    }

    /// Copies the partners of a unit by a slot into `to`, in order of addition, up to its capacity, and returns the
    /// number of partners. `None` if the unit or the slot does not exist, or once the run is finished. `Memory`: memory
    /// ran out.
    pub fn partners(
        &self,
        unit: UnitId,
        slot: &str,
        to: &mut [UnitId],
    ) -> Result<Option<usize>, Memory>
        ensures count { IfOk result (λ n. n ≡ option_map length (partners_at self.now.running unit slot.now)) }
        ensures filled { IfOk result (λ _. to.new ≡ filled_if (partners_at self.now.running unit slot.now) to.old) }
        ensures err { IfErr result (λ _. to.new ≡ to.old) }
    {
        match &self.running {
            None => Ok(None),
            Some(running) => looking::partners(&running.view(), unit, slot, to),
        }
    }

    /// Returns the number of the next new unit, or 0 once the run is finished.
    pub fn next_unit(&self) -> UnitId
        ensures { result ≡ next_in self.now.running }
    {
        match &self.running {
            None => 0,
            Some(running) => running.view().next(),
        }
    }

    /// Returns the number of cycles that were made, or 0 once the run is finished.
    pub fn made(&self) -> u64
        ensures { result ≡ made_in self.now.running }
    {
        match &self.running {
            None => 0,
            Some(running) => running.made(),
        }
    }

    /// Copies the numbers of the units of a class and of the classes below it into `to`, ascending, up to its capacity,
    /// and returns how many units there are. `None` if the class does not exist, or once the run is finished. `Memory`:
    /// memory ran out.
    pub fn units(&self, class: &str, to: &mut [UnitId]) -> Result<Option<usize>, Memory>
        ensures count { IfOk result (λ n. n ≡ option_map length (units_at self.now.running class.now)) }
        ensures filled { IfOk result (λ _. to.new ≡ filled_if (units_at self.now.running class.now) to.old) }
        ensures err { IfErr result (λ _. to.new ≡ to.old) }
    {
        match &self.running {
            None => Ok(None),
            Some(running) => looking::units(&running.view(), class, to),
        }
    }

    /// Copies the numbers of the units in a space into `to`, ascending, up to its capacity, and returns how many units
    /// there are. `None` if the space does not exist, or once the run is finished. `Memory`: memory ran out.
    pub fn members(&self, space: &str, to: &mut [UnitId]) -> Result<Option<usize>, Memory>
        ensures count { IfOk result (λ n. n ≡ option_map length (members_at self.now.running space.now)) }
        ensures filled { IfOk result (λ _. to.new ≡ filled_if (members_at self.now.running space.now) to.old) }
        ensures err { IfErr result (λ _. to.new ≡ to.old) }
    {
        match &self.running {
            None => Ok(None),
            Some(running) => looking::members(&running.view(), space, to),
        }
    }

    /// Copies the numbers of the pending activations into `to`, ascending, up to its capacity, and returns how many
    /// activations are pending. `None` once the run is finished. `Memory`: memory ran out.
    pub fn pending(&self, to: &mut [u64]) -> Result<Option<usize>, Memory>
        ensures count { IfOk result (λ n. n ≡ option_map length (pending_in self.now.running)) }
        ensures filled { IfOk result (λ _. to.new ≡ filled_if (pending_in self.now.running) to.old) }
        ensures err { IfErr result (λ _. to.new ≡ to.old) }
    {
        match &self.running {
            None => Ok(None),
            Some(running) => Ok(Some(agenda::pending(self.alloc, running.agenda(), to)?)),
        }
    }

    /// Returns the pending activation with a number and the number of bytes of its source's name, and copies the name
    /// into `to`, up to its capacity. `None` if the activation is not pending, or once the run is finished.
    pub fn waits(&self, number: u64, to: &mut [u8]) -> Option<(Waits, usize)>
        ensures waits { result ≡ option_map (λ w. (w.0, length w.1)) (waits_in self.now.running number) }
        ensures filled { to.new ≡ filled_if (option_map (λ w. w.1) (waits_in self.now.running number)) to.old }
    {
        let running = self.running.as_ref()?;
        let (waits, name) = agenda::waiting(running.plan(), running.agenda(), number)?;
        Some((waits, fill(name.as_bytes(), to)))
    }

    /// Returns the number of the activation that the next cycle executes, if one can be chosen. `None` also once the
    /// run is finished, or if a move was cut short.
    pub fn choice(&self) -> Option<u64>
        ensures { result ≡ choice_in self.now.running }
    {
        let running = self.running.as_ref()?;
        if running.was_cut() {
            return None;
        }
        Some(running.next()?.number)
    }

    /// Copies the blackboard's document of initial units into `to`, up to its capacity, and returns the number of bytes
    /// of the document. `None` once the run is finished. `Memory`: memory ran out.
    pub fn document(&self, to: &mut [u8]) -> Result<Option<usize>, Memory>
        ensures count { IfOk result (λ n. n ≡ option_map length (document_at self.now.running)) }
        ensures filled { IfOk result (λ _. to.new ≡ filled_if (document_at self.now.running) to.old) }
        ensures err { IfErr result (λ _. to.new ≡ to.old) }
    {
        match &self.running {
            None => Ok(None),
            Some(running) => Ok(Some(looking::document(self.alloc, &running.view(), to)?)),
        }
    }

    /// Returns the unit that a native is due for and the number of bytes of the native's name, and copies the name into
    /// `to`, up to its capacity. `None` if no native is due, or once the run is finished.
    pub fn due(&self, to: &mut [u8]) -> Option<(UnitId, usize)>
        ensures due { result ≡ option_map (λ d. (d.0, length d.1)) (due_in self.now.running) }
        ensures filled { to.new ≡ filled_if (option_map (λ d. d.1) (due_in self.now.running)) to.old }
    {
        let running = self.running.as_ref()?;
        let (unit, name) = looking::due(running.plan(), running.pause())?;
        Some((unit, fill(name.as_bytes(), to)))
    }

    /// Returns the maximum number of steps that an execution of any code of the sources can make if no sequence that it
    /// finds has more than `found` units; at most 2^64 - 1. `None` once the run is finished.
    pub fn most_steps(&self, found: u32) -> Option<u64>
        ensures { result ≡ most_steps_in self.now.running found }
    {
        let running = self.running.as_ref()?;
        Some(costs::most_steps(running.plan().sources(), found))
    }

    /// Returns whether one of the sources has a code that creates a unit. `None` once the run is finished.
    pub fn creates(&self) -> Option<bool>
        ensures { result ≡ creates_in self.now.running }
    {
        let running = self.running.as_ref()?;
        Some(costs::creates(running.plan().sources()))
    }
}
