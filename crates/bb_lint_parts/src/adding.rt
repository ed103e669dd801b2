//! Adds the changes that notes and ops make possible.

use crate::possible::Possible;
use bb_basis::Memory;
use bb_board::{ChangeKind, Event, Note};
use bb_code::{Kind, LinkChange, Op, Place};
use bb_rules::Act;
use bb_schema::{ClassId, Schema, SlotId};
use bb_verify::Checked;

// Returns the class of the unit on the stack before an op, below `above` entries, as the verifier knows it.
fn class_of_unit(checked: &Checked, place: Place, above: usize) -> Option<ClassId> {
    let _op = checked.code().op(place as usize)?;
    let frame = checked.frame(place);
    let entries = frame.stack.entries();
    let index = entries.len().checked_sub(above.saturating_add(1))?;
    match entries.get(index) {
        Some(Kind::Ref(class)) => Some(*class),
        Some(Kind::Old(class)) => Some(*class),
        _ => None,
    }
}

impl Possible {
    /// Adds a note of the initial units.
    pub(crate) fn add_note(&mut self, note: &Note) -> Result<(), Memory> {
        match note {
            Note::Event(Event::Change { class, change, .. }) => {
                self.exact.add(change.kind(), *class)
            }
            _ => Ok(()),
        }
    }

    /// Adds what the act of a source can change. The other parts of a source change nothing.
    pub(crate) fn add_act(&mut self, schema: &Schema, act: &Act) -> Result<(), Memory> {
        let Act::Code(lowered) = act else {
            self.is_open = true;
            return Ok(());
        };
        let checked = lowered.checked();
        let count = checked.code().ops().len() as Place;
        for place in 0..count {
            self.add_op(schema, checked, place)?;
        }
        Ok(())
    }

    // Adds what an op can change.
    fn add_op(&mut self, schema: &Schema, checked: &Checked, place: Place) -> Result<(), Memory> {
        let Some(op) = checked.code().op(place as usize) else {
            return Ok(());
        };
        match op {
            Op::New(class) => self.exact.add(ChangeKind::Create, class),
            Op::Delete => self.add_below(ChangeKind::Delete, class_of_unit(checked, place, 0)),
            Op::Set(slot) => {
                self.add_below(ChangeKind::Update(slot), class_of_unit(checked, place, 1))
            }
            Op::Enter(space) => {
                self.add_below(ChangeKind::Enter(space), class_of_unit(checked, place, 0))
            }
            Op::Leave(space) => {
                self.add_below(ChangeKind::Leave(space), class_of_unit(checked, place, 0))
            }
            Op::Relink(change, slot) => self.add_relink(schema, change, slot),
            _ => Ok(()),
        }
    }

    // Adds a change of units of a class and below. If the class is unknown, anything is possible.
    fn add_below(&mut self, kind: ChangeKind, class: Option<ClassId>) -> Result<(), Memory> {
        match class {
            Some(class) => self.below.add(kind, class),
            None => {
                self.is_open = true;
                Ok(())
            }
        }
    }

    // Adds a link that is made or removed, at both ends. A link that is made replaces the link of a singular end.
    fn add_relink(
        &mut self,
        schema: &Schema,
        change: LinkChange,
        slot: SlotId,
    ) -> Result<(), Memory> {
        let Some(link) = schema.link(slot) else {
            self.is_open = true;
            return Ok(());
        };
        let other = link.inverse;
        let is_made = change == LinkChange::Link;
        if is_made {
            self.add_below(ChangeKind::Link(slot), owner_of(schema, slot))?;
            self.add_below(ChangeKind::Link(other), owner_of(schema, other))?;
        }
        if !is_made || is_singular(schema, slot) || is_singular(schema, other) {
            self.add_below(ChangeKind::Unlink(slot), owner_of(schema, slot))?;
            self.add_below(ChangeKind::Unlink(other), owner_of(schema, other))?;
        }
        Ok(())
    }
}

// Returns the class that declares a slot, if there is such a slot.
fn owner_of(schema: &Schema, slot: SlotId) -> Option<ClassId> {
    if (slot as usize) < schema.slot_count() {
        Some(schema.owner(slot))
    } else {
        None
    }
}

// Returns whether a link slot holds at most one unit.
fn is_singular(schema: &Schema, slot: SlotId) -> bool {
    match schema.link(slot) {
        Some(link) => !link.many,
        None => false,
    }
}
