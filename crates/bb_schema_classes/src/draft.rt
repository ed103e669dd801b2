//! The parts of a schema that is being read: the classes so far, and slots whose links still have names. The readers of
//! entries, `read/classes.rt` and its callees, add to them.

ghost use Rattle.std.specs.Prelude.{◌≡◌, ◌<◌, length, OnOk};
ghost use Rattle.std.specs.List.{list_any};
ghost use Rattle.bb_schema_classes.specs.declared.draft.TheConstants.{SLOT_LIMIT};
ghost use Rattle.bb_schema_classes.specs.Drafts.{draft_has_name};

use crate::class::{Class, ClassId};
use crate::kind::SlotId;
use crate::value::Value;
use bb_basis::{Items, Table, Text};
use std::alloc::AllocError;

/// The maximum number of slots of a class, inherited ones included.
pub(crate) const CLASS_SLOT_LIMIT: usize = 64;

/// The maximum number of slots of all classes together.
pub const SLOT_LIMIT: usize = 65_536;

/// A slot of a schema that is being read.
pub struct Draft {
    pub name: Text,
    pub owner: ClassId,
    pub content: DraftContent,
}

// By hand, so that proofs see a drop as one call, not one per part.
impl Drop for Draft {
    fn drop(self) {
        let Draft {
            name: _,
            owner: _,
            content: _,
        } = self;
    }
}

/// The content of a slot. A link still has names, because its class may be declared later.
pub enum DraftContent {
    Default(Value),
    Link(LinkDraft),
}

// By hand, so that proofs see a drop as one call, not one case per variant.
impl Drop for DraftContent {
    fn drop(self) {
        match self {
            DraftContent::Default(_) => {}
            DraftContent::Link(_) => {}
        }
    }
}

/// A link with the names of its target class and of its inverse slot.
pub struct LinkDraft {
    pub to: Text,
    pub many: bool,
    pub inverse: Text,
    pub owns: bool,
}

// By hand, so that proofs see a drop as one call, not one per part.
impl Drop for LinkDraft {
    fn drop(self) {
        let LinkDraft {
            to: _,
            many: _,
            inverse: _,
            owns: _,
        } = self;
    }
}

/// The classes read so far, and all their slots.
#[derive(Drop)]
pub struct SchemaDraft {
    pub classes: Table<Class>,
    pub slots: Items<Draft>,
}

/// A class that is being read: all slots so far, and the numbers of the class's slots, inherited ones first.
#[derive(Drop)]
pub struct ClassDraft {
    pub slots: Items<Draft>,
    pub class_slots: Items<SlotId>,
}

/// The class whose slots are being read.
#[derive(Drop)]
pub struct Owner {
    pub name: Text,
    pub number: ClassId,
}

/// Returns whether the slot with a number exists and has the name.
#[tactic(auto, unfolding(crate::specs::Drafts::draft_has_name))]
pub(crate) fn draft_has_name(slots: &[Draft], slot: SlotId, name: &str) -> bool
    ensures { result ≡ draft_has_name slots.now name.now slot }
{
    match slots.get(slot as usize) {
        None => false,
        Some(found) => name == found.name.as_str(),
    }
}

// Whether any of these slots has the name.
fn is_any_named(slots: &[Draft], numbers: &[SlotId], name: &str) -> bool
    ensures { result ≡ list_any (draft_has_name slots.now name.now) numbers.now }
{
    numbers
        .iter()
        .any(|number| draft_has_name(slots, *number, name))
}

impl ClassDraft {
    ghost use Rattle.bb_schema_classes.specs.Drafts.{has_slot_named, is_full, with_slot};

    /// Returns whether the class has a slot with the name, inherited ones included.
    pub(crate) fn has_slot_named(&self, name: &str) -> bool
        ensures { result ≡ has_slot_named self.now name.now }
    {
        is_any_named(self.slots.as_slice(), self.class_slots.as_slice(), name)
    }

    /// Returns whether the class can't have another slot, by its own limit or by the limit of all classes.
    pub(crate) fn is_full(&self) -> bool
        ensures { result ≡ is_full self.now }
    {
        self.class_slots.len() >= CLASS_SLOT_LIMIT || self.slots.len() >= SLOT_LIMIT
    }

    /// Appends a slot to the class. The slot gets the next number.
    pub(crate) fn push(&mut self, draft: Draft) -> Result<(), AllocError>
        requires { length self.old.slots < SLOT_LIMIT }
        ensures { OnOk result (self.new ≡ with_slot self.old draft) }
    {
        self.class_slots.push(self.slots.len() as SlotId)?;
        self.slots.push(draft)?;
        Ok(())
    }
}
