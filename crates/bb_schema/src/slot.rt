//! Slots and their contents in a new unit. A schema keeps them in a list.

ghost use Rattle.std.specs.Prelude.{◌≡◌};
ghost use Rattle.std.specs.List.{find};
ghost use Rattle.bb_schema.specs.Kinds.{kind_of};
ghost use Rattle.bb_schema.specs.Slots.{has_name, link_in, link_of};

use bb_basis::Text;
use bb_schema_classes::{ClassId, Kind, Link, SlotId, Value};

/// The content of a slot in a new unit: an ordinary slot holds its default, a link slot no unit.
#[derive(PartialEq, Drop)]
pub enum Content {
    Default(Value),
    Link(Link),
}

impl Content {
    /// Returns the kind of the slot: the kind of its default, or its link.
    pub fn kind(&self) -> Kind
        ensures { result ≡ kind_of self.now }
    {
        match self {
            Content::Default(value) => value.kind(),
            Content::Link(link) => Kind::Link(*link),
        }
    }

    /// Returns the link, if the slot is a link slot.
    pub fn link(&self) -> Option<Link>
        ensures { result ≡ link_in self.now }
    {
        match self {
            Content::Default(_) => None,
            Content::Link(link) => Some(*link),
        }
    }
}

/// A slot of a class.
#[derive(PartialEq, Drop)]
pub struct Slot {
    pub name: Text,
    /// The class that declares the slot.
    pub owner: ClassId,
    pub content: Content,
}

// Whether the slot with a number exists and has the name.
#[tactic(auto, unfolding(crate::specs::Slots::has_name))]
fn has_name(slots: &[Slot], slot: SlotId, name: &str) -> bool
    ensures { result ≡ has_name slots.now name.now slot }
{
    match slots.get(slot as usize) {
        None => false,
        Some(found) => name == found.name.as_str(),
    }
}

/// Returns the first of these slots that has the name, if there is one.
pub fn find_slot(slots: &[Slot], numbers: &[SlotId], name: &str) -> Option<SlotId>
    ensures { result ≡ find (has_name slots.now name.now) numbers.now }
{
    numbers
        .iter()
        .copied()
        .find(|number| has_name(slots, *number, name))
}

/// Returns the link of the slot with a number, if it exists and is a link slot.
pub fn link_at(slots: &[Slot], slot: SlotId) -> Option<Link>
    ensures { result ≡ link_of slots.now slot }
{
    slots.get(slot as usize)?.content.link()
}
