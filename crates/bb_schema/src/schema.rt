//! The schema and its queries. The crates above look up names, slots and classes here.

ghost use Rattle.std.specs.Prelude.{◌≡◌, ◌<◌, ◌≤◌, ◌↔◌, Some, IsSome, is_some, IsTrue, length, min, slice_get, option_map, ◌⊎◌};
ghost use Rattle.std.specs.List.{list_any};
ghost use Rattle.bb_schema.specs.Schema.{class_named, space_named, label_set_named, label_named, slot_named, name_of_class, name_of_slot, name_of_space, name_of_label_set, name_of_label, slots_of, owner_of, kind_of_slot, default_of, inverse_of, dims_of, descends};
ghost use Rattle.bb_schema.specs.Slots.{link_of};
ghost use Rattle.bb_schema_classes.specs.Inheritance.{parent_of, Descends};
ghost use Rattle.bb_schema.specs.Couples.{couples, couple_of};
ghost use Rattle.bb_schema.specs.Fits.{Fits};
ghost use Rattle.bb_schema_classes.specs.Values.{label_counts};
ghost use Rattle.bb_schema_classes.specs.declared.read.labels.TheConstants.{LABEL_SET_LIMIT};
ghost use Rattle.bb_schema_classes.specs.declared.read.classes.TheConstants.{CLASS_LIMIT};
ghost use Rattle.bb_schema_classes.specs.declared.draft.TheConstants.{SLOT_LIMIT};
ghost use Rattle.bb_schema.specs.declared.read.spaces.TheConstants.{SPACE_LIMIT};
ghost use Rattle.bb_schema.specs.Spaces.{classes_in, allowed, IsAllowed};

use crate::couple::{CoupleId, Side, couple_end};
use crate::lineage::Lineage;
use crate::readings::Readings;
use crate::slot::{Content, Slot, find_slot, link_at};
use crate::space::{Dim, Space, SpaceId};
use bb_basis::{Items, NAME_LIMIT, Table};
use bb_schema_classes::{
    Class, ClassId, Kind, LabelId, LabelSet, LabelSetId, Link, SlotId, Span, Value, parent,
};
use std::marker::Model;

/// The classes of units, their slots, the label sets of the slots, and the spaces (GBBopen Reference Manual, unit
/// classes and space instances).
pub struct Schema {
    pub(crate) label_sets: Table<LabelSet>,
    pub(crate) classes: Table<Class>,
    pub(crate) slots: Vec<Slot>,
    pub(crate) spaces: Table<Space>,
    /// For each slot, the number of couples before it.
    pub(crate) couples_before: Vec<CoupleId>,
    pub(crate) couple_count: usize,
    /// For each class, its span, which shows the classes that descend from it.
    pub(crate) spans: Vec<Span>,
    /// For each class, a row with the classes of units that a delete of its units may delete. `None` if no slot owns.
    pub(crate) struck: Option<Items<Items<bool>>>,
    /// What the dimensions of the spaces read.
    pub(crate) readings: Readings,
}

impl Model for Schema {
    ghost use Rattle.bb_schema.specs.Schema.{Schema as Parts};

    ghost Value = { Parts };

    ghost use Rattle.bb_schema.specs.proving.WellFormed.{IsWellFormed};

    ghost view = { λ s. record {
      label_sets = s.label_sets;
      classes = s.classes;
      slots = s.slots.items;
      spaces = s.spaces;
    } };

    ghost invariant = { λ s. IsWellFormed (record {
      label_sets = s.label_sets;
      classes = s.classes;
      slots = s.slots.items;
      spaces = s.spaces;
    }) s.couples_before.items s.couple_count s.spans.items s.struck s.readings };
}

// By hand, so that proofs see a drop as one call, not one per part.
impl Drop for Schema {
    fn drop(self) {
        let Schema {
            label_sets: _,
            classes: _,
            slots: _,
            spaces: _,
            couples_before: _,
            couple_count: _,
            spans: _,
            struck: _,
            readings: _,
        } = self;
    }
}

impl Schema {
    /// Returns the number of the class with a name.
    pub fn class(&self, name: &str) -> Option<ClassId>
        ensures { result ≡ class_named self.now name.now }
    {
        let classes = &self.classes;
        // A text too long for a name is not hashed.
        if name.len() > NAME_LIMIT {
            return None;
        }
        classes.index_of(name)
    }

    /// Returns the number of the space with a name.
    pub fn space(&self, name: &str) -> Option<SpaceId>
        ensures { result ≡ space_named self.now name.now }
    {
        self.spaces.index_of(name)
    }

    /// Returns the number of the label set with a name.
    pub fn label_set(&self, name: &str) -> Option<LabelSetId>
        ensures { result ≡ label_set_named self.now name.now }
    {
        self.label_sets.index_of(name)
    }

    /// Returns the number of a label in a set, or `None` if the set doesn't exist or has no such label.
    pub fn label(&self, set: LabelSetId, name: &str) -> Option<LabelId>
        ensures { result ≡ label_named self.now set name.now }
    {
        self.label_sets.get(set as usize)?.values.index_of(name)
    }

    /// Returns the number of the slot with a name in a class, inherited ones included, or `None` if the class doesn't
    /// exist or has no such slot.
    pub fn slot(&self, class: ClassId, name: &str) -> Option<SlotId>
        ensures { result ≡ slot_named self.now class name.now }
    {
        let found = self.classes.get(class as usize)?;
        find_slot(&self.slots, found.slots.as_slice(), name)
    }

    /// Returns the name of a class, or `None` if no class has the number.
    pub fn class_name(&self, class: ClassId) -> Option<&str>
        ensures { option_map (λ n. n.now) result ≡ name_of_class self.now class }
    {
        Some(self.classes.get(class as usize)?.name.as_str())
    }

    /// Returns the name of a slot, or `None` if no slot has the number.
    pub fn slot_name(&self, slot: SlotId) -> Option<&str>
        ensures { option_map (λ n. n.now) result ≡ name_of_slot self.now slot }
    {
        Some(self.slots.get(slot as usize)?.name.as_str())
    }

    /// Returns the name of a space, or `None` if no space has the number.
    pub fn space_name(&self, space: SpaceId) -> Option<&str>
        ensures { option_map (λ n. n.now) result ≡ name_of_space self.now space }
    {
        Some(self.spaces.get(space as usize)?.name.as_str())
    }

    /// Returns the name of a label set, or `None` if no set has the number.
    pub fn label_set_name(&self, set: LabelSetId) -> Option<&str>
        ensures { option_map (λ n. n.now) result ≡ name_of_label_set self.now set }
    {
        Some(self.label_sets.get(set as usize)?.name.as_str())
    }

    /// Returns the name of a label of a set, or `None` if the set or the label does not exist.
    pub fn label_name(&self, set: LabelSetId, label: LabelId) -> Option<&str>
        ensures { option_map (λ n. n.now) result ≡ name_of_label self.now set label }
    {
        self.label_sets.get(set as usize)?.values.get(label)
    }

    /// Returns the number of label sets.
    pub fn label_set_count(&self) -> usize
        ensures count { result ≡ length self.now.label_sets }
        ensures few { result ≤ LABEL_SET_LIMIT }
    {
        self.label_sets.len()
    }

    /// Returns the number of labels of a set.
    pub fn label_count(&self, set: LabelSetId) -> usize
        requires { set < length self.now.label_sets }
        ensures { slice_get (label_counts self.now.label_sets) set ≡ Some result }
    {
        self.label_sets.as_slice()[set as usize].values.len()
    }

    /// Returns the number of classes, `focus` included.
    pub fn class_count(&self) -> usize
        ensures count { result ≡ length self.now.classes }
        ensures few { result ≤ CLASS_LIMIT }
    {
        self.classes.len()
    }

    /// Returns the number of slots that all classes declare.
    pub fn slot_count(&self) -> usize
        ensures count { result ≡ length self.now.slots }
        ensures few { result ≤ SLOT_LIMIT }
    {
        self.slots.len()
    }

    /// Returns the number of spaces.
    pub fn space_count(&self) -> usize
        ensures count { result ≡ length self.now.spaces }
        ensures few { result ≤ SPACE_LIMIT }
    {
        self.spaces.len()
    }

    /// Returns the number of couples of link slots.
    pub fn couple_count(&self) -> usize
        ensures count { result ≡ length (couples self.now) }
        ensures few { result ≤ SLOT_LIMIT }
    {
        self.couple_count
    }

    /// Returns the parent of a class, `None` if it has none. `focus` has none.
    pub fn parent(&self, class: ClassId) -> Option<ClassId>
        requires { class < length self.now.classes }
        ensures { result ≡ parent_of self.now.classes class }
    {
        parent(self.classes.as_slice(), class)
    }

    /// Returns the classes with their spans.
    pub(crate) fn lineage(&self) -> Lineage<'_>
        ensures { result ≡ self.now.classes }
    {
        Lineage::new(self.classes.as_slice(), self.spans.as_slice())
    }

    /// Returns whether a class descends from another: it is that class, or its parent descends from that class. A
    /// number without a class descends only from itself.
    pub fn descends(&self, class: ClassId, ancestor: ClassId) -> bool
        ensures computed { result ≡ descends self.now class ancestor }
        ensures least { IsTrue result ↔ Descends self.now.classes class ancestor }
    {
        self.lineage().descends(class, ancestor)
    }

    /// Returns whether a class descends from any of some others. Makes at most two comparisons of numbers for each of
    /// them, at any depth.
    pub fn descends_from_any(&self, class: ClassId, ancestors: &[ClassId]) -> bool
        ensures { result ≡ list_any (λ d. descends self.now class d) ancestors.now }
    {
        ancestors.iter().any(|above| self.descends(class, *above))
    }

    /// Returns whether two classes are related: one descends from the other.
    pub fn related(&self, class: ClassId, other: ClassId) -> bool
        ensures { IsTrue result ↔ (Descends self.now.classes class other ⊎ Descends self.now.classes other class) }
    {
        self.descends(class, other) || self.descends(other, class)
    }

    /// Returns the kind of a slot, or `None` if no slot has the number.
    pub(crate) fn kind_at(&self, slot: SlotId) -> Option<Kind>
        ensures { result ≡ kind_of_slot self.now slot }
    {
        Some(self.slots.get(slot as usize)?.content.kind())
    }

    /// Returns the kind of a slot: what it can hold.
    pub fn kind(&self, slot: SlotId) -> Kind
        requires { slot < length self.now.slots }
        ensures { kind_of_slot self.now slot ≡ Some result }
    {
        self.slots[slot as usize].content.kind()
    }

    /// Returns whether the slot with a number exists and is an ordinary slot.
    pub fn is_ordinary(&self, slot: SlotId) -> bool
        ensures { result ≡ is_some (default_of self.now slot) }
    {
        match self.slots.get(slot as usize) {
            None => false,
            Some(found) => matches!(&found.content, Content::Default(_)),
        }
    }

    /// Returns whether the slot with a number exists and is a link slot.
    pub fn is_link(&self, slot: SlotId) -> bool
        ensures { result ≡ is_some (link_of self.now.slots slot) }
    {
        self.link(slot).is_some()
    }

    /// Returns the link of the slot with a number, if it exists and is a link slot.
    pub fn link(&self, slot: SlotId) -> Option<Link>
        ensures { result ≡ link_of self.now.slots slot }
    {
        link_at(&self.slots, slot)
    }

    /// Returns the inverse of a link slot, or the number itself if it is not the number of a link slot.
    pub fn inverse(&self, slot: SlotId) -> SlotId
        ensures { result ≡ inverse_of self.now.slots slot }
    {
        match self.link(slot) {
            None => slot,
            Some(link) => link.inverse,
        }
    }

    /// Returns the class that declares a slot.
    pub fn owner(&self, slot: SlotId) -> ClassId
        requires { slot < length self.now.slots }
        ensures { owner_of self.now slot ≡ Some result }
    {
        self.slots[slot as usize].owner
    }

    /// Returns the default of an ordinary slot, which it has in a new unit.
    pub fn default(&self, slot: SlotId) -> &Value
        requires { IsSome (default_of self.now slot) }
        ensures { default_of self.now slot ≡ Some result.now }
    {
        match &self.slots[slot as usize].content {
            Content::Default(value) => value,
            Content::Link(_) => unreachable!(),
        }
    }

    /// Returns all slots of a class: inherited ones, then its own ordinary slots, then its own link slots.
    pub fn slots(&self, class: ClassId) -> &[SlotId]
        requires { class < length self.now.classes }
        ensures { result.now ≡ slots_of self.now class }
    {
        self.classes.as_slice()[class as usize].slots.as_slice()
    }

    /// Returns the couple of a link slot, and the slot's side.
    pub fn couple(&self, slot: SlotId) -> (CoupleId, Side)
        requires { IsSome (link_of self.now.slots slot) }
        ensures computed { couple_of self.now slot ≡ Some result }
        // The couple's number is the index of its first slot in the list of couples.
        ensures listed { slice_get (couples self.now) result.0 ≡
            option_map (λ l. min slot l.inverse) (link_of self.now.slots slot) }
    {
        match link_at(&self.slots, slot) {
            None => unreachable!(),
            Some(link) => couple_end(&self.slots, &self.couples_before, slot, link),
        }
    }

    /// Returns the dimensions of a space, in document order.
    pub fn dims(&self, space: SpaceId) -> &[Dim]
        requires { space < length self.now.spaces }
        ensures { result.now ≡ dims_of self.now space }
    {
        self.spaces.as_slice()[space as usize].dims.as_slice()
    }

    /// Returns the classes that a space lists. It admits units of these and of all classes below them.
    pub fn classes_in(&self, space: SpaceId) -> &[ClassId]
        requires { space < length self.now.spaces }
        ensures { result.now ≡ classes_in self.now space }
    {
        self.spaces.as_slice()[space as usize].classes.as_slice()
    }

    /// Returns whether a space admits units of a class: the class descends from a class that the space lists. A number
    /// without a space admits none.
    pub fn allowed(&self, space: SpaceId, class: ClassId) -> bool
        ensures computed { result ≡ allowed self.now space class }
        ensures listed { IsTrue result ↔ IsAllowed self.now space class }
    {
        match self.spaces.get(space as usize) {
            None => false,
            Some(found) => self.descends_from_any(class, found.classes.as_slice()),
        }
    }

    /// Does nothing, but shows proofs what holds of every schema. Class 0 is `focus`. Label sets, labels, classes,
    /// slots, spaces and dimensions have names, are within their limits, and refer to numbers in range. Parents are
    /// earlier. A class has a slot exactly if it descends from the class that declares the slot, and no two slots of a
    /// class have the same name. A slot can hold its default. Inverses lead back. The classes of a space have the slots
    /// that its dimensions read.
    pub fn fits(&self)
        ensures { Fits self.now }
    {
        let _ = &self.slots;
    }

    /// Returns whether two schemas are equal.
    pub fn same(&self, other: &Schema) -> bool
        ensures { IsTrue result ↔ (self.now ≡ other.now) }
    {
        if self.label_sets != other.label_sets {
            return false;
        }
        if self.classes != other.classes {
            return false;
        }
        if self.slots != other.slots {
            return false;
        }
        self.spaces == other.spaces
    }
}
