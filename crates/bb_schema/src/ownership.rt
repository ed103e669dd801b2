//! Ownership in a schema: which slots own, and which classes of units a delete may delete.

ghost use Rattle.std.specs.Prelude.{◌≡◌};
ghost use Rattle.bb_schema.specs.Ownership.{owns, owns_any, strikes};

use crate::schema::Schema;
use crate::struck::struck_at;
use bb_schema_classes::{ClassId, SlotId};

impl Schema {
    /// Returns whether the slot with a number exists and is a link slot that owns. A unit owns the units in such a
    /// slot, and they are deleted with it.
    pub fn owns(&self, slot: SlotId) -> bool
        ensures { result ≡ owns self.now slot }
    {
        match self.link(slot) {
            None => false,
            Some(link) => link.owns,
        }
    }

    /// Returns whether any slot owns.
    pub fn owns_any(&self) -> bool
        ensures { result ≡ owns_any self.now }
    {
        self.struck.is_some()
    }

    /// Returns whether a delete of a unit of class `deleted` may delete a unit of class `class`: `class` is related to
    /// a class of the smallest set that has `deleted` and the target class of every owning slot that is declared by a
    /// class related to a class of the set.
    pub fn strikes(&self, deleted: ClassId, class: ClassId) -> bool
        ensures { result ≡ strikes self.now deleted class }
    {
        match struck_at(&self.struck, deleted, class) {
            None => self.lineage().related(deleted, class),
            Some(struck) => struck,
        }
    }
}
