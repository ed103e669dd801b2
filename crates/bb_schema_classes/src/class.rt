//! Classes and their inheritance. `Walked::of` makes them, and a schema keeps them in a table.

ghost use Rattle.std.specs.Prelude.{◌≡◌};
ghost use Rattle.bb_schema_classes.specs.Inheritance.{parent_of};

use crate::kind::SlotId;
use bb_basis::{Items, Named, Text};

/// The number of a class. 0 is `focus`; declared classes follow in document order.
pub type ClassId = u16;

/// A class of a schema.
#[derive(PartialEq, Drop)]
pub struct Class {
    pub name: Text,
    pub parent: Option<ClassId>,
    /// All slots of the class: inherited ones, then its own ordinary slots, then its own link slots.
    pub slots: Items<SlotId>,
}

impl Named for Class {
    ghost name_of = { λ k. k.name };

    fn name(&self) -> &str {
        self.name.as_str()
    }
}

/// Returns the parent of a class, `None` if it has none or if no class has the number.
pub fn parent(classes: &[Class], class: ClassId) -> Option<ClassId>
    ensures { result ≡ parent_of classes.now class }
{
    classes.get(class as usize)?.parent
}
