//! The slots of the units of a class, each with its default. `layout.rt` makes a block for each class, and `values.rt`
//! keeps it next to the values of a unit.

ghost use Rattle.std.specs.Prelude.{◌≡◌, IfOk};

use bb_basis::Memory;
use bb_schema_classes::{SlotId, Value};
use std::alloc::Global;
use std::marker::Model;
use std::rc::Rc;

/// The ordinary slots of a class, each with its default. All units of the class share it. Contracts see the list.
pub(crate) struct Block {
    entries: Rc<Vec<(SlotId, Value)>>,
}

// Written by hand, so that a proof meets one call where it is dropped, rather than the list and every kind of value.
impl Drop for Block {
    fn drop(self) {
        let Block { entries: _ } = self;
    }
}

impl Model for Block {
    ghost use Rattle.std.specs.Prelude.{List, ℕ};
    ghost use Rattle.bb_schema_classes.specs.declared.value.Value.{Value as SlotValue};

    ghost Value = { List (ℕ × SlotValue) };

    ghost view = { λ b. b.entries.value.items };
}

impl Block {
    /// Makes a block that can be shared.
    pub(crate) fn new(alloc: Global, entries: Vec<(SlotId, Value)>) -> Result<Block, Memory>
        ensures { IfOk result (λ block. block ≡ entries.items) }
    {
        Ok(Block {
            entries: Rc::new(alloc, entries)?,
        })
    }

    /// Returns the block for another owner, without copying it.
    pub(crate) fn share(&self) -> Result<Block, Memory>
        ensures { IfOk result (λ shared. shared ≡ self.now) }
    {
        Ok(Block {
            entries: self.entries.clone()?,
        })
    }

    /// Returns the slots with their defaults, in class order.
    pub(crate) fn entries(&self) -> &[(SlotId, Value)]
        ensures { result.now ≡ self.now }
    {
        self.entries.as_ref().as_slice()
    }
}
