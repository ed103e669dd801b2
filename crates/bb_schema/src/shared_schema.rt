//! A schema that several parts of a program use. The board keeps one, and the shell above it uses the same.

ghost use Rattle.std.specs.Prelude.{◌≡◌, IfOk};

use crate::schema::Schema;
use bb_basis::Memory;
use std::alloc::Global;
use std::marker::Model;
use std::rc::Rc;

/// A schema with several owners. Contracts see the schema.
pub struct SharedSchema {
    schema: Rc<Schema>,
}

// By hand, so that proofs see a drop as one call, not one per part of a schema.
impl Drop for SharedSchema {
    fn drop(self) {
        let SharedSchema { schema: _ } = self;
    }
}

impl Model for SharedSchema {
    ghost use Rattle.bb_schema.specs.Schema.{Schema as Parts};

    ghost Value = { Parts };

    ghost view = { λ s. s.schema.value };
}

impl SharedSchema {
    /// Makes a schema that can be shared.
    pub fn new(alloc: Global, schema: Schema) -> Result<SharedSchema, Memory>
        ensures { IfOk result (λ shared. shared ≡ schema) }
    {
        Ok(SharedSchema {
            schema: Rc::new(alloc, schema)?,
        })
    }

    /// Returns the schema for another owner.
    pub fn share(&self) -> Result<SharedSchema, Memory>
        ensures { IfOk result (λ shared. shared ≡ self.now) }
    {
        Ok(SharedSchema {
            schema: self.schema.clone()?,
        })
    }

    /// Returns the schema.
    pub fn get(&self) -> &Schema
        ensures { result.now ≡ self.now }
    {
        self.schema.as_ref()
    }
}
