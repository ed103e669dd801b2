//! Queries. Codes contain them, and boards answer them.

ghost use Rattle.std.specs.Prelude.{◌≡◌};
ghost use Rattle.bb_pattern.specs.Fits.{query_fits};

use crate::fault::PatternFault;
use crate::pattern::Pattern;
use crate::value::OperandKind;
use bb_basis::Items;
use bb_schema::{Schema, SpaceId};
use bb_schema_classes::ClassId;

/// A query for the units of a class, or of one below it, that are in a space and satisfy a pattern (GBBopen Reference
/// Manual, find-instances).
pub struct Query {
    pub class: ClassId,
    pub space: SpaceId,
    /// The kind that each operand must have.
    pub kinds: Items<OperandKind>,
    pub pattern: Pattern,
}

// Written by hand, so that a proof meets one call where it is dropped, rather than each of its parts.
impl Drop for Query {
    fn drop(self) {
        let Query {
            class: _,
            space: _,
            kinds: _,
            pattern: _,
        } = self;
    }
}

impl Query {
    /// Checks that the query fits a schema. The error is the first fault, as in `Pattern::fits`.
    pub fn fits(&self, schema: &Schema) -> Result<(), PatternFault>
        ensures { result ≡ query_fits schema.now self.now }
    {
        self.pattern
            .fits(schema, self.class, self.space, self.kinds.as_slice())
    }
}
