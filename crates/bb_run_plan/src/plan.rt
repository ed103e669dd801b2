//! The plan of a run. The meaning of an input (bb_shell) has it, and every part of the run reads it.

ghost use Rattle.std.specs.Prelude.{◌≡◌, ◌≤◌, All, IfOk, length};
ghost use Rattle.bb_rules.specs.Law.{HasSoundCodes};
ghost use Rattle.bb_run_plan.specs.Concerned.{concerned};

use crate::concerned::Concerned;
use bb_basis::{Items, Memory};
use bb_board::Event;
use bb_rules::Source;
use bb_schema::{Schema, SharedSchema};
use std::alloc::{AllocError, Global};
use std::marker::Model;

/// The maximum number of sources.
pub const SOURCE_LIMIT: usize = 256;

/// The plan of a run: the schema, the sources in order, at most 256, and the minimum rating that can be chosen. Every
/// code of a source was accepted under some schema, and the codes that a source asks may not write.
pub struct Plan {
    schema: SharedSchema,
    sources: Items<Source>,
    floor: i64,
    concerned: Concerned,
}

// By hand: proofs then meet one call per drop, not one per part.
impl Drop for Plan {
    fn drop(self) {
        let Plan {
            schema: _,
            sources: _,
            floor: _,
            concerned: _,
        } = self;
    }
}

impl Model for Plan {
    ghost use Rattle.std.specs.Prelude.{◌≤◌, All, length};
    ghost use Rattle.bb_rules.specs.Law.{HasSoundCodes};
    ghost use Rattle.bb_run_plan.specs.declared.plan.TheConstants.{SOURCE_LIMIT};
    ghost use Rattle.bb_run_plan.specs.Plan.{Plan as Planned};
    ghost use Rattle.bb_run_plan.specs.proving.Codes.{plan_code};
    ghost use Rattle.bb_run_plan.specs.proving.Concerned.{AreConcerned};

    ghost Value = { Planned };

    ghost coded = { plan_code };

    ghost view = { λ p. record { schema = p.schema; sources = p.sources; floor = p.floor } };

    ghost invariant = { λ p. (length p.sources ≤ SOURCE_LIMIT) × All HasSoundCodes p.sources
        × AreConcerned p.sources p.concerned };
}

impl Plan {
    /// Creates a plan of these sources in order, at most 256. The error: out of memory.
    pub fn new(
        alloc: Global,
        schema: SharedSchema,
        sources: Vec<Source>,
        floor: i64,
    ) -> Result<Plan, AllocError>
        requires { length sources.items ≤ SOURCE_LIMIT }
        ensures { IfOk result (λ plan.
            plan ≡ record { schema = schema; sources = sources.items; floor = floor }) }
    {
        all_fit(sources.as_slice());
        let concerned = Concerned::of(alloc, sources.as_slice())?;
        Ok(Plan {
            schema,
            sources: Items::from(sources),
            floor,
            concerned,
        })
    }

    /// Returns the schema.
    pub fn schema(&self) -> &Schema
        ensures { result.now ≡ self.now.schema }
    {
        self.schema.get()
    }

    /// Returns the schema, for another owner.
    pub fn shared_schema(&self) -> Result<SharedSchema, Memory>
        ensures { IfOk result (λ shared. shared ≡ self.now.schema) }
    {
        self.schema.share()
    }

    /// Returns the sources in order, at most 256, and states their invariants.
    pub fn sources(&self) -> &[Source]
        ensures sources { result.now ≡ self.now.sources }
        ensures few { length result.now ≤ SOURCE_LIMIT }
        ensures sound { All HasSoundCodes self.now.sources }
    {
        self.sources.as_slice()
    }

    /// Returns the indices of the sources that have a clause of the kind of an event, in order. The look-up time does
    /// not depend on the number of sources.
    pub fn concerned(&self, event: Event) -> &[u16]
        ensures { result.now ≡ concerned event self.now.sources }
    {
        self.concerned.by(event)
    }

    /// Returns the minimum rating that can be chosen.
    pub fn floor(&self) -> i64
        ensures { result ≡ self.now.floor }
    {
        self.floor
    }
}

// Every source keeps its invariant, so all do.
fn all_fit(sources: &[Source])
    ensures { All HasSoundCodes sources.now }
{
    for source in sources {
        // For the proof: the invariant of the source.
        source.fits();
    }
}
