//! The type of natives of a run without natives.

use bb_basis::Memory;
use bb_schema::UnitId;
use bb_shell::{Ask, NativeSource, View};
use std::alloc::Global;

/// A native that asks for nothing. No held run has one.
#[derive(Drop)]
pub struct NoNative {
    is_open: bool,
}

impl NativeSource for NoNative {
    ghost use Rattle.bb_c_run.specs.Sitting.{nothing};

    ghost meaning = { λ native. nothing native.is_open };

    fn name(&self) -> &str {
        ""
    }

    fn act(&mut self, alloc: Global, _unit: UnitId, _view: &View<'_>) -> Result<Vec<Ask>, Memory> {
        Ok(Vec::new(alloc))
    }

    fn close(&mut self) -> i64 {
        self.is_open = false;
        0
    }
}

/// Returns an empty list of natives.
pub(crate) fn no_natives(alloc: Global) -> Vec<NoNative>
    ensures { map ⟦<NoNative as NativeSource>⟧.meaning result.items ≡ [] }
{
    Vec::new(alloc)
}

ghost use Rattle.std.specs.Prelude.{◌≡◌, [], map};
