//! The trait that a host implements for its natives. The roster calls it.

ghost use Rattle.std.specs.Prelude.{◌≡◌, true, false, IfOk, OnOk, OnErr};

use crate::ask::Ask;
use crate::view::View;
use bb_basis::Memory;
use bb_schema::UnitId;
use std::alloc::Global;

/// Code of a host that runs instead of a source's `do`. Its meaning is a definition: its name, the integers that it
/// holds, whether it is open, and the functions for its asks, the integers it holds next, and the number it says when
/// it is closed.
pub trait NativeSource: Drop {
    ghost use Rattle.bb_native.specs.Native.{Native, asks_of, closing_of, after_act};

    ghost meaning: { Self → Native };

    /// Returns the name of the source that the native runs for.
    fn name(&self) -> &str
        ensures { result.now ≡ (meaning self.now).name };

    /// Returns the native's asks for a unit and its view of the blackboard, in order. The native then holds its next
    /// list. On an error, nothing changes.
    fn act(&mut self, alloc: Global, unit: UnitId, view: &View<'_>) -> Result<Vec<Ask>, Memory>
        requires { (meaning self.old).is_open ≡ true }
        ensures asks { IfOk result (λ asks. asks.items ≡ asks_of (meaning self.old) unit view.now) }
        ensures ok { OnOk result (meaning self.new ≡ after_act (meaning self.old) unit view.now) }
        ensures err { OnErr result (meaning self.new ≡ meaning self.old) };

    /// Closes the native and returns the number that it says.
    fn close(&mut self) -> i64
        requires { (meaning self.old).is_open ≡ true }
        ensures closing { result ≡ closing_of (meaning self.old) }
        ensures closed { (meaning self.new).is_open ≡ false }
        ensures name { (meaning self.new).name ≡ (meaning self.old).name };
}

impl NativeSource for Box<dyn NativeSource> {
    ghost meaning = { λ b. (NativeSource-box b).meaning b.value };

    fn name(&self) -> &str {
        (**self).name()
    }

    fn act(&mut self, alloc: Global, unit: UnitId, view: &View<'_>) -> Result<Vec<Ask>, Memory> {
        (**self).act(alloc, unit, view)
    }

    fn close(&mut self) -> i64 {
        (**self).close()
    }
}
