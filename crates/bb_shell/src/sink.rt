//! An output that keeps nothing. A run that is made only for its blackboard writes to it.

use crate::Out;

/// An output that accepts everything, keeps nothing, and never fails.
#[derive(Drop)]
pub(crate) struct Sink;

impl Out for Sink {
    ghost use Rattle.std.specs.Prelude.{None, false};

    ghost taken = { λ _. None };

    ghost has_failed = { λ _. false };

    fn put(&mut self, bytes: &[u8]) -> usize {
        bytes.len()
    }

    fn failed(&self) -> bool {
        false
    }
}
