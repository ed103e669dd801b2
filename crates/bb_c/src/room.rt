//! A buffer of a given size as an output. `bb_serve` has its answer written there.

ghost use Rattle.std.specs.Prelude.{◌≡◌, ◌≤◌, ◌-◌, [], false, length, drop, take, IfOk};

use bb_main::{Memory, Out};
use std::alloc::Global;

/// An output that accepts `limit` bytes, and then fails.
#[derive(Drop)]
pub(crate) struct Room {
    bytes: Vec<u8>,
    limit: usize,
    failed: bool,
}

impl Room {
    /// Makes an output for `limit` bytes.
    pub(crate) fn new(alloc: Global, limit: usize) -> Result<Room, Memory>
        ensures empty { IfOk result (λ r. r.bytes.items ≡ []) }
        ensures limit { IfOk result (λ r. r.limit ≡ limit) }
        ensures open { IfOk result (λ r. r.failed ≡ false) }
    {
        Ok(Room {
            bytes: Vec::with_capacity(alloc, limit)?,
            limit,
            failed: false,
        })
    }

    /// Returns the bytes that were taken.
    pub(crate) fn bytes(&self) -> &[u8]
        ensures { result.now ≡ self.now.bytes.items }
    {
        self.bytes.as_slice()
    }
}

impl Out for Room {
    ghost use Rattle.std.specs.Prelude.{Some};

    ghost taken = { λ r. Some r.bytes.items };

    ghost has_failed = { λ r. r.failed };

    fn put(&mut self, bytes: &[u8]) -> usize {
        let free = self.limit.saturating_sub(self.bytes.len());
        let count = bytes.len().min(free);
        match self.bytes.extend_from_slice(&bytes[..count]) {
            Ok(()) if count > 0 => count,
            _ => {
                self.failed = true;
                0
            }
        }
    }

    fn failed(&self) -> bool {
        self.failed
    }
}
