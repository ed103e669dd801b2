//! The bytes of a caller as an input. `bb_serve` reads them.

use bb_main::In;

/// Bytes that are read from the start, in pieces of any length.
#[derive(Drop)]
pub(crate) struct Input<'a> {
    left: &'a [u8],
}

impl<'a> Input<'a> {
    ghost use Rattle.std.specs.Prelude.{◌≡◌};

    pub(crate) fn new(bytes: &'a [u8]) -> Input<'a>
        ensures { result.left.now ≡ bytes.now }
    {
        Input { left: bytes }
    }
}

impl<'a> In for Input<'a> {
    ghost use Rattle.std.specs.Prelude.{Some, false};

    ghost remaining = { λ i. Some i.left.now };

    ghost has_failed = { λ i. false };

    fn read(&mut self, buffer: &mut [u8]) -> Option<usize> {
        let count = buffer.len().min(self.left.len());
        let (front, rest) = self.left.split_at(count);
        buffer[..count].copy_from_slice(front);
        self.left = rest;
        Some(count)
    }

    fn failed(&self) -> bool {
        false
    }
}
