//! Where an input is read from: `In`, and `Intake`, which makes one of a reader of std. Callers of `serve` and
//! `program` build it.

ghost use Rattle.std.specs.Prelude.{◌≡◌, ◌<◌, ◌≤◌, ℕ, List, Option, Bool, false, length, take};
ghost use Rattle.std.specs.Prelude.{IfNone, IfSome, is_none};
ghost use Rattle.std.specs.Io.KnownBytes.{Consumes, IsAtEnd, Keeps};

use std::io::{ErrorKind, Read};

// The maximum number of tries of a read that is interrupted.
const TRY_LIMIT: usize = 64;

/// A source of bytes: it yields bytes until it ends or fails.
pub trait In {
    /// The bytes left to read, if they are known.
    ghost remaining: { Self → Option (List ℕ) };

    /// Whether the reader has failed.
    ghost has_failed: { Self → Bool };

    /// Reads bytes into the start of the buffer and returns their number, which is 0 only at the end. If it fails, it
    /// removes no bytes and returns `None`.
    fn read(&mut self, buffer: &mut [u8]) -> Option<usize>
        requires room { 0 < length buffer.old }
        requires open { has_failed self.old ≡ false }
        ensures count { IfSome result (λ n. n ≤ length buffer.new) }
        ensures bytes { IfSome result (λ n. Consumes (remaining self.old) (remaining self.new) (take n buffer.new)) }
        ensures end { IfSome result (λ n. n ≡ 0 → IsAtEnd (remaining self.new)) }
        ensures none { IfNone result (Keeps (remaining self.old) (remaining self.new)) }
        ensures failed { has_failed self.new ≡ is_none result };

    /// Returns whether the reader has failed.
    fn failed(&self) -> bool
        ensures { result ≡ has_failed self.now };
}

/// A reader as an `In`. An interrupted read is tried again, at most 64 times in all; any other error, and that many
/// interrupted tries, make it fail.
#[derive(Drop)]
pub struct Intake<R: Read> {
    reader: R,
    failed: bool,
}

impl<R: Read> Intake<R> {
    /// Reads from this reader.
    pub fn new(reader: R) -> Intake<R>
        ensures reader { result.reader ≡ reader }
        ensures open { result.failed ≡ false }
    {
        Intake {
            reader,
            failed: false,
        }
    }

    /// Returns the reader.
    pub fn into_inner(self) -> R
        ensures { result ≡ self.reader }
    {
        let Intake { reader, failed: _ } = self;
        reader
    }
}

impl<R: Read> In for Intake<R> {
    ghost remaining = { λ i. R.remaining i.reader };

    ghost has_failed = { λ i. i.failed };

    fn read(&mut self, buffer: &mut [u8]) -> Option<usize> {
        for _ in 0..TRY_LIMIT {
            match self.reader.read(buffer) {
                Ok(count) => return Some(count),
                Err(error) if error.kind() == ErrorKind::Interrupted => {}
                Err(_) => break,
            }
        }
        self.failed = true;
        None
    }

    fn failed(&self) -> bool {
        self.failed
    }
}
