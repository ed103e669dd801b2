//! The output of a trace. The page (page.rt) writes to it, and programs (bb_main) do when they refuse an input.

ghost use Rattle.std.specs.Prelude.{◌≡◌, ◌<◌, ◌≤◌, ◌==◌, ℕ, List, Option, Bool, false, not, length, take};
ghost use Rattle.std.specs.Io.KnownBytes.{Appends};
ghost use Rattle.std.specs.Bool.{OnTrue as WhenTrue, OnFalse as WhenFalse};

use std::io::Write;

/// The output of a trace: it accepts bytes until it fails.
pub trait Out {
    /// The bytes that the output accepted, if they are known.
    ghost taken: { Self → Option (List ℕ) };

    /// Whether the output has failed.
    ghost has_failed: { Self → Bool };

    /// Accepts a prefix of the bytes, at least one, and returns its length; or accepts none, returns 0 and has failed.
    fn put(&mut self, bytes: &[u8]) -> usize
        requires some { 0 < length bytes.now }
        requires open { has_failed self.old ≡ false }
        ensures count { result ≤ length bytes.now }
        ensures taken { Appends (taken self.old) (taken self.new) (take result bytes.now) }
        ensures failed { has_failed self.new ≡ (result == 0) };

    /// Returns whether the output has failed.
    fn failed(&self) -> bool
        ensures { result ≡ has_failed self.now };
}

/// A writer as an `Out`. It fails on an error or a write of no bytes.
pub struct Pipe<W: Write> {
    writer: W,
    failed: bool,
}

// By hand: proofs then meet one call per drop, not one per part.
impl<W: Write + Drop> Drop for Pipe<W> {
    fn drop(self) {
        let Pipe {
            writer: _,
            failed: _,
        } = self;
    }
}

impl<W: Write> Pipe<W> {
    /// Creates an output that writes to a writer.
    pub fn new(writer: W) -> Pipe<W>
        ensures writer { result.writer ≡ writer }
        ensures open { result.failed ≡ false }
    {
        Pipe {
            writer,
            failed: false,
        }
    }

    /// Returns the writer.
    pub fn into_inner(self) -> W
        ensures { result ≡ self.writer }
    {
        let Pipe { writer, failed: _ } = self;
        writer
    }
}

impl<W: Write> Out for Pipe<W> {
    ghost taken = { λ p. W.contents p.writer };

    ghost has_failed = { λ p. p.failed };

    fn put(&mut self, bytes: &[u8]) -> usize {
        match self.writer.write(bytes) {
            Ok(count) if count > 0 => count,
            _ => {
                self.failed = true;
                0
            }
        }
    }

    fn failed(&self) -> bool {
        self.failed
    }
}

/// Writes all the bytes and returns whether that succeeded. If not, the output took a prefix of them and has failed.
pub fn put_all<O: Out>(out: &mut O, bytes: &[u8]) -> bool
    requires { O.has_failed out.old ≡ false }
    ensures ok { WhenTrue result (Appends (O.taken out.old) (O.taken out.new) bytes.now) }
    ensures front { WhenFalse result
        ((count : ℕ) × Appends (O.taken out.old) (O.taken out.new) (take count bytes.now)) }
    ensures failed { O.has_failed out.new ≡ not result }
{
    let mut rest = bytes;
    while !rest.is_empty() {
        let count = out.put(rest);
        if count == 0 {
            return false;
        }
        rest = &rest[count..];
    }
    true
}
