//! The output of this host: a writer, and the number of lines written so far. main.rt writes the trace to it.

use bb_shell::{Out, Pipe};
use std::io::Write;

/// A writer that counts lines. The shell sees only the pipe in it.
#[derive(Drop)]
pub(crate) struct Ledger<W: Write> {
    pipe: Pipe<W>,
    lines: u64,
}

impl<W: Write> Ledger<W> {
    ghost use Rattle.std.specs.Prelude.{◌≡◌, false};

    /// Creates a ledger that writes to a writer.
    pub(crate) fn new(writer: W) -> Ledger<W>
        ensures { result.pipe.failed ≡ false }
    {
        Ledger {
            pipe: Pipe::new(writer),
            lines: 0,
        }
    }

    /// Returns the number of lines written.
    pub(crate) fn lines(&self) -> u64 {
        self.lines
    }
}

impl<W: Write> Out for Ledger<W> {
    ghost taken = { λ l. W.contents l.pipe.writer };

    ghost has_failed = { λ l. l.pipe.failed };

    fn put(&mut self, bytes: &[u8]) -> usize {
        let count = self.pipe.put(bytes);
        self.lines = self.lines.saturating_add(line_feeds(&bytes[..count]));
        count
    }

    fn failed(&self) -> bool {
        self.pipe.failed()
    }
}

fn line_feeds(bytes: &[u8]) -> u64 {
    bytes.iter().filter(|byte| **byte == b'\n').count() as u64
}
