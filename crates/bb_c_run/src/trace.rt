//! The unread part of a held run's trace. Moves write to it.

ghost use Rattle.std.specs.Prelude.{◌≡◌, ◌≤◌, ◌++◌, [], false, drop, length, min, take};

use bb_shell::Out;
use std::alloc::Global;

/// An output that keeps its bytes until they are read. It fails if memory runs out.
#[derive(Drop)]
pub(crate) struct Trace {
    bytes: Vec<u8>,
    read: usize,
    failed: bool,
    ghost within: { read ≤ length bytes.items },
}

impl Trace {
    /// Makes an empty output.
    pub(crate) fn new(alloc: Global) -> Trace
        ensures none { drop result.read result.bytes.items ≡ [] }
        ensures open { result.failed ≡ false }
    {
        Trace {
            bytes: Vec::new(alloc),
            read: 0,
            failed: false,
        }
    }

    /// Reads the unread bytes into `to`, up to its capacity, and returns the number of bytes read.
    pub(crate) fn read(&mut self, to: &mut [u8]) -> usize
        ensures count { result ≡ min (length (drop self.old.read self.old.bytes.items)) (length to.old) }
        ensures given { to.new ≡ take result (drop self.old.read self.old.bytes.items) ++ drop result to.old }
        ensures left { drop self.new.read self.new.bytes.items ≡ drop result (drop self.old.read self.old.bytes.items) }
        ensures same { self.new.failed ≡ self.old.failed }
    {
        let left = &self.bytes[self.read..];
        let count = left.len().min(to.len());
        to[..count].copy_from_slice(&left[..count]);
        self.read += count;
        if self.read == self.bytes.len() {
            self.bytes.clear();
            self.read = 0;
        }
        count
    }

    /// Discards the unread bytes.
    pub(crate) fn skip(&mut self)
        ensures none { drop self.new.read self.new.bytes.items ≡ [] }
        ensures same { self.new.failed ≡ self.old.failed }
    {
        self.bytes.clear();
        self.read = 0;
    }
}

impl Out for Trace {
    ghost use Rattle.std.specs.Prelude.{Some, drop};

    ghost taken = { λ t. Some (drop t.read t.bytes.items) };

    ghost has_failed = { λ t. t.failed };

    fn put(&mut self, bytes: &[u8]) -> usize {
        match self.bytes.extend_from_slice(bytes) {
            Ok(()) => bytes.len(),
            Err(_) => {
                self.failed = true;
                0
            }
        }
    }

    fn failed(&self) -> bool {
        self.failed
    }
}
