//! Locations in a text. Faults and trees have them.

ghost use Rattle.std.specs.Prelude.{◌≡◌, ◌+◌, ◌≤◌, ◌<◌, ◌^◌, length};
ghost use Rattle.bb_lang_tree.specs.Places.{start, after_byte, place_after};

/// A location in a text. Lines and columns count from 1, columns in characters.
#[derive(Clone, Copy, Debug, PartialEq, Eq)]
pub struct Place {
    pub line: u64,
    pub column: u64,
}

impl Place {
    /// Returns the location of a text's first byte.
    pub(crate) fn start() -> Place
        ensures { result ≡ start }
    {
        Place { line: 1, column: 1 }
    }

    // Returns the location after one more byte.
    fn after_byte(self, byte: u8) -> Place
        requires line { self.line + 1 < 2 ^ 64 }
        requires column { self.column + 1 < 2 ^ 64 }
        ensures { result ≡ after_byte self byte }
    {
        if byte == b'\n' {
            return Place {
                line: self.line + 1,
                column: 1,
            };
        }
        // A later byte of a character does not count.
        if byte >= 0x80 && byte < 0xc0 {
            return self;
        }
        Place {
            line: self.line,
            column: self.column + 1,
        }
    }

    /// Returns the location after more bytes.
    pub(crate) fn after(self, bytes: &[u8]) -> Place
        requires line { self.line + length bytes.now < 2 ^ 64 }
        requires column { self.column + length bytes.now < 2 ^ 64 }
        ensures place { result ≡ place_after self bytes.now }
        ensures line { result.line ≤ self.line + length bytes.now }
        ensures column { result.column ≤ self.column + length bytes.now }
    {
        let mut place = self;
        for byte in bytes {
            place = place.after_byte(*byte);
        }
        place
    }
}
