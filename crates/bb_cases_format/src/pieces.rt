//! Cuts a text into plain pieces and inserts. Templates (inserts.rt) and rows (rows.rt) use this.

use crate::fault::Fault;
use std::alloc::Global;

/// A piece of a text.
#[derive(Clone, Copy)]
pub(crate) enum Piece<'a> {
    /// Plain text, which is copied.
    Text(&'a str),
    /// What is between `$(` and `)`.
    Insert(&'a str),
}

/// The number of open parentheses, including the first, which belongs to an insert.
#[derive(Clone, Copy)]
pub(crate) struct Nesting {
    pub depth: usize,
    before: u8,
}

/// The nesting outside inserts.
pub(crate) const OUTSIDE: Nesting = Nesting {
    depth: 0,
    before: b' ',
};

// What a byte does to the inserts of a text.
#[derive(Clone, Copy)]
enum Turn {
    Begins,
    Ends,
    None,
}

impl Nesting {
    // Takes the next byte of a text.
    fn turn(&mut self, byte: u8) -> Turn {
        let before = self.before;
        self.before = byte;
        match (byte, self.depth) {
            (b'(', 0) if before == b'$' => {
                self.depth = 1;
                return Turn::Begins;
            }
            (b')', 1) => {
                self.depth = 0;
                return Turn::Ends;
            }
            (b'(', depth) if depth > 0 => self.depth = depth.saturating_add(1),
            (b')', depth) => self.depth = depth.saturating_sub(1),
            _ => {}
        }
        Turn::None
    }

    /// Takes a line with its line end.
    pub fn add(&mut self, line: &str) {
        for byte in line.bytes() {
            let _ = self.turn(byte);
        }
        self.before = b'\n';
    }
}

// A text that is being cut.
#[derive(Drop)]
struct Cutter<'a> {
    text: &'a str,
    pieces: Vec<Piece<'a>>,
    nesting: Nesting,
    // Where the next piece begins.
    start: usize,
    // Whether the line has to end here, without its line end in the result.
    joins: bool,
}

impl<'a> Cutter<'a> {
    // Takes the byte at an index.
    fn take(&mut self, at: usize, byte: u8) -> Result<(), Fault> {
        let turn = self.nesting.turn(byte);
        if self.joins {
            if byte != b'\n' {
                return Err(Fault::Join);
            }
            self.joins = false;
            self.start = at.saturating_add(1);
        }
        match turn {
            Turn::Begins => self.add(at.saturating_sub(1), false)?,
            Turn::Ends => self.add(at, true)?,
            Turn::None => return Ok(()),
        }
        self.start = at.saturating_add(1);
        Ok(())
    }

    // Adds the piece that ends at `end`.
    fn add(&mut self, end: usize, is_insert: bool) -> Result<(), Fault> {
        match self.text.get(self.start..end).unwrap_or("") {
            "" => {}
            "join" if is_insert => self.joins = true,
            insert if is_insert => self.pieces.push(Piece::Insert(insert))?,
            text => self.pieces.push(Piece::Text(text))?,
        }
        Ok(())
    }
}

/// Cuts a text into pieces. `$()` makes no piece, nor do `$(join)` and the line end after it. `Open`: an insert is not
/// closed. `Join`: a line continues after `$(join)`.
pub(crate) fn cut<'a>(alloc: Global, text: &'a str) -> Result<Vec<Piece<'a>>, Fault> {
    let mut cutter = Cutter {
        text,
        pieces: Vec::new(alloc),
        nesting: OUTSIDE,
        start: 0,
        joins: false,
    };
    for (at, byte) in text.bytes().enumerate() {
        cutter.take(at, byte)?;
    }
    cutter.add(text.len(), false)?;
    if cutter.nesting.depth > 0 {
        Err(Fault::Open)
    } else if cutter.joins {
        Err(Fault::Join)
    } else {
        Ok(cutter.pieces)
    }
}
