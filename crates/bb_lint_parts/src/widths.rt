//! The widths of the columns of the table of costs, and the words and numbers that fill them.

use bb_basis::Memory;
use std::fmt::Write;

/// The number of numbers on a line of the table.
pub(crate) const NUMBERS: usize = 6;

/// The widths of the columns, for the sources and for the numbers.
#[derive(Drop)]
pub(crate) struct Widths {
    pub(crate) source: usize,
    pub(crate) numbers: [usize; NUMBERS],
}

// Returns the number of digits of a number.
fn digits(number: u128) -> usize {
    let mut count = 1usize;
    let mut left = number;
    while left >= 10 {
        left /= 10;
        count = count.saturating_add(1);
    }
    count
}

impl Widths {
    /// Makes columns that fit their heads.
    pub(crate) fn of(source: &str, heads: &[&str; NUMBERS]) -> Widths {
        let mut numbers = [0; NUMBERS];
        for i in 0..NUMBERS {
            numbers[i] = heads[i].len();
        }
        Widths {
            source: source.len(),
            numbers,
        }
    }

    /// Widens the column for the name of a source.
    pub(crate) fn fit_source(&mut self, name: &str) {
        self.source = self.source.max(name.len());
    }

    /// Widens the columns for the numbers of a line.
    pub(crate) fn fit_numbers(&mut self, numbers: &[u128; NUMBERS]) {
        for i in 0..NUMBERS {
            self.numbers[i] = self.numbers[i].max(digits(numbers[i]));
        }
    }
}

// Appends blanks from `used` bytes up to a width.
fn write_blanks(text: &mut String, used: usize, width: usize) -> Result<(), Memory> {
    for _ in used..width {
        text.push_str(" ")?;
    }
    Ok(())
}

/// Appends a word, then blanks up to the width of its column.
pub(crate) fn write_left(text: &mut String, word: &str, width: usize) -> Result<(), Memory> {
    text.push_str(word)?;
    write_blanks(text, word.len(), width)
}

/// Appends two blanks, then a word at the right of its column.
pub(crate) fn write_right(text: &mut String, word: &str, width: usize) -> Result<(), Memory> {
    text.push_str("  ")?;
    write_blanks(text, word.len(), width)?;
    text.push_str(word)
}

/// Appends two blanks, then a number at the right of its column.
pub(crate) fn write_number(text: &mut String, number: u128, width: usize) -> Result<(), Memory> {
    text.push_str("  ")?;
    write_blanks(text, digits(number), width)?;
    write!(text, "{number}")
}
