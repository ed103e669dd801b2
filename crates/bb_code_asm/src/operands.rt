//! The operands of a statement, read one by one in order.

use crate::fault::Slip;
use crate::labels::Labels;
use bb_code::{Place, Version};
use std::str::FromStr;

/// The operands of a statement, and the number of operands already read.
#[derive(Drop)]
pub(crate) struct Operands<'a> {
    words: &'a [&'a str],
    taken: usize,
    labels: &'a Labels,
}

impl<'a> Operands<'a> {
    /// Starts before the first operand of a statement.
    pub fn new(words: &'a [&'a str], labels: &'a Labels) -> Operands<'a> {
        Operands {
            words,
            taken: 0,
            labels,
        }
    }

    /// Reads the next word, if there is one.
    pub fn next_word(&mut self) -> Option<&'a str> {
        let word = self.words.get(self.taken)?;
        self.taken = self.taken.saturating_add(1);
        Some(*word)
    }

    /// Reads the next word.
    pub fn word(&mut self) -> Result<&'a str, Slip> {
        self.next_word().ok_or(Slip::Missing)
    }

    /// Returns whether the next word is this one, and skips it if it is.
    pub fn takes(&mut self, word: &str) -> bool {
        let found = match self.words.get(self.taken) {
            Some(next) => *next == word,
            None => false,
        };
        if found {
            self.taken = self.taken.saturating_add(1);
        }
        found
    }

    /// Reads a number in the range of its type.
    pub fn number<T: FromStr>(&mut self) -> Result<T, Slip>
    where
        T::Err: Drop,
    {
        self.word()?.parse::<T>().ok().ok_or(Slip::Number)
    }

    /// Reads a divisor, 1 or more.
    pub fn divisor(&mut self) -> Result<i64, Slip> {
        let number = self.number::<i64>()?;
        if number < 1 {
            return Err(Slip::Number);
        }
        Ok(number)
    }

    /// Reads the version of a code, 1 or 2.
    pub fn version(&mut self) -> Result<Version, Slip> {
        match self.number::<u8>()? {
            1 => Ok(Version::One),
            2 => Ok(Version::Two),
            _ => Err(Slip::Number),
        }
    }

    /// Reads a truth value.
    pub fn truth(&mut self) -> Result<bool, Slip> {
        self.word()?.parse::<bool>().ok().ok_or(Slip::Number)
    }

    /// Reads an op index, by its number or its label.
    pub fn place(&mut self) -> Result<Place, Slip> {
        let word = self.word()?;
        self.labels.place(word)
    }

    /// Returns the op index that another word names.
    pub fn place_of(&self, word: &str) -> Result<Place, Slip> {
        self.labels.place(word)
    }

    /// Checks that no operand is left.
    pub fn end(&self) -> Result<(), Slip> {
        if self.taken < self.words.len() {
            Err(Slip::TooMany)
        } else {
            Ok(())
        }
    }
}
