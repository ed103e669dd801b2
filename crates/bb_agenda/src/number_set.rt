//! A set of numbers, one bit each. The agenda keeps the numbers of obviated activations in it.

ghost use Rattle.std.specs.Prelude.{◌≡◌, ◌==◌, ◌<◌, ℕ, [], true, if◌then◌else◌, OnOk, OnErr};
ghost use Rattle.bb_agenda.specs.proving.Numbers.{has_bit, is_in};

use bb_basis::Memory;
use std::alloc::Global;
use std::collections::BTreeMap;
use std::marker::Model;

/// A set of numbers, each a bit of a word. Contracts see the words, each under its numbers divided by 64.
#[derive(Drop)]
pub(crate) struct NumberSet {
    words: BTreeMap<u64, u64>,
}

impl Model for NumberSet {
    ghost use Rattle.std.specs.Prelude.{List, ℕ};

    ghost Value = { List (ℕ × ℕ) };

    ghost view = { λ s. s.words.entries };
}

// Whether a bit of a word is set.
fn has_bit(word: u64, bit: u32) -> bool
    requires { bit < 64 }
    ensures { result ≡ has_bit word bit }
{
    (word >> bit) & 1 == 1
}

// A word with a bit set.
fn with_bit(word: u64, bit: u32) -> u64
    requires { bit < 64 }
    ensures { (i : ℕ) → has_bit result i ≡ (if i == bit then true else has_bit word i) }
{
    word | (1 << bit)
}

impl NumberSet {
    /// Creates an empty set. Allocates nothing.
    pub(crate) fn new(alloc: Global) -> NumberSet
        ensures { result ≡ [] }
    {
        NumberSet {
            words: BTreeMap::new(alloc),
        }
    }

    /// Returns whether a number is in the set.
    pub(crate) fn contains(&self, number: u64) -> bool
        ensures { result ≡ is_in self.now number }
    {
        match self.words.get(&(number / 64)) {
            None => false,
            Some(word) => has_bit(*word, (number % 64) as u32),
        }
    }

    /// Adds a number. An error changes nothing.
    pub(crate) fn insert(&mut self, number: u64) -> Result<(), Memory>
        ensures ok { OnOk result ((n : ℕ) → is_in self.new n ≡ (if n == number then true else is_in self.old n)) }
        ensures err { OnErr result (self.new ≡ self.old) }
    {
        let block = number / 64;
        let word = self.words.get(&block).copied().unwrap_or(0);
        self.words
            .insert(block, with_bit(word, (number % 64) as u32))?;
        Ok(())
    }
}
