//! Headers: a kind, a name, and options, each a word and its value. Every part of a file (parts.rt) begins with one.

use crate::fault::Fault;
use std::alloc::Global;
use std::str::FromStr;

/// The words of a header.
#[derive(Drop)]
pub struct Header<'a> {
    /// The kind of the entry, or the first word of a second text.
    pub kind: &'a str,
    /// The word after the kind; empty if it is missing.
    pub name: &'a str,
    // The words after the name: options and their values.
    options: Vec<&'a str>,
    /// Whether the case is marked as wrong.
    pub wrong: bool,
}

impl<'a> Header<'a> {
    /// Reads the header in a line.
    pub fn of(alloc: Global, line: &'a str) -> Result<Header<'a>, Fault> {
        let mut words = line.split(' ').filter(|word| !word.is_empty());
        let kind = words.next().unwrap_or("");
        let name = words.next().unwrap_or("");
        let mut options = words.collect::<Vec<&'a str>>(alloc)?;
        let wrong = options.last().copied() == Some("wrong");
        if wrong {
            let _ = options.pop();
        }
        Ok(Header {
            kind,
            name,
            options,
            wrong,
        })
    }

    /// Checks that there is a name, and that all options are among the allowed ones. `Name`: the name is missing.
    /// `Options`: an option is not allowed, or has no value.
    pub fn check(&self, allowed: &[&str]) -> Result<(), Fault> {
        if !is_name(self.name) {
            return Err(Fault::Name);
        }
        if self.options.len() % 2 != 0 {
            return Err(Fault::Options);
        }
        for (index, word) in self.options.iter().enumerate() {
            if index % 2 == 0 && !allowed.iter().any(|option| *option == *word) {
                return Err(Fault::Options);
            }
        }
        Ok(())
    }

    /// Returns the value of an option.
    pub fn option(&self, option: &str) -> Option<&'a str> {
        let mut words = self.options.iter().copied();
        for _ in 0..self.options.len() {
            let word = words.next()?;
            let value = words.next()?;
            if word == option {
                return Some(value);
            }
        }
        None
    }

    /// Returns the number that an option has, or `absent` without the option. `Number`: it is not a number.
    pub fn number<T: FromStr + Drop>(&self, option: &str, absent: T) -> Result<T, Fault>
    where
        T::Err: Drop,
    {
        match self.option(option) {
            Some(word) => number(word),
            None => Ok(absent),
        }
    }
}

/// Parses a word as a number. `Number`: it is not a number of this type.
pub fn number<T: FromStr>(word: &str) -> Result<T, Fault>
where
    T::Err: Drop,
{
    word.parse::<T>().ok().ok_or(Fault::Number)
}

/// Returns whether a word consists of letters, digits and `_`, at least one.
pub(crate) fn is_name(word: &str) -> bool {
    !word.is_empty()
        && word
            .bytes()
            .all(|byte| byte.is_ascii_alphanumeric() || byte == b'_')
}
