//! Tips added to clap's text if the words show what was meant: a negative floor, or the name of an input file.
//! `options` adds them.

use std::alloc::{AllocError, Global};
use std::convert::AsStr;

/// Returns the text of a refusal of `words`: `text`, which is clap's, with a tip if one helps. Clap's tip for a
/// negative number, `-- -5`, does not work for this command. Another text therefore replaces clap's.
pub(crate) fn with_tip<S: AsStr>(
    alloc: Global,
    text: String,
    words: &[S],
) -> Result<String, AllocError> {
    if let Some(number) = negative_floor(words) {
        return format!(in alloc; "error: a negative floor is written '--floor={number}'\n");
    }
    match file(words) {
        Some(name) => {
            format!(in alloc; "{text}\n  tip: the input comes on standard input: bb < {name}\n")
        }
        None => Ok(text),
    }
}

// Returns the word after `--floor` if it is a negative number.
fn negative_floor<S: AsStr>(words: &[S]) -> Option<&str> {
    let mut is_floor = false;
    for word in words {
        let word = word.as_str();
        if is_floor && is_negative(word) {
            return Some(word);
        }
        is_floor = word == "--floor";
    }
    None
}

fn is_negative(word: &str) -> bool {
    match word.strip_prefix("-") {
        Some(digits) => digits
            .bytes()
            .next()
            .is_some_and(|first| first.is_ascii_digit()),
        None => false,
    }
}

// Returns the first word that looks like a file name.
fn file<S: AsStr>(words: &[S]) -> Option<&str> {
    for word in words {
        let word = word.as_str();
        if !word.starts_with("-") && (word.contains(".") || word.contains("/")) {
            return Some(word);
        }
    }
    None
}
