//! Reads a single line of a bundle, regardless of the lines around it. The parser calls it for each line.

ghost use Rattle.std.specs.Prelude.{◌≡◌, map, option_map, IfOk};
ghost use Rattle.bb_bundle.specs.Line.{words_of, header_of, digits_of, class_and_digits_of};

use crate::draft::Header;
use crate::rate::rate_of;
use bb_basis::{Items, Text, is_name};
use std::alloc::{AllocError, Global};

/// The maximum number of words read of a line. No line of a bundle has this many.
pub(crate) const WORD_LIMIT: usize = 5;

/// Returns the first words of a line. Between two consecutive spaces there is an empty word.
pub(crate) fn split_words(alloc: Global, line: &str) -> Result<Vec<&str>, AllocError>
    ensures { IfOk result (λ ws. map (λ w. w.now) ws.items ≡ words_of line.now) }
{
    line.split(' ').take(WORD_LIMIT).collect(alloc)
}

/// Reads `source NAME CLASS RATE` into a header without triggers. `None`: the words are something else.
#[tactic(auto, unfolding(crate::specs::Line::header_of))]
pub(crate) fn read_header(alloc: Global, words: &[&str]) -> Result<Option<Header>, AllocError>
    ensures { IfOk result (λ h. h ≡ header_of (map (λ w. w.now) words.now)) }
{
    let [keyword, name, class, rate] = words else {
        return Ok(None);
    };
    if *keyword != "source" || !is_name(name) || !is_name(class) {
        return Ok(None);
    }
    let Some(rate) = rate_of(rate) else {
        return Ok(None);
    };
    Ok(Some(Header {
        name: Text::from_str(alloc, name)?,
        class: Text::from_str(alloc, class)?,
        rate,
        triggers: Items::new(alloc),
    }))
}

/// Reads `HEX` and returns the word, unless it is empty. `None`: there is another number of words, or an empty one.
#[tactic(auto, unfolding(crate::specs::Line::digits_of))]
pub(crate) fn read_digits<'a>(words: &[&'a str]) -> Option<&'a str>
    ensures { option_map (λ h. h.now) result ≡ digits_of (map (λ w. w.now) words.now) }
{
    match words {
        [digits] if !digits.is_empty() => Some(*digits),
        _ => None,
    }
}

/// Reads `CLASS HEX` and returns both words. `None`: the words are something else.
#[tactic(auto, unfolding(crate::specs::Line::class_and_digits_of))]
pub(crate) fn read_class_and_digits<'a>(words: &[&'a str]) -> Option<(&'a str, &'a str)>
    ensures { option_map (λ p. (p.0.now, p.1.now)) result
        ≡ class_and_digits_of (map (λ w. w.now) words.now) }
{
    match words {
        [class, digits] if is_name(class) && !digits.is_empty() => Some((*class, *digits)),
        _ => None,
    }
}
