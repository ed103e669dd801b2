//! The words that begin the lines of a source after its first. The parser looks up the first word of each line.

ghost use Rattle.std.specs.Prelude.{◌≡◌};
ghost use Rattle.bb_bundle.specs.Keywords.{keyword_of};

/// The kind of a line of a source after its first.
#[derive(Clone, Copy)]
pub(crate) enum Keyword {
    /// `when EVENT`
    When,
    /// `require HEX`
    Require,
    /// `obviate CLASS HEX`
    Obviate,
    /// `retrigger CLASS HEX`
    Retrigger,
    /// `revalidate HEX`
    Revalidate,
    /// `do HEX`
    Do,
    /// `native`
    Native,
}

/// Returns the keyword that a word spells.
#[tactic(auto, unfolding(crate::specs::Keywords::keyword_of))]
pub(crate) fn keyword_of(word: &str) -> Option<Keyword>
    ensures { result ≡ keyword_of word.now }
{
    if word == "when" {
        return Some(Keyword::When);
    }
    if word == "require" {
        return Some(Keyword::Require);
    }
    if word == "obviate" {
        return Some(Keyword::Obviate);
    }
    if word == "retrigger" {
        return Some(Keyword::Retrigger);
    }
    if word == "revalidate" {
        return Some(Keyword::Revalidate);
    }
    if word == "do" {
        return Some(Keyword::Do);
    }
    if word == "native" {
        return Some(Keyword::Native);
    }
    None
}
