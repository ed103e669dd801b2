//! Reads a rate. The reader of a source's first line calls it.

ghost use Rattle.std.specs.Prelude.{◌≡◌};
ghost use Rattle.bb_bundle.specs.Rate.{rate_of};

/// Returns the number that an optional `-` and digits spell, if it fits in an `i64`.
pub(crate) fn rate_of(word: &str) -> Option<i64>
    ensures { result ≡ rate_of word.now }
{
    // `parse` accepts a `+` too.
    if word.starts_with('+') {
        return None;
    }
    word.parse::<i64>().ok()
}
