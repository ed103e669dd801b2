//! Faults of the sections of an input, with the line that refuses the input and the sentence for people.
//! `Sections::of_bytes` returns them.

ghost use Rattle.std.specs.Prelude.{◌≡◌};
ghost use Rattle.bb_main_input.specs.Refusals.{section_line};

use thiserror::Error;

/// Why the bytes of an input have no sections: the first fault that applies, in this order.
#[derive(Clone, Copy, Debug, PartialEq, Eq, Error)]
pub enum SectionFault {
    /// The input has more than `INPUT_LIMIT` bytes.
    #[error("input: it has more than 16,777,216 bytes")]
    Limit,
    /// The bytes are not UTF-8.
    #[error("input: it is not UTF-8")]
    Utf8,
    /// The sections are not in order, each at most once, with the schema first.
    #[error("input: its first line is not `%schema`, or a header line is out of order or there twice")]
    Sections,
}

impl SectionFault {
    /// Returns the line that refuses the input, without its line feed.
    pub fn line(self) -> &'static str
        ensures { result.now ≡ section_line self }
    {
        match self {
            SectionFault::Limit => "refused input limit",
            SectionFault::Utf8 => "refused input utf8",
            SectionFault::Sections => "refused input sections",
        }
    }
}
