//! Cuts an input into its sections, each the text after its header line. `serve` (bb_main) calls it.

ghost use Rattle.std.specs.Prelude.{◌≡◌, ◌++◌, ◌∷◌, [], ◌<◌, MatchOption, length};
ghost use Rattle.bb_main_input.specs.Lines.{lines};
ghost use Rattle.bb_main_input.specs.Sections.{header_of, is_alone, before, parts, sections_of};
ghost use Rattle.bb_main_input.specs.proving.Cuts.{is_end, Begins, Takes};
ghost use Rattle.bb_main_input.specs.Input.{input_of, texts_of};

use crate::read::INPUT_LIMIT;
use crate::section_fault::SectionFault;
use std::str;

/// The section that a header line begins.
#[derive(Clone, Copy, Debug, PartialEq, Eq)]
pub(crate) enum Header {
    Schema,
    Units,
    Sources,
    Bundle,
}

impl Header {
    /// Returns the word of the header line.
    pub(crate) fn word(self) -> &'static str {
        match self {
            Header::Schema => "%schema",
            Header::Units => "%units",
            Header::Sources => "%sources",
            Header::Bundle => "%bundle",
        }
    }

    /// Returns the position of the section among the four, from 0.
    pub(crate) fn rank(self) -> u8 {
        match self {
            Header::Schema => 0,
            Header::Units => 1,
            Header::Sources => 2,
            Header::Bundle => 3,
        }
    }
}

/// The sections of an input, each the text between its header line and the next.
#[derive(Clone, Copy, Debug, PartialEq, Eq)]
pub struct Sections<'a> {
    /// The schema.
    pub schema: &'a str,
    /// The initial units, or `{}` if the input has none.
    pub units: &'a str,
    /// The sources as text, or an empty text.
    pub sources: &'a str,
    /// The bundle, or an empty text.
    pub bundle: &'a str,
    /// The whole input.
    pub whole: &'a str,
}

impl<'a> Sections<'a> {
    /// Cuts an input's bytes into sections, or returns why the input is refused. `Limit` comes before `Utf8`, and
    /// `Utf8` before `Sections`.
    pub fn of_bytes(bytes: &'a [u8]) -> Result<Sections<'a>, SectionFault>
        ensures { texts_of result ≡ input_of bytes.now }
    {
        if bytes.len() > INPUT_LIMIT {
            return Err(SectionFault::Limit);
        }
        match str::from_utf8(bytes) {
            Ok(text) => Sections::of(text),
            Err(_) => Err(SectionFault::Utf8),
        }
    }

    // The sections of a text.
    fn of(text: &'a str) -> Result<Sections<'a>, SectionFault>
        ensures { texts_of result ≡ sections_of text.now }
    {
        let (schema, rest) = section(Header::Schema, text).ok_or(SectionFault::Sections)?;
        let (units, rest) = section(Header::Units, rest).unwrap_or(("{}", rest));
        let (sources, rest) = section(Header::Sources, rest).unwrap_or(("", rest));
        let (bundle, rest) = section(Header::Bundle, rest).unwrap_or(("", rest));
        if !rest.is_empty() {
            return Err(SectionFault::Sections);
        }
        Ok(Sections {
            schema,
            units,
            sources,
            bundle,
            whole: text,
        })
    }
}

// Returns the section that a text begins with, if its first line is that header, and the text from the next header on.
fn section<'a>(header: Header, text: &'a str) -> Option<(&'a str, &'a str)>
    ensures { Takes header text.now result }
{
    let (line, after) = first_line(text);
    if header_of(line) != Some(header) {
        return None;
    }
    Some(to_header(after))
}

// Returns the text before its first header line, and the text from that line on.
fn to_header(text: &str) -> (&str, &str)
    ensures before { result.0.now ≡ before (lines text.now) }
    ensures parts { parts (lines text.now) ≡ parts (lines result.1.now) }
    ensures begins { Begins result.1.now }
{
    let mut rest = text;
    while !rest.is_empty() {
        let (line, after) = first_line(rest);
        if header_of(line).is_some() {
            break;
        }
        rest = after;
    }
    (&text[..text.len() - rest.len()], rest)
}

/// Returns the section that a line begins, if it is a header.
#[tactic(auto, unfolding(crate::specs::Sections::header_of))]
pub(crate) fn header_of(line: &str) -> Option<Header>
    ensures { result ≡ header_of line.now }
{
    if is_alone("%schema", line) {
        Some(Header::Schema)
    } else if is_alone("%units", line) {
        Some(Header::Units)
    } else if is_alone("%sources", line) {
        Some(Header::Sources)
    } else if is_alone("%bundle", line) {
        Some(Header::Bundle)
    } else {
        None
    }
}

// Returns whether a line is only the word, ended by LF, by CR LF or, without a CR, by the end of the input.
fn is_alone(word: &str, line: &str) -> bool
    ensures { result ≡ is_alone word.now line.now }
{
    match line.strip_prefix(word) {
        Some(end) => is_end(end),
        None => false,
    }
}

// Returns whether a text is empty, LF or CR LF.
fn is_end(text: &str) -> bool
    ensures { result ≡ is_end text.now }
{
    text.is_empty() || text == "\n" || text == "\r\n"
}

// Returns the first line of a text with its line end, and the text after it.
fn first_line(text: &str) -> (&str, &str)
    ensures joined { text.now ≡ result.0.now ++ result.1.now }
    ensures first { 0 < length text.now → lines text.now ≡ result.0.now ∷ lines result.1.now }
    ensures some { 0 < length text.now → 0 < length result.0.now }
{
    match text.find('\n') {
        Some(at) => text.split_at(at + 1),
        None => (text, ""),
    }
}
