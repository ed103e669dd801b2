//! The parser of bundles. Callers that read a bundle (bb_shell) call `unbundle`.
//!
//! A source is `source NAME CLASS RATE` and one or more `when EVENT`; then, each optional and in this order, `require
//! HEX`, `obviate CLASS HEX` and `retrigger CLASS HEX`, each of these two followed by one or more `when EVENT`, and
//! `revalidate HEX`; then `do HEX` or `native`. One space separates two words, and empty lines are ignored. NAME and
//! CLASS are names, RATE is a 64-bit whole number, and HEX spells the bytes of a code.

ghost use Rattle.std.specs.Prelude.{◌≡◌, ◌+◌, ◌<◌, ◌^◌, map, MatchResult};
ghost use Rattle.bb_basis.specs.Results.{Gives, map_err};
ghost use Rattle.hex.specs.Hex.{decode_of};
ghost use Rattle.bb_code.specs.Reading.{code_of};
ghost use Rattle.bb_bundle.specs.declared.fault.BundleFault.TheVariants.{Hex as NoHex, Code as NoCode};
ghost use Rattle.bb_bundle.specs.declared.fault.BundleFault.TheVariants.{Memory as OutOfMemory};
ghost use Rattle.bb_bundle.specs.Bundle.{new_parser, code_in, code_of_words, reaction_of_words, with_source};
ghost use Rattle.bb_bundle.specs.Bundle.{with_whole, after_first, after_when, after_require, after_obviate};
ghost use Rattle.bb_bundle.specs.Bundle.{after_retrigger, after_revalidate, after_do, after_native, after_keyword};
ghost use Rattle.bb_bundle.specs.Bundle.{after_further, after_words, after_line};
ghost use Rattle.bb_bundle.specs.Bundle.{at_end, sources_of};

use crate::clause::read_clause;
use crate::draft::{ActDraft, Parts, ReactionDraft};
use crate::fault::BundleFault;
use crate::keyword::{Keyword, keyword_of};
use crate::line::{read_class_and_digits, read_digits, read_header, split_words};
use crate::partial::PartialSource;
use crate::source_code::SourceCode;
use bb_basis::{Items, Text};
use bb_code::{Code, CodeFault};
use hex::FromHexError;
use std::alloc::Global;
use std::marker::Model;

// What has been read so far: the number of lines, the complete sources, and the source whose act is still to come.
#[derive(Drop)]
struct BundleParser {
    lines: u64,
    sources: Vec<SourceCode>,
    partial: Option<PartialSource>,
}

impl Model for BundleParser {
    ghost use Rattle.bb_bundle.specs.Bundle.{Parser};
    ghost use Rattle.bb_bundle.specs.proving.Codes.{parser_code};

    ghost Value = { Parser };

    ghost coded = { parser_code };

    ghost view = { λ p. record { lines = p.lines; sources = p.sources.items; partial = p.partial } };
}

// Returns the bytes that hex digits of either case spell.
fn decode_hex(alloc: Global, line: u64, digits: &str) -> Result<Vec<u8>, BundleFault>
    ensures { Gives OutOfMemory (λ bs. bs.items) result (map_err (λ _. NoHex line) (decode_of digits.now)) }
{
    match hex::decode(alloc, digits) {
        Ok(bytes) => Ok(bytes),
        Err(FromHexError::OutOfMemory) => Err(BundleFault::Memory),
        Err(_) => Err(BundleFault::Hex { line }),
    }
}

// Returns the code that bytes spell.
fn decode_code(alloc: Global, line: u64, bytes: &[u8]) -> Result<Code, BundleFault>
    ensures { Gives OutOfMemory (λ c. c) result (map_err (λ fault. NoCode line fault) (code_of bytes.now)) }
{
    match Code::decode(alloc, bytes) {
        Ok(code) => Ok(code),
        Err(CodeFault::Memory) => Err(BundleFault::Memory),
        Err(fault) => Err(BundleFault::Code { line, fault }),
    }
}

// Returns the code that hex digits spell.
#[tactic(auto, unfolding(crate::specs::Bundle::code_in))]
fn decode_digits(alloc: Global, line: u64, digits: &str) -> Result<Code, BundleFault>
    ensures { Gives OutOfMemory (λ c. c) result (code_in line digits.now) }
{
    let bytes = decode_hex(alloc, line, digits)?;
    decode_code(alloc, line, &bytes)
}

// Reads `HEX` and returns the code.
#[tactic(auto, unfolding(crate::specs::Bundle::code_of_words))]
fn read_code(alloc: Global, line: u64, words: &[&str]) -> Result<Code, BundleFault>
    ensures { Gives OutOfMemory (λ c. c) result (code_of_words line (map (λ w. w.now) words.now)) }
{
    let digits = read_digits(words).ok_or(BundleFault::Line { line })?;
    decode_digits(alloc, line, digits)
}

// Reads `CLASS HEX` and returns a reaction without clauses.
#[tactic(auto, unfolding(crate::specs::Bundle::reaction_of_words))]
fn read_reaction(
    alloc: Global,
    line: u64,
    words: &[&str],
) -> Result<ReactionDraft<Code>, BundleFault>
    ensures { Gives OutOfMemory (λ r. r) result (reaction_of_words line (map (λ w. w.now) words.now)) }
{
    let (class, digits) = read_class_and_digits(words).ok_or(BundleFault::Line { line })?;
    let code = decode_digits(alloc, line, digits)?;
    Ok(ReactionDraft {
        class: Text::from_str(alloc, class)?,
        clauses: Items::new(alloc),
        code,
    })
}

impl BundleParser {
    fn new(alloc: Global) -> BundleParser
        ensures { result ≡ new_parser }
    {
        BundleParser {
            lines: 0,
            sources: Vec::new(alloc),
            partial: None,
        }
    }

    // Keeps a source whose act is still to come.
    fn begin(&mut self, source: PartialSource)
        ensures { self.new ≡ with_source self.old source }
    {
        self.partial = Some(source);
    }

    // Completes a source with its act.
    #[tactic(auto, unfolding(crate::specs::Bundle::with_whole))]
    fn complete(&mut self, source: PartialSource, act: ActDraft<Code>) -> Result<(), BundleFault>
        ensures { Gives OutOfMemory (λ _. self.new) result (with_whole self.old source act) }
    {
        let line = self.lines;
        let source = SourceCode::new(source.with_act(act)).ok_or(BundleFault::Line { line })?;
        self.sources.push(source)?;
        Ok(())
    }

    // Reads the first line of a source.
    #[tactic(auto, unfolding(crate::specs::Bundle::after_first))]
    fn read_first(&mut self, alloc: Global, words: &[&str]) -> Result<(), BundleFault>
        ensures { Gives OutOfMemory (λ _. self.new) result (after_first self.old (map (λ w. w.now) words.now)) }
    {
        let line = self.lines;
        let header = read_header(alloc, words)?.ok_or(BundleFault::Line { line })?;
        let parts = Parts::none();
        self.begin(PartialSource { header, parts });
        Ok(())
    }

    // Reads a clause.
    #[tactic(auto, unfolding(crate::specs::Bundle::after_when))]
    fn read_when(
        &mut self,
        alloc: Global,
        mut source: PartialSource,
        words: &[&str],
    ) -> Result<(), BundleFault>
        ensures { Gives OutOfMemory (λ _. self.new) result
            (after_when self.old source (map (λ w. w.now) words.now)) }
    {
        let line = self.lines;
        let clause = read_clause(alloc, words)?.ok_or(BundleFault::Line { line })?;
        source.add_clause(clause)?;
        self.begin(source);
        Ok(())
    }

    // Reads an act that is a code.
    #[tactic(auto, unfolding(crate::specs::Bundle::after_do))]
    fn read_do(
        &mut self,
        alloc: Global,
        source: PartialSource,
        words: &[&str],
    ) -> Result<(), BundleFault>
        ensures { Gives OutOfMemory (λ _. self.new) result
            (after_do self.old source (map (λ w. w.now) words.now)) }
    {
        let code = read_code(alloc, self.lines, words)?;
        self.complete(source, ActDraft::Do(code))
    }

    // Reads an act that is a native.
    #[tactic(auto, unfolding(crate::specs::Bundle::after_native))]
    fn read_native(&mut self, source: PartialSource, words: &[&str]) -> Result<(), BundleFault>
        ensures { Gives OutOfMemory (λ _. self.new) result
            (after_native self.old source (map (λ w. w.now) words.now)) }
    {
        if !words.is_empty() {
            return Err(BundleFault::Line { line: self.lines });
        }
        self.complete(source, ActDraft::Native)
    }

    // Reads `require HEX`, after the keyword.
    #[tactic(auto, unfolding(crate::specs::Bundle::after_require))]
    fn read_require(
        &mut self,
        alloc: Global,
        mut source: PartialSource,
        words: &[&str],
    ) -> Result<(), BundleFault>
        ensures { Gives OutOfMemory (λ _. self.new) result
            (after_require self.old source (map (λ w. w.now) words.now)) }
    {
        let code = read_code(alloc, self.lines, words)?;
        source.parts.put_require(Some(code));
        self.begin(source);
        Ok(())
    }

    // Reads `obviate CLASS HEX`, after the keyword.
    #[tactic(auto, unfolding(crate::specs::Bundle::after_obviate))]
    fn read_obviate(
        &mut self,
        alloc: Global,
        mut source: PartialSource,
        words: &[&str],
    ) -> Result<(), BundleFault>
        ensures { Gives OutOfMemory (λ _. self.new) result
            (after_obviate self.old source (map (λ w. w.now) words.now)) }
    {
        let reaction = read_reaction(alloc, self.lines, words)?;
        source.parts.put_obviate(Some(reaction));
        self.begin(source);
        Ok(())
    }

    // Reads `retrigger CLASS HEX`, after the keyword.
    #[tactic(auto, unfolding(crate::specs::Bundle::after_retrigger))]
    fn read_retrigger(
        &mut self,
        alloc: Global,
        mut source: PartialSource,
        words: &[&str],
    ) -> Result<(), BundleFault>
        ensures { Gives OutOfMemory (λ _. self.new) result
            (after_retrigger self.old source (map (λ w. w.now) words.now)) }
    {
        let reaction = read_reaction(alloc, self.lines, words)?;
        source.parts.put_retrigger(Some(reaction));
        self.begin(source);
        Ok(())
    }

    // Reads `revalidate HEX`, after the keyword.
    #[tactic(auto, unfolding(crate::specs::Bundle::after_revalidate))]
    fn read_revalidate(
        &mut self,
        alloc: Global,
        mut source: PartialSource,
        words: &[&str],
    ) -> Result<(), BundleFault>
        ensures { Gives OutOfMemory (λ _. self.new) result
            (after_revalidate self.old source (map (λ w. w.now) words.now)) }
    {
        let code = read_code(alloc, self.lines, words)?;
        source.parts.put_revalidate(Some(code));
        self.begin(source);
        Ok(())
    }

    // Reads the rest of a line whose keyword may come next.
    #[tactic(auto, unfolding(crate::specs::Bundle::after_keyword))]
    fn read_part(
        &mut self,
        alloc: Global,
        source: PartialSource,
        keyword: Keyword,
        words: &[&str],
    ) -> Result<(), BundleFault>
        ensures { Gives OutOfMemory (λ _. self.new) result
            (after_keyword self.old source keyword (map (λ w. w.now) words.now)) }
    {
        match keyword {
            Keyword::When => self.read_when(alloc, source, words),
            Keyword::Require => self.read_require(alloc, source, words),
            Keyword::Obviate => self.read_obviate(alloc, source, words),
            Keyword::Retrigger => self.read_retrigger(alloc, source, words),
            Keyword::Revalidate => self.read_revalidate(alloc, source, words),
            Keyword::Do => self.read_do(alloc, source, words),
            Keyword::Native => self.read_native(source, words),
        }
    }

    // Reads a line of a source after its first.
    #[tactic(auto, unfolding(crate::specs::Bundle::after_further))]
    fn read_further(
        &mut self,
        alloc: Global,
        source: PartialSource,
        words: &[&str],
    ) -> Result<(), BundleFault>
        ensures { Gives OutOfMemory (λ _. self.new) result
            (after_further self.old source (map (λ w. w.now) words.now)) }
    {
        let line = self.lines;
        let [word, words @ ..] = words else {
            return Err(BundleFault::Line { line });
        };
        let keyword = keyword_of(word).ok_or(BundleFault::Line { line })?;
        if !source.may_come(keyword) {
            return Err(BundleFault::Line { line });
        }
        self.read_part(alloc, source, keyword, words)
    }

    #[tactic(auto, unfolding(crate::specs::Bundle::after_line))]
    fn read_line(&mut self, alloc: Global, line: &str) -> Result<(), BundleFault>
        requires { self.old.lines + 1 < 2 ^ 64 }
        ensures { Gives OutOfMemory (λ _. self.new) result (after_line self.old line.now) }
    {
        self.lines += 1;
        if line.is_empty() {
            return Ok(());
        }
        let words = split_words(alloc, line)?;
        match self.partial.take() {
            None => self.read_first(alloc, &words),
            Some(source) => self.read_further(alloc, source, &words),
        }
    }

    // Returns the sources, if none is incomplete.
    fn finish(self) -> Result<Vec<SourceCode>, BundleFault>
        requires { self.lines + 1 < 2 ^ 64 }
        ensures { MatchResult result (λ v. at_end self ≡ Ok v.items) (λ e. at_end self ≡ Err e) }
    {
        let BundleParser {
            lines,
            sources,
            partial,
        } = self;
        match partial {
            None => Ok(sources),
            Some(_) => Err(BundleFault::Line { line: lines + 1 }),
        }
    }
}

/// Returns the sources of a bundle, in its order, or the first fault from the top. `Memory` may occur at any point.
#[tactic(auto, unfolding(crate::specs::Bundle::sources_of))]
pub fn unbundle(alloc: Global, text: &str) -> Result<Vec<SourceCode>, BundleFault>
    ensures { Gives OutOfMemory (λ v. v.items) result (sources_of text.now) }
{
    let mut parser = BundleParser::new(alloc);
    for line in text.lines() {
        parser.read_line(alloc, line)?;
    }
    parser.finish()
}
