//! The writer of bundles. Callers that write a bundle call `bundle`; `unbundle` reads the text again.

ghost use Rattle.std.specs.Prelude.{◌≡◌, ◌++◌, ◌∷◌, [], map, All, IfOk, OnOk, string_bytes};
ghost use Rattle.hex.specs.Hex.{IsBytes, encode_lower};
ghost use Rattle.bb_lang_tree.specs.declared.source_text.ClauseText.TheVariants.{Change};
ghost use Rattle.bb_bundle.specs.Bundle.{sources_of};
ghost use Rattle.bb_bundle.specs.Written.{line_text, change_words, clause_words, code_digits, code_lines};
ghost use Rattle.bb_bundle.specs.Written.{reaction_lines, act_words, header_words, source_lines, text_of, bundle_text};
ghost use Rattle.bb_bundle.specs.proving.Again.{IsAgain, IsRate, AreAgain, IsReactionAgain, IsActAgain};
ghost use Rattle.bb_bundle.specs.proving.Again.{IsSourceAgain, IsSpelledAgain};

use crate::draft::{ActDraft, Header, ReactionDraft, SourceDraft};
use crate::source_code::SourceCode;
use bb_code::Code;
use bb_lang_tree::{ChangeText, ClauseText};
use std::alloc::{AllocError, Global};
use std::fmt::Write;

fn put_change(out: &mut String, kind: &ChangeText, class: &str) -> Result<(), AllocError>
    ensures { OnOk result (string_bytes out.new
        ≡ string_bytes out.old ++ line_text (clause_words (Change kind.now class.now))) }
{
    match kind {
        ChangeText::Create => writeln!(out, "when create {class}"),
        ChangeText::Delete => writeln!(out, "when delete {class}"),
        ChangeText::Update(slot) => {
            let slot = slot.as_str();
            writeln!(out, "when update {class}.{slot}")
        }
        ChangeText::Link(slot) => {
            let slot = slot.as_str();
            writeln!(out, "when link {class}.{slot}")
        }
        ChangeText::Unlink(slot) => {
            let slot = slot.as_str();
            writeln!(out, "when unlink {class}.{slot}")
        }
        ChangeText::Enter(space) => {
            let space = space.as_str();
            writeln!(out, "when enter {class} {space}")
        }
        ChangeText::Leave(space) => {
            let space = space.as_str();
            writeln!(out, "when leave {class} {space}")
        }
    }
}

fn put_clause(out: &mut String, clause: &ClauseText) -> Result<(), AllocError>
    ensures { OnOk result (string_bytes out.new ≡ string_bytes out.old ++ line_text (clause_words clause.now)) }
{
    match clause {
        ClauseText::Change { kind, class } => put_change(out, kind, class.as_str()),
        ClauseText::Quiescence => writeln!(out, "when quiescence"),
    }
}

#[tactic(auto, unfolding(crate::specs::Written::text_of))]
fn put_clauses(out: &mut String, clauses: &[ClauseText]) -> Result<(), AllocError>
    ensures { OnOk result (string_bytes out.new
        ≡ string_bytes out.old ++ text_of (map clause_words clauses.now)) }
{
    for clause in clauses {
        put_clause(out, clause)?;
    }
    Ok(())
}

// Returns bytes as hex digits.
fn hex_of(alloc: Global, bytes: &[u8]) -> Result<String, AllocError>
    ensures digits { IfOk result (λ digits. string_bytes digits ≡ encode_lower bytes.now) }
    ensures bytes { IsBytes bytes.now }
{
    hex::encode(alloc, bytes)
}

// Returns a code as hex digits.
fn digits_of(alloc: Global, code: &Code) -> Result<String, AllocError>
    ensures digits { IfOk result (λ digits. string_bytes digits ≡ code_digits code.now) }
    ensures again { OnOk result (IsAgain code.now) }
{
    // For the proof: that the code is within its limits.
    let _ops = code.ops();
    let bytes = code.encode(alloc)?;
    hex_of(alloc, bytes.as_slice())
}

// Writes a part that consists of a code only.
#[tactic(auto, unfolding(crate::specs::Written::text_of))]
fn put_code(
    alloc: Global,
    out: &mut String,
    keyword: &str,
    code: &Option<Code>,
) -> Result<(), AllocError>
    ensures written { OnOk result (string_bytes out.new
        ≡ string_bytes out.old ++ text_of (code_lines keyword.now code.now)) }
    ensures again { OnOk result (AreAgain code.now) }
{
    let Some(code) = code else {
        return Ok(());
    };
    let digits = digits_of(alloc, code)?;
    writeln!(out, "{keyword} {digits}")
}

#[tactic(auto, unfolding(crate::specs::Written::text_of))]
fn put_reaction(
    alloc: Global,
    out: &mut String,
    keyword: &str,
    reaction: &Option<ReactionDraft<Code>>,
) -> Result<(), AllocError>
    ensures written { OnOk result (string_bytes out.new
        ≡ string_bytes out.old ++ text_of (reaction_lines keyword.now reaction.now)) }
    ensures again { OnOk result (IsReactionAgain reaction.now) }
{
    let Some(reaction) = reaction else {
        return Ok(());
    };
    let class = reaction.class.as_str();
    let digits = digits_of(alloc, &reaction.code)?;
    writeln!(out, "{keyword} {class} {digits}")?;
    put_clauses(out, reaction.clauses.as_slice())
}

fn put_act(alloc: Global, out: &mut String, act: &ActDraft<Code>) -> Result<(), AllocError>
    ensures written { OnOk result (string_bytes out.new
        ≡ string_bytes out.old ++ line_text (act_words act.now)) }
    ensures again { OnOk result (IsActAgain act.now) }
{
    match act {
        ActDraft::Do(code) => {
            let digits = digits_of(alloc, code)?;
            writeln!(out, "do {digits}")
        }
        ActDraft::Native => writeln!(out, "native"),
    }
}

fn put_header(out: &mut String, header: &Header) -> Result<(), AllocError>
    ensures written { OnOk result (string_bytes out.new
        ≡ string_bytes out.old ++ line_text (header_words header.now)) }
    ensures rate { IsRate header.now.rate }
{
    let name = header.name.as_str();
    let class = header.class.as_str();
    let rate = header.rate;
    writeln!(out, "source {name} {class} {rate}")
}

fn put_draft(alloc: Global, out: &mut String, source: &SourceDraft<Code>) -> Result<(), AllocError>
    ensures written { OnOk result (string_bytes out.new
        ≡ string_bytes out.old ++ text_of (source_lines source.now)) }
    ensures again { OnOk result (IsSourceAgain source.now) }
{
    put_header(out, &source.header)?;
    put_clauses(out, source.header.triggers.as_slice())?;
    put_code(alloc, out, "require", &source.parts.require)?;
    put_reaction(alloc, out, "obviate", &source.parts.obviate)?;
    put_reaction(alloc, out, "retrigger", &source.parts.retrigger)?;
    put_code(alloc, out, "revalidate", &source.parts.revalidate)?;
    put_act(alloc, out, &source.act)
}

fn put_source(alloc: Global, out: &mut String, source: &SourceCode) -> Result<(), AllocError>
    ensures written { OnOk result (string_bytes out.new
        ≡ string_bytes out.old ++ text_of (source_lines source.now)) }
    ensures again { OnOk result (IsSpelledAgain source.now) }
{
    put_draft(alloc, out, source.draft())
}

/// Returns the text of sources, which `unbundle` reads again: each line ends with a line feed, and hex digits are lower
/// case. Fails only if memory runs out.
#[tactic(auto, unfolding(crate::specs::Written::bundle_text))]
pub fn bundle(alloc: Global, sources: &[SourceCode]) -> Result<String, AllocError>
    ensures written { IfOk result (λ text. string_bytes text ≡ bundle_text sources.now) }
    ensures again { IfOk result (λ text. sources_of (string_bytes text) ≡ Ok sources.now) }
{
    let mut out = String::new(alloc);
    for source in sources {
        put_source(alloc, &mut out, source)?;
    }
    Ok(out)
}
