//! Readers of sources: a function for each production. Callers with a text of sources call `parse`.

ghost use Rattle.std.specs.Prelude.{◌≡◌, ◌<◌, codes};
ghost use Rattle.bb_basis.specs.Results.{Gives};
ghost use Rattle.bb_lang_tree.specs.declared.fault.LangFault.TheVariants.{Memory as OutOfMemory};
ghost use Rattle.bb_lang.specs.Repeats.{as_many};
ghost use Rattle.bb_lang.specs.Statements.{block};
ghost use Rattle.bb_lang.specs.Sources.{part, part_if, reaction, reaction_if, parts, act, source_word, source_name};
ghost use Rattle.bb_lang.specs.Sources.{header, rating, source, next_source, sources_of};

use crate::clauses::read_clauses;
use crate::statements::read_block;
use bb_basis::{Items, Text};
use bb_lang_tree::{
    ActText, Block, HeaderText, LangFault, Parser, PartText, PartTexts, ReactionText, SourceText,
};
use std::alloc::Global;

/// The maximum number of sources in a text.
pub const SOURCE_LIMIT: usize = 256;

/// The maximum number of brackets that are open at once.
pub const NESTING_LIMIT: usize = 64;

/// How many more brackets may be opened inside the bracket of a source.
pub(crate) const BLOCK_NESTING: usize = NESTING_LIMIT - 1;

// Reads the block of a part, inside the bracket of its source.
fn read_part_block(parser: &mut Parser<'_>) -> Result<Block, LangFault>
    ensures { Gives OutOfMemory (λ b. (b, parser.new.state)) result (block BLOCK_NESTING parser.old.state) }
{
    parser.set_nesting(BLOCK_NESTING);
    read_block(parser)
}

// Reads a part that is a block, from its keyword on.
#[tactic(auto, unfolding(crate::specs::Sources::part))]
fn read_part(parser: &mut Parser<'_>) -> Result<PartText, LangFault>
    ensures { Gives OutOfMemory (λ p. (p, parser.new.state)) result (part parser.old.state) }
{
    let place = parser.place();
    parser.advance()?;
    let block = read_part_block(parser)?;
    Ok(PartText { place, block })
}

// Reads a part that is a block, if its keyword is next.
#[tactic(auto, unfolding(crate::specs::Sources::part_if))]
fn read_part_if(parser: &mut Parser<'_>, word: &str) -> Result<Option<PartText>, LangFault>
    ensures { Gives OutOfMemory (λ p. (p, parser.new.state)) result (part_if word.now parser.old.state) }
{
    if !parser.at(word) {
        return Ok(None);
    }
    Ok(Some(read_part(parser)?))
}

// Reads a reaction, from its keyword on.
#[tactic(auto, unfolding(crate::specs::Sources::reaction))]
fn read_reaction(parser: &mut Parser<'_>) -> Result<ReactionText, LangFault>
    ensures { Gives OutOfMemory (λ r. (r, parser.new.state)) result (reaction parser.old.state) }
{
    let place = parser.place();
    parser.advance()?;
    let on = parser.place();
    parser.skip("on")?;
    let class = parser.read_name()?;
    let clauses = read_clauses(parser)?;
    let block = read_part_block(parser)?;
    Ok(ReactionText {
        place,
        on,
        class,
        clauses: Items::from(clauses),
        block,
    })
}

// Reads a reaction, if its keyword is next.
#[tactic(auto, unfolding(crate::specs::Sources::reaction_if))]
fn read_reaction_if(parser: &mut Parser<'_>, word: &str) -> Result<Option<ReactionText>, LangFault>
    ensures { Gives OutOfMemory (λ r. (r, parser.new.state)) result (reaction_if word.now parser.old.state) }
{
    if !parser.at(word) {
        return Ok(None);
    }
    Ok(Some(read_reaction(parser)?))
}

// Reads the parts other than the act.
#[tactic(auto, unfolding(crate::specs::Sources::parts))]
fn read_parts(parser: &mut Parser<'_>) -> Result<PartTexts, LangFault>
    ensures { Gives OutOfMemory (λ p. (p, parser.new.state)) result (parts parser.old.state) }
{
    let require = read_part_if(parser, "require")?;
    let obviate = read_reaction_if(parser, "obviate")?;
    let retrigger = read_reaction_if(parser, "retrigger")?;
    let revalidate = read_part_if(parser, "revalidate")?;
    Ok(PartTexts {
        require,
        obviate,
        retrigger,
        revalidate,
    })
}

// Reads the act: what an activation does.
#[tactic(auto, unfolding(crate::specs::Sources::act))]
fn read_act(parser: &mut Parser<'_>) -> Result<ActText, LangFault>
    ensures { Gives OutOfMemory (λ a. (a, parser.new.state)) result (act parser.old.state) }
{
    if parser.at("do") {
        return Ok(ActText::Do(read_part(parser)?));
    }
    parser.skip("native")?;
    parser.skip(";")?;
    Ok(ActText::Native)
}

// Reads the word `source`.
#[tactic(auto, unfolding(crate::specs::Sources::source_word))]
fn read_source_word(parser: &mut Parser<'_>) -> Result<(), LangFault>
    ensures { Gives OutOfMemory (λ _. parser.new.state) result (source_word parser.old.state) }
{
    let place = parser.place();
    if !parser.at("source") {
        return Err(LangFault::Token { place });
    }
    if parser.source_count() >= SOURCE_LIMIT {
        return Err(LangFault::Limit { place });
    }
    parser.advance()
}

// Reads the name of a source.
#[tactic(auto, unfolding(crate::specs::Sources::source_name))]
fn read_source_name(parser: &mut Parser<'_>) -> Result<Text, LangFault>
    ensures { Gives OutOfMemory (λ t. (t, parser.new.state)) result (source_name parser.old.state) }
{
    let name = parser.name_at()?;
    if parser.has_source(name.as_str()) {
        return Err(LangFault::Twice {
            place: parser.place(),
        });
    }
    parser.add_source(name.as_str())?;
    parser.advance()?;
    Ok(name)
}

// Reads the name and the class of a source.
#[tactic(auto, unfolding(crate::specs::Sources::header))]
fn read_header(parser: &mut Parser<'_>) -> Result<HeaderText, LangFault>
    ensures { Gives OutOfMemory (λ h. (h, parser.new.state)) result (header parser.old.state) }
{
    read_source_word(parser)?;
    let name = read_source_name(parser)?;
    let on = parser.place();
    parser.skip("on")?;
    let class = parser.read_name()?;
    Ok(HeaderText { name, on, class })
}

// Reads the base rating.
#[tactic(auto, unfolding(crate::specs::Sources::rating))]
fn read_rating(parser: &mut Parser<'_>) -> Result<i64, LangFault>
    ensures { Gives OutOfMemory (λ n. (n, parser.new.state)) result (rating parser.old.state) }
{
    parser.skip("rate")?;
    let rate = parser.read_int()?;
    parser.skip(";")?;
    Ok(rate)
}

// Reads a source.
#[tactic(auto, unfolding(crate::specs::Sources::source))]
fn read_source(parser: &mut Parser<'_>) -> Result<SourceText, LangFault>
    ensures { Gives OutOfMemory (λ s. (s, parser.new.state)) result (source parser.old.state) }
{
    let header = read_header(parser)?;
    parser.skip("{")?;
    let clauses = read_clauses(parser)?;
    let rate = read_rating(parser)?;
    let parts = read_parts(parser)?;
    let act = read_act(parser)?;
    parser.skip("}")?;
    Ok(SourceText {
        header,
        clauses: Items::from(clauses),
        rate,
        parts,
        act,
    })
}

// Reads the next source, if the text does not end here.
#[tactic(auto, unfolding(crate::specs::Sources::next_source))]
fn read_next_source(parser: &mut Parser<'_>) -> Result<Option<SourceText>, LangFault>
    ensures { Gives OutOfMemory (λ o. (o, parser.new.state)) result (next_source parser.old.state) }
{
    if parser.kind().is_end() {
        return Ok(None);
    }
    Ok(Some(read_source(parser)?))
}

// Reads sources until the end of the text.
#[tactic(auto, unfolding(crate::specs::Repeats::as_many))]
fn read_sources(parser: &mut Parser<'_>) -> Result<Vec<SourceText>, LangFault>
    ensures { Gives OutOfMemory (λ v. (v.items, parser.new.state)) result (as_many next_source parser.old.state) }
{
    let mut sources = Vec::new(parser.alloc());
    for _turn in 0..parser.left() {
        let Some(source) = read_next_source(parser)? else {
            return Ok(sources);
        };
        sources.push(source)?;
    }
    Ok(sources)
}

/// Returns the sources of a text, in its order, or the first fault: the one at the first location and, of several
/// there, the one with the lowest number. `Memory` may occur at any point.
#[tactic(auto, unfolding(crate::specs::Sources::sources_of))]
pub fn parse(alloc: Global, text: &str) -> Result<Vec<SourceText>, LangFault>
    ensures { Gives OutOfMemory (λ v. v.items) result (sources_of text.now) }
{
    let mut parser = Parser::new(alloc, text.as_bytes());
    parser.advance()?;
    read_sources(&mut parser)
}
