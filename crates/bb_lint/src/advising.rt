//! The advice on an input: warnings about its schema and sources, then what their parts cost.

ghost use Rattle.bb_lint.specs.proving.Admitted.{AreAdmitted};

use crate::finds::Admitted;
use crate::first_foci::write_foci;
use crate::mistaken::source_names;
use crate::rating::{any_makes_focus, stays_below};
use crate::repeating::{is_repeated, write_repeated};
use crate::reserved::write_reserved;
use crate::sentence::{Part, write_code, write_empty_finds, write_mistakes, write_vain_links};
use crate::source_sentence::{write_clauses, write_never_rates, write_rating, write_restless};
use crate::triggered::{is_restless, never_rates};
use bb_basis::{Memory, Names};
use bb_board::Note;
use bb_diag_text::{FirstFocus, Section};
use bb_lint_parts::{Costed, Crowds, Possible, SourceSites, Texts, write_costs};
use bb_rules::Source;
use bb_schema::Schema;
use std::alloc::Global;

/// An input whose schema and sources are accepted.
#[derive(Clone, Copy)]
pub struct Accepted<'a> {
    pub schema: &'a Schema,
    pub sources: &'a [Source],
    /// The section of the sources that are text. These come first, in its order.
    pub text: Section<'a>,
    /// What the initial units note, or `None` if they are refused or unknown.
    pub first: Option<&'a [Note]>,
    /// The foci among the initial units.
    pub foci: &'a [FirstFocus],
    /// The floor of a run.
    pub floor: i64,
}

// What is known of an input before its sources are examined.
#[derive(Drop)]
struct Known {
    admitted: Admitted,
    names: Names,
    possible: Possible,
    // Whether a source may make a focus.
    raised: bool,
}

/// Returns the advice on an accepted input for people; every line ends in a line feed. First come warnings about
/// definite mistakes: names in the schema, foci among the initial units, then source by source and part by part. Then,
/// if there are sources, come a table of what their parts cost and the costs that depend on what exists. A warning
/// about a source that is text has its line and column, and the line of the input with a caret below; one about
/// bytecode has the op. `Memory`: memory ran out.
pub fn advice(alloc: Global, input: Accepted<'_>) -> Result<String, Memory> {
    let Accepted {
        schema,
        sources,
        first,
        floor,
        ..
    } = input;
    let mut text = String::new(alloc);
    write_reserved(&mut text, schema)?;
    let texts = Texts::of(alloc, input.text)?;
    let known = Known {
        admitted: Admitted::of(alloc, schema)?,
        names: source_names(alloc, sources)?,
        possible: Possible::of(alloc, schema, sources, first)?,
        raised: any_makes_focus(schema, sources),
    };
    write_foci(&mut text, schema, &known.names, input.foci)?;
    for (index, source) in sources.iter().enumerate() {
        let sites = texts.sites(alloc, index, source)?;
        write_codes(alloc, &mut text, schema, &known, source, &sites)?;
        write_source(alloc, &mut text, schema, &known, floor, source, &sites)?;
    }
    if !sources.is_empty() {
        let crowds = Crowds::of(alloc, schema, sources, first)?;
        let costed = Costed {
            schema,
            sources,
            crowds: &crowds,
        };
        write_costs(alloc, &mut text, &texts, costed)?;
    }
    Ok(text)
}

// Appends the warnings about the codes of a source, part by part.
fn write_codes(
    alloc: Global,
    text: &mut String,
    schema: &Schema,
    known: &Known,
    source: &Source,
    sites: &SourceSites<'_>,
) -> Result<(), Memory>
    requires { AreAdmitted schema.now known.now.admitted.lists.items }
{
    for code in source.codes() {
        if let Some(checked) = code {
            let ops = sites.ops(alloc, checked)?;
            let part = Part {
                source,
                checked,
                sites: &ops,
            };
            write_code(alloc, text, schema, &known.admitted, part)?;
            write_empty_finds(text, schema, &known.possible, part)?;
            write_mistakes(text, schema, &known.names, part)?;
            write_vain_links(alloc, text, schema, part)?;
        }
    }
    Ok(())
}

// Appends the warnings about a source as a whole.
fn write_source(
    alloc: Global,
    text: &mut String,
    schema: &Schema,
    known: &Known,
    floor: i64,
    source: &Source,
    sites: &SourceSites<'_>,
) -> Result<(), Memory> {
    write_clauses(text, schema, &known.possible, source, sites)?;
    if never_rates(source) {
        write_never_rates(text, source, sites)?;
    }
    if is_restless(floor, source) {
        write_restless(text, source, sites)?;
    }
    if let Some(index) = is_repeated(alloc, schema, floor, source)? {
        write_repeated(text, source, sites, index)?;
    }
    if stays_below(known.raised, floor, source) {
        write_rating(text, source, sites, floor)?;
    }
    Ok(())
}
