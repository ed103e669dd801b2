//! The table of what the parts of sources cost, and the lines below it. `advice` (bb_lint) writes it.

use crate::cost_notes::write_cost_notes;
use crate::crowds::Crowds;
use crate::source_sites::Texts;
use crate::widths::{NUMBERS, Widths, write_left, write_number, write_right};
use bb_basis::Memory;
use bb_rules::{Act, Source};
use bb_schema::Schema;
use bb_verify::{Checked, FOUND_LIMIT};
use std::alloc::Global;

// The heads of the columns of numbers.
const HEADS: [&str; NUMBERS] = ["ops", "loops", "budget of 0 found", "1", "100", "65,536"];

// The width of the longest word of a part.
const PART_WIDTH: usize = 10;

// Returns the numbers of a code: its ops and loops, and its budgets by how many units are found.
fn costs_of(checked: &Checked) -> [u128; NUMBERS] {
    [
        checked.code().ops().len() as u128,
        checked.code().loops().len() as u128,
        checked.budget(0),
        checked.budget(1),
        checked.budget(100),
        checked.budget(FOUND_LIMIT),
    ]
}

// Widens the columns for the lines of a source.
fn fit(widths: &mut Widths, source: &Source) {
    widths.fit_source(source.parts().name.as_str());
    for code in source.codes() {
        if let Some(checked) = code {
            widths.fit_numbers(&costs_of(checked));
        }
    }
}

// Appends the names of a source and a part.
fn write_names(text: &mut String, width: usize, source: &str, part: &str) -> Result<(), Memory> {
    write_left(text, source, width)?;
    text.push_str("  ")?;
    write_left(text, part, PART_WIDTH)
}

fn write_heads(text: &mut String, widths: &Widths) -> Result<(), Memory> {
    write_names(text, widths.source, "source", "part")?;
    for i in 0..NUMBERS {
        write_right(text, HEADS[i], widths.numbers[i])?;
    }
    text.push_str("\n")
}

// Appends the line of a code.
fn write_line(
    text: &mut String,
    widths: &Widths,
    source: &str,
    checked: &Checked,
) -> Result<(), Memory> {
    write_names(text, widths.source, source, checked.part().word())?;
    let costs = costs_of(checked);
    for i in 0..NUMBERS {
        write_number(text, costs[i], widths.numbers[i])?;
    }
    text.push_str("\n")
}

// Appends the lines of a source.
fn write_lines(text: &mut String, widths: &Widths, source: &Source) -> Result<(), Memory> {
    let parts = source.parts();
    for code in source.codes() {
        if let Some(checked) = code {
            write_line(text, widths, parts.name.as_str(), checked)?;
        }
    }
    if let Act::Native = parts.act {
        write_left(text, parts.name.as_str(), widths.source)?;
        text.push_str("  native\n")?;
    }
    Ok(())
}

/// Sources whose costs are reported, and the facts known about them.
#[derive(Clone, Copy)]
pub struct Costed<'a, 'c> {
    pub schema: &'a Schema,
    pub sources: &'a [Source],
    pub crowds: &'c Crowds,
}

/// Appends a table of what the parts of sources cost, with heads and a line for each part of each source, and then the
/// costs that depend on what exists.
pub fn write_costs(
    alloc: Global,
    text: &mut String,
    texts: &Texts<'_>,
    costed: Costed<'_, '_>,
) -> Result<(), Memory> {
    let sources = costed.sources;
    let mut widths = Widths::of("source", &HEADS);
    for source in sources {
        fit(&mut widths, source);
    }
    write_heads(text, &widths)?;
    for source in sources {
        write_lines(text, &widths, source)?;
    }
    write_cost_notes(alloc, text, texts, costed)
}
