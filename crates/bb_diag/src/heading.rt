//! The head of a message: the location of a fault, as editors read it, and its number; and then the sentence of the
//! fault without what the head says. Every report begins with one.

use crate::reporting::Input;
use crate::rule_notes::rule_line;
use bb_basis::Memory;
use bb_board::{UnitsFault, UnitsFlaw};
use bb_bundle::BundleFault;
use bb_compile_scope::{CompileFault, Place};
use bb_diag_input::documents::json_place;
use bb_diag_text::SectionLine;
use bb_refusal::InputFault;
use bb_schema_classes::{SchemaFault, SchemaFlaw};
use std::alloc::Global;
use std::fmt::Write;

/// The number of a fault: the step that refuses, in words, and the number among its faults.
#[derive(Clone, Copy, Debug)]
pub(crate) struct Label {
    pub(crate) step: &'static str,
    pub(crate) number: u8,
}

/// What a message is: why the input is refused, or why a run would refuse it.
#[derive(Clone, Copy, Debug)]
pub(crate) enum Severity {
    Error,
    Warning,
}

impl Severity {
    // Returns the word for it.
    fn word(self) -> &'static str {
        match self {
            Severity::Error => "error",
            Severity::Warning => "warning",
        }
    }

    // Returns what precedes the sentence of the fault.
    fn intro(self) -> &'static str {
        match self {
            Severity::Error => "",
            Severity::Warning => "the first units would be refused: ",
        }
    }
}

/// Where a fault is: the line of a section, and perhaps the column in it.
#[derive(Clone, Copy, Debug)]
pub(crate) struct Location {
    line: SectionLine,
    column: Option<u64>,
}

/// Returns the number of a fault; `None` if memory ran out.
pub(crate) fn label_of(fault: &InputFault) -> Option<Label> {
    let (step, number) = match fault {
        InputFault::Schema(fault) => ("schema", fault.number()),
        InputFault::Units(fault) => ("units", fault.number()),
        InputFault::Lang(fault) => ("lang", fault.number()),
        InputFault::Compile { fault, .. } => ("compile", fault.number()),
        InputFault::Bundle(BundleFault::Code { fault, .. }) => ("bundle code", fault.number()),
        InputFault::Bundle(fault) => ("bundle", fault.number()),
        InputFault::Verify { fault, .. } => ("verify", fault.flaw.number()),
        InputFault::Rule { fault, .. } => ("rule", fault.number()),
        InputFault::Memory => return None,
    };
    Some(Label { step, number })
}

// Returns where a document of an input stops being JSON.
fn located_json(
    alloc: Global,
    header: &'static str,
    document: &str,
    input: Input<'_>,
) -> Result<Option<Location>, Memory> {
    match json_place(alloc, document)? {
        None => Ok(None),
        Some((line, column)) => Ok(Some(Location {
            line: input.section(header, document).line(line),
            column: Some(column),
        })),
    }
}

/// Returns a location in the text of sources.
pub(crate) fn located(input: Input<'_>, place: Place) -> Location {
    Location {
        line: input.text_of_sources().line(place.line),
        column: Some(place.column),
    }
}

// Returns a line of the bundle.
fn located_line(input: Input<'_>, line: u64) -> Location {
    Location {
        line: input.section("%bundle", input.bundle).line(line),
        column: None,
    }
}

/// Returns the location of a fault in the input, if it is known.
pub(crate) fn location_of(
    alloc: Global,
    fault: &InputFault,
    input: Input<'_>,
) -> Result<Option<Location>, Memory> {
    let line = match fault {
        InputFault::Schema(
            SchemaFault::At {
                flaw: SchemaFlaw::Json,
                ..
            },
        ) => return located_json(alloc, "%schema", input.schema, input),
        InputFault::Units(
            UnitsFault::At {
                flaw: UnitsFlaw::Json,
                ..
            },
        ) => return located_json(alloc, "%units", input.units, input),
        InputFault::Bundle(
            BundleFault::Line { line } | BundleFault::Hex { line } | BundleFault::Code { line, .. },
        ) => Some(*line),
        InputFault::Rule { name, fault } => rule_line(name.as_str(), *fault, input.bundle),
        _ => return Ok(fault.place().map(|place| located(input, place))),
    };
    Ok(line.map(|line| located_line(input, line)))
}

/// Appends the head of a message: its location, its severity, and the number of the fault.
pub(crate) fn write_head(
    text: &mut String,
    location: Option<Location>,
    severity: Severity,
    label: Label,
) -> Result<(), Memory> {
    match location {
        None => text.push_str("input")?,
        Some(Location { line, column }) => {
            line.write_place(text)?;
            if let Some(column) = column {
                write!(text, ":{column}")?;
            }
        }
    }
    let word = severity.word();
    write!(text, ": {word}[{} {}]: ", label.step, label.number)?;
    text.push_str(severity.intro())
}

// Returns what follows the first mark of a text; the whole text without the mark.
fn behind<'a>(text: &'a str, mark: &str) -> &'a str {
    match text.split_once(mark) {
        Some((_, rest)) => rest,
        None => text,
    }
}

/// Appends the sentence of a fault without the section and the location that the head has.
pub(crate) fn write_sentence(
    alloc: Global,
    text: &mut String,
    fault: &InputFault,
) -> Result<(), Memory> {
    let said = format!(in alloc; "{fault}")?;
    let said = said.as_str();
    let short = match fault {
        InputFault::Schema(_) => said.strip_prefix("schema, ").unwrap_or(behind(said, ": ")),
        InputFault::Units(_) => said.strip_prefix("units, ").unwrap_or(behind(said, ": ")),
        InputFault::Lang(_) | InputFault::Compile { .. } | InputFault::Bundle(_) => {
            behind(said, ": ")
        }
        _ => said,
    };
    text.push_str(short)
}
