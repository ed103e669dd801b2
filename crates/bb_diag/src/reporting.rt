//! The report on a refusal: the sentence, and the notes below it.

use crate::bundle_notes::note_bundle;
use crate::code_notes::{Found, note_code};
use crate::heading::{Label, Severity, label_of, located, location_of, write_head, write_sentence};
use crate::others::others_than;
use crate::rule_notes::{clause_of, note_rule};
use bb_basis::Memory;
use bb_compile::LangFault;
use bb_compile_scope::{CompileFault, Place};
use bb_diag_input::documents::{note_schema, note_units};
use bb_diag_meaning::{Found as Statement, Reason, explain_clause, explain_statement};
use bb_diag_source::explain;
use bb_diag_text::{Piece, Section, write_excerpt};
use bb_refusal::InputFault;
use bb_schema::Schema;
use std::alloc::Global;
use std::fmt::Write;

/// The sections of an input.
#[derive(Clone, Copy, Debug)]
pub struct Input<'a> {
    pub schema: &'a str,
    pub units: &'a str,
    pub sources: &'a str,
    pub bundle: &'a str,
    /// The whole input, if the sections were cut from one. Messages then begin with its lines, as `input:7:12: `, else
    /// with the lines of a section, as `%sources:4:12: `.
    pub whole: Option<&'a str>,
}

impl<'a> Input<'a> {
    /// Returns the section of the text of sources.
    pub fn text_of_sources(&self) -> Section<'a> {
        self.section("%sources", self.sources)
    }

    /// Returns the section with a header line, given its text.
    pub(crate) fn section(&self, header: &'static str, text: &'a str) -> Section<'a> {
        Section {
            text,
            header,
            whole: self.whole,
        }
    }
}

/// What messages on a text of sources are looked up in.
#[derive(Clone, Copy)]
pub(crate) struct Context<'a, 's> {
    pub(crate) alloc: Global,
    /// The schema, unless it can't be read.
    pub(crate) schema: Option<&'s Schema>,
    pub(crate) input: Input<'a>,
}

/// Explains to people why an input is refused. First comes the head: the location of the fault, as editors read it, and
/// its number. Then comes the sentence of the fault; for a text of sources, this has what was found and what was
/// expected. Below it, on separate lines, follow the details of the location that can be shown: names, the line of a
/// text with a caret under the column, or what an op found and what it needs. If the fault is in the text of sources,
/// messages on the faults of its other sources follow, as memory allows. The text does not end in a line feed.
/// `Memory`: memory ran out.
pub fn report(alloc: Global, fault: &InputFault, input: Input<'_>) -> Result<String, Memory> {
    let mut text = String::new(alloc);
    if !is_of_sources(fault) {
        write_message(alloc, &mut text, Severity::Error, fault, input)?;
        return Ok(text);
    }
    let schema = Schema::read(alloc, input.schema).ok();
    let context = Context {
        alloc,
        schema: schema.as_ref(),
        input,
    };
    let whole = Piece::whole(input.sources);
    if let Some(place) = write_fault(&mut text, context, fault, whole)? {
        if let Ok(others) = others_than(context, place) {
            text.push_str(others.as_str())?;
        }
    }
    Ok(text)
}

/// Says why an input is refused, in one line: the head and the general sentence of the fault. `Memory`: memory ran out.
pub fn brief(alloc: Global, fault: &InputFault) -> Result<String, Memory> {
    let mut text = String::new(alloc);
    if let Some(label) = label_of(fault) {
        write_head(&mut text, None, Severity::Error, label)?;
    }
    write!(text, "{fault}")?;
    Ok(text)
}

// Returns whether a fault may be in the text of sources.
fn is_of_sources(fault: &InputFault) -> bool {
    matches!(
        fault,
        InputFault::Lang(_) | InputFault::Compile { .. } | InputFault::Rule { .. }
    )
}

/// Appends the message on a fault, by its general sentence.
pub(crate) fn write_message(
    alloc: Global,
    text: &mut String,
    severity: Severity,
    fault: &InputFault,
    input: Input<'_>,
) -> Result<(), Memory> {
    if let Some(label) = label_of(fault) {
        let location = location_of(alloc, fault, input)?;
        write_head(text, location, severity, label)?;
    }
    write_sentence(alloc, text, fault)?;
    note(alloc, text, fault, input)
}

/// Appends the message on a fault of a source in a piece of the text of sources, which may have the location of a word
/// of the statement at fault. Returns the location of the fault itself, if it is in the text.
pub(crate) fn write_fault(
    text: &mut String,
    context: Context<'_, '_>,
    fault: &InputFault,
    piece: Piece<'_>,
) -> Result<Option<Place>, Memory> {
    match (reason_of(context, fault, piece)?, label_of(fault)) {
        (Some(reason), Some(label)) => {
            write_reason(text, context, label, source_of(fault), &reason)?;
            Ok(fault.place().or(Some(reason.place)))
        }
        _ => {
            write_message(context.alloc, text, Severity::Error, fault, context.input)?;
            Ok(fault.place())
        }
    }
}

// Returns the name of the source that a fault is in; empty if it is not known.
fn source_of(fault: &InputFault) -> &str {
    match fault {
        InputFault::Compile { name, .. } | InputFault::Rule { name, .. } => name.as_str(),
        _ => "",
    }
}

/// Appends the message on a fault in the text of sources: its location, the reason, and its line. `source` is the name
/// of its source, empty if that is not known.
pub(crate) fn write_reason(
    text: &mut String,
    context: Context<'_, '_>,
    label: Label,
    source: &str,
    reason: &Reason,
) -> Result<(), Memory> {
    let location = located(context.input, reason.place);
    write_head(text, Some(location), Severity::Error, label)?;
    text.push_str(reason.text.as_str())?;
    note_place(text, context.input, source, reason.place)
}

// Appends the line at a location of the text of sources.
fn note_place(
    text: &mut String,
    input: Input<'_>,
    source: &str,
    place: Place,
) -> Result<(), Memory> {
    let line = input.text_of_sources().line(place.line);
    if source.is_empty() {
        line.note(text, "")?;
    } else {
        let called = format!(in *text.allocator(); "source {source}")?;
        line.note(text, called.as_str())?;
    }
    write_excerpt(text, input.sources, place.line, place.column)
}

// Returns where in a piece of the text of sources a fault is, and what is wrong there, if there is anything to add to
// the fault's own sentence.
fn reason_of(
    context: Context<'_, '_>,
    fault: &InputFault,
    piece: Piece<'_>,
) -> Result<Option<Reason>, Memory> {
    match (fault, context.schema) {
        (InputFault::Lang(lang), _) => {
            let text = explain(context.alloc, context.input.sources, piece, *lang)?;
            Ok(placed(*lang, fault.place(), text))
        }
        (_, Some(schema)) => reason_under(context.alloc, schema, fault, piece),
        (_, None) => Ok(None),
    }
}

// Combines the text on a fault with its location.
fn placed(fault: LangFault, place: Option<Place>, text: Option<String>) -> Option<Reason> {
    match (place, text) {
        (Some(place), Some(text)) => Some(Reason {
            place,
            number: fault.number(),
            text,
        }),
        _ => None,
    }
}

// Returns what is wrong, under a schema, with a statement or a clause of a piece of the text of sources.
fn reason_under(
    alloc: Global,
    schema: &Schema,
    fault: &InputFault,
    piece: Piece<'_>,
) -> Result<Option<Reason>, Memory> {
    match fault {
        InputFault::Compile {
            name,
            fault: CompileFault::At { flaw, place },
        } => {
            let found = Statement {
                name: name.as_str(),
                flaw: *flaw,
                place: *place,
            };
            explain_statement(alloc, schema, piece, found)
        }
        InputFault::Rule { name, fault: rule } => match clause_of(name.as_str(), *rule) {
            None => Ok(None),
            Some(clause) => explain_clause(alloc, schema, piece, clause),
        },
        _ => Ok(None),
    }
}

// Appends the notes on a fault.
fn note(
    alloc: Global,
    text: &mut String,
    fault: &InputFault,
    input: Input<'_>,
) -> Result<(), Memory> {
    match fault {
        InputFault::Schema(fault) => {
            note_schema(alloc, text, *fault, input.section("%schema", input.schema))
        }
        InputFault::Units(fault) => {
            let units = input.section("%units", input.units);
            note_units(alloc, text, *fault, input.schema, units)
        }
        InputFault::Lang(_) | InputFault::Compile { .. } => match fault.place() {
            None => Ok(()),
            Some(place) => note_place(text, input, source_of(fault), place),
        },
        InputFault::Bundle(fault) => note_bundle(alloc, text, *fault, input),
        InputFault::Verify { name, part, fault } => {
            let found = Found {
                name: name.as_str(),
                part: *part,
                fault: *fault,
            };
            note_code(alloc, text, found, input)
        }
        InputFault::Rule { name, fault } => note_rule(text, name.as_str(), *fault, input),
        InputFault::Memory => Ok(()),
    }
}
