//! The lines of a trace. The page (page.rt) adds one for each note. Cases of executions (bb_cases) use the same lines.

ghost use Rattle.std.specs.Prelude.{◌≡◌, ◌++◌, ◌∷◌, [], OnOk, string_bytes};
ghost use Rattle.bb_board.specs.declared.note.Note.TheVariants.{Said as says};
ghost use Rattle.bb_native.specs.Refusals.{refusal_number};
ghost use Rattle.bb_trace.specs.End.{Due};
ghost use Rattle.bb_trace.specs.TraceText.{board_note_text, change_text, choice_text, closed_text, decline_text, end_text, ended_text};
ghost use Rattle.bb_trace.specs.TraceText.{event_text, line, numbered_text, refused_text, said_text, slot_name, source_name, trigger_text};
ghost use Rattle.bb_trace.specs.TraceText.{value_text};

use crate::end::{End, EndKind};
use crate::note::Note;
use bb_agenda::Activation;
use bb_board::{Change, Event, Said};
use bb_native::{Closing, Refusal};
use bb_rules::Source;
use bb_run_plan::Plan;
use bb_schema::{Schema, UnitId};
use bb_schema_classes::{ClassId, SlotId, Value};
use serde_json::Value as Json;
use std::alloc::{AllocError, Global};
use std::fmt::Write;

/// Appends the line of a note. The error: out of memory.
pub(crate) fn add_note(
    alloc: Global,
    text: &mut String,
    plan: &Plan,
    note: &Note,
) -> Result<(), AllocError>
    ensures { OnOk result (string_bytes text.new ≡ string_bytes text.old ++ line plan.now note.now) }
{
    match note {
        Note::Board(note) => add_board_note(alloc, text, plan.schema(), note),
        Note::Triggered(activation) => { add_trigger(text, plan.sources(), *activation) }
        Note::Declined { source, unit } => add_decline(text, plan.sources(), *source, *unit),
        Note::Obviated { number } => writeln!(text, "obviate {number}"),
        Note::Retriggered { number, base } => writeln!(text, "retrigger {number} {base}"),
        Note::Chosen {
            cycle,
            activation,
            rating,
        } => add_choice(text, plan.sources(), *cycle, *activation, *rating),
        Note::Invalid { number } => writeln!(text, "invalid {number}"),
        Note::Ended {
            steps,
            found,
            budget,
        } => add_end(text, *steps, *found, *budget),
        Note::Refused { ask, refusal } => add_refused(text, *ask, *refusal),
        Note::NativeEnded { asks } => writeln!(text, "end native {asks}"),
        Note::Posted => writeln!(text, "post"),
        Note::PostEnded { asks } => writeln!(text, "end post {asks}"),
        Note::Finished(end) => add_finish(text, *end),
        Note::Closed(closing) => add_closed(text, closing),
    }
}

/// Appends the line of a note of the blackboard. The error: out of memory.
pub fn add_board_note(
    alloc: Global,
    text: &mut String,
    schema: &Schema,
    note: &bb_board::Note,
) -> Result<(), AllocError>
    ensures { OnOk result (string_bytes text.new
        ≡ string_bytes text.old ++ (board_note_text schema.now note.now ++ 10 ∷ [])) }
{
    match note {
        bb_board::Note::Event(event) => add_event(text, schema, *event),
        bb_board::Note::Said(values) => add_said(alloc, text, schema, values.as_slice()),
    }
}

fn add_event(text: &mut String, schema: &Schema, event: Event) -> Result<(), AllocError>
    ensures { OnOk result (string_bytes text.new
        ≡ string_bytes text.old ++ (event_text schema.now event ++ 10 ∷ [])) }
{
    match event {
        Event::Change {
            unit,
            class,
            change,
        } => add_change(text, schema, unit, class, change),
        Event::Quiescence => writeln!(text, "quiescence"),
    }
}

fn add_change(
    text: &mut String,
    schema: &Schema,
    unit: UnitId,
    class: ClassId,
    change: Change,
) -> Result<(), AllocError>
    ensures { OnOk result (string_bytes text.new
        ≡ string_bytes text.old ++ (change_text schema.now unit class change ++ 10 ∷ [])) }
{
    match change {
        Change::Create => {
            let name = schema.class_name(class).unwrap_or("");
            writeln!(text, "create {unit} {name}")
        }
        Change::Delete => writeln!(text, "delete {unit}"),
        Change::Update(slot) => {
            let name = slot_name(schema, slot);
            writeln!(text, "set {unit}.{name}")
        }
        Change::Link { slot, partner } => {
            let name = slot_name(schema, slot);
            writeln!(text, "link {unit}.{name} {partner}")
        }
        Change::Unlink { slot, partner } => {
            let name = slot_name(schema, slot);
            writeln!(text, "unlink {unit}.{name} {partner}")
        }
        Change::Enter(space) => {
            let name = schema.space_name(space).unwrap_or("");
            writeln!(text, "enter {unit} {name}")
        }
        Change::Leave(space) => {
            let name = schema.space_name(space).unwrap_or("");
            writeln!(text, "leave {unit} {name}")
        }
    }
}

fn slot_name(schema: &Schema, slot: SlotId) -> &str
    ensures { result.now ≡ slot_name schema.now slot }
{
    schema.slot_name(slot).unwrap_or("")
}

fn add_said(
    alloc: Global,
    text: &mut String,
    schema: &Schema,
    values: &[Said],
) -> Result<(), AllocError>
    ensures { OnOk result (string_bytes text.new
        ≡ string_bytes text.old ++ (board_note_text schema.now (says values.now) ++ 10 ∷ [])) }
{
    text.push_str("say")?;
    for value in values {
        text.push_str(" ")?;
        add_said_value(alloc, text, schema, value)?;
    }
    text.push_str("\n")?;
    Ok(())
}

fn add_said_value(
    alloc: Global,
    text: &mut String,
    schema: &Schema,
    said: &Said,
) -> Result<(), AllocError>
    ensures { OnOk result (string_bytes text.new ≡ string_bytes text.old ++ said_text schema.now said.now) }
{
    match said {
        Said::Value(value) => add_value(alloc, text, schema, value),
        Said::Unit(unit) => write!(text, "#{unit}"),
    }
}

/// Appends a value as `say` writes it. The error: out of memory.
pub fn add_value(
    alloc: Global,
    text: &mut String,
    schema: &Schema,
    value: &Value,
) -> Result<(), AllocError>
    ensures { OnOk result (string_bytes text.new ≡ string_bytes text.old ++ value_text schema.now value.now) }
{
    match value {
        Value::Int(number) => write!(text, "{number}"),
        Value::Text(value) => {
            let json = Json::String(String::from_str(alloc, value.as_str())?).to_string(alloc)?;
            text.push_str(json.as_str())?;
            Ok(())
        }
        Value::Bool(true) => write!(text, "true"),
        Value::Bool(false) => write!(text, "false"),
        Value::Label(set, label) => {
            let name = schema.label_name(*set, *label).unwrap_or("");
            write!(text, "{name}")
        }
        Value::Interval(low, high) => write!(text, "[{low},{high}]"),
    }
}

fn source_name(sources: &[Source], place: u16) -> &str
    ensures { result.now ≡ source_name sources.now place }
{
    match sources.get(place as usize) {
        Some(source) => source.parts().name.as_str(),
        None => "",
    }
}

fn add_trigger(
    text: &mut String,
    sources: &[Source],
    activation: Activation,
) -> Result<(), AllocError>
    ensures { OnOk result (string_bytes text.new
        ≡ string_bytes text.old ++ (trigger_text sources.now activation ++ 10 ∷ [])) }
{
    write!(text, "trigger ")?;
    add_rated(text, sources, activation, i128::from(activation.base))
}

fn add_decline(
    text: &mut String,
    sources: &[Source],
    source: u16,
    unit: UnitId,
) -> Result<(), AllocError>
    ensures { OnOk result (string_bytes text.new
        ≡ string_bytes text.old ++ (decline_text sources.now source unit ++ 10 ∷ [])) }
{
    let name = source_name(sources, source);
    writeln!(text, "decline {name} unit {unit}")
}

// Appends the number of an activation, its source, unit and rating, and a line feed.
fn add_rated(
    text: &mut String,
    sources: &[Source],
    activation: Activation,
    rating: i128,
) -> Result<(), AllocError>
    ensures { OnOk result (string_bytes text.new
        ≡ string_bytes text.old ++ (numbered_text sources.now activation rating ++ 10 ∷ [])) }
{
    let name = source_name(sources, activation.source);
    let number = activation.number;
    let unit = activation.unit;
    writeln!(text, "{number} {name} unit {unit} rating {rating}")
}

fn add_choice(
    text: &mut String,
    sources: &[Source],
    cycle: u64,
    activation: Activation,
    rating: i128,
) -> Result<(), AllocError>
    ensures { OnOk result (string_bytes text.new
        ≡ string_bytes text.old ++ (choice_text sources.now cycle activation rating ++ 10 ∷ [])) }
{
    write!(text, "cycle {cycle} act ")?;
    add_rated(text, sources, activation, rating)
}

fn add_end(text: &mut String, steps: u128, found: u32, budget: u128) -> Result<(), AllocError>
    ensures { OnOk result (string_bytes text.new
        ≡ string_bytes text.old ++ (ended_text steps found budget ++ 10 ∷ [])) }
{
    writeln!(text, "end steps {steps} found {found} budget {budget}")
}

fn add_finish(text: &mut String, end: End) -> Result<(), AllocError>
    ensures { OnOk result (string_bytes text.new ≡ string_bytes text.old ++ (end_text end ++ 10 ∷ [])) }
{
    match end.kind {
        EndKind::Quiescence => writeln!(text, "finish quiescence"),
        EndKind::Limit => writeln!(text, "finish limit"),
        EndKind::Full => writeln!(text, "finish full"),
        EndKind::Due(activation) => add_due(text, activation),
    }
}

// No trace has this line: a run does not end while a native is due.
fn add_due(text: &mut String, activation: Activation) -> Result<(), AllocError>
    ensures { OnOk result (string_bytes text.new
        ≡ string_bytes text.old ++ (end_text (Due activation) ++ 10 ∷ [])) }
{
    let number = activation.number;
    writeln!(text, "finish due {number}")
}

fn add_refused(text: &mut String, ask: u64, refusal: Refusal) -> Result<(), AllocError>
    ensures { OnOk result (string_bytes text.new
        ≡ string_bytes text.old ++ (refused_text ask (refusal_number refusal) ++ 10 ∷ [])) }
{
    let number = refusal.number();
    add_refused_number(text, ask, number)
}

fn add_refused_number(text: &mut String, ask: u64, number: u8) -> Result<(), AllocError>
    ensures { OnOk result (string_bytes text.new
        ≡ string_bytes text.old ++ (refused_text ask number ++ 10 ∷ [])) }
{
    writeln!(text, "refused ask {ask} {number}")
}

fn add_closed(text: &mut String, closing: &Closing) -> Result<(), AllocError>
    ensures { OnOk result (string_bytes text.new
        ≡ string_bytes text.old ++ (closed_text closing.now ++ 10 ∷ [])) }
{
    let name = closing.name.as_str();
    let number = closing.number;
    writeln!(text, "closed {name} {number}")
}
