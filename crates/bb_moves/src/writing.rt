//! Writes moves in the format that `moves_of` reads. Hosts that keep a history call `history`.

ghost use Rattle.std.specs.Prelude.{◌≡◌, ◌++◌, ◌∷◌, [], IfOk, IfSome, None, Ok, OnOk, Some, if◌then◌else◌};
ghost use Rattle.std.specs.Prelude.{codes, option_map, string_bytes};
ghost use Rattle.std.specs.Fmt.{decimal};
ghost use Rattle.serde_json.specs.Data.{string};
ghost use Rattle.serde_json.specs.Written.{compact_text};
ghost use Rattle.bb_moves.specs.Meant.{meant};
ghost use Rattle.bb_moves.specs.MovesText.{moves_of};
ghost use Rattle.bb_moves.specs.Written.{ask_line, asks_text, can_tell, label_text, move_text, named_text, spelt};

use crate::moves::Move;
use crate::telling::can_tell;
use bb_basis::Memory;
use bb_schema::{Schema, UnitId, Value};
use bb_schema_classes::{LabelId, LabelSetId};
use bb_shell::Ask;
use serde_json::Value as Json;
use std::alloc::Global;
use std::fmt::Write;

/// Returns the text of a move, whole lines in the format of histories, or `None` if the format can't express it: a
/// class, a slot or a space without a name, a label that the schema doesn't have, or an interval that ends before it
/// begins. The schema is the run's. `moves_of` reads the text as this one move. Therefore a log of texts, one after the
/// other, is read as the moves that were made. Fails only if memory runs out.
pub fn history(alloc: Global, schema: &Schema, each: &Move) -> Result<Option<String>, Memory>
    ensures text { IfOk result (λ t. option_map string_bytes t ≡ (if can_tell schema.now (meant each.now)
        then Some (move_text schema.now (meant each.now)) else None)) }
    ensures again { IfOk result (λ t. IfSome t (λ x.
        moves_of schema.now (string_bytes x) ≡ Ok (meant each.now ∷ []))) }
{
    // For the proof: what holds of the schema.
    schema.fits();
    if !can_tell(schema, each) {
        return Ok(None);
    }
    let text = text_of(alloc, schema, each)?;
    Ok(Some(text))
}

fn text_of(alloc: Global, schema: &Schema, each: &Move) -> Result<String, Memory>
    ensures { IfOk result (λ t. string_bytes t ≡ move_text schema.now (meant each.now)) }
{
    let mut text = String::new(alloc);
    add_move(alloc, &mut text, schema, each)?;
    Ok(text)
}

#[tactic(auto, unfolding(crate::specs::Written::move_text))]
fn add_move(alloc: Global, text: &mut String, schema: &Schema, each: &Move) -> Result<(), Memory>
    ensures { OnOk result (string_bytes text.new ≡ string_bytes text.old ++ move_text schema.now (meant each.now)) }
{
    match each {
        Move::Turn => writeln!(text, "turn"),
        Move::Advance(cycles) => writeln!(text, "advance {cycles}"),
        Move::Post(asks) => {
            text.push_str("post\n")?;
            add_asks(alloc, text, schema, asks)
        }
        Move::Answer(asks) => {
            text.push_str("answer\n")?;
            add_asks(alloc, text, schema, asks)
        }
    }
}

// Appends the lines of asks, and of their end.
fn add_asks(alloc: Global, text: &mut String, schema: &Schema, asks: &[Ask]) -> Result<(), Memory>
    ensures { OnOk result (string_bytes text.new ≡ string_bytes text.old ++ asks_text schema.now asks.now) }
{
    for ask in asks {
        add_ask(alloc, text, schema, ask)?;
        text.push_str("\n")?;
    }
    text.push_str("end\n")?;
    Ok(())
}

// Appends an ask, without the end of its line.
#[tactic(auto, unfolding(crate::specs::Written::ask_line))]
fn add_ask(alloc: Global, text: &mut String, schema: &Schema, ask: &Ask) -> Result<(), Memory>
    ensures { OnOk result (string_bytes text.new ≡ string_bytes text.old ++ ask_line schema.now ask.now) }
{
    match ask {
        Ask::New { class } => {
            let class = class.as_str();
            write!(text, "new {class}")
        }
        Ask::Delete { unit } => write!(text, "delete {unit}"),
        Ask::Set { unit, slot, value } => {
            let slot = slot.as_str();
            write!(text, "set {unit} {slot} ")?;
            add_value(alloc, text, schema, value)
        }
        Ask::Link { unit, slot, other } => add_link(text, *unit, slot.as_str(), *other),
        Ask::Unlink { unit, slot, other } => add_unlink(text, *unit, slot.as_str(), *other),
        Ask::Enter { unit, space } => add_enter(text, *unit, space.as_str()),
        Ask::Leave { unit, space } => add_leave(text, *unit, space.as_str()),
        Ask::Say { text: said } => {
            text.push_str("say ")?;
            add_quoted(alloc, text, said.as_str())
        }
    }
}

fn add_link(text: &mut String, unit: UnitId, slot: &str, other: UnitId) -> Result<(), Memory>
    ensures { OnOk result (string_bytes text.new ≡ string_bytes text.old
        ++ (codes "link " ++ named_text unit slot.now ++ codes " " ++ decimal other)) }
{
    write!(text, "link {unit} {slot} {other}")
}

fn add_unlink(text: &mut String, unit: UnitId, slot: &str, other: UnitId) -> Result<(), Memory>
    ensures { OnOk result (string_bytes text.new ≡ string_bytes text.old
        ++ (codes "unlink " ++ named_text unit slot.now ++ codes " " ++ decimal other)) }
{
    write!(text, "unlink {unit} {slot} {other}")
}

fn add_enter(text: &mut String, unit: UnitId, space: &str) -> Result<(), Memory>
    ensures { OnOk result (string_bytes text.new
        ≡ string_bytes text.old ++ (codes "enter " ++ named_text unit space.now)) }
{
    write!(text, "enter {unit} {space}")
}

fn add_leave(text: &mut String, unit: UnitId, space: &str) -> Result<(), Memory>
    ensures { OnOk result (string_bytes text.new
        ≡ string_bytes text.old ++ (codes "leave " ++ named_text unit space.now)) }
{
    write!(text, "leave {unit} {space}")
}

fn add_value(alloc: Global, text: &mut String, schema: &Schema, value: &Value) -> Result<(), Memory>
    ensures { OnOk result (string_bytes text.new ≡ string_bytes text.old ++ spelt schema.now value.now) }
{
    match value {
        Value::Int(number) => write!(text, "{number}"),
        Value::Text(value) => add_quoted(alloc, text, value.as_str()),
        Value::Bool(true) => write!(text, "true"),
        Value::Bool(false) => write!(text, "false"),
        Value::Label(set, label) => add_label(text, schema, *set, *label),
        Value::Interval(low, high) => write!(text, "[{low},{high}]"),
    }
}

// Appends a text in quotes.
fn add_quoted(alloc: Global, text: &mut String, said: &str) -> Result<(), Memory>
    ensures { OnOk result (string_bytes text.new ≡ string_bytes text.old ++ compact_text (string said.now)) }
{
    let json = Json::String(String::from_str(alloc, said)?).to_string(alloc)?;
    text.push_str(json.as_str())?;
    Ok(())
}

// Appends `SET:LABEL`.
fn add_label(
    text: &mut String,
    schema: &Schema,
    set: LabelSetId,
    label: LabelId,
) -> Result<(), Memory>
    ensures { OnOk result (string_bytes text.new ≡ string_bytes text.old ++ label_text schema.now set label) }
{
    let of = schema.label_set_name(set).unwrap_or("");
    let name = schema.label_name(set, label).unwrap_or("");
    write!(text, "{of}:{name}")
}
