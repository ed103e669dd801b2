//! Which moves the format of histories can express. writing.rt asks before it writes one.

ghost use Rattle.std.specs.Prelude.{◌≡◌, ◌^◌, ◌&&◌, int_le, nat_lt};
ghost use Rattle.std.specs.List.{list_all};
ghost use Rattle.std.specs.Option.{is_some};
ghost use Rattle.bb_basis.specs.Names.{is_name};
ghost use Rattle.bb_schema.specs.Schema.{name_of_label};
ghost use Rattle.bb_moves.specs.Meant.{meant};
ghost use Rattle.bb_moves.specs.Written.{can_tell, is_i64, is_u64, tells_ask, tells_value};

use crate::moves::Move;
use bb_basis::is_name;
use bb_schema::{Schema, UnitId, Value};
use bb_schema_classes::{LabelId, LabelSetId};
use bb_shell::Ask;

/// Returns whether the format can express a move.
#[tactic(auto, unfolding(crate::specs::Written::can_tell))]
pub(crate) fn can_tell(schema: &Schema, each: &Move) -> bool
    ensures { result ≡ can_tell schema.now (meant each.now) }
{
    match each {
        Move::Turn => true,
        Move::Advance(cycles) => is_count(*cycles),
        Move::Post(asks) => tells_all(schema, asks),
        Move::Answer(asks) => tells_all(schema, asks),
    }
}

// Every `u32` is a number of cycles.
fn is_count(cycles: u32) -> bool
    ensures { result ≡ nat_lt cycles (2 ^ 32) }
{
    let _ = cycles;
    true
}

fn tells_all(schema: &Schema, asks: &[Ask]) -> bool
    ensures { result ≡ list_all (tells_ask schema.now) asks.now }
{
    asks.iter().all(|ask| tells_ask(schema, ask))
}

#[tactic(auto, unfolding(crate::specs::Written::tells_ask))]
fn tells_ask(schema: &Schema, ask: &Ask) -> bool
    ensures { result ≡ tells_ask schema.now ask.now }
{
    match ask {
        Ask::New { class } => is_name(class.as_str()),
        Ask::Delete { unit } => is_unit(*unit),
        Ask::Set { unit, slot, value } => {
            names_part(*unit, slot.as_str()) && tells_value(schema, value)
        }
        Ask::Link { unit, slot, other } => names_part(*unit, slot.as_str()) && is_unit(*other),
        Ask::Unlink { unit, slot, other } => names_part(*unit, slot.as_str()) && is_unit(*other),
        Ask::Enter { unit, space } => names_part(*unit, space.as_str()),
        Ask::Leave { unit, space } => names_part(*unit, space.as_str()),
        Ask::Say { text: _ } => true,
    }
}

// Whether the format can tell a unit and the name of its slot or space.
fn names_part(unit: UnitId, name: &str) -> bool
    ensures { result ≡ (is_u64 unit && is_name name.now) }
{
    is_unit(unit) && is_name(name)
}

// Every `UnitId` is a number of 64 bits.
fn is_unit(unit: UnitId) -> bool
    ensures { result ≡ is_u64 unit }
{
    let _ = unit;
    true
}

fn tells_value(schema: &Schema, value: &Value) -> bool
    ensures { result ≡ tells_value schema.now value.now }
{
    match value {
        Value::Int(number) => is_whole(*number),
        Value::Text(_) => true,
        Value::Bool(_) => true,
        Value::Label(set, label) => has_label(schema, *set, *label),
        Value::Interval(low, high) => is_interval(*low, *high),
    }
}

// Every `i64` is a number of 64 bits.
fn is_whole(number: i64) -> bool
    ensures { result ≡ is_i64 number }
{
    let _ = number;
    true
}

fn has_label(schema: &Schema, set: LabelSetId, label: LabelId) -> bool
    ensures { result ≡ is_some (name_of_label schema.now set label) }
{
    match schema.label_name(set, label) {
        None => false,
        Some(_) => true,
    }
}

fn is_interval(low: i64, high: i64) -> bool
    ensures { result ≡ (is_i64 low && is_i64 high && int_le low high) }
{
    is_whole(low) && is_whole(high) && low <= high
}
