//! Reads the value of a `set`, in the form that values have in a trace, except that a label follows its set.

ghost use Rattle.std.specs.Prelude.{◌≡◌, map, option_map};
ghost use Rattle.serde_json.specs.View.{items_view, view};
ghost use Rattle.bb_basis.specs.Results.{Gives};
ghost use Rattle.bb_moves.specs.Values.{ends_of, label_of, plain_value, text_of, value_of, whole};
ghost use Rattle.bb_moves.specs.declared.fault.Slip.TheVariants.{Memory as OutOfMemory};

use crate::fault::{MovesFlaw, Slip};
use crate::words::{read_json, split_at_colon};
use bb_basis::{Text, is_name};
use bb_schema::{Schema, Value};
use serde_json::Value as Json;
use std::alloc::Global;

const NO_VALUE: Slip = Slip::Flaw(MovesFlaw::Value);

const NO_LABEL: Slip = Slip::Flaw(MovesFlaw::Label);

/// Reads the value of a text.
#[tactic(auto, unfolding(crate::specs::Values::value_of))]
pub(crate) fn read_value(alloc: Global, schema: &Schema, text: &str) -> Result<Value, Slip>
    ensures { Gives OutOfMemory (λ v. v) result (value_of schema.now text.now) }
{
    match read_json(alloc, text)? {
        Some(json) => read_plain_value(alloc, &json),
        None => read_label(schema, text),
    }
}

/// Reads a text in quotes.
#[tactic(auto, unfolding(crate::specs::Values::text_of))]
pub(crate) fn read_text(alloc: Global, text: &str) -> Result<Text, Slip>
    ensures { Gives OutOfMemory (λ t. t) result (text_of text.now) }
{
    let json = read_json(alloc, text)?.ok_or(NO_VALUE)?;
    let text = json.as_str().ok_or(NO_VALUE)?;
    Ok(Text::from_str(alloc, text)?)
}

// A truth, a number, a text or an interval.
fn read_plain_value(alloc: Global, json: &Json) -> Result<Value, Slip>
    ensures { Gives OutOfMemory (λ v. v) result (plain_value (view json.now)) }
{
    match json {
        Json::Bool(truth) => Ok(Value::Bool(*truth)),
        Json::Number(number) => Ok(Value::Int(number.as_i64().ok_or(NO_VALUE)?)),
        Json::String(text) => Ok(Value::Text(Text::from_str(alloc, text.as_str())?)),
        Json::Array(ends) => {
            let (low, high) = interval(ends).ok_or(NO_VALUE)?;
            Ok(Value::Interval(low, high))
        }
        Json::Null | Json::Object(_) => Err(NO_VALUE),
    }
}

// Two numbers, the first not greater than the second.
fn interval(ends: &[Json]) -> Option<(i64, i64)>
    ensures { result ≡ ends_of (items_view ends.now) }
{
    match ends {
        [low, high] => {
            let low = whole(low)?;
            let high = whole(high)?;
            if low > high {
                return None;
            }
            Some((low, high))
        }
        _ => None,
    }
}

// A number of 64 bits.
fn whole(json: &Json) -> Option<i64>
    ensures { result ≡ whole (view json.now) }
{
    json.as_i64()
}

// `SET:LABEL`
#[tactic(auto, unfolding(crate::specs::Values::label_of))]
fn read_label(schema: &Schema, text: &str) -> Result<Value, Slip>
    ensures { result ≡ label_of schema.now text.now }
{
    let (set, label) = split_at_colon(text).ok_or(NO_VALUE)?;
    if !is_name(set) {
        return Err(NO_VALUE);
    }
    let set = schema.label_set(set).ok_or(NO_LABEL)?;
    let label = schema.label(set, label).ok_or(NO_LABEL)?;
    Ok(Value::Label(set, label))
}
