//! Converts a tree over borrowed text to a value of `serde_json`, which owns its text: the value that `serde_json`
//! makes of the same JSON. Returns `None` if memory ran out, or if `serde_json` reads a number as a float: a number
//! that is not an integer of 64 bits, or is `-0`.

ghost use Rattle.std.specs.Prelude.{◌≡◌, ◌==◌, ◌<◌, Some, IfSome, IsTrue, false, length, map, slice_index, true};
ghost use Rattle.fast_float.specs.Text.{scan};
ghost use Rattle.json.specs.Value.{value_view, members_view as borrowed_members};
ghost use Rattle.serde_json.specs.Data.{no_members};
ghost use Rattle.serde_json.specs.Read.{number_from, number_of, of_json, of_members};
ghost use Rattle.serde_json.specs.View.{view, number_view, members_view};
ghost use Rattle.bb_schema_form.specs.Quick.{read_of, seen};

use fast_float::Numeral;
use serde_json::{Map, Number, Value};
use std::alloc::Global;

#[cycle(owned)]
pub(crate) fn owned(alloc: Global, value: &json::Value<'_>) -> Option<Value>
    ensures { IfSome result (λ made. of_json (value_view value.now) ≡ Some (view made)) }
{
    match value {
        json::Value::Null => Some(Value::Null),
        json::Value::Bool(truth) => Some(Value::Bool(*truth)),
        json::Value::Number(text) => Some(Value::Number(integer(*text)?)),
        json::Value::String(text) => Some(Value::String(String::from_str(alloc, *text).ok()?)),
        json::Value::Array(values) => Some(Value::Array(owned_items(alloc, values)?)),
        json::Value::Object(members) => Some(Value::Object(owned_members(alloc, members)?)),
    }
}

#[cycle(owned)]
fn owned_items(alloc: Global, values: &Vec<json::Value<'_>>) -> Option<Vec<Value>>
    ensures { IfSome result (λ made. map read_of values.now.items ≡ map seen made.items) }
{
    let mut made = Vec::new(alloc);
    for value in values {
        let item = owned(alloc, value)?;
        made.push(item).ok()?;
    }
    Some(made)
}

// Members are inserted in order, so the last value of a repeated key stays, as in `serde_json`.
#[cycle(owned)]
fn owned_members(
    alloc: Global,
    members: &Vec<(&str, json::Value<'_>)>,
) -> Option<Map<String, Value>>
    ensures { IfSome result (λ made. of_members (borrowed_members members.now.items) no_members
        ≡ Some (members_view made.entries)) }
{
    let mut made = Map::new(alloc);
    for member in members {
        let key = String::from_str(alloc, member.0).ok()?;
        let value = owned(alloc, &member.1)?;
        drop(made.insert(key, value).ok()?);
    }
    Some(made)
}

// The number of a text that is an integer of 64 bits. `None` for `-0`: `serde_json` takes it for a float.
fn integer(text: &str) -> Option<Number>
    ensures { IfSome result (λ n. number_of text.now ≡ Some (number_view n)) }
{
    let bytes = text.as_bytes();
    if has_minus(bytes) {
        negative(&bytes[1..])
    } else {
        positive(bytes)
    }
}

fn has_minus(bytes: &[u8]) -> bool
    ensures value { result ≡ (slice_index bytes.now 0 == 45) }
    ensures len { IsTrue result → 0 < length bytes.now }
{
    !bytes.is_empty() && bytes[0] == b'-'
}

// The number, 0 or more, with these digits.
fn positive(digits: &[u8]) -> Option<Number>
    ensures { IfSome result (λ n. number_from false (scan digits.now) ≡ Some (number_view n)) }
{
    let number = Numeral::scan(digits).to_u64()?;
    Some(Number::from(number))
}

// The number below 0 with these digits.
fn negative(digits: &[u8]) -> Option<Number>
    ensures { IfSome result (λ n. number_from true (scan digits.now) ≡ Some (number_view n)) }
{
    let number = Numeral::scan(digits).to_i64(true)?;
    if number == 0 {
        return None;
    }
    Some(Number::from(number))
}
