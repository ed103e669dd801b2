//! The value of a slot as JSON. `given.rt` writes the values that a unit's entry gives.

ghost use Rattle.std.specs.Prelude.{◌≡◌, [], ◌∷◌, IfOk, option_map};
ghost use Rattle.serde_json.specs.Data.{number};
ghost use Rattle.serde_json.specs.Find.{of_integer};
ghost use Rattle.serde_json.specs.View.{view};
ghost use Rattle.bb_schema.specs.Schema.{name_of_label};
ghost use Rattle.bb_board_document.specs.Values.{same_value, name_data, list_data, value_data};

use bb_basis::Memory;
use bb_schema::Schema;
use bb_schema_classes::{LabelId, LabelSetId, Value};
use serde_json::{Value as Json, json};
use std::alloc::Global;

/// Returns a text as JSON; an empty text for `None`.
pub(crate) fn text_json(alloc: Global, text: Option<&str>) -> Result<Json, Memory>
    ensures { IfOk result (λ json. view json ≡ name_data (option_map (λ t. t.now) text.entry)) }
{
    Json::try_from_str(alloc, text.unwrap_or(""))
}

// A label as its name.
fn label_json(
    alloc: Global,
    schema: &Schema,
    set: LabelSetId,
    label: LabelId,
) -> Result<Json, Memory>
    ensures { IfOk result (λ json. view json ≡ name_data (name_of_label schema.now set label)) }
{
    text_json(alloc, schema.label_name(set, label))
}

// The two ends of an interval.
fn interval_json(alloc: Global, low: i64, high: i64) -> Result<Json, Memory>
    ensures { IfOk result (λ json. view json ≡
        list_data (number (of_integer low) ∷ number (of_integer high) ∷ [])) }
{
    json!(in alloc; [low, high])
}

/// Returns a value as JSON: a label as its name, an interval as an array of its two ends.
pub(crate) fn value_json(alloc: Global, schema: &Schema, value: &Value) -> Result<Json, Memory>
    ensures { IfOk result (λ json. view json ≡ value_data schema.now value.now) }
{
    match value {
        Value::Int(number) => Ok(Json::from(*number)),
        Value::Text(text) => Json::try_from_str(alloc, text.as_str()),
        Value::Bool(truth) => Ok(Json::Bool(*truth)),
        Value::Label(set, label) => label_json(alloc, schema, *set, *label),
        Value::Interval(low, high) => interval_json(alloc, *low, *high),
    }
}

/// Returns whether two values are equal.
pub(crate) fn same_value(value: &Value, other: &Value) -> bool
    ensures { result ≡ same_value value.now other.now }
{
    value == other
}
