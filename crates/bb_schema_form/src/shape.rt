//! The form of a JSON document, piece by piece. The readers of both documents are built from these tests.

ghost use Rattle.std.specs.Prelude.{◌≡◌, map, option_map};
ghost use Rattle.std.specs.List.{list_any, list_all};
ghost use Rattle.std.specs.String.{string_bytes};
ghost use Rattle.std.specs.BTreeMap.{keys as map_keys};
ghost use Rattle.std.specs.Str.{bytes_eq};
ghost use Rattle.serde_json.specs.View.{view};
ghost use Rattle.bb_schema_form.specs.Shapes.{is_object_with, as_list, text_at, bool_at, required_list_at, list_at};
ghost use Rattle.bb_schema_form.specs.Shapes.{optional_text_at, optional_bool_at};

use serde_json::{Map, Value};

fn is_among(key: &str, keys: &[&str]) -> bool
    ensures { result ≡ list_any (λ k. bytes_eq key.now k.now) keys.now }
{
    keys.iter().any(|k| key == *k)
}

fn are_among(members: &Map<String, Value>, keys: &[&str]) -> bool
    ensures { result ≡ list_all (λ s. list_any (λ k. bytes_eq (string_bytes s) k.now) keys.now) (map_keys members.now) }
{
    members.keys().all(|key| is_among(key.as_str(), keys))
}

/// Returns whether a value is an object with no keys except these.
pub(crate) fn is_object_with(value: &Value, keys: &[&str]) -> bool
    ensures { result ≡ is_object_with (map (λ k. k.now) keys.now) (view value.now) }
{
    match value.as_object() {
        None => false,
        Some(members) => are_among(members, keys),
    }
}

/// Returns the entries of an array, `None` if the value is not an array.
pub(crate) fn as_list(value: &Value) -> Option<&[Value]>
    ensures { option_map (λ vs. map view vs.now) result ≡ as_list (view value.now) }
{
    Some(value.as_array()?.as_slice())
}

/// Returns the text under a key of an object, if there is one.
pub(crate) fn text_at<'a>(value: &'a Value, key: &str) -> Option<&'a str>
    ensures { option_map (λ t. t.now) result ≡ text_at key.now (view value.now) }
{
    value.get(key)?.as_str()
}

/// Returns the truth value under a key of an object, if there is one.
pub(crate) fn bool_at(value: &Value, key: &str) -> Option<bool>
    ensures { result ≡ bool_at key.now (view value.now) }
{
    value.get(key)?.as_bool()
}

/// Returns the truth value under a key of an object, `false` if the key is absent, `None` if the value is not a truth
/// value.
pub(crate) fn optional_bool_at(value: &Value, key: &str) -> Option<bool>
    ensures { result ≡ optional_bool_at key.now (view value.now) }
{
    match value.get(key) {
        None => Some(false),
        Some(found) => found.as_bool(),
    }
}

/// Returns the list under a key of an object, if there is one.
pub(crate) fn required_list_at<'a>(value: &'a Value, key: &str) -> Option<&'a [Value]>
    ensures { option_map (λ vs. map view vs.now) result ≡ required_list_at key.now (view value.now) }
{
    as_list(value.get(key)?)
}

/// Returns the list under a key of an object, empty if the key is absent, `None` if the value is not a list.
pub(crate) fn list_at<'a>(value: &'a Value, key: &str) -> Option<&'a [Value]>
    ensures { option_map (λ vs. map view vs.now) result ≡ list_at key.now (view value.now) }
{
    match value.get(key) {
        None => Some(&[]),
        Some(found) => as_list(found),
    }
}

/// Returns the text under a key of an object, `Some(None)` if the key is absent, `None` if the value is not a text.
pub(crate) fn optional_text_at<'a>(value: &'a Value, key: &str) -> Option<Option<&'a str>>
    ensures { option_map (λ o. option_map (λ t. t.now) o) result ≡ optional_text_at key.now (view value.now) }
{
    match value.get(key) {
        None => Some(None),
        Some(found) => Some(Some(found.as_str()?)),
    }
}
