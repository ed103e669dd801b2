//! The fast reader of initial units: it reads entries from a tree over the borrowed text (quick_entry.rt). It returns
//! `None` if anything is unusual, which implies nothing about the text. `UnitsDocument::read` tries it first.

ghost use Rattle.std.specs.Prelude.{◌≡◌, [], Ok, IfSome, map};
ghost use Rattle.std.specs.List.{list_any, list_all};
ghost use Rattle.std.specs.Str.{bytes_eq};
ghost use Rattle.json.specs.Value.{value_view, members_view};
ghost use Rattle.bb_schema_form.specs.Places.{list_key};
ghost use Rattle.bb_schema_form.specs.Quick.{entry_of, entries_of, list_keys, listed, document_of};
ghost use Rattle.bb_schema_form.specs.UnitsDocument.{units_declaration, units_document_of};

use crate::document::UnitsDocument;
use crate::place::ListKey;
use crate::quick_entry::QuickEntry;
use json::{Reader, Scratch, Value};
use std::alloc::Global;
use std::mem;

// The maximum nesting of arrays and objects in a text, as in `serde_json`.
const MAX_DEPTH: usize = 127;

/// Returns what a text declares as a document of initial units, or `None` if anything is unusual.
pub(crate) fn quick(alloc: Global, text: &str) -> Option<UnitsDocument>
    ensures { IfSome result (λ document. units_document_of text.now ≡ Ok (units_declaration document)) }
{
    let mut scratch = Scratch::new(alloc);
    let mut reader = Reader::new(text, &mut scratch).ok()?;
    let value = Value::read(alloc, &mut reader, MAX_DEPTH).ok()?;
    if reader.next().is_some() {
        return None;
    }
    document(alloc, &value)
}

fn document(alloc: Global, value: &Value<'_>) -> Option<UnitsDocument>
    ensures { IfSome result (λ document. document_of (value_view value.now) ≡ Ok (units_declaration document)) }
{
    let Value::Object(members) = value else {
        return None;
    };
    let members = members.as_slice();
    if !have_list_keys(members) {
        return None;
    }
    let units = entries_at(alloc, ListKey::Units, members)?;
    let links = entries_at(alloc, ListKey::Links, members)?;
    let spaces = entries_at(alloc, ListKey::Spaces, members)?;
    Some(UnitsDocument {
        units,
        links,
        spaces,
    })
}

fn is_list_key(key: &str) -> bool
    ensures { result ≡ list_any (bytes_eq key.now) list_keys }
{
    key == "units" || key == "links" || key == "spaces"
}

fn have_list_keys(members: &[(&str, Value<'_>)]) -> bool
    ensures { result ≡ list_all (λ m. list_any (bytes_eq m.0.now) list_keys) members.now }
{
    members.iter().all(|member| is_list_key(member.0))
}

// The entries of a list of the document; an absent list is empty. Of a repeated key, the last list counts.
fn entries_at<E: QuickEntry>(
    alloc: Global,
    list: ListKey,
    members: &[(&str, Value<'_>)],
) -> Option<Vec<E>>
where
    E: Drop,
    ensures { IfSome result (λ es. listed (list_key list) (entries_of list E.form) [] (members_view members.now)
        ≡ Ok (map E.declared es.items)) }
{
    let mut found = Vec::new(alloc);
    for member in members {
        if member.0 != list.key() {
            continue;
        }
        let next = entries(alloc, list, &member.1)?;
        drop(mem::replace(&mut found, next));
    }
    Some(found)
}

// The entries of a value that is an array of entries.
fn entries<E: QuickEntry>(alloc: Global, list: ListKey, value: &Value<'_>) -> Option<Vec<E>>
where
    E: Drop,
    ensures { IfSome result (λ es. entries_of list E.form (value_view value.now) ≡ Ok (map E.declared es.items)) }
{
    let Value::Array(values) = value else {
        return None;
    };
    each_entry(alloc, values.as_slice())
}

fn each_entry<E: QuickEntry>(alloc: Global, values: &[Value<'_>]) -> Option<Vec<E>>
where
    E: Drop,
    ensures { IfSome result (λ es. map (entry_of E.form) values.now ≡ map (λ e. Ok (E.declared e)) es.items) }
{
    let mut entries = Vec::with_capacity(alloc, values.len()).ok()?;
    for value in values {
        let entry = E::quick_of(alloc, value)?;
        entries.push(entry).ok()?;
    }
    Some(entries)
}
