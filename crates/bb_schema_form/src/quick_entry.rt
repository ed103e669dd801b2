//! The entries of a document of initial units, read from a tree over borrowed text. Entries of the usual form are read
//! directly, any other unit through the value that `serde_json` makes of it.

ghost use Rattle.std.specs.Prelude.{◌≡◌, Ok, Some, IfSome, map};
ghost use Rattle.std.specs.String.{string_bytes};
ghost use Rattle.json.specs.Json.{array, object, string};
ghost use Rattle.json.specs.Value.{value_view, items_view, members_view};
ghost use Rattle.serde_json.specs.Data.{Data};
ghost use Rattle.serde_json.specs.Read.{of_json};
ghost use Rattle.bb_schema_form.specs.Quick.{entry_of, declared_by};
ghost use Rattle.bb_schema_form.specs.UnitsDocument.{unit_declaration, unit_of, given_declaration, given_slots_of};
ghost use Rattle.bb_schema_form.specs.UnitsDocument.{first_link_declaration, first_link_of, member_declaration, member_of};

use crate::document::{FirstLinkEntry, GivenEntry, MemberEntry, UnitEntry};
use crate::entry::Entry;
use crate::owned::owned;
use crate::units_form::given_slots;
use json::Value;
use std::alloc::Global;

/// An entry that can be read from a tree over borrowed text.
pub(crate) trait QuickEntry: Entry {
    /// Returns the entry that a value declares. `None` implies nothing about the value.
    fn quick_of(alloc: Global, value: &Value<'_>) -> Option<Self>
        ensures { IfSome result (λ e. entry_of Self.form value.now ≡ Ok (Self.declared e)) };
}

impl QuickEntry for UnitEntry {
    fn quick_of(alloc: Global, value: &Value<'_>) -> Option<UnitEntry> {
        let Value::Object(members) = value else {
            return None;
        };
        if let Some(unit) = usual_unit(alloc, members.as_slice()) {
            return Some(unit);
        }
        let value = owned(alloc, value)?;
        UnitEntry::of(alloc, &value).ok()
    }
}

// A unit with a name, a class and slots, in this order; the slots may be absent.
fn usual_unit(alloc: Global, members: &[(&str, Value<'_>)]) -> Option<UnitEntry>
    ensures { IfSome result (λ e. declared_by unit_of (object (members_view members.now)) ≡ Ok (unit_declaration e)) }
{
    match members {
        [name, class] => {
            let name = text_under(alloc, name, "name")?;
            let class = text_under(alloc, class, "class")?;
            let slots = Vec::new(alloc);
            Some(UnitEntry { name, class, slots })
        }
        [name, class, slots] => {
            let name = text_under(alloc, name, "name")?;
            let class = text_under(alloc, class, "class")?;
            let slots = slots_under(alloc, slots, "slots")?;
            Some(UnitEntry { name, class, slots })
        }
        _ => None,
    }
}

// The text of a member, if it has this key.
fn text_under(alloc: Global, member: &(&str, Value<'_>), key: &str) -> Option<String>
    ensures { IfSome result (λ s. (member.now.0.now ≡ key.now)
        × (value_view member.now.1 ≡ string (string_bytes s))) }
{
    if member.0 != key {
        return None;
    }
    text(alloc, &member.1)
}

// The slots that a member gives, if it has this key.
fn slots_under(alloc: Global, member: &(&str, Value<'_>), key: &str) -> Option<Vec<GivenEntry>>
    ensures { IfSome result (λ es. (member.now.0.now ≡ key.now)
        × ((d : Data) × (of_json (value_view member.now.1) ≡ Some d)
        × (given_slots_of (Some d) ≡ Ok (map given_declaration es.items)))) }
{
    if member.0 != key {
        return None;
    }
    let value = owned(alloc, &member.1)?;
    given_slots(alloc, Some(&value)).ok()
}

fn text(alloc: Global, value: &Value<'_>) -> Option<String>
    ensures { IfSome result (λ s. value_view value.now ≡ string (string_bytes s)) }
{
    String::from_str(alloc, value.as_str()?).ok()
}

impl QuickEntry for FirstLinkEntry {
    fn quick_of(alloc: Global, value: &Value<'_>) -> Option<FirstLinkEntry> {
        let Value::Array(names) = value else {
            return None;
        };
        link(alloc, names.as_slice())
    }
}

fn link(alloc: Global, names: &[Value<'_>]) -> Option<FirstLinkEntry>
    ensures { IfSome result (λ e. declared_by first_link_of (array (items_view names.now))
        ≡ Ok (first_link_declaration e)) }
{
    let [from, slot, to] = names else {
        return None;
    };
    let from = text(alloc, from)?;
    let slot = text(alloc, slot)?;
    let to = text(alloc, to)?;
    Some(FirstLinkEntry { from, slot, to })
}

impl QuickEntry for MemberEntry {
    fn quick_of(alloc: Global, value: &Value<'_>) -> Option<MemberEntry> {
        let Value::Array(names) = value else {
            return None;
        };
        member(alloc, names.as_slice())
    }
}

fn member(alloc: Global, names: &[Value<'_>]) -> Option<MemberEntry>
    ensures { IfSome result (λ e. declared_by member_of (array (items_view names.now)) ≡ Ok (member_declaration e)) }
{
    let [unit, space] = names else {
        return None;
    };
    let unit = text(alloc, unit)?;
    let space = text(alloc, space)?;
    Some(MemberEntry { unit, space })
}
