//! The form of the document of initial units: `UnitsDocument::read`, and what each kind of entry declares.

ghost use Rattle.std.specs.Prelude.{◌≡◌, map, IfOk, option_map};
ghost use Rattle.bb_schema_form.specs.declared.fault.DocumentFault.TheVariants.{Memory as OutOfMemory};
ghost use Rattle.serde_json.specs.View.{view, members_view};
ghost use Rattle.bb_basis.specs.Results.{Gives};
ghost use Rattle.bb_schema_form.specs.UnitsDocument.{value_declaration, given_declaration, units_declaration};
ghost use Rattle.bb_schema_form.specs.UnitsDocument.{given_value_of, givens_of, given_slots_of};
ghost use Rattle.bb_schema_form.specs.UnitsDocument.{first_link_declaration, first_link_of_names};
ghost use Rattle.bb_schema_form.specs.UnitsDocument.{member_declaration, member_of_names};
ghost use Rattle.bb_schema_form.specs.UnitsDocument.{units_declaration_of, units_document_of};

use crate::document::{
    FirstLinkEntry, GivenEntry, GivenValue, MemberEntry, UnitEntry, UnitsDocument,
};
use crate::entry::{Entry, entries, string_at};
use crate::fault::DocumentFault;
use crate::form::interval;
use crate::parsed::json;
use crate::place::ListKey;
use crate::quick::quick;
use crate::shape::{as_list, is_object_with, list_at};
use serde_json::{Map, Value};
use std::alloc::{AllocError, Global};

impl UnitsDocument {
    /// Returns what the document of initial units declares. `Json` if the text is not JSON, then `Shape` if the JSON
    /// does not have the form of initial units: a key that no such object has, a missing key, or a value of another
    /// form. A slot may have any value; elsewhere `null` is a fault too. The location is the first entry with such a
    /// fault; the order is units, links, spaces. `Memory` may occur at any point.
    #[tactic(auto, unfolding(crate::specs::UnitsDocument::units_document_of))]
    pub fn read(alloc: Global, text: &str) -> Result<UnitsDocument, DocumentFault>
        ensures { Gives OutOfMemory units_declaration result (units_document_of text.now) }
    {
        if let Some(document) = quick(alloc, text) {
            return Ok(document);
        }
        let value = json(alloc, text)?;
        units_document(alloc, &value)
    }
}

#[tactic(auto, unfolding(crate::specs::UnitsDocument::units_declaration_of))]
fn units_document(alloc: Global, value: &Value) -> Result<UnitsDocument, DocumentFault>
    ensures { Gives OutOfMemory units_declaration result (units_declaration_of (view value.now)) }
{
    if !is_object_with(value, &["units", "links", "spaces"]) {
        return Err(DocumentFault::misshapen());
    }
    let units = list_at(value, "units").ok_or(DocumentFault::misshapen())?;
    let units = entries(alloc, ListKey::Units, units)?;
    let links = list_at(value, "links").ok_or(DocumentFault::misshapen())?;
    let links = entries(alloc, ListKey::Links, links)?;
    let spaces = list_at(value, "spaces").ok_or(DocumentFault::misshapen())?;
    let spaces = entries(alloc, ListKey::Spaces, spaces)?;
    Ok(UnitsDocument {
        units,
        links,
        spaces,
    })
}

impl Entry for UnitEntry {
    ghost use Rattle.bb_schema_form.specs.UnitsDocument.{UnitDeclaration, unit_declaration, unit_of};

    ghost Declared = { UnitDeclaration };

    ghost declared = { unit_declaration };

    ghost form = { unit_of };

    #[tactic(auto, unfolding(crate::specs::UnitsDocument::unit_of))]
    fn of(alloc: Global, value: &Value) -> Result<UnitEntry, DocumentFault> {
        if !is_object_with(value, &["name", "class", "slots"]) {
            return Err(DocumentFault::misshapen());
        }
        let name = string_at(alloc, value, "name")?;
        let class = string_at(alloc, value, "class")?;
        let slots = given_slots(alloc, value.get("slots"))?;
        Ok(UnitEntry { name, class, slots })
    }
}

/// Returns the values that a unit gives for slots, none if the key is absent.
#[tactic(auto, unfolding(crate::specs::UnitsDocument::given_slots_of))]
pub(crate) fn given_slots(
    alloc: Global,
    given: Option<&Value>,
) -> Result<Vec<GivenEntry>, DocumentFault>
    ensures { Gives OutOfMemory (λ es. map given_declaration es.items) result
        (given_slots_of (option_map (λ v. view v.now) given.entry)) }
{
    match given {
        None => Ok(Vec::new(alloc)),
        Some(value) => {
            let members = value.as_object().ok_or(DocumentFault::misshapen())?;
            Ok(givens(alloc, members)?)
        }
    }
}

// The values that the members of an object give, in their order.
fn givens(alloc: Global, members: &Map<String, Value>) -> Result<Vec<GivenEntry>, AllocError>
    ensures { IfOk result (λ es. map given_declaration es.items ≡ givens_of (members_view members.now.entries)) }
{
    let mut entries = Vec::with_capacity(alloc, members.len())?;
    for (slot, value) in members {
        let slot = String::from_str(alloc, slot.as_str())?;
        let value = given_value(alloc, value)?;
        entries.push(GivenEntry { slot, value })?;
    }
    Ok(entries)
}

// The value that a JSON value gives for a slot.
fn given_value(alloc: Global, value: &Value) -> Result<GivenValue, AllocError>
    ensures { IfOk result (λ given. value_declaration given ≡ given_value_of (view value.now)) }
{
    match value {
        Value::Bool(truth) => Ok(GivenValue::Bool(*truth)),
        Value::Number(number) => Ok(number.as_i64().map_or(GivenValue::Other, GivenValue::Int)),
        Value::String(text) => Ok(GivenValue::Text(String::from_str(alloc, text.as_str())?)),
        Value::Array(ends) => Ok(interval(ends.as_slice()).map_or(GivenValue::Other, |ends| {
            GivenValue::Interval(ends.0, ends.1)
        })),
        Value::Null | Value::Object(_) => Ok(GivenValue::Other),
    }
}

impl Entry for FirstLinkEntry {
    ghost use Rattle.bb_schema_form.specs.UnitsDocument.{FirstLinkDeclaration, first_link_declaration, first_link_of};

    ghost Declared = { FirstLinkDeclaration };

    ghost declared = { first_link_declaration };

    ghost form = { first_link_of };

    #[tactic(auto, unfolding(crate::specs::UnitsDocument::first_link_of))]
    fn of(alloc: Global, value: &Value) -> Result<FirstLinkEntry, DocumentFault> {
        let names = as_list(value).ok_or(DocumentFault::misshapen())?;
        first_link(alloc, names)
    }
}

// The link with these three names: unit, slot, unit.
#[tactic(auto, unfolding(crate::specs::UnitsDocument::first_link_of_names))]
fn first_link(alloc: Global, names: &[Value]) -> Result<FirstLinkEntry, DocumentFault>
    ensures { Gives OutOfMemory first_link_declaration result (first_link_of_names (map view names.now)) }
{
    match names {
        [from, slot, to] => {
            let from = String::of(alloc, from)?;
            let slot = String::of(alloc, slot)?;
            let to = String::of(alloc, to)?;
            Ok(FirstLinkEntry { from, slot, to })
        }
        _ => Err(DocumentFault::misshapen()),
    }
}

impl Entry for MemberEntry {
    ghost use Rattle.bb_schema_form.specs.UnitsDocument.{MemberDeclaration, member_declaration, member_of};

    ghost Declared = { MemberDeclaration };

    ghost declared = { member_declaration };

    ghost form = { member_of };

    #[tactic(auto, unfolding(crate::specs::UnitsDocument::member_of))]
    fn of(alloc: Global, value: &Value) -> Result<MemberEntry, DocumentFault> {
        let names = as_list(value).ok_or(DocumentFault::misshapen())?;
        member(alloc, names)
    }
}

// The member with these two names: unit, space.
#[tactic(auto, unfolding(crate::specs::UnitsDocument::member_of_names))]
fn member(alloc: Global, names: &[Value]) -> Result<MemberEntry, DocumentFault>
    ensures { Gives OutOfMemory member_declaration result (member_of_names (map view names.now)) }
{
    match names {
        [unit, space] => {
            let unit = String::of(alloc, unit)?;
            let space = String::of(alloc, space)?;
            Ok(MemberEntry { unit, space })
        }
        _ => Err(DocumentFault::misshapen()),
    }
}
