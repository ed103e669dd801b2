//! The form of a schema's document: `Document::read`, and what each kind of entry declares.

ghost use Rattle.std.specs.Prelude.{◌≡◌, map, pos, false, [], Some, IfOk, option_map};
ghost use Rattle.std.specs.Option.{option_map_or};
ghost use Rattle.std.specs.String.{string_bytes};
ghost use Rattle.bb_schema_form.specs.declared.fault.DocumentFault.TheVariants.{Memory as OutOfMemory};
ghost use Rattle.serde_json.specs.Find.{as_str, as_bool};
ghost use Rattle.serde_json.specs.View.{view};
ghost use Rattle.bb_basis.specs.Results.{Gives};
ghost use Rattle.bb_schema_form.specs.Shapes.{as_whole};
ghost use Rattle.bb_schema_form.specs.Document.{default_declaration, declarations};
ghost use Rattle.bb_schema_form.specs.Defaults.{HaveSoundDefaults};
ghost use Rattle.bb_schema_form.specs.Form.{ends_of, as_interval, plain_default_of, label_default_of, default_of};
ghost use Rattle.bb_schema_form.specs.Form.{is_dim_kind, declarations_of, document_of};

use crate::document::{
    ClassEntry, DefaultEntry, DimEntry, Document, LabelSetEntry, LinkEntry, SlotEntry, SpaceEntry,
};
use crate::entry::{Entry, entries, string_at};
use crate::fault::DocumentFault;
use crate::parsed::json;
use crate::place::ListKey;
use crate::shape::{
    as_list, bool_at, is_object_with, list_at, optional_bool_at, optional_text_at,
    required_list_at, text_at,
};
use serde_json::Value;
use std::alloc::{AllocError, Global};

impl Document {
    /// Returns what a schema's document declares. `Json` if the text is not JSON, then `Shape` if the JSON does not
    /// have the form of a schema: a key that no such object has, a missing key, or a value of another form, `null`
    /// included. The location is the first entry with such a fault; the order is label sets, classes with their slots
    /// and then links, spaces with their classes and then dimensions. `Memory` may occur at any point.
    #[tactic(auto, unfolding(crate::specs::Form::document_of))]
    pub fn read(alloc: Global, text: &str) -> Result<Document, DocumentFault>
        ensures gives { Gives OutOfMemory declarations result (document_of text.now) }
        ensures sound { IfOk result (λ document. HaveSoundDefaults (declarations document)) }
    {
        let value = json(alloc, text)?;
        document(alloc, &value)
    }
}

#[tactic(auto, unfolding(crate::specs::Form::declarations_of))]
fn document(alloc: Global, value: &Value) -> Result<Document, DocumentFault>
    ensures { Gives OutOfMemory declarations result (declarations_of (view value.now)) }
{
    if !is_object_with(value, &["labels", "classes", "spaces"]) {
        return Err(DocumentFault::misshapen());
    }
    let label_sets = list_at(value, "labels").ok_or(DocumentFault::misshapen())?;
    let label_sets = entries(alloc, ListKey::Labels, label_sets)?;
    let classes = list_at(value, "classes").ok_or(DocumentFault::misshapen())?;
    let classes = entries(alloc, ListKey::Classes, classes)?;
    let spaces = list_at(value, "spaces").ok_or(DocumentFault::misshapen())?;
    let spaces = entries(alloc, ListKey::Spaces, spaces)?;
    Ok(Document {
        label_sets,
        classes,
        spaces,
    })
}

impl Entry for String {
    ghost use Rattle.std.specs.Prelude.{List, ℕ, string_bytes};
    ghost use Rattle.bb_schema_form.specs.Form.{text_of};

    ghost Declared = { List ℕ };

    ghost declared = { string_bytes };

    ghost form = { text_of };

    #[tactic(auto, unfolding(crate::specs::Form::text_of))]
    fn of(alloc: Global, value: &Value) -> Result<String, DocumentFault> {
        let text = value.as_str().ok_or(DocumentFault::misshapen())?;
        Ok(String::from_str(alloc, text)?)
    }
}

impl Entry for LabelSetEntry {
    ghost use Rattle.bb_schema_form.specs.Document.{LabelSetDeclaration, label_set_declaration};
    ghost use Rattle.bb_schema_form.specs.Form.{label_set_of};

    ghost Declared = { LabelSetDeclaration };

    ghost declared = { label_set_declaration };

    ghost form = { label_set_of };

    #[tactic(auto, unfolding(crate::specs::Form::label_set_of, crate::specs::Form::label_set_of_texts))]
    fn of(alloc: Global, value: &Value) -> Result<LabelSetEntry, DocumentFault> {
        if !is_object_with(value, &["name", "values"]) {
            return Err(DocumentFault::misshapen());
        }
        let name = string_at(alloc, value, "name")?;
        let values = required_list_at(value, "values").ok_or(DocumentFault::misshapen())?;
        let values: Vec<String> = entries(alloc, ListKey::Values, values)?;
        if values.is_empty() {
            return Err(DocumentFault::misshapen());
        }
        Ok(LabelSetEntry { name, values })
    }
}

impl Entry for ClassEntry {
    ghost use Rattle.bb_schema_form.specs.Document.{ClassDeclaration, class_declaration};
    ghost use Rattle.bb_schema_form.specs.Form.{class_of};

    ghost Declared = { ClassDeclaration };

    ghost declared = { class_declaration };

    ghost form = { class_of };

    #[tactic(auto, unfolding(crate::specs::Form::class_of))]
    fn of(alloc: Global, value: &Value) -> Result<ClassEntry, DocumentFault> {
        if !is_object_with(value, &["name", "parent", "slots", "links"]) {
            return Err(DocumentFault::misshapen());
        }
        let name = string_at(alloc, value, "name")?;
        let parent = optional_text_at(value, "parent").ok_or(DocumentFault::misshapen())?;
        let slots = list_at(value, "slots").ok_or(DocumentFault::misshapen())?;
        let slots = entries(alloc, ListKey::Slots, slots)?;
        let links = list_at(value, "links").ok_or(DocumentFault::misshapen())?;
        let links = entries(alloc, ListKey::Links, links)?;
        Ok(ClassEntry {
            name,
            parent: optional_string(alloc, parent)?,
            slots,
            links,
        })
    }
}

impl Entry for SlotEntry {
    ghost use Rattle.bb_schema_form.specs.Document.{SlotDeclaration, slot_declaration};
    ghost use Rattle.bb_schema_form.specs.Form.{slot_of};

    ghost Declared = { SlotDeclaration };

    ghost declared = { slot_declaration };

    ghost form = { slot_of };

    #[tactic(auto, unfolding(crate::specs::Form::slot_of))]
    fn of(alloc: Global, value: &Value) -> Result<SlotEntry, DocumentFault> {
        if !is_object_with(value, &["name", "kind", "of", "default"]) {
            return Err(DocumentFault::misshapen());
        }
        let name = string_at(alloc, value, "name")?;
        let kind = text_at(value, "kind").ok_or(DocumentFault::misshapen())?;
        let set = optional_text_at(value, "of").ok_or(DocumentFault::misshapen())?;
        let default = default(alloc, kind, set, value.get("default"))?;
        Ok(SlotEntry { name, default })
    }
}

impl Entry for LinkEntry {
    ghost use Rattle.bb_schema_form.specs.Document.{LinkDeclaration, link_declaration};
    ghost use Rattle.bb_schema_form.specs.Form.{link_of};

    ghost Declared = { LinkDeclaration };

    ghost declared = { link_declaration };

    ghost form = { link_of };

    #[tactic(auto, unfolding(crate::specs::Form::link_of))]
    fn of(alloc: Global, value: &Value) -> Result<LinkEntry, DocumentFault> {
        if !is_object_with(value, &["name", "to", "many", "inverse", "owns"]) {
            return Err(DocumentFault::misshapen());
        }
        let name = string_at(alloc, value, "name")?;
        let to = string_at(alloc, value, "to")?;
        let many = bool_at(value, "many").ok_or(DocumentFault::misshapen())?;
        let inverse = string_at(alloc, value, "inverse")?;
        let owns = optional_bool_at(value, "owns").ok_or(DocumentFault::misshapen())?;
        Ok(LinkEntry {
            name,
            to,
            many,
            inverse,
            owns,
        })
    }
}

impl Entry for SpaceEntry {
    ghost use Rattle.bb_schema_form.specs.Document.{SpaceDeclaration, space_declaration};
    ghost use Rattle.bb_schema_form.specs.Form.{space_of};

    ghost Declared = { SpaceDeclaration };

    ghost declared = { space_declaration };

    ghost form = { space_of };

    #[tactic(auto, unfolding(crate::specs::Form::space_of))]
    fn of(alloc: Global, value: &Value) -> Result<SpaceEntry, DocumentFault> {
        if !is_object_with(value, &["name", "classes", "dims"]) {
            return Err(DocumentFault::misshapen());
        }
        let name = string_at(alloc, value, "name")?;
        let classes = required_list_at(value, "classes").ok_or(DocumentFault::misshapen())?;
        let classes = entries(alloc, ListKey::Classes, classes)?;
        let dims = required_list_at(value, "dims").ok_or(DocumentFault::misshapen())?;
        let dims = entries(alloc, ListKey::Dims, dims)?;
        Ok(SpaceEntry {
            name,
            classes,
            dims,
        })
    }
}

impl Entry for DimEntry {
    ghost use Rattle.bb_schema_form.specs.Document.{DimDeclaration, dim_declaration};
    ghost use Rattle.bb_schema_form.specs.Form.{dim_of};

    ghost Declared = { DimDeclaration };

    ghost declared = { dim_declaration };

    ghost form = { dim_of };

    #[tactic(auto, unfolding(crate::specs::Form::dim_of))]
    fn of(alloc: Global, value: &Value) -> Result<DimEntry, DocumentFault> {
        if !is_object_with(value, &["name", "kind", "of"]) {
            return Err(DocumentFault::misshapen());
        }
        let name = string_at(alloc, value, "name")?;
        let kind = text_at(value, "kind").ok_or(DocumentFault::misshapen())?;
        let set = optional_text_at(value, "of").ok_or(DocumentFault::misshapen())?;
        if !is_dim_kind(kind, set) {
            return Err(DocumentFault::misshapen());
        }
        Ok(DimEntry {
            name,
            of: optional_string(alloc, set)?,
        })
    }
}

// Whether the kind of a dimension fits its label set, or the lack of one.
fn is_dim_kind(kind: &str, set: Option<&str>) -> bool
    ensures { result ≡ is_dim_kind kind.now (option_map (λ t. t.now) set.entry) }
{
    match set {
        None => kind == "ordered",
        Some(_) => kind == "label",
    }
}

fn optional_string(alloc: Global, text: Option<&str>) -> Result<Option<String>, AllocError>
    ensures { IfOk result (λ s. option_map string_bytes s ≡ option_map (λ t. t.now) text.entry) }
{
    match text {
        None => Ok(None),
        Some(text) => Ok(Some(String::from_str(alloc, text)?)),
    }
}

// The default of a slot. A slot of kind `label` needs a label set, and no other kind may have one.
#[tactic(auto, unfolding(crate::specs::Form::default_of))]
fn default(
    alloc: Global,
    kind: &str,
    set: Option<&str>,
    given: Option<&Value>,
) -> Result<DefaultEntry, DocumentFault>
    ensures { Gives OutOfMemory default_declaration result
        (default_of kind.now (option_map (λ t. t.now) set.entry) (option_map (λ v. view v.now) given.entry)) }
{
    match set {
        None => plain_default(alloc, kind, given),
        Some(set) if kind == "label" => label_default(alloc, set, given),
        Some(_) => Err(DocumentFault::misshapen()),
    }
}

#[tactic(auto, unfolding(crate::specs::Form::label_default_of))]
fn label_default(
    alloc: Global,
    set: &str,
    given: Option<&Value>,
) -> Result<DefaultEntry, DocumentFault>
    ensures { Gives OutOfMemory default_declaration result
        (label_default_of set.now (option_map (λ v. view v.now) given.entry)) }
{
    let default = match given {
        None => None,
        Some(value) => Some(value.as_str().ok_or(DocumentFault::misshapen())?),
    };
    Ok(DefaultEntry::Label {
        of: String::from_str(alloc, set)?,
        default: optional_string(alloc, default)?,
    })
}

// The default of a slot whose kind is not `label`: the given one, or the kind's own if none is given.
#[tactic(auto, unfolding(crate::specs::Form::plain_default_of))]
fn plain_default(
    alloc: Global,
    kind: &str,
    given: Option<&Value>,
) -> Result<DefaultEntry, DocumentFault>
    ensures { Gives OutOfMemory default_declaration result
        (plain_default_of kind.now (option_map (λ v. view v.now) given.entry)) }
{
    if kind == "int" {
        return Ok(DefaultEntry::Int(int_or_zero(given).ok_or(DocumentFault::misshapen())?));
    }
    if kind == "text" {
        let text = text_or_empty(given).ok_or(DocumentFault::misshapen())?;
        return Ok(DefaultEntry::Text(String::from_str(alloc, text)?));
    }
    if kind == "bool" {
        return Ok(DefaultEntry::Bool(bool_or_false(given).ok_or(DocumentFault::misshapen())?));
    }
    if kind == "interval" {
        let (lo, hi) = interval_or_zero(given).ok_or(DocumentFault::misshapen())?;
        return Ok(DefaultEntry::Interval(lo, hi));
    }
    Err(DocumentFault::misshapen())
}

fn int_or_zero(given: Option<&Value>) -> Option<i64>
    ensures { result ≡ option_map_or as_whole (option_map (λ v. view v.now) given.entry) (Some (pos 0)) }
{
    match given {
        None => Some(0),
        Some(value) => whole(value),
    }
}

fn whole(value: &Value) -> Option<i64>
    ensures { result ≡ as_whole (view value.now) }
{
    let number = value.as_i64()?;
    Some(number)
}

fn text_or_empty<'a>(given: Option<&'a Value>) -> Option<&'a str>
    ensures { option_map (λ t. t.now) result
        ≡ option_map_or as_str (option_map (λ v. view v.now) given.entry) (Some []) }
{
    match given {
        None => Some(""),
        Some(value) => value.as_str(),
    }
}

fn bool_or_false(given: Option<&Value>) -> Option<bool>
    ensures { result ≡ option_map_or as_bool (option_map (λ v. view v.now) given.entry) (Some false) }
{
    match given {
        None => Some(false),
        Some(value) => value.as_bool(),
    }
}

fn interval_or_zero(given: Option<&Value>) -> Option<(i64, i64)>
    ensures { result ≡ option_map_or as_interval (option_map (λ v. view v.now) given.entry) (Some (pos 0, pos 0)) }
{
    match given {
        None => Some((0, 0)),
        Some(value) => interval(as_list(value)?),
    }
}

/// Returns two numbers, the first not greater than the second, if these are such values.
pub(crate) fn interval(ends: &[Value]) -> Option<(i64, i64)>
    ensures { result ≡ ends_of (map view ends.now) }
{
    match ends {
        [lo, hi] => {
            let lo = whole(lo)?;
            let hi = whole(hi)?;
            if lo > hi {
                return None;
            }
            Some((lo, hi))
        }
        _ => None,
    }
}
