//! Tests of the two documents: the values read from each, with enough memory.

use bb_schema_form::{ClassEntry, DefaultEntry, Document, GivenValue, UnitsDocument};
use std::test::Fail;

// A document of a schema, with an entry of each sort.
const SCHEMA: &str = r#"{"labels":[{"name":"hue","values":["red","blue"]}],
"classes":[{"name":"thing","slots":[{"name":"at","kind":"int","default":-1}],
"links":[{"name":"parts","to":"thing","many":true,"inverse":"whole"}]},{"name":"box","parent":"thing"}],
"spaces":[{"name":"floor","classes":["thing","box"],
"dims":[{"name":"at","kind":"ordered"},{"name":"hue","kind":"label","of":"hue"}]}]}"#;

#[test]
fn schema(rt: HostRuntime) -> Result<(), Fail> {
    let document = Document::read(rt.alloc(), SCHEMA)?;
    let [hue] = document.label_sets.as_slice() else {
        panic!(rt; "there is one label set");
    };
    assert_eq!(rt; hue.name.as_str(), "hue");
    assert!(rt; are(&hue.values, &["red", "blue"]));
    let [thing, boxes] = document.classes.as_slice() else {
        panic!(rt; "there are two classes");
    };
    assert!(rt; is_thing(thing));
    assert_eq!(rt; boxes.name.as_str(), "box");
    assert!(rt; matches!(&boxes.parent, Some(parent) if parent.as_str() == "thing"));
    assert!(rt; boxes.slots.is_empty() && boxes.links.is_empty());
    let [floor] = document.spaces.as_slice() else {
        panic!(rt; "there is one space");
    };
    assert_eq!(rt; floor.name.as_str(), "floor");
    assert!(rt; are(&floor.classes, &["thing", "box"]));
    let [at, by_hue] = floor.dims.as_slice() else {
        panic!(rt; "there are two dimensions");
    };
    assert_eq!(rt; at.name.as_str(), "at");
    assert!(rt; at.of.is_none());
    assert_eq!(rt; by_hue.name.as_str(), "hue");
    assert!(rt; matches!(&by_hue.of, Some(set) if set.as_str() == "hue"));
    Ok(())
}

// Whether texts are these.
fn are(texts: &[String], wanted: &[&str]) -> bool {
    if texts.len() != wanted.len() {
        return false;
    }
    for (text, word) in texts.iter().zip(wanted) {
        if text.as_str() != *word {
            return false;
        }
    }
    true
}

// Whether an entry is the first class of the document.
fn is_thing(entry: &ClassEntry) -> bool {
    let ([slot], [link]) = (entry.slots.as_slice(), entry.links.as_slice()) else {
        return false;
    };
    entry.name.as_str() == "thing"
        && entry.parent.is_none()
        && slot.name.as_str() == "at"
        && matches!(slot.default, DefaultEntry::Int(-1))
        && link.name.as_str() == "parts"
        && link.to.as_str() == "thing"
        && link.many
        && link.inverse.as_str() == "whole"
        && !link.owns
}

// A document of first units, with an entry of each sort.
const UNITS: &str = r#"{"units":[{"name":"a","class":"thing","slots":{"at":3}}],
"links":[["a","parts","a"]],"spaces":[["a","floor"]]}"#;

#[test]
fn first_units(rt: HostRuntime) -> Result<(), Fail> {
    let document = UnitsDocument::read(rt.alloc(), UNITS)?;
    let [unit] = document.units.as_slice() else {
        panic!(rt; "there is one unit");
    };
    assert_eq!(rt; unit.name.as_str(), "a");
    assert_eq!(rt; unit.class.as_str(), "thing");
    let [given] = unit.slots.as_slice() else {
        panic!(rt; "one slot is given");
    };
    assert_eq!(rt; given.slot.as_str(), "at");
    assert!(rt; matches!(given.value, GivenValue::Int(3)));
    let [link] = document.links.as_slice() else {
        panic!(rt; "there is one link");
    };
    assert_eq!(rt; link.from.as_str(), "a");
    assert_eq!(rt; link.slot.as_str(), "parts");
    assert_eq!(rt; link.to.as_str(), "a");
    let [member] = document.spaces.as_slice() else {
        panic!(rt; "one unit is in a space");
    };
    assert_eq!(rt; member.unit.as_str(), "a");
    assert_eq!(rt; member.space.as_str(), "floor");
    Ok(())
}
