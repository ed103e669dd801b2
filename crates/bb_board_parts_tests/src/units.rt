//! Tests of units: their creation with enough memory, and values that no code can make.

use bb_schema::{ClassId, Schema, SlotId, UnitId, Value};
use bb_units::{CreateFault, Units};
use std::alloc::Global;
use std::collections::BTreeMap;
use std::test::Fail;

// Slots 4 to 6 are `pos`, `hue` and `score`, 7 and 8 the links, 9 and 10 `count` and `tint`.
const SCHEMA: &str = r#"{"labels":[{"name":"hue","values":["red","green"]}],
"classes":[{"name":"thing","slots":[{"name":"pos","kind":"interval"},
{"name":"hue","kind":"label","of":"hue"},{"name":"score","kind":"int"}],
"links":[{"name":"mate","to":"thing","many":false,"inverse":"mate_of"},
{"name":"mate_of","to":"thing","many":false,"inverse":"mate"}]},
{"name":"word","parent":"thing","slots":[{"name":"count","kind":"int","default":7},
{"name":"tint","kind":"label","of":"hue","default":"green"}]}]}"#;

const THING: ClassId = 1;

const WORD: ClassId = 2;

// Creates a unit, where its class is there.
fn create(units: &mut Units, class: ClassId) -> Result<UnitId, CreateFault> {
    if !units.has_class(class) {
        return Err(CreateFault::Memory);
    }
    units.create(class)
}

// Units of these classes, under the numbers from 1 on.
fn units_of(alloc: Global, classes: &[ClassId]) -> Result<Units, Fail> {
    let schema = Schema::read(alloc, SCHEMA)?;
    let mut units = Units::new(alloc, &schema)?;
    for class in classes {
        create(&mut units, *class)?;
    }
    Ok(units)
}

// Sets a slot, and returns whether it takes the value.
fn set(units: &mut Units, unit: UnitId, slot: SlotId, value: Value) -> bool {
    let takes = units.takes(unit, slot, &value);
    if takes {
        units.set(unit, slot, value);
    }
    takes
}

#[test]
fn created_units(rt: HostRuntime) -> Result<(), Fail> {
    let mut units = units_of(rt.alloc(), &[THING, 0])?;
    assert_eq!(rt; units.count(), 2);
    assert_eq!(rt; units.next(), 3);
    assert_eq!(rt; create(&mut units, WORD)?, 3);
    assert!(rt; !set(&mut units, 1, 6, Value::Bool(true)));
    assert!(rt; set(&mut units, 1, 5, Value::Label(0, 1)));
    // A label of another set, one that is not there, and an interval that is not in order.
    assert!(rt; !set(&mut units, 1, 5, Value::Label(1, 0)));
    assert!(rt; !set(&mut units, 1, 5, Value::Label(0, 2)));
    assert!(rt; set(&mut units, 1, 4, Value::Interval(-1, 3)));
    assert!(rt; !set(&mut units, 1, 4, Value::Interval(3, 2)));
    Ok(())
}

// Creates a unit, or deletes one of the last 64, by a number, and does the same with a plain map from unit to class.
fn change(
    units: &mut Units,
    plain: &mut BTreeMap<UnitId, ClassId>,
    number: u64,
) -> Result<(), Fail> {
    let class = if number % 4 == 0 { WORD } else { THING };
    let unit = units.next().saturating_sub(1 + (number >> 8) % 64);
    if number % 16 < 7 {
        let created = create(units, class)?;
        plain.insert(created, class)?;
    } else if units.live(unit) {
        units.delete(unit);
        plain.remove(&unit);
    }
    Ok(())
}

// Whether both say the same of a unit.
fn say_the_same(units: &Units, plain: &BTreeMap<UnitId, ClassId>, unit: UnitId) -> bool {
    units.class_if_live(unit) == plain.get(&unit).copied()
        && units.live(unit) == plain.contains_key(&unit)
}

// Whether both say the same of some units: the last one that was created, the next one, and two by a number.
fn are_alike(units: &Units, plain: &BTreeMap<UnitId, ClassId>, number: u64) -> bool {
    let next = units.next();
    units.count() == plain.len()
        && say_the_same(units, plain, next.saturating_sub(1))
        && say_the_same(units, plain, next)
        && say_the_same(units, plain, number % 1024)
        && say_the_same(units, plain, next.saturating_sub(number % 64))
}

#[test]
fn as_a_map(rt: HostRuntime) -> Result<(), Fail> {
    let mut units = units_of(rt.alloc(), &[])?;
    let mut plain = BTreeMap::new(rt.alloc());
    let mut number: u64 = 0x9E37_79B9_7F4A_7C15;
    for _ in 0..2000 {
        number ^= number << 13;
        number ^= number >> 7;
        number ^= number << 17;
        change(&mut units, &mut plain, number)?;
        assert!(rt; are_alike(&units, &plain, number >> 16));
    }
    Ok(())
}
