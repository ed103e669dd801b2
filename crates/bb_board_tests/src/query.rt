//! Tests of what queries find with enough memory, also compared with a scan of all units.

ghost use Rattle.std.specs.Prelude.{IfOk};
ghost use Rattle.bb_query.specs.Knows.{Knows};

use crate::board_spaces::kinds_of;
use crate::pattern::{is, not, ordered};
use bb_pattern::{DimValue, Node, Pattern, PatternFault, Query, Relation};
use bb_query::{find, values_of};
use bb_schema::{ClassId, Schema, SlotId, SpaceId, UnitId, Value};
use bb_space::Spaces;
use bb_units::Units;
use std::alloc::Global;
use std::test::Fail;

// Slots 4 to 6 are `pos`, `hue` and `score` of things, 7 and 8 the links, 10 `count` of words; 12 and 13 are `hue` and
// `pos` of boxes. Things are admitted in `board`, words in `desk`, things and boxes in `shelf`.
const SCHEMA: &str = r#"{"labels":[{"name":"hue","values":["red","green"]}],
"classes":[{"name":"thing","slots":[{"name":"pos","kind":"interval"},
{"name":"hue","kind":"label","of":"hue"},{"name":"score","kind":"int"}],
"links":[{"name":"mate","to":"thing","many":false,"inverse":"mate_of"},
{"name":"mate_of","to":"thing","many":false,"inverse":"mate"},
{"name":"parts","to":"word","many":true,"inverse":"whole"}]},
{"name":"word","parent":"thing","slots":[{"name":"count","kind":"int"}],
"links":[{"name":"whole","to":"thing","many":false,"inverse":"parts"}]},
{"name":"box","slots":[{"name":"hue","kind":"label","of":"hue"},{"name":"pos","kind":"int"}]}],
"spaces":[{"name":"board","classes":["thing"],"dims":[
{"name":"pos","kind":"ordered"},{"name":"hue","kind":"label","of":"hue"}]},
{"name":"desk","classes":["word"],"dims":[]},
{"name":"shelf","classes":["thing","box"],"dims":[
{"name":"hue","kind":"label","of":"hue"},{"name":"pos","kind":"ordered"}]}]}"#;

const THING: ClassId = 1;

const WORD: ClassId = 2;

const BOX: ClassId = 3;

const BOARD: SpaceId = 0;

const DESK: SpaceId = 1;

const SHELF: SpaceId = 2;

const POS: SlotId = 4;

const HUE: SlotId = 5;

const BOX_HUE: SlotId = 12;

const BOX_POS: SlotId = 13;

const GREEN: DimValue = DimValue::Label(0, 1);

// Units of these classes, under the numbers from 1 on.
fn units_of(alloc: Global, schema: &Schema, classes: &[ClassId]) -> Result<Units, Fail> {
    let mut units = Units::new(alloc, schema)?;
    for class in classes {
        if !units.has_class(*class) {
            return Err(Fail::from(PatternFault::Space));
        }
        units.create(*class)?;
    }
    Ok(units)
}

fn set(units: &mut Units, unit: UnitId, slot: SlotId, value: Value) -> Result<(), Fail> {
    if !units.takes(unit, slot, &value) {
        return Err(Fail::from(PatternFault::Space));
    }
    units.set(unit, slot, value);
    Ok(())
}

// Enters a unit that a space admits, with its present values.
fn enter(
    alloc: Global,
    schema: &Schema,
    units: &Units,
    spaces: &mut Spaces,
    space: SpaceId,
    unit: UnitId,
) -> Result<(), Fail>
    requires { Knows schema.now units.now spaces.old }
    ensures { Knows schema.now units.now spaces.new }
{
    if space as usize >= schema.space_count() || !units.live(unit) {
        return Err(Fail::from(PatternFault::Space));
    }
    if !schema.allowed(space, units.class_of(unit)) {
        return Err(Fail::from(PatternFault::Space));
    }
    let values = values_of(alloc, schema, units, unit, space)?;
    spaces.enter(space, unit, values)?;
    Ok(())
}

// The spaces, without members.
fn no_members(alloc: Global, schema: &Schema, units: &Units) -> Result<Spaces, Fail>
    ensures { IfOk result (λ spaces. Knows schema.now units.now spaces) }
{
    Ok(Spaces::new(alloc, schema)?)
}

// What a query for a class in a space answers.
fn found(
    alloc: Global,
    schema: &Schema,
    units: &Units,
    spaces: &Spaces,
    class: ClassId,
    space: SpaceId,
    pattern: Pattern,
    operands: &[DimValue],
) -> Result<Vec<UnitId>, Fail>
    requires { Knows schema.now units.now spaces.now }
{
    let query = Query {
        class,
        space,
        kinds: kinds_of(alloc, operands)?,
        pattern,
    };
    match query.fits(schema) {
        Ok(()) => Ok(find(alloc, schema, units, spaces, &query, operands)?),
        Err(fault) => Err(Fail::from(fault)),
    }
}

fn all() -> Pattern {
    Pattern::new(Node::All)
}

// Unit 1 is a thing at `[1, 3]`, 2 a word at `[5, 5]`, 3 a box at 2, and 4 a thing at `[0, 0]`; 2 and 3 are green, the
// others red. All are in the spaces that admit them, and entered in another order.
fn scene(alloc: Global, schema: &Schema) -> Result<Units, Fail> {
    let mut units = units_of(alloc, schema, &[THING, WORD, BOX, THING])?;
    set(&mut units, 1, POS, Value::Interval(1, 3))?;
    set(&mut units, 2, POS, Value::Interval(5, 5))?;
    set(&mut units, 2, HUE, Value::Label(0, 1))?;
    set(&mut units, 3, BOX_POS, Value::Int(2))?;
    set(&mut units, 3, BOX_HUE, Value::Label(0, 1))?;
    Ok(units)
}

// The spaces of the scene.
fn scene_spaces(alloc: Global, schema: &Schema, units: &Units) -> Result<Spaces, Fail>
    ensures { IfOk result (λ spaces. Knows schema.now units.now spaces) }
{
    let mut spaces = no_members(alloc, schema, units)?;
    enter(alloc, schema, units, &mut spaces, SHELF, 4)?;
    enter(alloc, schema, units, &mut spaces, SHELF, 3)?;
    enter(alloc, schema, units, &mut spaces, BOARD, 4)?;
    enter(alloc, schema, units, &mut spaces, BOARD, 1)?;
    enter(alloc, schema, units, &mut spaces, DESK, 2)?;
    enter(alloc, schema, units, &mut spaces, SHELF, 1)?;
    enter(alloc, schema, units, &mut spaces, BOARD, 2)?;
    enter(alloc, schema, units, &mut spaces, SHELF, 2)?;
    Ok(spaces)
}

// What a query answers in the scene.
fn found_in_scene(
    alloc: Global,
    class: ClassId,
    space: SpaceId,
    pattern: Pattern,
    operands: &[DimValue],
) -> Result<Vec<UnitId>, Fail> {
    let schema = Schema::read(alloc, SCHEMA)?;
    let units = scene(alloc, &schema)?;
    let spaces = scene_spaces(alloc, &schema, &units)?;
    found(
        alloc, &schema, &units, &spaces, class, space, pattern, operands,
    )
}

// What a scan of all units of the scene finds: those that the space admits, whose class descends from the query's, and
// of whose present values the pattern holds.
fn scanned(
    alloc: Global,
    class: ClassId,
    space: SpaceId,
    pattern: &Pattern,
    operands: &[DimValue],
) -> Result<Vec<UnitId>, Fail> {
    let schema = Schema::read(alloc, SCHEMA)?;
    let units = scene(alloc, &schema)?;
    let mut found = Vec::new(alloc);
    for unit in 1..5 {
        if space as usize >= schema.space_count() || !units.live(unit) {
            continue;
        }
        let of = units.class_of(unit);
        if !schema.allowed(space, of) || !schema.descends(of, class) {
            continue;
        }
        let values = values_of(alloc, &schema, &units, unit, space)?;
        if pattern.holds(operands, values.as_slice()) {
            found.push(unit)?;
        }
    }
    Ok(found)
}

// Whether a query finds in the scene what a scan finds.
fn agrees(
    alloc: Global,
    class: ClassId,
    space: SpaceId,
    pattern: Pattern,
    operands: &[DimValue],
) -> Result<bool, Fail> {
    let scanned = scanned(alloc, class, space, &pattern, operands)?;
    let found = found_in_scene(alloc, class, space, pattern, operands)?;
    Ok(found.as_slice() == scanned.as_slice())
}

#[test]
fn as_a_scan(rt: HostRuntime) -> Result<(), Fail> {
    let on_board = found_in_scene(rt.alloc(), THING, BOARD, all(), &[])?;
    assert_eq!(rt; on_board.as_slice(), [1, 2, 4].as_slice());
    let near = [DimValue::Interval(0, 3)];
    for class in [THING, WORD, BOX] {
        assert!(rt; agrees(rt.alloc(), class, BOARD, all(), &[])?);
        assert!(rt; agrees(rt.alloc(), class, DESK, all(), &[])?);
        assert!(rt; agrees(rt.alloc(), class, SHELF, all(), &[])?);
        assert!(rt;
            agrees(
                rt.alloc(),
                class,
                BOARD,
                ordered(Relation::Within, 0, 0),
                &near
            )?
        );
        assert!(rt; agrees(rt.alloc(), class, BOARD, is(1, 0), &[GREEN])?);
        assert!(rt;
            agrees(
                rt.alloc(),
                class,
                SHELF,
                ordered(Relation::Within, 1, 0),
                &near
            )?
        );
        assert!(rt; agrees(rt.alloc(), class, SHELF, is(0, 0), &[GREEN])?);
    }
    Ok(())
}

/// Returns two patterns as a list.
pub(crate) fn two(alloc: Global, one: Pattern, other: Pattern) -> Result<Vec<Pattern>, Fail> {
    let mut parts = Vec::new(alloc);
    parts.push(one)?;
    parts.push(other)?;
    Ok(parts)
}

// Whether a query for things on the board finds what a scan finds, where operand 0 is green and 1 is `[0, 3]`.
fn pattern_agrees(alloc: Global, pattern: Pattern) -> Result<bool, Fail> {
    let operands = [GREEN, DimValue::Interval(0, 3)];
    agrees(alloc, THING, BOARD, pattern, &operands)
}

// Whether a query for one of two patterns finds what a scan finds, as `pattern_agrees` says.
fn or_agrees(alloc: Global, one: Pattern, other: Pattern) -> Result<bool, Fail> {
    pattern_agrees(alloc, Pattern::new(Node::Or(two(alloc, one, other)?)))
}

#[test]
fn parts_as_a_scan(rt: HostRuntime) -> Result<(), Fail> {
    let alloc = rt.alloc();
    let both = Pattern::new(Node::And(two(alloc, all(), is(1, 0))?));
    assert!(rt; pattern_agrees(alloc, both)?);
    assert!(rt; or_agrees(alloc, is(1, 0), ordered(Relation::Within, 0, 1))?);
    assert!(rt; or_agrees(alloc, is(1, 0), ordered(Relation::More, 0, 1))?);
    assert!(rt; or_agrees(alloc, is(1, 0), all())?);
    assert!(rt; pattern_agrees(alloc, not(alloc, is(1, 0))?)?);
    Ok(())
}
