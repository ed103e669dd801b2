//! A test of what queries find on a blackboard after each of many changes, compared with a scan of the given data.

use crate::board_spaces::{enter, found, leave, set};
use crate::pattern::{is, not, ordered};
use crate::query::two;
use bb_board::Board;
use bb_pattern::{DimValue, Node, Pattern, Relation};
use bb_schema::{ClassId, LabelId, Schema, SlotId, SpaceId, UnitId, Value};
use std::alloc::Global;
use std::test::Fail;

// `pos` and `hue` are slots 4 and 5 of things and words, and the dimensions of `board`, which takes both.
const SCHEMA: &str = r#"{"labels":[{"name":"hue","values":["red","green","blue"]}],
"classes":[{"name":"thing","slots":[{"name":"pos","kind":"interval"},
{"name":"hue","kind":"label","of":"hue"}]},{"name":"word","parent":"thing"}],
"spaces":[{"name":"board","classes":["thing"],"dims":[
{"name":"pos","kind":"ordered"},{"name":"hue","kind":"label","of":"hue"}]}]}"#;

const THING: ClassId = 1;

const WORD: ClassId = 2;

const BOARD: SpaceId = 0;

const POS: SlotId = 4;

const HUE: SlotId = 5;

// Even numbers are words.
const UNITS: u64 = 256;

// Whether a unit is in the space, and what it has on its dimensions.
#[derive(Clone, Copy)]
struct Told {
    inside: bool,
    low: i64,
    high: i64,
    hue: LabelId,
}

// The next of some numbers that look random.
fn next(number: u64) -> u64 {
    let number = number ^ (number << 13);
    let number = number ^ (number >> 7);
    number ^ (number << 17)
}

fn class_of(unit: UnitId) -> ClassId {
    if unit % 2 == 0 { WORD } else { THING }
}

// A blackboard with the units, none of them in the space.
fn outside(alloc: Global) -> Result<Board, Fail> {
    let mut board = Board::new(alloc, Schema::read(alloc, SCHEMA)?)?;
    for unit in 1..=UNITS {
        let class = class_of(unit);
        if (class as usize) < board.schema().class_count() {
            board.create(class)?;
        }
    }
    Ok(board)
}

// What is told of the units at first: the defaults of their slots.
fn at_first(alloc: Global) -> Result<Vec<Told>, Fail> {
    let mut told = Vec::new(alloc);
    for _ in 0..UNITS {
        told.push(Told {
            inside: false,
            low: 0,
            high: 0,
            hue: 0,
        })?;
    }
    Ok(told)
}

// Lets a unit enter the space, leave it, or be elsewhere, by a number. It returns what the unit has then.
fn changed(board: &mut Board, unit: UnitId, old: Told, number: u64) -> Result<Told, Fail> {
    let mut told = old;
    match (number >> 24) % 4 {
        0 => {
            leave(board, unit, BOARD)?;
            told.inside = false;
        }
        1 => {
            enter(board, unit, BOARD)?;
            told.inside = true;
        }
        2 => {
            told.hue = ((number >> 28) % 3) as LabelId;
            set(board, unit, HUE, Value::Label(0, told.hue))?;
        }
        _ => {
            told.low = ((number >> 28) % 256) as i64;
            told.high = told.low + ((number >> 36) % 8) as i64;
            set(board, unit, POS, Value::Interval(told.low, told.high))?;
        }
    }
    drop(board.take_notes());
    Ok(told)
}

// Changes a unit by a number.
fn change(board: &mut Board, told: &mut Vec<Told>, number: u64) -> Result<(), Fail> {
    let place = (number % UNITS) as usize;
    if place < told.len() {
        told[place] = changed(board, place as u64 + 1, told[place], number)?;
    }
    Ok(())
}

fn relation_of(number: u64) -> Relation {
    match number % 5 {
        0 => Relation::Within,
        1 => Relation::Covers,
        2 => Relation::Overlaps,
        3 => Relation::Less,
        _ => Relation::More,
    }
}

// A pattern of the place, the hue or both, by a number.
fn pattern_of(alloc: Global, number: u64) -> Result<Pattern, Fail> {
    let place = ordered(relation_of(number >> 8), 0, 0);
    let hue = is(1, 1);
    let node = match number % 6 {
        0 => return Ok(place),
        1 => return Ok(hue),
        2 => return not(alloc, place),
        3 => Node::And(two(alloc, place, hue)?),
        4 => Node::And(two(alloc, hue, place)?),
        _ => Node::Or(two(alloc, place, hue)?),
    };
    Ok(Pattern::new(node))
}

// The interval and the label that a number asks for.
fn operands_of(number: u64) -> [DimValue; 2] {
    let low = (number % 256) as i64;
    let high = low + ((number >> 8) % 64) as i64;
    let hue = ((number >> 16) % 3) as LabelId;
    [DimValue::Interval(low, high), DimValue::Label(0, hue)]
}

// Whether a pattern holds of what a unit has.
fn holds(pattern: &Pattern, operands: &[DimValue], told: Told) -> bool {
    let values = [
        DimValue::Interval(told.low, told.high),
        DimValue::Label(0, told.hue),
    ];
    told.inside && pattern.holds(operands, &values)
}

// The units of a class of which a pattern holds, by a scan of all.
fn scanned(
    alloc: Global,
    told: &[Told],
    class: ClassId,
    pattern: &Pattern,
    operands: &[DimValue],
) -> Result<Vec<UnitId>, Fail> {
    let mut list = Vec::new(alloc);
    for place in 0..told.len() {
        let unit = place as u64 + 1;
        if class == WORD && class_of(unit) == THING {
            continue;
        }
        if holds(pattern, operands, told[place]) {
            list.push(unit)?;
        }
    }
    Ok(list)
}

// Whether a query finds what a scan finds.
fn agrees(alloc: Global, board: &Board, told: &[Told], number: u64) -> Result<bool, Fail> {
    let class = class_of(number);
    let pattern = pattern_of(alloc, number >> 1)?;
    let operands = operands_of(number >> 32);
    let scanned = scanned(alloc, told, class, &pattern, &operands)?;
    let found = found(alloc, board, class, BOARD, pattern, &operands)?;
    Ok(found.as_slice() == scanned.as_slice())
}

#[test]
fn as_a_scan_along_changes(rt: HostRuntime) -> Result<(), Fail> {
    let alloc = rt.alloc();
    let mut board = outside(alloc)?;
    let mut told = at_first(alloc)?;
    let mut number: u64 = 0x9E37_79B9_7F4A_7C15;
    for _ in 0..2000 {
        number = next(number);
        change(&mut board, &mut told, number)?;
        assert!(rt; agrees(alloc, &board, told.as_slice(), next(number))?);
    }
    Ok(())
}
