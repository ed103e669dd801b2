//! Tests of spaces on a blackboard, with enough memory. board.rt has the tests of units and links.

ghost use Rattle.std.specs.Prelude.{◌≡◌, IfOk, map};
ghost use Rattle.bb_pattern.specs.Values.{kind_of_operand};

use crate::board::{load, noted};
use crate::pattern::ordered;
use bb_basis::Items;
use bb_board::Board;
use bb_pattern::{DimValue, OperandKind, Pattern, PatternFault, Query, Relation};
use bb_schema::{ClassId, Schema, SlotId, SpaceId, UnitId, Value};
use std::alloc::Global;
use std::test::Fail;

// `thing` is class 1, `word` 2; `pos`, `hue` and `score` are slots 4 to 6. `board` takes things, `desk` words.
const SCHEMA: &str = r#"{"labels":[{"name":"hue","values":["red","green"]}],
"classes":[{"name":"thing","slots":[{"name":"pos","kind":"interval"},
{"name":"hue","kind":"label","of":"hue"},{"name":"score","kind":"int"}],
"links":[{"name":"mate","to":"thing","many":false,"inverse":"mate_of"},
{"name":"mate_of","to":"thing","many":false,"inverse":"mate"},
{"name":"parts","to":"word","many":true,"inverse":"whole"}]},
{"name":"word","parent":"thing","slots":[{"name":"count","kind":"int"}],
"links":[{"name":"whole","to":"thing","many":false,"inverse":"parts"}]}],
"spaces":[{"name":"board","classes":["thing"],"dims":[
{"name":"pos","kind":"ordered"},{"name":"hue","kind":"label","of":"hue"}]},
{"name":"desk","classes":["word"],"dims":[{"name":"hue","kind":"label","of":"hue"}]}]}"#;

const THING: ClassId = 1;

const POS: SlotId = 4;

/// The space of things.
pub(crate) const BOARD: SpaceId = 0;

const DESK: SpaceId = 1;

/// Returns a blackboard with the units of a document, whose notes are taken.
pub(crate) fn loaded(alloc: Global, text: &str) -> Result<Board, Fail> {
    let mut board = Board::new(alloc, Schema::read(alloc, SCHEMA)?)?;
    load(&mut board, text)?;
    drop(board.take_notes());
    Ok(board)
}

pub(crate) fn set(board: &mut Board, unit: UnitId, slot: SlotId, value: Value) -> Result<(), Fail> {
    board.may_set(unit, slot, &value)?;
    board.set(unit, slot, value)?;
    Ok(())
}

pub(crate) fn enter(board: &mut Board, unit: UnitId, space: SpaceId) -> Result<(), Fail> {
    board.may_enter(unit, space)?;
    board.enter(unit, space)?;
    Ok(())
}

pub(crate) fn leave(board: &mut Board, unit: UnitId, space: SpaceId) -> Result<(), Fail> {
    if (space as usize) < board.schema().space_count() && board.live(unit) {
        board.leave(unit, space)?;
    }
    Ok(())
}

/// Returns the kinds of at most two operands. More are not asked for.
pub(crate) fn kinds_of(alloc: Global, operands: &[DimValue]) -> Result<Items<OperandKind>, Fail>
    ensures { IfOk result (λ kinds. kinds ≡ map kind_of_operand operands.now) }
{
    let mut kinds = Items::new(alloc);
    match operands {
        [] => Ok(kinds),
        [only] => {
            kinds.push(only.kind())?;
            Ok(kinds)
        }
        [one, other] => {
            kinds.push(one.kind())?;
            kinds.push(other.kind())?;
            Ok(kinds)
        }
        _ => Err(Fail::from(PatternFault::Limit)),
    }
}

/// Returns the result of a query.
pub(crate) fn found(
    alloc: Global,
    board: &Board,
    class: ClassId,
    space: SpaceId,
    pattern: Pattern,
    operands: &[DimValue],
) -> Result<Vec<UnitId>, Fail> {
    let query = Query {
        class,
        space,
        kinds: kinds_of(alloc, operands)?,
        pattern,
    };
    match query.fits(board.schema()) {
        Ok(()) => Ok(board.find(&query, operands)?),
        Err(fault) => Err(Fail::from(fault)),
    }
}

/// Returns the things on the board within `[low, high]`.
pub(crate) fn within(
    alloc: Global,
    board: &Board,
    low: i64,
    high: i64,
) -> Result<Vec<UnitId>, Fail> {
    let operands = [DimValue::Interval(low, high)];
    let pattern = ordered(Relation::Within, 0, 0);
    found(alloc, board, THING, BOARD, pattern, &operands)
}

#[test]
fn moved_unit(rt: HostRuntime) -> Result<(), Fail> {
    let alloc = rt.alloc();
    let mut board = loaded(
        alloc,
        r#"{"units":[{"name":"a","class":"thing","slots":{"pos":[1,3]}}],"links":[["a","mate","a"]],
"spaces":[["a","board"]]}"#,
    )?;
    assert_eq!(rt; within(alloc, &board, 1, 3)?.as_slice(), [1].as_slice());
    set(&mut board, 1, POS, Value::Interval(5, 5))?;
    assert_eq!(rt; within(alloc, &board, 5, 9)?.as_slice(), [1].as_slice());
    assert!(rt; within(alloc, &board, 1, 3)?.is_empty());
    drop(board.take_notes());
    leave(&mut board, 1, DESK)?;
    leave(&mut board, 1, BOARD)?;
    leave(&mut board, 1, BOARD)?;
    let shown = noted(alloc, &mut board)?;
    assert_eq!(rt; shown.as_str(), "leave 1 board, ");
    assert!(rt; within(alloc, &board, 5, 9)?.is_empty());
    enter(&mut board, 1, BOARD)?;
    enter(&mut board, 1, BOARD)?;
    let shown = noted(alloc, &mut board)?;
    assert_eq!(rt; shown.as_str(), "enter 1 board, ");
    assert_eq!(rt; within(alloc, &board, 5, 9)?.as_slice(), [1].as_slice());
    Ok(())
}
