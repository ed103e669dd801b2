//! A blackboard that is refused memory: no change is made afterwards, and reads answer as before. Here memory suffices
//! for everything; `tools/refuse` runs this test once for every request for memory, and refuses that request.

use crate::board_spaces::{BOARD, loaded, within};
use bb_board::{Board, Said};
use bb_schema::{SlotId, UnitId, Value};
use std::alloc::Global;
use std::test::Fail;

const SCORE: SlotId = 6;

const MATE: SlotId = 7;

// Two things, the first of them on the board.
const UNITS: &str =
    r#"{"units":[{"name":"a","class":"thing"},{"name":"b","class":"thing"}],"spaces":[["a","board"]]}"#;

// Makes one of eight changes where it may be made, and returns whether it was. Each may be made until the last one is.
fn change(alloc: Global, board: &mut Board, turn: u32) -> Result<bool, Fail> {
    let value = Value::Int(7);
    match turn {
        0 if board.schema().class_count() > 1 => Ok(board.create(1).is_ok()),
        1 if board.may_set(1, SCORE, &value).is_ok() => Ok(board.set(1, SCORE, value).is_ok()),
        2 if board.may_link(1, MATE, 2).is_ok() => Ok(board.link(1, MATE, 2).is_ok()),
        3 if board.may_enter(2, BOARD).is_ok() => Ok(board.enter(2, BOARD).is_ok()),
        4 => Ok(board.say(Vec::<Said>::new(alloc)).is_ok()),
        5 if board.may_link(1, MATE, 2).is_ok() => Ok(board.unlink(1, MATE, 2).is_ok()),
        6 if board.live(1) && board.schema().space_count() > 0 => Ok(board.leave(1, 0).is_ok()),
        7 if board.live(2) => Ok(board.delete(2).is_ok()),
        _ => Err(Fail::from("the change may not be made")),
    }
}

// What a blackboard answers of its units.
#[derive(Drop, PartialEq, Eq)]
struct Answers {
    next: UnitId,
    live: bool,
    is_scored: bool,
    mate: Option<UnitId>,
    linked: usize,
    found: usize,
}

fn answers_of(alloc: Global, board: &Board) -> Result<Answers, Fail> {
    Ok(Answers {
        next: board.next(),
        live: board.live(2),
        is_scored: board.has(1, SCORE) && *board.get(1, SCORE) == Value::Int(7),
        mate: board.one(1, MATE),
        linked: board.links(1, MATE)?.len(),
        found: within(alloc, board, 0, 0)?.len(),
    })
}

#[test]
fn no_change_after_a_refused_one(rt: HostRuntime) -> Result<(), Fail> {
    let alloc = rt.alloc();
    let mut board = loaded(alloc, UNITS)?;
    let mut refused = false;
    for turn in 0..8 {
        let before = answers_of(alloc, &board)?;
        if change(alloc, &mut board, turn)? {
            assert!(rt; !refused, "change {turn} after a refused one");
        } else {
            assert!(rt; answers_of(alloc, &board)? == before, "change {turn}");
            refused = true;
        }
    }
    let whole = answers_of(alloc, &board)?;
    assert!(rt; refused || whole.next == 4 && whole.is_scored && !whole.live && whole.found == 0);
    Ok(())
}
