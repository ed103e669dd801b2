//! Tests of a blackboard: units, links, notes and initial units, with enough memory. board_spaces.rt has the tests of
//! spaces.

use bb_board::{Board, Change, Event, Note, Reason, Said, UnitsFault};
use bb_schema::{Schema, SharedSchema, SlotId, UnitId, Value};
use std::alloc::Global;
use std::fmt::Write;
use std::test::Fail;

// `thing` is class 1 with the slots 4, `score`, to 11, `known_by`, and `word` class 2 with these and 12, `whole`.
const SCHEMA: &str = r#"{"classes":[{"name":"thing","slots":[{"name":"score","kind":"int"}],
"links":[{"name":"mate","to":"thing","many":false,"inverse":"mate_of"},
{"name":"mate_of","to":"thing","many":false,"inverse":"mate"},
{"name":"parts","to":"word","many":true,"inverse":"whole"},
{"name":"follows","to":"thing","many":false,"inverse":"led_by"},
{"name":"led_by","to":"thing","many":true,"inverse":"follows"},
{"name":"knows","to":"thing","many":true,"inverse":"known_by"},
{"name":"known_by","to":"thing","many":true,"inverse":"knows"}]},
{"name":"word","parent":"thing",
"links":[{"name":"whole","to":"thing","many":false,"inverse":"parts"}]}]}"#;

const SCORE: SlotId = 4;

const MATE: SlotId = 5;

const KNOWS: SlotId = 10;

// A blackboard before anything was created.
fn empty(alloc: Global) -> Result<Board, Fail> {
    Ok(Board::new(alloc, Schema::read(alloc, SCHEMA)?)?)
}

/// Returns the result of loading a document of initial units into a fresh blackboard.
pub(crate) fn load(board: &mut Board, text: &str) -> Result<(), UnitsFault> {
    if !board.fresh() {
        return Err(UnitsFault::Memory);
    }
    board.load(text)
}

// A blackboard with words 1, 2 and 3 and the thing 4, named by their numbers, with these links.
fn four(alloc: Global, links: &str) -> Result<Board, Fail> {
    let mut text = String::from_str(
        alloc,
        r#"{"units":[{"name":"1","class":"word"},{"name":"2","class":"word"},
{"name":"3","class":"word"},{"name":"4","class":"thing"}],"links":["#,
    )?;
    text.push_str(links)?;
    text.push_str("]}")?;
    let mut board = empty(alloc)?;
    load(&mut board, text.as_str())?;
    drop(board.take_notes());
    Ok(board)
}

// Links two units where they may be linked, or says why they may not.
fn link(board: &mut Board, unit: UnitId, slot: SlotId, partner: UnitId) -> Result<u8, Fail> {
    match board.may_link(unit, slot, partner) {
        Ok(()) => {
            board.link(unit, slot, partner)?;
            Ok(0)
        }
        Err(reason) => Ok(reason.number()),
    }
}

fn unlink(board: &mut Board, unit: UnitId, slot: SlotId, partner: UnitId) -> Result<(), Fail> {
    if board.may_link(unit, slot, partner).is_ok() {
        board.unlink(unit, slot, partner)?;
    }
    Ok(())
}

fn delete(board: &mut Board, unit: UnitId) -> Result<(), Fail> {
    if board.live(unit) {
        board.delete(unit)?;
    }
    Ok(())
}

// Appends what changed of a unit.
fn add_change(
    text: &mut String,
    schema: &Schema,
    unit: UnitId,
    change: Change,
) -> Result<(), Fail> {
    match change {
        Change::Enter(space) => {
            let name = schema.space_name(space).unwrap_or("?");
            return Ok(write!(text, "enter {unit} {name}, ")?);
        }
        Change::Leave(space) => {
            let name = schema.space_name(space).unwrap_or("?");
            return Ok(write!(text, "leave {unit} {name}, ")?);
        }
        _ => {}
    }
    let (word, slot, partner) = match change {
        Change::Create => ("create", None, 0),
        Change::Delete => ("delete", None, 0),
        Change::Update(slot) => ("set", Some(slot), 0),
        Change::Link { slot, partner } => ("link", Some(slot), partner),
        Change::Unlink { slot, partner } => ("unlink", Some(slot), partner),
        _ => ("", None, 0),
    };
    write!(text, "{word} {unit}")?;
    if let Some(slot) = slot {
        write!(text, ".{}", schema.slot_name(slot).unwrap_or("?"))?;
    }
    if partner > 0 {
        write!(text, " {partner}")?;
    }
    text.push_str(", ")?;
    Ok(())
}

/// Takes the notes of a blackboard, and returns them as text.
pub(crate) fn noted(alloc: Global, board: &mut Board) -> Result<String, Fail> {
    let mut text = String::new(alloc);
    let notes = board.take_notes();
    for note in &notes {
        match note {
            Note::Event(Event::Change { unit, change, .. }) => {
                add_change(&mut text, board.schema(), *unit, *change)?
            }
            Note::Event(Event::Quiescence) => text.push_str("quiescence, ")?,
            Note::Said(values) => write!(text, "say {}, ", values.len())?,
        }
    }
    Ok(text)
}

#[test]
fn notes_in_order(rt: HostRuntime) -> Result<(), Fail> {
    let alloc = rt.alloc();
    let mut board = empty(alloc)?;
    load(
        &mut board,
        r#"{"units":[{"class":"word","name":"","slots":{"score":3}},{"name":"word","class":"focus"}],
"links":[["","mate",""]]}"#,
    )?;
    let mut values = Vec::new(alloc);
    values.push(Said::Value(Value::Int(7)))?;
    values.push(Said::Unit(1))?;
    board.say(values)?;
    if board.schema().class_count() > 1 {
        assert_eq!(rt; board.create(1)?, 3);
    }
    assert_eq!(rt; board.next(), 4);
    let value = Value::Int(-1);
    assert_eq!(rt; board.may_set(2, SCORE, &value), Err(Reason::Slot));
    if board.may_set(3, SCORE, &value).is_ok() {
        board.set(3, SCORE, value)?;
    }
    let shown = noted(alloc, &mut board)?;
    assert_eq!(rt;
        shown.as_str(),
        "create 1, set 1.score, create 2, link 1.mate 1, link 1.mate_of 1, say 2, create 3, set 3.score, "
    );
    assert_eq!(rt; board.take_notes().len(), 0);
    if board.live(1) {
        assert_eq!(rt; board.class_of(1), 2);
    }
    for (unit, class, was) in [(0, 2, true), (1, 1, true), (2, 1, false), (4, 0, false)] {
        assert_eq!(rt; board.was(unit, class), was);
    }
    Ok(())
}

#[test]
fn shared_schemas(rt: HostRuntime) -> Result<(), Fail> {
    let shared = SharedSchema::new(rt.alloc(), Schema::read(rt.alloc(), SCHEMA)?)?;
    let board = empty(rt.alloc())?;
    assert!(rt; board.shared_schema()?.get().same(shared.share()?.get()));
    Ok(())
}

#[test]
fn links_of_units(rt: HostRuntime) -> Result<(), Fail> {
    let mut board = four(rt.alloc(), r#"["1","mate","2"],["3","mate","4"]"#)?;
    assert_eq!(rt; link(&mut board, 1, MATE, 4)?, 0);
    let shown = noted(rt.alloc(), &mut board)?;
    assert_eq!(rt;
        shown.as_str(),
        "unlink 1.mate 2, unlink 2.mate_of 1, unlink 3.mate 4, unlink 4.mate_of 3, link 1.mate 4, link 4.mate_of 1, "
    );
    assert_eq!(rt; board.one(1, MATE), Some(4));
    unlink(&mut board, 4, MATE + 1, 1)?;
    assert_eq!(rt; link(&mut board, 1, KNOWS, 1)?, 0);
    delete(&mut board, 1)?;
    let shown = noted(rt.alloc(), &mut board)?;
    assert_eq!(rt;
        shown.as_str(),
        "unlink 4.mate_of 1, unlink 1.mate 4, link 1.knows 1, link 1.known_by 1, \
         unlink 1.knows 1, unlink 1.known_by 1, delete 1, "
    );
    assert!(rt; !board.live(1));
    assert_eq!(rt; board.links(1, KNOWS)?.len(), 0);
    Ok(())
}

#[test]
fn refused_units_leave_nothing(rt: HostRuntime) -> Result<(), Fail> {
    let mut board = empty(rt.alloc())?;
    for (text, number) in [
        ("{", 1),
        (r#"{"units":[{"name":"a"}]}"#, 2),
        (r#"{"units":[{"name":"a","class":"x"}]}"#, 3),
        (
            r#"{"units":[{"name":"a","class":"thing"},{"name":"a","class":"x"}]}"#,
            4,
        ),
        (
            r#"{"units":[{"name":"a","class":"thing","slots":{"score":"x"}}]}"#,
            5,
        ),
        (
            r#"{"units":[{"name":"a","class":"thing"}],"links":[["a","mate","a"],["a","mate","b"]]}"#,
            3,
        ),
        (
            r#"{"units":[{"name":"a","class":"word"},{"name":"b","class":"thing"}],"links":[["a","parts","a"],["a","parts","b"]]}"#,
            6,
        ),
    ] {
        match load(&mut board, text) {
            Ok(()) => assert!(rt; false, "{text} is loaded"),
            Err(fault) => assert_eq!(rt; fault.number(), number, "{text}"),
        }
        assert!(rt; board.fresh());
    }
    load(&mut board, "{}")?;
    assert!(rt; board.fresh());
    Ok(())
}

#[test]
fn why_links_may_not_be_made(rt: HostRuntime) -> Result<(), Fail> {
    let mut board = four(rt.alloc(), "")?;
    for (unit, slot, partner, number) in [
        (5, MATE, 1, 1),
        (1, MATE, 0, 1),
        (1, SCORE, 2, 2),
        (1, 99, 2, 2),
        (4, 12, 1, 2),
        (1, 7, 4, 4),
        (1, 7, 2, 0),
    ] {
        assert_eq!(rt; link(&mut board, unit, slot, partner)?, number);
    }
    Ok(())
}
