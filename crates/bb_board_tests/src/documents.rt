//! Tests of documents: their text, and that a blackboard that loads one writes the same document.

use bb_board::{Board, UnitsFault};
use bb_board_document::units_document;
use bb_native::View;
use bb_schema::{Schema, UnitId};
use std::alloc::Global;
use std::test::Fail;

// `box` has `span`, `hue`, `weight` (7), `note`, and then the links `holds` and `inside`; the spaces are `yard` and
// `shop`.
const SCHEMA: &str = r#"{"labels":[{"name":"hue","values":["red","green"]}],
"classes":[{"name":"box","slots":[{"name":"span","kind":"interval"},{"name":"hue","kind":"label","of":"hue"},
{"name":"weight","kind":"int","default":7},{"name":"note","kind":"text"}],
"links":[{"name":"holds","to":"box","many":true,"inverse":"inside"},
{"name":"inside","to":"box","many":false,"inverse":"holds"}]},
{"name":"crate","parent":"box"},{"name":"job"}],
"spaces":[{"name":"yard","classes":["box"],"dims":[{"name":"span","kind":"ordered"}]},
{"name":"shop","classes":["box","job"],"dims":[]}]}"#;

// What a fresh blackboard answers to a document of first units.
fn load(board: &mut Board, text: &str) -> Result<(), UnitsFault> {
    if !board.fresh() {
        return Err(UnitsFault::Memory);
    }
    board.load(text)
}

// A blackboard with the units of a document.
fn board(alloc: Global, text: &str) -> Result<Board, Fail> {
    let mut board = Board::new(alloc, Schema::read(alloc, SCHEMA)?)?;
    load(&mut board, text)?;
    Ok(board)
}

fn delete(board: &mut Board, unit: UnitId) -> Result<(), Fail> {
    if board.live(unit) {
        board.delete(unit)?;
    }
    Ok(())
}

// The document of a blackboard, if one that loads it has the same document.
fn document(alloc: Global, board: &Board) -> Result<String, Fail> {
    let text = units_document(alloc, &View::new(board))?;
    let again = units_document(alloc, &View::new(&self::board(alloc, text.as_str())?))?;
    if again.as_str() != text.as_str() {
        return Ok(String::new(alloc));
    }
    Ok(text)
}

#[test]
fn a_unit_with_defaults(rt: HostRuntime) -> Result<(), Fail> {
    let alloc = rt.alloc();
    let board = board(alloc, r#"{"units":[{"name":"go","class":"job"}]}"#)?;
    let text = document(alloc, &board)?;
    let expected = r#"{"links":[],"spaces":[],"units":[{"class":"job","name":"1","slots":{}}]}"#;
    assert_eq!(rt; text.as_str(), expected);
    Ok(())
}

#[test]
fn values_that_are_no_defaults(rt: HostRuntime) -> Result<(), Fail> {
    let alloc = rt.alloc();
    let board = board(
        alloc,
        r#"{"units":[{"name":"a","class":"crate",
"slots":{"weight":-3,"span":[1,4],"hue":"green","note":"say \"hi\""}},
{"name":"b","class":"box","slots":{"weight":7,"hue":"red","span":[0,0],"note":""}}]}"#,
    )?;
    let text = document(alloc, &board)?;
    let expected =
        r#"{"links":[],"spaces":[],"units":[{"class":"crate","name":"1","slots":{"hue":"green","note":"say \"hi\"","span":[1,4],"weight":-3}},{"class":"box","name":"2","slots":{}}]}"#;
    assert_eq!(rt; text.as_str(), expected);
    Ok(())
}

// Unit 1 is deleted, so the others move up by one. The links stay in the order in which they were made, and each is
// told by `holds`.
#[test]
fn a_gap_and_links_in_order(rt: HostRuntime) -> Result<(), Fail> {
    let alloc = rt.alloc();
    let mut board = board(
        alloc,
        r#"{"units":[{"name":"a","class":"box"},{"name":"b","class":"box"},{"name":"c","class":"box"},
{"name":"d","class":"box"}],"links":[["d","holds","c"],["c","holds","a"],["b","inside","d"]]}"#,
    )?;
    delete(&mut board, 1)?;
    let text = document(alloc, &board)?;
    let expected =
        r#"{"links":[["3","holds","2"],["3","holds","1"]],"spaces":[],"units":[{"class":"box","name":"1","slots":{}},{"class":"box","name":"2","slots":{}},{"class":"box","name":"3","slots":{}}]}"#;
    assert_eq!(rt; text.as_str(), expected);
    Ok(())
}

#[test]
fn a_unit_in_two_spaces(rt: HostRuntime) -> Result<(), Fail> {
    let alloc = rt.alloc();
    let board = board(
        alloc,
        r#"{"units":[{"name":"a","class":"box"},{"name":"go","class":"job"}],
"spaces":[["go","shop"],["a","shop"],["a","yard"]]}"#,
    )?;
    let text = document(alloc, &board)?;
    let expected =
        r#"{"links":[],"spaces":[["1","yard"],["1","shop"],["2","shop"]],"units":[{"class":"box","name":"1","slots":{}},{"class":"job","name":"2","slots":{}}]}"#;
    assert_eq!(rt; text.as_str(), expected);
    Ok(())
}
