//! The blackboards of cases, each made for one case. Executions use them.

use bb_board::Board;
use bb_cases_format::{Fault, Scene};
use bb_schema::{Schema, UnitId};
use std::alloc::Global;

/// Returns the schema of a document. `Schema`: it is not one.
pub fn schema_of(alloc: Global, document: &str) -> Result<Schema, Fault> {
    Schema::read(alloc, document).ok().ok_or(Fault::Schema)
}

/// Returns the blackboard of a scene, without notes. `Schema`, `Units`: the document is refused. `Delete`: the unit to
/// delete does not exist.
pub(crate) fn board_of(alloc: Global, scene: &Scene) -> Result<Board, Fault> {
    let schema = schema_of(alloc, scene.schema.as_str())?;
    let units = match &scene.units {
        Some(units) => units.as_str(),
        None => "{}",
    };
    let board = loaded(alloc, schema, units).ok_or(Fault::Units)?;
    match scene.deleted {
        Some(unit) => without(board, unit).ok_or(Fault::Delete),
        None => Ok(board),
    }
}

// Returns a blackboard with initial units, without notes.
fn loaded(alloc: Global, schema: Schema, units: &str) -> Option<Board> {
    let mut board = Board::new(alloc, schema).ok()?;
    if board.fresh() {
        board.load(units).ok()?;
    }
    drop(board.take_notes());
    Some(board)
}

// Returns the blackboard without a unit, if the unit exists.
fn without(board: Board, unit: UnitId) -> Option<Board> {
    let mut board = board;
    if !board.live(unit) {
        return None;
    }
    board.delete(unit).ok()?;
    drop(board.take_notes());
    Some(board)
}
