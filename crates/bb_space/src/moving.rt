//! Changes of a unit's values in spaces: in all given spaces or, if memory runs out, in none. The new index keys are
//! added first, which may fail. Then the values are swapped and the old keys removed, which can't fail. `spaces.rt`
//! calls it.

ghost use Rattle.std.specs.Prelude.{◌≡◌, ◌<◌, OnOk, OnErr, length};
ghost use Rattle.bb_space.specs.Spaces.{after_moved, after_moves};
ghost use Rattle.bb_space.specs.proving.Indexed.{seen, AreIndexed, AreLoose, AreReady};

use crate::members::Members;
use bb_basis::{Items, Memory};
use bb_pattern::DimValue;
use bb_schema::{SpaceId, UnitId};
use std::alloc::AllocError;

// Adds the places of moves. An error may leave some of them in the index.
fn prepare_all(
    spaces: &mut Vec<Members>,
    unit: UnitId,
    moves: &[(SpaceId, Items<DimValue>)],
) -> Result<(), Memory>
    requires { AreIndexed spaces.old.items }
    ensures same { seen spaces.new.items ≡ seen spaces.old.items }
    ensures loose { AreLoose unit moves.now spaces.new.items }
    ensures ready { OnOk result (AreReady unit moves.now spaces.new.items) }
{
    for (space, values) in moves {
        let index = *space as usize;
        if index >= spaces.len() {
            continue;
        }
        spaces[index].prepare(unit, values.as_slice())?;
    }
    Ok(())
}

// Swaps the values of a unit with the values of moves, whose places are in the index.
fn exchange_all(
    spaces: &mut Vec<Members>,
    unit: UnitId,
    moves: &mut Vec<(SpaceId, Items<DimValue>)>,
)
    requires loose { AreLoose unit moves.old.items spaces.old.items }
    requires ready { AreReady unit moves.old.items spaces.old.items }
    ensures moved { seen spaces.new.items ≡ after_moves (seen spaces.old.items) unit moves.old.items }
    ensures loose { AreLoose unit moves.new.items spaces.new.items }
{
    for index in 0..moves.len() {
        let space = moves[index].0 as usize;
        if space >= spaces.len() {
            continue;
        }
        spaces[space].exchange(unit, &mut moves[index].1);
    }
}

// Removes the places of moves, except places of the unit's present values.
fn settle_all(spaces: &mut Vec<Members>, unit: UnitId, moves: &[(SpaceId, Items<DimValue>)])
    requires { AreLoose unit moves.now spaces.old.items }
    ensures same { seen spaces.new.items ≡ seen spaces.old.items }
    ensures indexed { AreIndexed spaces.new.items }
{
    for (space, values) in moves {
        let index = *space as usize;
        if index >= spaces.len() {
            continue;
        }
        spaces[index].settle(unit, values.as_slice());
    }
}

/// Gives a member of a space other values. An error changes nothing.
pub(crate) fn move_one(
    spaces: &mut Vec<Members>,
    space: SpaceId,
    unit: UnitId,
    values: Items<DimValue>,
) -> Result<(), Memory>
    requires indexed { AreIndexed spaces.old.items }
    requires space { space < length spaces.old.items }
    ensures moved { OnOk result (seen spaces.new.items ≡ after_moved (seen spaces.old.items) space unit values) }
    ensures err { OnErr result (seen spaces.new.items ≡ seen spaces.old.items) }
    ensures indexed { AreIndexed spaces.new.items }
{
    spaces[space as usize].moved(unit, values)
}

/// Gives a unit other values in some spaces, if it is a member there. An error changes nothing.
pub(crate) fn move_all(
    spaces: &mut Vec<Members>,
    unit: UnitId,
    moves: Vec<(SpaceId, Items<DimValue>)>,
) -> Result<(), Memory>
    requires { AreIndexed spaces.old.items }
    ensures moved { OnOk result (seen spaces.new.items ≡ after_moves (seen spaces.old.items) unit moves.items) }
    ensures err { OnErr result (seen spaces.new.items ≡ seen spaces.old.items) }
    ensures indexed { AreIndexed spaces.new.items }
{
    let mut moves = moves;
    if prepare_all(spaces, unit, moves.as_slice()).is_err() {
        settle_all(spaces, unit, moves.as_slice());
        return Err(AllocError);
    }
    exchange_all(spaces, unit, &mut moves);
    settle_all(spaces, unit, moves.as_slice());
    Ok(())
}
