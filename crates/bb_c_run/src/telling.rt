//! The text of a move that a host is about to make, in the format of histories. `Held::told` returns it.

ghost use Rattle.std.specs.Prelude.{◌≡◌, Err, IfErr, IfOk, option_map, string_bytes};
ghost use Rattle.std.specs.Option.{ok_or};
ghost use Rattle.bb_basis.specs.Results.{Gives};
ghost use Rattle.bb_moves.specs.Meant.{meant};
ghost use Rattle.bb_c_run.specs.History.{asks_in, move_of, text_if_told};

use bb_basis::Memory;
use bb_moves::{Move, history};
use bb_schema::Schema;
use bb_shell::Ask;
use std::alloc::Global;
use std::mem;

/// A move that a host is about to make, with the gathered asks if it is a post or an answer.
#[derive(Clone, Copy, Debug, PartialEq, Eq)]
pub enum Step {
    /// `Held::turn`
    Turn,
    /// `Held::advance` by this many cycles
    Advance(u32),
    /// `Held::post`
    Post,
    /// `Held::answer`
    Answer,
}

/// Why the text of a move can't be returned.
#[derive(Clone, Copy, Debug, PartialEq, Eq)]
pub enum TellFault {
    /// The run is finished.
    Finished,
    /// The format can't express the move: a class, a slot or a space without a name, a label that the schema doesn't
    /// have, or an interval that ends before it begins.
    Untold,
    /// Memory ran out.
    Memory,
}

// Makes a move of a step. The asks of a post or an answer go into it.
fn taken(alloc: Global, step: Step, asks: &mut Vec<Ask>) -> Move
    ensures means { meant result ≡ move_of step asks.old.items }
    ensures asks { asks_in result asks.new ≡ asks.old }
{
    match step {
        Step::Turn => Move::Turn,
        Step::Advance(cycles) => Move::Advance(cycles),
        Step::Post => Move::Post(mem::replace(asks, Vec::new(alloc))),
        Step::Answer => Move::Answer(mem::replace(asks, Vec::new(alloc))),
    }
}

// Puts the asks of a move back.
fn put_back(each: Move, asks: &mut Vec<Ask>)
    ensures { asks.new ≡ asks_in each asks.old }
{
    match each {
        Move::Turn => {}
        Move::Advance(_) => {}
        Move::Post(gathered) => drop(mem::replace(asks, gathered)),
        Move::Answer(gathered) => drop(mem::replace(asks, gathered)),
    }
}

// Returns the text of a move, or why there is none.
fn answered(told: Result<Option<String>, Memory>) -> Result<String, TellFault>
    ensures text { IfOk told (λ t.
        Gives TellFault.Memory string_bytes result (ok_or (option_map string_bytes t) TellFault.Untold)) }
    ensures err { IfErr told (λ _. result ≡ Err TellFault.Memory) }
{
    match told {
        Ok(Some(text)) => Ok(text),
        Ok(None) => Err(TellFault::Untold),
        Err(_) => Err(TellFault::Memory),
    }
}

/// Returns the text of a move that is about to be made with these asks, which stay.
pub(crate) fn tell(
    alloc: Global,
    schema: &Schema,
    step: Step,
    asks: &mut Vec<Ask>,
) -> Result<String, TellFault>
    ensures text { Gives TellFault.Memory string_bytes result
        (ok_or (text_if_told schema.now (move_of step asks.old.items)) TellFault.Untold) }
    ensures kept { asks.new ≡ asks.old }
{
    let each = taken(alloc, step, asks);
    let told = history(alloc, schema, &each);
    put_back(each, asks);
    answered(told)
}
