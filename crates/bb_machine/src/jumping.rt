//! The ops that may jump, and the ops that end an execution. A step calls them.

ghost use Rattle.std.specs.Prelude.{◌≡◌};
ghost use Rattle.bb_basis.specs.Results.{Gives};
ghost use Rattle.bb_code.specs.Answers.{map_ok};
ghost use Rattle.bb_machine.specs.declared.halt.Halt.TheVariants.{Memory as OutOfMemory};
ghost use Rattle.bb_machine.specs.Jumping as def;

use crate::Board;
use crate::halt::Halt;
use crate::machine::Machine;
use crate::outcome::Answer;
use crate::value::Value;
use bb_code::{LocalId, Place};

/// Pops a truth value and jumps to the target if it is false.
#[tactic(auto, unfolding(crate::specs::Jumping::unless))]
pub(crate) fn unless(machine: &mut Machine<'_>, place: Place) -> Result<(), Halt>
    ensures { map_ok (λ _. machine.new) result ≡ def.unless place machine.old }
{
    let value = machine.pop()?;
    if !value.truth()? {
        machine.go_to(place as usize);
    }
    Ok(())
}

/// Pushes the next live unit of the sequence in a local, or jumps to the target if no live unit is left.
#[tactic(auto, unfolding(crate::specs::Jumping::next_unit))]
pub(crate) fn next_unit(
    machine: &mut Machine<'_>,
    board: &Board,
    local: LocalId,
    place: Place,
) -> Result<(), Halt>
    ensures { Gives OutOfMemory (λ _. machine.new) result (def.next_unit board.now local place machine.old) }
{
    match machine.next_in(board, local)? {
        Some(unit) => machine.push(Value::Unit(unit)),
        None => {
            machine.go_to(place as usize);
            Ok(())
        }
    }
}

/// Pops a number and ends with it as the rating.
#[tactic(auto, unfolding(crate::specs::Jumping::rate))]
pub(crate) fn rate(machine: &mut Machine<'_>) -> Result<(), Halt>
    ensures { map_ok (λ _. machine.new) result ≡ def.rate machine.old }
{
    let value = machine.pop()?;
    let rating = value.int()?;
    Err(Halt::Answered(Answer::Rated(rating)))
}

/// Pops a truth value and ends with it as the answer.
#[tactic(auto, unfolding(crate::specs::Jumping::answer))]
pub(crate) fn answer(machine: &mut Machine<'_>) -> Result<(), Halt>
    ensures { map_ok (λ _. machine.new) result ≡ def.answer machine.old }
{
    let value = machine.pop()?;
    if value.truth()? {
        Err(Halt::Answered(Answer::Yes))
    } else {
        Err(Halt::Answered(Answer::No))
    }
}
