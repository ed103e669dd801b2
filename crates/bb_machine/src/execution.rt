//! The execution of a code. `trial` of bb_theorem_machine calls it and states what holds for accepted codes.

ghost use Rattle.std.specs.Prelude.{◌≡◌, ◌≤◌, ◌⊎◌, ℕ, true, Err, IfOk, length};
ghost use Rattle.bb_basis.specs.Results.{Gives};
ghost use Rattle.bb_units.specs.declared.units.TheConstants.{UNIT_LIMIT};
ghost use Rattle.bb_board.specs.Named.{NotesChanges};
ghost use Rattle.bb_units.specs.Units.{is_full};
ghost use Rattle.bb_machine.specs.declared.outcome.Stop.TheVariants.{Full, Memory as OutOfMemory};
ghost use Rattle.bb_machine.specs.Activation.{activation, halted};
ghost use Rattle.bb_machine.specs.Kept.{IsCut};
ghost use Rattle.bb_machine.specs.Writes.{has_no_writes};
ghost use Rattle.bb_machine.specs.Machine.{units_of};

use crate::Board;
use crate::halt::Halt;
use crate::machine::Machine;
use crate::outcome::{Entry, Outcome, Stop, Stuck};
use crate::step::step;
use bb_code::Code;
use std::alloc::Global;

/// Executes a code from op index 0 for an entry, at most `limit` steps, and returns the outcome. Changes are noted on
/// the blackboard. Every op is checked before it is done; any code can therefore be executed. Declared frames and loops
/// are not read.
///
/// `Memory` can happen at any op; the blackboard is then as after the ops before it, but may accept no more changes.
/// `Full` happens only if no more units can be created. A code without ops that write leaves the blackboard unchanged,
/// regardless of the outcome. A unit that no new note names keeps its class and its values.
pub fn execute(
    alloc: Global,
    code: &Code,
    board: &mut Board,
    entry: Entry,
    limit: u128,
) -> Result<Outcome, Stop>
    ensures outcome { Gives OutOfMemory (λ o. o) result (activation limit code.now entry board.old).0 }
    ensures few { IfOk result (λ o. o.found ≤ UNIT_LIMIT) }
    ensures board { (result ≡ Err OutOfMemory) ⊎ (board.new ≡ (activation limit code.now entry board.old).1) }
    ensures reads_only { has_no_writes code.now ≡ true → board.new ≡ board.old }
    ensures cut { IsCut code.now entry board.old board.new }
    ensures named { NotesChanges board.old.world board.new.world }
    ensures full { (steps found : ℕ) → result ≡ Err (Full steps found) → is_full board.new.world.units ≡ true }
{
    if (code.locals() as usize) < unit_count(entry) {
        return halted(Halt::Stuck(Stuck::Missing), 0, 0);
    }
    let mut machine = Machine::new(alloc, code, entry)?;
    for steps in 0..limit {
        let place = machine.place();
        let found = machine.found();
        let Some(op) = code.op(place) else {
            return halted(Halt::Stuck(Stuck::Outside), steps, found);
        };
        machine.go_to(place + 1);
        if let Err(halt) = step(&mut machine, alloc, code, op, board) {
            return halted(halt, steps + 1, found);
        }
    }
    halted(Halt::Stuck(Stuck::Turns), limit, machine.found())
}

// The outcome of an execution that ended for this reason after `steps` steps.
fn halted(halt: Halt, steps: u128, found: u32) -> Result<Outcome, Stop>
    ensures gives { result ≡ halted halt steps found }
    ensures found { IfOk result (λ o. o.found ≡ found) }
{
    match halt {
        Halt::Answered(answer) => Ok(Outcome {
            answer,
            steps,
            found,
        }),
        Halt::Full => Err(Stop::Full { steps, found }),
        Halt::Stuck(reason) => Err(Stop::Stuck {
            reason,
            steps,
            found,
        }),
        Halt::Memory => Err(Stop::Memory),
    }
}

// The number of units that an execution starts with.
fn unit_count(entry: Entry) -> usize
    ensures { result ≡ length (units_of entry) }
{
    match entry.ev {
        None => 1,
        Some(_) => 2,
    }
}
