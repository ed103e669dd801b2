//! The execution of a code by the defensive machine, and what holds for accepted codes. A run uses bb_exec instead,
//! which has the same outcome.

ghost use Rattle.std.specs.Prelude.{◌≡◌, ◌≤◌, ◌⊎◌, ◌+◌, ℕ, true, List, Some, Err, IfOk};
ghost use Rattle.bb_basis.specs.Results.{Gives};
ghost use Rattle.bb_units.specs.Units.{is_full};
ghost use Rattle.bb_units.specs.declared.units.TheConstants.{UNIT_LIMIT};
ghost use Rattle.bb_board.specs.Named.{NotesChanges};
ghost use Rattle.bb_board.specs.Outlives.{Outlives};
ghost use Rattle.bb_verify.specs.Budget.{budget};
ghost use Rattle.bb_verify.specs.declared.checked.TheConstants.{FOUND_LIMIT};
ghost use Rattle.bb_verify.specs.FrameType.{Frame};
ghost use Rattle.bb_verify.specs.PartType.{Part};
ghost use Rattle.bb_machine.specs.declared.outcome.Stop.TheVariants.{Full, Memory as OutOfMemory};
ghost use Rattle.bb_machine.specs.Activation.{activation, steps_from};
ghost use Rattle.bb_machine.specs.Kept.{IsCut};
ghost use Rattle.bb_machine.specs.Machine.{entry_state};
ghost use Rattle.bb_machine.specs.Changing.{State};
ghost use Rattle.bb_machine.specs.Writes.{has_no_writes};
ghost use Rattle.bb_theorem_machine.specs.NeverWrong.{Begins, after, Stands, StuckByTurns, AnswersAs};
ghost use Rattle.bb_theorem_machine.specs.NeverWrong.{NeverStuck, KeepsBudget, StuckBelow, FoundFew, only_reads};

use bb_board::Board;
use bb_code::Code;
use bb_machine::{Entry, Outcome, Stop, execute};
use std::alloc::Global;

/// Executes a code from its first op index for an entry, at most `limit` steps, and returns the outcome. Changes are
/// noted on the blackboard. Every op is checked before it is done; therefore any code can be executed. Declared frames
/// and loops are not read.
///
/// `Memory` can happen at any op; the blackboard is then as after the ops before it, but may accept no more changes.
/// `Full` happens only if no more units can be created. A code without ops that write leaves the blackboard unchanged,
/// for any outcome. A unit that no new note names keeps its class and its values, the schema is unchanged, and no
/// number of a unit is used again.
///
/// A code accepted for a part never goes wrong if the entry fits the part (`Begins`): every state suits the frame of
/// its op index, the answer is one of the part, and the blackboard is unchanged unless the part is `do`. The number of
/// steps of the execution is at most the budget for the longest sequence that it found. This sequence has at most
/// `UNIT_LIMIT` units. Therefore it is stuck only if the limit is below its budget, and never if the limit is at least
/// the budget for sequences of `UNIT_LIMIT` units.
pub fn trial(
    alloc: Global,
    code: &Code,
    board: &mut Board,
    entry: Entry,
    limit: u128,
) -> Result<Outcome, Stop>
    ensures outcome { Gives OutOfMemory (λ o. o) result (activation limit code.now entry board.old).0 }
    ensures few { IfOk result (λ o. o.found ≤ UNIT_LIMIT) }
    ensures board { (result ≡ Err OutOfMemory) ⊎ (board.new ≡ (activation limit code.now entry board.old).1) }
    ensures reads_only { has_no_writes code.now ≡ true → board.new ≡ board.old }
    ensures cut { IsCut code.now entry board.old board.new }
    ensures named { NotesChanges board.old.world board.new.world }
    ensures schema { board.new.schema ≡ board.old.schema }
    ensures outlives { Outlives board.old.world.units board.new.world.units }
    ensures full { (steps found : ℕ) → result ≡ Err (Full steps found) → is_full board.new.world.units ≡ true }
    ensures suits { (part : Part) (frames : List Frame) (n : ℕ) (state : State) →
        Begins part frames code.now entry board.old →
        after n code.now (entry_state code.now entry, board.old) ≡ Some state →
        Stands board.old.schema code.now frames state }
    ensures turns { (part : Part) (frames : List Frame) →
        Begins part frames code.now entry board.old → StuckByTurns result }
    ensures answers { (part : Part) (frames : List Frame) →
        Begins part frames code.now entry board.old → AnswersAs part result }
    ensures parts_read { (part : Part) (frames : List Frame) →
        Begins part frames code.now entry board.old → only_reads part ≡ true → board.new ≡ board.old }
    ensures never_stuck { (part : Part) (frames : List Frame) →
        Begins part frames code.now entry board.old → budget code.now FOUND_LIMIT ≤ limit → NeverStuck result }
    ensures within_budget { (part : Part) (frames : List Frame) →
        Begins part frames code.now entry board.old → KeepsBudget code.now result }
    ensures turns_low { (part : Part) (frames : List Frame) →
        Begins part frames code.now entry board.old → StuckBelow code.now limit result }
    ensures all_few { (part : Part) (frames : List Frame) →
        Begins part frames code.now entry board.old → FoundFew result }
    ensures goes_on { (part : Part) (frames : List Frame) (k n : ℕ) (state : State) →
        Begins part frames code.now entry board.old →
        after k code.now (entry_state code.now entry, board.old) ≡ Some state →
        activation (k + n) code.now entry board.old ≡ steps_from n k code.now state }
{
    // For the proof: the invariants of code, schema and blackboard.
    let _ = code.ops();
    board.schema().fits();
    board.fits();
    execute(alloc, code, board, entry, limit)
}
