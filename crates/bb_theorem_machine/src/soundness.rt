//! Properties of the machine itself, regardless of the memory there is: how it executes accepted codes. No code calls
//! it.

ghost use Rattle.std.specs.Prelude.{◌≡◌, ◌≤◌, ℕ, true, List};
ghost use Rattle.bb_verify.specs.Budget.{budget};
ghost use Rattle.bb_verify.specs.declared.checked.TheConstants.{FOUND_LIMIT};
ghost use Rattle.bb_verify.specs.FrameType.{Frame};
ghost use Rattle.bb_verify.specs.PartType.{Part};
ghost use Rattle.bb_machine.specs.declared.outcome.Entry.{Entry};
ghost use Rattle.bb_machine.specs.Activation.{activation};
ghost use Rattle.bb_theorem_machine.specs.NeverWrong.{Begins, StuckByTurns, AnswersAs, only_reads};
ghost use Rattle.bb_theorem_machine.specs.NeverWrong.{NeverStuck, KeepsBudget, StuckBelow, FoundFew};

use bb_board::Board;
use bb_code::Code;

/// States how the machine executes a code that was accepted for a part, for any entry that fits the part and any limit
/// of steps. The same clauses of `trial` are about what it returns, which may be that memory ran out.
///
/// - `answers`: if it ends with an answer, the answer is one of the part.
/// - `parts_read`: it leaves the blackboard and its notes unchanged, unless the part is `do`.
/// - `turns`, `turns_low`: if it is stuck, the number of its steps is the limit, which is below the budget for the
///   longest sequence that it found.
/// - `within_budget`: if it ends with an answer, or as full, it made no more steps than that budget.
/// - `all_few`: no sequence has more units than there can be.
/// - `never_stuck`: with a limit of at least the budget for such sequences, it ends with an answer, or as full.
pub fn accepted_codes_never_go_wrong(code: &Code, board: &Board)
    ensures answers { (part : Part) (frames : List Frame) (entry : Entry) (limit : ℕ) →
        Begins part frames code.now entry board.now → AnswersAs part (activation limit code.now entry board.now).0 }
    ensures parts_read { (part : Part) (frames : List Frame) (entry : Entry) (limit : ℕ) →
        Begins part frames code.now entry board.now → only_reads part ≡ true →
        (activation limit code.now entry board.now).1 ≡ board.now }
    ensures turns { (part : Part) (frames : List Frame) (entry : Entry) (limit : ℕ) →
        Begins part frames code.now entry board.now → StuckByTurns (activation limit code.now entry board.now).0 }
    ensures turns_low { (part : Part) (frames : List Frame) (entry : Entry) (limit : ℕ) →
        Begins part frames code.now entry board.now →
        StuckBelow code.now limit (activation limit code.now entry board.now).0 }
    ensures within_budget { (part : Part) (frames : List Frame) (entry : Entry) (limit : ℕ) →
        Begins part frames code.now entry board.now →
        KeepsBudget code.now (activation limit code.now entry board.now).0 }
    ensures all_few { (part : Part) (frames : List Frame) (entry : Entry) (limit : ℕ) →
        Begins part frames code.now entry board.now → FoundFew (activation limit code.now entry board.now).0 }
    ensures never_stuck { (part : Part) (frames : List Frame) (entry : Entry) (limit : ℕ) →
        Begins part frames code.now entry board.now → budget code.now FOUND_LIMIT ≤ limit →
        NeverStuck (activation limit code.now entry board.now).0 }
{
    // For the proof: the invariants of code, schema and blackboard.
    let _ = code.ops();
    board.schema().fits();
    board.fits();
}
