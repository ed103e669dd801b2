//! The execution of a code by the machine for verified code, if the code is accepted and the units fit its part. Cases
//! compare it with the execution by the machine that tests each op (executions.rt).

ghost use Rattle.std.specs.Prelude.{◌≡◌, ◌↔◌, IfOk, IfSome, IsTrue, None};
ghost use Rattle.bb_basis.specs.Results.{Gives};
ghost use Rattle.bb_verify.specs.Facts.{Facts};
ghost use Rattle.bb_theorem_machine.specs.NeverWrong.{EntryFits};
ghost use Rattle.bb_machine.specs.declared.outcome.Stop.TheVariants.{Memory as OutOfMemory};
ghost use Rattle.bb_exec.specs.Executed.{as_defensive, execution};
ghost use Rattle.bb_cases_parts.specs.machines.Entries.{entry_fits, fits_alone, fits_event};

use crate::machines::executions::{add_end, add_notes};
use bb_board::Board;
use bb_code::{Code, Flaw, VerifyFault};
use bb_exec::{Stop as Stopped, exec};
use bb_exec_lower::Lowered;
use bb_machine::{Entry, Outcome, Stop};
use bb_schema::{ClassId, Schema};
use bb_verify::{Part, verify};
use std::alloc::{AllocError, Global};

// Returns whether an entry has no event, and its unit had a class.
fn fits_alone(board: &Board, class: ClassId, entry: Entry) -> bool
    ensures { result ≡ fits_alone board.now.schema board.now.world class entry }
{
    match entry.ev {
        None => board.was(entry.it, class),
        Some(_) => false,
    }
}

// Returns whether the unit of an entry had a class, and the unit of its event another.
fn fits_event(board: &Board, class: ClassId, of: ClassId, entry: Entry) -> bool
    ensures { result ≡ fits_event board.now.schema board.now.world class of entry }
{
    match entry.ev {
        None => false,
        Some(ev) => board.was(entry.it, class) && board.was(ev, of),
    }
}

/// Returns whether the units of an entry fit a part: the unit had the part's class, and there is a unit of an event
/// exactly if the part responds to an event, and it had the event's class.
#[tactic(auto, using(crate::proofs::machines_lemmas::EntryLemmas::entry_fits_is))]
pub(crate) fn entry_fits(board: &Board, part: Part, entry: Entry) -> bool
    ensures test { result ≡ entry_fits board.now.schema board.now.world part entry }
    ensures fits { IsTrue result ↔ EntryFits board.now.schema board.now.world part entry }
{
    match part {
        Part::Require { class } => fits_alone(board, class, entry),
        Part::Revalidate { class } => fits_alone(board, class, entry),
        Part::Do { class } => fits_alone(board, class, entry),
        Part::Obviate { class, of } => fits_event(board, class, of, entry),
        Part::Retrigger { class, of } => fits_event(board, class, of, entry),
    }
}

// Executes an accepted code for an entry, if the entry fits the code's part.
fn exec_if_fits(
    alloc: Global,
    code: &Lowered,
    board: &mut Board,
    entry: Entry,
) -> Option<Result<Outcome, Stop>>
    requires accepted { Facts board.old.schema code.now.part code.now.code code.now.frames }
    ensures outcome { IfSome result (λ ended.
        Gives OutOfMemory (λ o. o) ended (execution code.now entry board.old).0) }
    ensures none { result ≡ None → board.new ≡ board.old }
{
    if !entry_fits(board, code.checked().part(), entry) {
        return None;
    }
    Some(as_defensive(exec(alloc, code, board, entry)))
}

// Converts the outcome of an execution to the type of the other machine.
fn as_defensive(ended: Result<Outcome, Stopped>) -> Result<Outcome, Stop>
    ensures { result ≡ as_defensive ended }
{
    match ended {
        Ok(outcome) => Ok(outcome),
        Err(Stopped::Full { steps, found }) => Err(Stop::Full { steps, found }),
        Err(Stopped::Memory) => Err(Stop::Memory),
    }
}

/// Executes a code for an entry by the machine for verified code, and appends how it ends and the lines of its notes.
/// Does nothing if the entry does not fit the part, or the code is not accepted for it under the blackboard's schema.
/// Returns whether it executed the code.
pub(crate) fn add_accepted(
    text: &mut String,
    board: &mut Board,
    code: &Code,
    part: Part,
    entry: Entry,
) -> Result<bool, AllocError> {
    if !entry_fits(board, part, entry) {
        return Ok(false);
    }
    let alloc = *text.allocator();
    let Some(lowered) = accepted(alloc, board.schema(), part, copied(alloc, code)?)? else {
        return Ok(false);
    };
    match exec_if_fits(alloc, &lowered, board, entry) {
        None => Ok(false),
        Some(ended) => {
            add_end(text, ended)?;
            add_notes(alloc, text, board)?;
            Ok(true)
        }
    }
}

// Returns the verified code with its instructions, if it is accepted.
fn accepted(
    alloc: Global,
    schema: &Schema,
    part: Part,
    code: Code,
) -> Result<Option<Lowered>, AllocError>
    ensures { IfOk result (λ lowered. IfSome lowered (λ c. Facts schema.now c.part c.code c.frames)) }
{
    match verify(alloc, schema, part, code) {
        Ok(checked) => Ok(Some(Lowered::of(alloc, checked)?)),
        Err(
            VerifyFault {
                place: _,
                flaw: Flaw::Memory,
            },
        ) => Err(AllocError),
        Err(_) => Ok(None),
    }
}

// Returns a copy of the code, from its bytes.
fn copied(alloc: Global, code: &Code) -> Result<Code, AllocError> {
    let bytes = code.encode(alloc)?;
    Code::decode(alloc, &bytes).ok().ok_or(AllocError)
}
