//! How an execution ends and what it notes, as lines. Cases get these from the machine that tests each op.

use bb_board::Board;
use bb_code::Code;
use bb_machine::{Answer, Entry, Outcome, Stop, Stuck};
use bb_theorem_machine::trial;
use bb_trace::add_board_note;
use bb_verify::Part;
use std::alloc::{AllocError, Global};
use std::fmt::Write;

/// What a code is executed for.
#[derive(Clone, Copy, Debug)]
pub struct Asked {
    pub entry: Entry,
    /// The maximum number of steps.
    pub limit: u64,
    /// The part that the code is for. Without it, every part that the entry fits is tried.
    pub part: Option<Part>,
}

/// Executes a code, accepted or not, and appends how it ends and the lines of its notes. Returns whether it ended
/// within the limit.
pub(crate) fn add_trial(
    alloc: Global,
    text: &mut String,
    board: &mut Board,
    code: &Code,
    asked: Asked,
) -> Result<bool, AllocError> {
    let ended = trial(alloc, code, board, asked.entry, u128::from(asked.limit));
    add_end(text, ended)?;
    add_notes(alloc, text, board)?;
    Ok(!is_cut(ended))
}

// Returns whether an execution made as many steps as its limit allows, without ending.
fn is_cut(ended: Result<Outcome, Stop>) -> bool {
    match ended {
        Err(
            Stop::Stuck {
                reason: Stuck::Turns,
                ..
            },
        ) => true,
        _ => false,
    }
}

/// Appends how an execution ended.
pub(crate) fn add_end(text: &mut String, ended: Result<Outcome, Stop>) -> Result<(), AllocError> {
    let (steps, found) = match ended {
        Ok(outcome) => {
            add_answer(text, outcome.answer)?;
            (outcome.steps, outcome.found)
        }
        Err(Stop::Full { steps, found }) => {
            text.push_str("full")?;
            (steps, found)
        }
        Err(
            Stop::Stuck {
                reason,
                steps,
                found,
            },
        ) => {
            let number = reason.number();
            write!(text, "stuck {number}")?;
            (steps, found)
        }
        Err(Stop::Memory) => return Err(AllocError),
    };
    writeln!(text, " steps {steps} found {found}")
}

fn add_answer(text: &mut String, answer: Answer) -> Result<(), AllocError> {
    match answer {
        Answer::Done => text.push_str("done"),
        Answer::Rated(rating) => write!(text, "rated {rating}"),
        Answer::Declined => text.push_str("declined"),
        Answer::Yes => text.push_str("yes"),
        Answer::No => text.push_str("no"),
    }
}

/// Takes the notes of a blackboard, and appends their lines.
pub(crate) fn add_notes(
    alloc: Global,
    text: &mut String,
    board: &mut Board,
) -> Result<(), AllocError> {
    let notes = board.take_notes();
    for note in &notes {
        add_board_note(alloc, text, board.schema(), note)?;
    }
    Ok(())
}
