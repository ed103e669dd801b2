//! What a run reports. The run (bb_run) emits notes, and line.rt makes a line of each.

use crate::end::End;
use bb_agenda::Activation;
use bb_native::{Closing, Refusal};
use bb_schema::UnitId;

/// What a run reports: notes of the blackboard, and the steps of control.
pub enum Note {
    /// A note of the blackboard, or quiescence.
    Board(bb_board::Note),
    /// A new activation.
    Triggered(Activation),
    /// A trigger that the source at this index declined for a unit.
    Declined {
        source: u16,
        unit: UnitId,
    },
    /// A pending activation is no longer needed.
    Obviated {
        number: u64,
    },
    /// A pending activation got another base rating.
    Retriggered {
        number: u64,
        base: i64,
    },
    /// The choice of a cycle, with the rating at the choice.
    Chosen {
        cycle: u64,
        activation: Activation,
        rating: i128,
    },
    /// The chosen activation is not needed any more.
    Invalid {
        number: u64,
    },
    /// The end of an execution.
    Ended {
        steps: u128,
        found: u32,
        budget: u128,
    },
    /// An ask of a native or from outside, by its number from 1, was refused.
    Refused {
        ask: u64,
        refusal: Refusal,
    },
    /// The end of a native's execution, with the number of its asks.
    NativeEnded {
        asks: u64,
    },
    /// Asks from outside the run follow.
    Posted,
    /// The end of asks from outside, with their number.
    PostEnded {
        asks: u64,
    },
    /// The end of the run.
    Finished(End),
    /// A native was closed, after the end of the run.
    Closed(Closing),
}

// By hand: proofs then meet one call per drop, not one per variant.
impl Drop for Note {
    fn drop(self) {
        match self {
            Note::Board(_) => {}
            Note::Triggered(_) => {}
            Note::Declined { source: _, unit: _ } => {}
            Note::Obviated { number: _ } => {}
            Note::Retriggered { number: _, base: _ } => {}
            Note::Chosen {
                cycle: _,
                activation: _,
                rating: _,
            } => {}
            Note::Invalid { number: _ } => {}
            Note::Ended {
                steps: _,
                found: _,
                budget: _,
            } => {}
            Note::Refused { ask: _, refusal: _ } => {}
            Note::NativeEnded { asks: _ } => {}
            Note::Posted => {}
            Note::PostEnded { asks: _ } => {}
            Note::Finished(_) => {}
            Note::Closed(_) => {}
        }
    }
}
