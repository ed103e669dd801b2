//! What a run reports: its notes, their lines, and the page, which buffers lines until they are written to an output.
//!
//! - In: notes of a run, and an `Out`.
//! - Out: the lines of a trace.
//! - Callers rely on: a segment is written whole unless the output fails, and no line depends on when a page is
//!   written.
//! - Cases: `said`, `outputs`; `runs` and `model-runs` compare whole traces.
#![tactic(auto)]

mod end;
mod halt;
mod line;
mod note;
mod output;
mod page;

pub use bb_board::{
    Board, DocumentPlace, Event, ListItem, ListKey, Note as BoardNote, SharedSchema, UnitsFault,
    UnitsFlaw,
};
pub use bb_native::{
    Ask, Closed, Closing, Denial, DimValue, NativeSource, Node, OperandKind, Pattern, Query,
    Refusal, Relation, Roster, View, apply, close_each,
};
pub use bb_rules::{
    Act, ClassPlace, Classes, ClauseList, ClausePlace, Clauses, Question, Reaction, RuleFault,
    Source,
};
pub use end::{End, EndKind};
pub use halt::Halt;
pub use line::{add_board_note, add_value};
pub use note::Note;
pub use output::{Out, Pipe, put_all};
pub use page::{PAGE_LIMIT, Page};
