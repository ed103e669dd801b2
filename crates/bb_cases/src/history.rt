//! Histories: runs of an input whose moves a case gives, and texts of moves that are refused. Cases of kind `moves` and
//! rows of kind `histories` (bb_cases) ask for them.
//!
//! - In: an input with moves below it, its native or none, names that the host answers for, and a floor; or a schema
//!   and a text of moves.
//! - Out: the trace and status of the finished run, or the line and status of a refused input; or the line and number
//!   of the first flaw.
//! - Family: bb_moves reads and makes the moves, bb_cases_format has the faults.

mod histories;
mod reaper;

pub use bb_moves::Text;
pub use histories::{History, Told, add_history};
pub use reaper::{Reaper, natives};
