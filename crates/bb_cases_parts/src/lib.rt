//! Cases of the pieces of a run: schemas, codes with their verdicts, and executions on the blackboard of a scene. The
//! program of the cases (bb_cases) calls it.
//!
//! - In: an entry of a file of cases, or the contents of a table's row.
//! - Out: `compare_schema` and `compare_code`, the first difference from the expected lines; `add_on_scene`, the lines
//!   of an execution.
//! - Family: bb_cases_format reads the entries; machines executes codes by both machines and compares the outcomes.
#![tactic(auto)]

mod bent;
mod board;
mod executions;
pub mod machines;
mod schema_calls;
mod schemas;
mod verified;

pub use bb_schema::Schema;
pub use board::schema_of;
pub use executions::{add_on_scene, entry_of};
pub use machines::{Asked, Entry};
pub use schemas::compare_schema;
pub use verified::compare_code;
