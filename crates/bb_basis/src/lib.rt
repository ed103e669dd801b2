//! The types that all crates share: texts, names and lists as parts of larger values. `specs/` defines the results of
//! fallible calls, and `proofs/` has the lemmas of loops and lists.
//!
//! - In: nothing. It is the lowest crate.
//! - Out: `Text`, `Names`, `Table`, `Items`, `IdSet`, `Memory`, `Whole` and `is_name`; in `specs/Results` `Gives`,
//!   `try_map` and `try_fold`, which most contracts of the crates above use.
//! - Callers rely on: contracts see a `Text`, an `Items` and an `IdSet` as plain lists. Callers may use all of
//!   `proofs/`.
//! - Tests: bb_board_parts_tests.
#![tactic(auto)]

mod id_set;
mod items;
mod memory;
mod name;
mod names;
mod table;
mod text;
mod whole;

pub use id_set::IdSet;
pub use items::Items;
pub use memory::Memory;
pub use name::{NAME_LIMIT, is_name};
pub use names::Names;
pub use table::{ITEM_LIMIT, Named, Table};
pub use text::Text;
pub use whole::Whole;
