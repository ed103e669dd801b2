//! Where the ops of a code may jump: ahead, and back to the head of a loop, with loops nested. `verify` checks this
//! after the tables and before the frames.

mod jumps;
mod loop_list;
mod loop_nesting;
mod loop_ops;
mod loop_tables;
mod loops;

pub use jumps::{check_jumps, target_of};
pub use loops::{NESTING_LIMIT, check_loops};
