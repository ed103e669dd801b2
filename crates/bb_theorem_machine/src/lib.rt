//! Theorems on the defensive machine: accepted codes never go wrong.
//!
//! - In: any code, the `Entry` that it starts with (its unit, and the unit of an event), a blackboard, and a limit of
//!   steps.
//! - Out: `trial` returns the `Outcome`, with the answer and the steps, or the `Stop`. The law
//!   `accepted_codes_never_go_wrong` is about the machine itself.
//! - Callers rely on, for a code accepted for a part: it is never stuck if the limit is at least its budget; it gives
//!   an answer of its part; and only `do` changes the blackboard.
//! - Family: bb_machine has the machine; bb_exec, which executes accepted codes in a run, is proved to match `trial`.
//! - Cases: `executions`, `stuck`, `loops`, `values`, `linking`, `spaces_and_queries`, `examples`.
#![tactic(auto)]

mod execution;
mod soundness;

pub use bb_machine::{Answer, Entry, Outcome, Stop, Stuck};
pub use execution::trial;
pub use soundness::accepted_codes_never_go_wrong;
