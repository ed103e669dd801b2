//! The verifier: decides which codes are accepted for the parts of a source, and computes the step budget of each.
//!
//! - In: a schema, a `Code`, and the `Part` that it is for.
//! - Out: `verify` returns a `Checked` code, with a frame for each op, or the first `VerifyFault` with its op index.
//! - Phases: the tables of the code, its jumps and loops (`nesting`), then the frames of its ops.
//! - Callers rely on: exactly the codes of the definition (specs/Accepted.antt) are accepted, and accepted codes never
//!   go wrong (`trial` of bb_theorem_machine).
//! - Family: bb_verify_effect has frames and the effects of ops on them; bb_exec_lower makes the instructions of an
//!   accepted code.
//! - Cases: `verify`, `codes`, `examples`, `model-bent_codes`; tests in bb_code_tests.
#![tactic(auto)]

mod checked;
pub mod nesting;
mod pass;
mod places;
mod tables;
mod verifier;

pub use bb_verify_effect::{Flaw, Frame, Locals, Part, Stack, VerifyFault};
pub use checked::{Checked, FOUND_LIMIT};
pub use nesting::NESTING_LIMIT;
pub use verifier::verify;
