//! The faults of a text, defined by its names and kinds only, and which parts are small enough for a code. Theorem on
//! all texts: the compiler refuses a text for its first fault, and a text without a fault only if a part does not fit
//! or memory runs out. No code calls this crate.

mod judged;
mod texts;

pub use judged::refusals_are_judged;
pub use texts::texts_are_judged;
