//! Theorems about the sources of an input that are text: the verifier refuses none of them, each runs as its text says,
//! and its executions in a run do what the text means. No code calls it.
#![tactic(auto)]

mod compiling;
mod executions;
mod laws;

pub use compiling::compile_by_meaning;
pub use executions::executions_mean_their_text;
pub use laws::text_sources_mean_their_text;
