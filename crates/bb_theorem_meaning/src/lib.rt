//! The meaning of source texts, defined on their trees without ops or frames: names with values, a blackboard, and what
//! statements do to them. Theorems: compiled code does what its text means, and the verifier accepts the codes of every
//! compiled source. Only theorems (bb_theorem_texts) call this crate.
#![tactic(auto)]

mod laws;

pub use laws::{
    compiled_code_means_its_text, compiled_source_is_accepted, compiled_source_means_its_text,
};
