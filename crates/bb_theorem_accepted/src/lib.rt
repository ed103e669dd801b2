//! Theorem: the verifier accepts the compiled code of every part. No code calls this crate.
#![tactic(auto)]

mod acceptance;

pub use acceptance::compiled_code_is_accepted;
