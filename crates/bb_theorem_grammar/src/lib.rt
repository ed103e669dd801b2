//! The grammar of the source language, as a relation between texts and trees, and theorems: `parse` (bb_lang) accepts
//! exactly the texts of the grammar, unless memory runs out, and returns the trees that the grammar gives them.
//! `judged` states which of these the compiler refuses, and for which fault. No code calls this crate.
#![tactic(auto)]

pub mod judged;
mod laws;
mod reading;

pub use laws::{parsed_texts_are_in_the_grammar, texts_in_the_grammar_are_parsed};
pub use reading::parse_by_grammar;
