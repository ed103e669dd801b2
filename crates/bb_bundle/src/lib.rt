//! Reads and writes bundles: sources with their compiled codes, as text.
//!
//! - In: the text of a bundle, or sources with their codes.
//! - Out: `unbundle`, the sources of a bundle, or the first `BundleFault` with its line; `bundle`, the text of sources.
//! - Callers rely on: `unbundle` reads what `bundle` writes as the same sources.
//! - Cases: `bundles`, `model-compiles`; tests in bb_rules_tests.
#![tactic(auto)]

mod clause;
mod draft;
mod fault;
mod keyword;
mod line;
mod parser;
mod partial;
mod rate;
mod source_code;
mod spelled;
mod writer;

pub use bb_lang_tree::{ChangeText, ClauseText};
pub use draft::{ActDraft, Header, Parts, ReactionDraft, SourceDraft};
pub use fault::BundleFault;
pub use parser::unbundle;
pub use source_code::SourceCode;
pub use writer::bundle;
