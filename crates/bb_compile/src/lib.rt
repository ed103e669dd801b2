//! The compiler: translates the tree of a source into a source that a bundle can spell, with its codes. It walks the
//! tree of each part once, in the order of the text; each statement is checked and emitted, and refused if it has a
//! flaw.
//!
//! - In: a schema and a `SourceText`.
//! - Out: `compile`, a `SourceCode`, or the first `CompileFault` with its line and column; `emit_part`, the code of one
//!   part.
//! - Callers rely on: a fault is the first of the text. Theorems about the code: the verifier accepts it
//!   (bb_theorem_accepted), and it means what the text says (bb_theorem_meaning). Theorem about faults:
//!   bb_theorem_grammar.
//! - Family: bb_compile_scope has the names, kinds and faults of statements; bb_compile_buffer has the code emitted so
//!   far.
//! - Cases: `statements`, `limits_of_parts`, `refused_sources`, `model-compiles`; tests in bb_code_tests and
//!   bb_rules_tests.
#![tactic(auto)]

mod actions;
mod asked;
mod bindings;
mod branches;
mod emitter;
mod exits;
mod expressions;
mod looping;
mod part;
mod parts;
mod source;
mod statements;

pub use bb_bundle::{
    ActDraft, BundleFault, ReactionDraft, SourceCode, SourceDraft, bundle, unbundle,
};
pub use bb_compile_scope::{CompileFault, Place, TextFlaw};
pub use bb_lang::{LangFault, SourceText, parse};
pub use part::emit_part;
pub use source::compile;
