//! The code of a part while it is emitted: ops, texts, queries, loops and labels in a `Buffer`, with the names in scope
//! and the lowest flaw of the current statement. Also emits expressions without parts, and operations. bb_compile emits
//! everything else on top of it. Callers rely on: a code that is too large is a `Limit` fault at its part.
#![tactic(auto)]

mod atoms;
mod buffer;
mod finish_code;
mod label;
mod loops;
mod operations;
mod ops;
mod texts;

pub use atoms::{emit_atom, emit_unit, emit_variable};
pub use buffer::Buffer;
pub use finish_code::finish;
pub use label::Label;
pub use loops::Loops;
pub use operations::{emit_binary, emit_division, emit_operator, emit_unary};
pub use ops::Ops;
pub use texts::Texts;
