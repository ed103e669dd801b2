//! What is known at a statement of a source text, and what can be wrong with it: the names in scope and the kinds that
//! their locals hold, which values and slots fit, and which statements always end. The compiler (bb_compile_buffer,
//! bb_compile) checks each statement with it before it emits code.
#![tactic(auto)]

mod ending;
mod fault;
mod killed;
mod kinds;
mod local_kinds;
mod scope;
mod slots;

pub use bb_lang::{Block, Place, Variable};
pub use bb_verify_effect::{ClassId, Kind, LocalId, Op, Part, Schema, SlotId, SpaceId};
pub use ending::{block_ends, ends};
pub use fault::{CompileFault, TextFlaw, lowest};
pub use killed::kill_under;
pub use kinds::{assigned, class_of, equality, is_live};
pub use local_kinds::LocalKinds;
pub use scope::{Mark, NamedLocal, Scope, name_of};
pub use slots::{dimension, link_slot, partner_slot, value_slot};
