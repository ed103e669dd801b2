//! Labels: targets of ops, with what the locals hold there. Frames are built from them.

use bb_compile_scope::LocalKinds;

/// The target of an op, and what the locals hold there.
#[derive(Drop)]
pub struct Label {
    pub place: u16,
    pub kinds: LocalKinds,
}
