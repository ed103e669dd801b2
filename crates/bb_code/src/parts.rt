//! The parts of a code, and their limits. Every code has parts within these limits.

use crate::frame::{FrameEntry, Loop};
use crate::op::Op;
use crate::version::Version;
use bb_basis::{Items, Text};
use bb_pattern::Query;

/// The maximum number of locals of a code.
pub const LOCAL_LIMIT: u8 = 32;

/// The maximum number of texts of a code.
pub const TEXT_COUNT_LIMIT: u16 = 1024;

/// The maximum number of bytes of a text.
pub const TEXT_BYTES_LIMIT: u16 = 65535;

/// The maximum number of queries of a code.
pub const QUERY_LIMIT: u16 = 256;

/// The maximum number of declared frames of a code.
pub const FRAME_LIMIT: u16 = 4096;

/// The maximum number of loops of a code.
pub const LOOP_LIMIT: u16 = 1024;

/// The maximum number of ops of a code.
pub const OP_LIMIT: u16 = 4096;

/// The maximum number of values that one op says.
pub const SAID_LIMIT: u8 = 16;

/// The maximum number of entries of the stack of an activation.
pub const STACK_LIMIT: usize = 64;

/// The parts of a code.
pub struct CodeParts {
    /// Must be the second if the schema has owning slots; otherwise either.
    pub version: Version,
    /// The number of locals, from 1 to `LOCAL_LIMIT`.
    pub locals: u8,
    /// At most `TEXT_COUNT_LIMIT` of at most `TEXT_BYTES_LIMIT` bytes each.
    pub texts: Items<Text>,
    /// At most `QUERY_LIMIT`.
    pub queries: Items<Query>,
    /// At most `FRAME_LIMIT`, each with a kind for each local.
    pub frames: Items<FrameEntry>,
    /// At most `LOOP_LIMIT`.
    pub loops: Items<Loop>,
    /// From 1 to `OP_LIMIT`.
    pub ops: Items<Op>,
}

// Written by hand, so that a proof meets one call where it is dropped, rather than each of its parts.
impl Drop for CodeParts {
    fn drop(self) {
        let CodeParts {
            version: _,
            locals: _,
            texts: _,
            queries: _,
            frames: _,
            loops: _,
            ops: _,
        } = self;
    }
}
