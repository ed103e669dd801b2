//! Frames, and the effect of each op on one.
//!
//! A frame is the verifier's knowledge before an op: the kind of each local and of each entry of the stack. `effect`
//! changes a frame as an op does, or returns the op's first flaw. `frame_weakens` decides whether a frame is allowed
//! for a declared frame.
//!
//! bb_verify computes the frame of each op with it, bb_exec_lower reads these frames, and bb_diag computes them again
//! for its messages. The compiler uses kinds, parts and `mark_stale`. Callers rely on: `effect` is exactly the
//! definition of specs/Effect.antt, flaws included.
#![tactic(auto)]

mod changing;
mod due;
mod effects;
mod frame;
mod frame_view;
mod jumping;
mod kind;
mod locals;
mod packed_frames;
mod part;
mod plain;
mod reading;
mod stack;

pub use bb_code::{
    ClassId, Code, Flaw, Frame as DeclaredFrame, FrameEntry, Kind, LabelId, LabelSetId, LocalId,
    Op, OperandKind, Place, Query, Schema, SlotId, SpaceId, VerifyFault,
};
pub use effects::effect;
pub use frame::Frame;
pub use frame_view::FrameView;
pub use kind::{frame_weakens, is_same_plain, mark_stale};
pub use locals::Locals;
pub use packed_frames::PackedFrames;
pub use part::Part;
pub use stack::Stack;
