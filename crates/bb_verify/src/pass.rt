//! The state of the pass over the ops. places.rt updates it at every op.

use bb_verify_effect::{Frame, PackedFrames};

/// The frames of the ops so far, and the frames after the last of them.
#[derive(Drop)]
pub(crate) struct Pass {
    pub(crate) frames: PackedFrames,
    /// The frame after the op if execution may continue at the next index, else unused.
    pub(crate) frame: Frame,
    pub(crate) goes_on: bool,
    /// The frame at the target of the op, if it may jump.
    pub(crate) target: Option<Frame>,
}
