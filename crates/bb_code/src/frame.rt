//! Frames and loops, which a code declares for its op indices. The verifier checks them; the machine does not read
//! them.

use crate::kinds::Kinds;
use crate::op::Place;
use bb_schema::{ClassId, LabelSetId};

/// The kind of a local or of an entry of the stack.
#[derive(Clone, Copy, Debug, Default, PartialEq, Eq)]
pub enum Kind {
    /// Anything, or no value. It can't be used.
    #[default]
    Any,
    Int,
    Text,
    Bool,
    /// A label of this set.
    Label(LabelSetId),
    Interval,
    /// A live unit of this class or one below it.
    Ref(ClassId),
    /// No unit, or a unit that was created. If it is live, it has this class or one below it.
    Old(ClassId),
    /// A sequence of units of this class or one below it, which may be deleted.
    Seq(ClassId),
}

/// The kinds of all locals and of the stack at an op index.
pub struct Frame {
    pub locals: Kinds,
    /// The deepest entry first.
    pub stack: Kinds,
}

// Written by hand, so that a proof meets one call where it is dropped, rather than each of its parts.
impl Drop for Frame {
    fn drop(self) {
        let Frame {
            locals: _,
            stack: _,
        } = self;
    }
}

/// An op index and the frame that a code declares for it.
pub struct FrameEntry {
    pub place: Place,
    pub frame: Frame,
}

// Written by hand, so that a proof meets one call where it is dropped, rather than each of its parts.
impl Drop for FrameEntry {
    fn drop(self) {
        let FrameEntry { place: _, frame: _ } = self;
    }
}

/// A loop: the op indices from its head up to its end, excluded.
#[derive(Clone, Copy, Debug, PartialEq, Eq)]
pub struct Loop {
    pub head: Place,
    pub end: Place,
}
