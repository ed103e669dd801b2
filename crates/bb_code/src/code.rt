//! A code in memory. bb_bundle makes codes, bb_verify checks them and the machine executes them.

ghost use Rattle.std.specs.Prelude.{◌≡◌, ◌↔◌, IsSome, IfSome, slice_get};
ghost use Rattle.bb_code.specs.Code.{IsCode};

use crate::Query;
use crate::frame::{FrameEntry, Loop};
use crate::op::Op;
use crate::parts::CodeParts;
use crate::version::Version;
use crate::within::are_parts;
use bb_basis::Text;
use std::marker::Model;

/// A code that bytes can spell. Contracts see its parts.
#[derive(Drop)]
pub struct Code {
    parts: CodeParts,
}

impl Model for Code {
    ghost use Rattle.bb_code.specs.Code as code;
    ghost use Rattle.bb_code.specs.proving.Codes.{parts_code};

    ghost Value = { code.Code };

    ghost coded = { parts_code };

    ghost view = { λ c. c.parts };

    ghost invariant = { λ c. code.IsCode c.parts };
}

impl Code {
    /// Makes a code of these parts, or returns `None` if they are not within their limits. Besides the lengths of the
    /// tables, these are: every frame has a kind for each local, and at most `STACK_LIMIT` kinds of the stack; every
    /// query has at most 16 operands and a pattern of at most 64 nodes; every divisor is 1 or more; and no op says more
    /// than `SAID_LIMIT` values.
    pub fn new(parts: CodeParts) -> Option<Code>
        ensures some { IsSome result ↔ IsCode parts }
        ensures value { IfSome result (λ code. code ≡ parts) }
    {
        if are_parts(&parts) {
            Some(Code::from_parts(parts))
        } else {
            None
        }
    }

    /// Makes a code of parts that are known to be within their limits.
    pub(crate) fn from_parts(parts: CodeParts) -> Code
        requires { IsCode parts }
        ensures { result ≡ parts }
    {
        Code { parts }
    }

    /// Returns the version.
    pub fn version(&self) -> Version
        ensures value { result ≡ self.now.version }
        ensures fits { IsCode self.now }
    {
        self.parts.version
    }

    /// Returns the number of locals, from 1 to `LOCAL_LIMIT`.
    pub fn locals(&self) -> u8
        ensures value { result ≡ self.now.locals }
        ensures fits { IsCode self.now }
    {
        self.parts.locals
    }

    /// Returns the texts, at most `TEXT_COUNT_LIMIT` of at most `TEXT_BYTES_LIMIT` bytes each.
    pub fn texts(&self) -> &[Text]
        ensures value { result.now ≡ self.now.texts }
        ensures fits { IsCode self.now }
    {
        self.parts.texts.as_slice()
    }

    /// Returns the queries, at most `QUERY_LIMIT`.
    pub fn queries(&self) -> &[Query]
        ensures value { result.now ≡ self.now.queries }
        ensures fits { IsCode self.now }
    {
        self.parts.queries.as_slice()
    }

    /// Returns the declared frames, at most `FRAME_LIMIT`.
    pub fn frames(&self) -> &[FrameEntry]
        ensures value { result.now ≡ self.now.frames }
        ensures fits { IsCode self.now }
    {
        self.parts.frames.as_slice()
    }

    /// Returns the loops, at most `LOOP_LIMIT`.
    pub fn loops(&self) -> &[Loop]
        ensures value { result.now ≡ self.now.loops }
        ensures fits { IsCode self.now }
    {
        self.parts.loops.as_slice()
    }

    /// Returns the ops, from 1 to `OP_LIMIT`.
    pub fn ops(&self) -> &[Op]
        ensures value { result.now ≡ self.now.ops }
        ensures fits { IsCode self.now }
    {
        self.parts.ops.as_slice()
    }

    /// Returns the op at an index, or `None` if the index is outside the code.
    pub fn op(&self, place: usize) -> Option<Op>
        ensures value { result ≡ slice_get self.now.ops place }
        ensures fits { IsCode self.now }
    {
        self.ops().get(place).copied()
    }
}
