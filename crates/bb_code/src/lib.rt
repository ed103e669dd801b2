//! The code that sources execute: its ops, its declared frames and loops, its parts and their limits, what the verifier
//! may find wrong with it, and the bytes that spell it.
//!
//! - In: bytes, or `CodeParts`.
//! - Out: `Code::decode`, the code that the bytes spell, or the first `CodeFault`; `Code::encode`, the bytes.
//! - Callers rely on: one code has one spelling (`one_spelling`), and every `Code` keeps the limits of its tables.
//! - Family: bb_code_asm has the text form.
//! - Cases: `bytes`, `limits_of_codes`; tests in bb_code_tests.
#![tactic(auto)]

mod code;
mod decode;
mod encode;
mod fault;
mod flaw;
mod frame;
mod kinds;
mod once;
mod op;
mod parts;
mod table;
mod version;
mod within;

pub use bb_pattern::{
    ClassId, DimValue, LabelId, LabelSetId, NODE_LIMIT, Node, OPERAND_LIMIT, OperandKind, Pattern,
    PatternFault, Query, Relation, SpaceId,
};
pub use bb_schema::{Schema, SlotId};
pub use code::Code;
pub use fault::CodeFault;
pub use flaw::{Flaw, VerifyFault};
pub use frame::{Frame, FrameEntry, Kind, Loop};
pub use kinds::Kinds;
pub use once::one_spelling;
pub use op::{Bound, Calculation, Comparison, Division, LinkChange, LocalId, Logic, Op, Place};
pub use parts::{
    CodeParts, FRAME_LIMIT, LOCAL_LIMIT, LOOP_LIMIT, OP_LIMIT, QUERY_LIMIT, SAID_LIMIT,
    STACK_LIMIT, TEXT_BYTES_LIMIT, TEXT_COUNT_LIMIT,
};
pub use version::Version;
pub use within::are_parts;
