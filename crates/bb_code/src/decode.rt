//! Decoding of codes from bytes. Code that reads bundles (bb_bundle) calls `decode`.
//!
//! Each function reads a field at the start of some bytes, and returns its value and the bytes after it.

ghost use Rattle.std.specs.Prelude.{◌≡◌, Ok, IfOk};
ghost use Rattle.bb_basis.specs.Results.{Gives};
ghost use Rattle.bb_code.specs.Code as code;
ghost use Rattle.bb_code.specs.Answers.{map_ok};
ghost use Rattle.bb_code.specs.Spelling.{spelling};
ghost use Rattle.bb_code.specs.Reading.{expected_at, version_at, head_at, code_of};

mod fields;
mod frames;
mod ops;
mod patterns;

use crate::code::Code;
use crate::fault::CodeFault;
use crate::parts::{CodeParts, LOCAL_LIMIT, LOOP_LIMIT, OP_LIMIT, QUERY_LIMIT, TEXT_COUNT_LIMIT};
use crate::version::Version;
use fields::{read_byte, read_list, read_short_count};
use frames::read_frames;
use std::alloc::Global;

fn expect_byte(bytes: &[u8], wanted: u8, fault: CodeFault) -> Result<&[u8], CodeFault>
    ensures { map_ok (λ x. x.now) result ≡ expected_at wanted fault bytes.now }
{
    match bytes {
        [] => Err(CodeFault::Short),
        [first, rest @ ..] if *first == wanted => Ok(rest),
        _ => Err(fault),
    }
}

#[tactic(auto, unfolding(crate::specs::Reading::version_at))]
fn read_version(bytes: &[u8]) -> Result<(Version, &[u8]), CodeFault>
    ensures { map_ok (λ x. (x.0, x.1.now)) result ≡ version_at bytes.now }
{
    let (byte, rest) = read_byte(bytes)?;
    match byte {
        1 => Ok((Version::One, rest)),
        2 => Ok((Version::Two, rest)),
        _ => Err(CodeFault::Version),
    }
}

#[tactic(auto, unfolding(crate::specs::Reading::head_at))]
fn read_head(bytes: &[u8]) -> Result<(Version, &[u8]), CodeFault>
    ensures { map_ok (λ x. (x.0, x.1.now)) result ≡ head_at bytes.now }
{
    let rest = expect_byte(bytes, b'B', CodeFault::Magic)?;
    let rest = expect_byte(rest, b'B', CodeFault::Magic)?;
    let rest = expect_byte(rest, b'C', CodeFault::Magic)?;
    read_version(rest)
}

#[tactic(auto, unfolding(crate::specs::Reading::code_at, crate::specs::Reading::code_of))]
fn read_parts(alloc: Global, bytes: &[u8]) -> Result<CodeParts, CodeFault>
    ensures { Gives CodeFault.Memory (λ parts. parts) result (code_of bytes.now) }
{
    let (version, rest) = read_head(bytes)?;
    let (locals, rest) = read_short_count(rest, 1, LOCAL_LIMIT as usize)?;
    let (texts, rest) = read_list(alloc, rest, 0, TEXT_COUNT_LIMIT)?;
    let (queries, rest) = read_list(alloc, rest, 0, QUERY_LIMIT)?;
    let (frames, rest) = read_frames(alloc, locals, rest)?;
    let (loops, rest) = read_list(alloc, rest, 0, LOOP_LIMIT)?;
    let (ops, rest) = read_list(alloc, rest, 1, OP_LIMIT)?;
    if !rest.is_empty() {
        return Err(CodeFault::Trailing);
    }
    Ok(CodeParts {
        version,
        locals,
        texts,
        queries,
        frames,
        loops,
        ops,
    })
}

fn read_code(alloc: Global, bytes: &[u8]) -> Result<Code, CodeFault>
    ensures { Gives CodeFault.Memory (λ c. c) result (code_of bytes.now) }
{
    let parts = read_parts(alloc, bytes)?;
    Ok(Code::from_parts(parts))
}

impl Code {
    /// Returns the code that all of the bytes spell. The error is the first fault in the bytes, or `Memory` if memory
    /// ran out.
    pub fn decode(alloc: Global, bytes: &[u8]) -> Result<Code, CodeFault>
        // Whatever is decoded is a code, and these bytes spell it.
        ensures found { IfOk result (λ c. code.IsCode c × (bytes.now ≡ spelling c)) }
        // A code that the bytes spell is decoded, unless memory runs out.
        ensures only { (c : code.Code) → code.IsCode c → bytes.now ≡ spelling c →
            Gives CodeFault.Memory (λ d. d) result (Ok c) }
        // The exact fault.
        ensures exact { Gives CodeFault.Memory (λ c. c) result (code_of bytes.now) }
    {
        read_code(alloc, bytes)
    }
}
