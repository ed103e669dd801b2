//! Reading of a whole input, up to the limit. `serve` (bb_main) calls it.

ghost use Rattle.std.specs.Prelude.{◌≡◌, false};
ghost use Rattle.bb_main_input.specs.declared.read.ReadFault.TheVariants.{Memory as OutOfMemory};
ghost use Rattle.bb_main_input.specs.Reading.{Reads, is_failure};

use crate::input::In;
use std::alloc::{AllocError, Global};
use thiserror::Error;

/// The maximum number of bytes of an input.
pub const INPUT_LIMIT: usize = 16_777_216;

// The maximum number of bytes requested by one read.
const CHUNK_LIMIT: usize = 8_192;

/// Why the bytes of an input were not all read.
#[derive(Clone, Copy, Debug, PartialEq, Eq, Error)]
pub enum ReadFault {
    /// The reader failed.
    #[error("input: it could not be read")]
    Read,
    /// The input has more than `INPUT_LIMIT` bytes.
    #[error("input: it has more than 16,777,216 bytes")]
    Limit,
    /// Memory ran out.
    #[error("out of memory")]
    Memory,
}

impl From<AllocError> for ReadFault {
    ghost from_gives = { λ _ e. e ≡ OutOfMemory };

    fn from(_refused: AllocError) -> ReadFault {
        ReadFault::Memory
    }
}

/// Reads all bytes of an input, at most `INPUT_LIMIT`. `Read`: the reader failed. `Limit`: there was one byte more; it
/// was taken, which happens at no other result. `Memory`: memory ran out.
pub fn read_input<R: In>(alloc: Global, reader: &mut R) -> Result<Vec<u8>, ReadFault>
    requires { R.has_failed reader.old ≡ false }
    ensures read { Reads (R.remaining reader.old) (R.remaining reader.new) result }
    ensures failed { R.has_failed reader.new ≡ is_failure result }
{
    let mut input = Vec::new(alloc);
    let mut chunk = [0; CHUNK_LIMIT];
    while input.len() < INPUT_LIMIT {
        let room = CHUNK_LIMIT.min(INPUT_LIMIT - input.len());
        let count = reader.read(&mut chunk[..room]).ok_or(ReadFault::Read)?;
        if count == 0 {
            return Ok(input);
        }
        input.extend_from_slice(&chunk[..count])?;
    }
    match reader.read(&mut chunk[..1]) {
        Some(0) => Ok(input),
        Some(_) => Err(ReadFault::Limit),
        None => Err(ReadFault::Read),
    }
}
