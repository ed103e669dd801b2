//! Single fields at the start of bytes, and lists of them. Each function returns the value and the bytes after it. All
//! other readers call these.

ghost use Rattle.std.specs.Prelude.{◌≡◌};
ghost use Rattle.bb_basis.specs.Results.{Gives};
ghost use Rattle.bb_code.specs.Fields.{Field as Reads, byte_at, number_at, int_at, bool_at, count_at};
ghost use Rattle.bb_code.specs.Answers.{map_ok};
ghost use Rattle.bb_code.specs.Fields.{short_count_at, repeated, list_at, short_list_at, text_at};

use crate::fault::CodeFault;
use bb_basis::{Items, Text};
use std::alloc::Global;

/// A field that can be an item of a list.
pub(crate) trait Field: Sized {
    ghost use Rattle.bb_code.specs.Fields.{Field as Reads};

    /// The result of reading such a field at the start of bytes.
    ghost at: { Reads Self };

    /// Reads one at the start of bytes.
    fn read(alloc: Global, bytes: &[u8]) -> Result<(Self, &[u8]), CodeFault>
        ensures { Gives CodeFault.Memory (λ x. (x.0, x.1.now)) result (at bytes.now) };
}

/// Reads `count` fields.
pub(crate) fn read_each<F: Field>(
    alloc: Global,
    count: usize,
    bytes: &[u8],
) -> Result<(Items<F>, &[u8]), CodeFault>
where
    F: Drop,
    ensures { Gives CodeFault.Memory (λ x. (x.0, x.1.now)) result (repeated F.at count bytes.now) }
{
    let mut items = Vec::with_capacity(alloc, count)?;
    let mut rest = bytes;
    for _ in 0..count {
        let (item, after) = F::read(alloc, rest)?;
        items.push(item)?;
        rest = after;
    }
    Ok((Items::from(items), rest))
}

/// Reads a count from `low` to `high`, and then that number of fields.
#[tactic(auto, unfolding(crate::specs::Fields::list_at))]
pub(crate) fn read_list<F: Field>(
    alloc: Global,
    bytes: &[u8],
    low: u16,
    high: u16,
) -> Result<(Items<F>, &[u8]), CodeFault>
where
    F: Drop,
    ensures { Gives CodeFault.Memory (λ x. (x.0, x.1.now)) result (list_at low high F.at bytes.now) }
{
    let (count, rest) = read_count(bytes, low, high)?;
    read_each(alloc, count as usize, rest)
}

/// Reads a count of one byte up to `high`, and then that number of fields.
#[tactic(auto, unfolding(crate::specs::Fields::short_list_at))]
pub(crate) fn read_short_list<F: Field>(
    alloc: Global,
    bytes: &[u8],
    high: usize,
) -> Result<(Items<F>, &[u8]), CodeFault>
where
    F: Drop,
    ensures { Gives CodeFault.Memory (λ x. (x.0, x.1.now)) result (short_list_at high F.at bytes.now) }
{
    let (count, rest) = read_short_count(bytes, 0, high)?;
    read_each(alloc, count as usize, rest)
}

pub(crate) fn read_byte(bytes: &[u8]) -> Result<(u8, &[u8]), CodeFault>
    ensures { map_ok (λ x. (x.0, x.1.now)) result ≡ byte_at bytes.now }
{
    match bytes {
        [] => Err(CodeFault::Short),
        [first, rest @ ..] => Ok((*first, rest)),
    }
}

pub(crate) fn read_number(bytes: &[u8]) -> Result<(u16, &[u8]), CodeFault>
    ensures { map_ok (λ x. (x.0, x.1.now)) result ≡ number_at bytes.now }
{
    match bytes {
        [high, low, rest @ ..] => Ok((u16::from_be_bytes([*high, *low]), rest)),
        _ => Err(CodeFault::Short),
    }
}

pub(crate) fn read_int(bytes: &[u8]) -> Result<(i64, &[u8]), CodeFault>
    ensures { map_ok (λ x. (x.0, x.1.now)) result ≡ int_at bytes.now }
{
    if bytes.len() < 8 {
        return Err(CodeFault::Short);
    }
    let (front, rest) = bytes.split_at(8);
    let number = u64::from_be_bytes([
        front[0], front[1], front[2], front[3], front[4], front[5], front[6], front[7],
    ]);
    Ok((number.cast_signed(), rest))
}

#[tactic(auto, unfolding(crate::specs::Fields::bool_at))]
pub(crate) fn read_bool(bytes: &[u8]) -> Result<(bool, &[u8]), CodeFault>
    ensures { map_ok (λ x. (x.0, x.1.now)) result ≡ bool_at bytes.now }
{
    let (byte, rest) = read_byte(bytes)?;
    match byte {
        0 => Ok((false, rest)),
        1 => Ok((true, rest)),
        _ => Err(CodeFault::Operand),
    }
}

#[tactic(auto, unfolding(crate::specs::Fields::count_at))]
pub(crate) fn read_count(bytes: &[u8], low: u16, high: u16) -> Result<(u16, &[u8]), CodeFault>
    ensures { map_ok (λ x. (x.0, x.1.now)) result ≡ count_at low high bytes.now }
{
    let (count, rest) = read_number(bytes)?;
    if count < low || high < count {
        return Err(CodeFault::Limit);
    }
    Ok((count, rest))
}

#[tactic(auto, unfolding(crate::specs::Fields::short_count_at))]
pub(crate) fn read_short_count(
    bytes: &[u8],
    low: usize,
    high: usize,
) -> Result<(u8, &[u8]), CodeFault>
    ensures { map_ok (λ x. (x.0, x.1.now)) result ≡ short_count_at low high bytes.now }
{
    let (count, rest) = read_byte(bytes)?;
    if (count as usize) < low || high < count as usize {
        return Err(CodeFault::Limit);
    }
    Ok((count, rest))
}

impl Field for Text {
    ghost use Rattle.bb_code.specs.Fields.{text_at};

    ghost at = { text_at };

    #[tactic(auto, unfolding(crate::specs::Fields::text_at))]
    fn read(alloc: Global, bytes: &[u8]) -> Result<(Text, &[u8]), CodeFault> {
        let (len, rest) = read_number(bytes)?;
        let len = len as usize;
        if rest.len() < len {
            return Err(CodeFault::Short);
        }
        let (text, rest) = rest.split_at(len);
        let Ok(text) = str::from_utf8(text) else {
            return Err(CodeFault::Operand);
        };
        Ok((Text::from_str(alloc, text)?, rest))
    }
}
