//! Names represented by the first slots that have them: which slot of some has the name of a first slot, and which
//! dimensions do. bb_schema keeps tables of first slots, so that a run compares no names.

ghost use Rattle.std.specs.Prelude.{◌≡◌, IfOk, find, map, position};
ghost use Rattle.bb_schema_classes.specs.Firsts.{is_at, has_first, place_in, row_if};

use crate::kind::SlotId;
use bb_basis::Items;
use std::alloc::{AllocError, Global};

// Whether a first slot is this one.
fn is_at(found: Option<usize>, first: usize) -> bool
    ensures { result ≡ is_at first found }
{
    match found {
        None => false,
        Some(found) => found == first,
    }
}

fn has_first(firsts: &[Option<usize>], first: usize, slot: SlotId) -> bool
    ensures { result ≡ has_first firsts.now first slot }
{
    match firsts.get(slot as usize) {
        None => false,
        Some(found) => is_at(*found, first),
    }
}

/// Returns the first of these slots with the name of a first slot.
pub fn slot_among(firsts: &[Option<usize>], numbers: &[SlotId], first: usize) -> Option<SlotId>
    ensures { result ≡ find (has_first firsts.now first) numbers.now }
{
    numbers
        .iter()
        .copied()
        .find(|slot| has_first(firsts, first, *slot))
}

fn position_of(dims: &[Option<usize>], first: usize) -> Option<usize>
    ensures { result ≡ position (is_at first) dims.now }
{
    dims.iter().position(|found| is_at(*found, first))
}

// The index of the dimension that reads a first slot.
fn place_in(dims: &[Option<usize>], first: usize) -> Option<u8>
    ensures { result ≡ place_in first dims.now }
{
    let place = position_of(dims, first)?;
    // No space has as many dimensions.
    if place >= 256 {
        return None;
    }
    Some(place as u8)
}

// For each space the index of the dimension that reads a first slot.
fn row_of(
    alloc: Global,
    dims: &[Items<Option<usize>>],
    first: usize,
) -> Result<Vec<Option<u8>>, AllocError>
    ensures { IfOk result (λ row. row.items ≡ map (place_in first) dims.now) }
{
    dims.iter()
        .map(|firsts| place_in(firsts.as_slice(), first))
        .collect(alloc)
}

/// Returns for each space the index of the dimension that reads a first slot, if any space reads it.
pub fn row_if(
    alloc: Global,
    is_read: bool,
    dims: &[Items<Option<usize>>],
    first: usize,
) -> Result<Vec<Option<u8>>, AllocError>
    ensures { IfOk result (λ row. row.items ≡ row_if is_read dims.now first) }
{
    if !is_read {
        return Ok(Vec::new(alloc));
    }
    row_of(alloc, dims, first)
}

/// Returns a copy.
pub fn copy_of(alloc: Global, firsts: &[Option<usize>]) -> Result<Vec<Option<usize>>, AllocError>
    ensures { IfOk result (λ copy. copy.items ≡ firsts.now) }
{
    firsts.iter().copied().collect(alloc)
}
