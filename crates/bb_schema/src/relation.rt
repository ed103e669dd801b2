//! Relations of numbers as tables of truth values, with a row for each number: the numbers that it is related to. The
//! table of deleted classes (struck.rt) is built from one.

ghost use Rattle.std.specs.Prelude.{◌≡◌, map, length, IfOk};
ghost use Rattle.bb_schema.specs.proving.Relation.{row_has, row_at, through, passed, closed_by};

use bb_basis::Items;
use std::alloc::{AllocError, Global};

/// Returns whether a row has a number.
pub(crate) fn row_has(row: &[bool], number: usize) -> bool
    ensures { result ≡ row_has row.now number }
{
    match row.get(number) {
        None => false,
        Some(found) => *found,
    }
}

// The row of a number.
fn row_at(rows: &[Items<bool>], number: usize) -> &[bool]
    ensures { result.now ≡ row_at rows.now number }
{
    match rows.get(number) {
        None => &[],
        Some(row) => row.as_slice(),
    }
}

// A row, joined with the row of a number if it has that number.
fn through(
    alloc: Global,
    row: &[bool],
    other: &[bool],
    number: usize,
) -> Result<Vec<bool>, AllocError>
    ensures { IfOk result (λ joined. joined.items ≡ through row.now other.now number) }
{
    let goes = row_has(row, number);
    (0..row.len())
        .map(|to| row_has(row, to) || (goes && row_has(other, to)))
        .collect(alloc)
}

// A relation, with the pairs added that lead through a number.
fn pass(alloc: Global, rows: &[Items<bool>], number: usize) -> Result<Vec<Items<bool>>, AllocError>
    ensures { IfOk result (λ joined. joined.items ≡ passed number rows.now) }
{
    let other = row_at(rows, number);
    let mut joined = Vec::new(alloc);
    for row in rows {
        let next = through(alloc, row.as_slice(), other, number)?;
        joined.push(Items::from(next))?;
    }
    Ok(joined)
}

/// Returns the transitive closure of a relation (Warshall).
pub(crate) fn closed(alloc: Global, rows: Vec<Items<bool>>) -> Result<Vec<Items<bool>>, AllocError>
    ensures { IfOk result (λ closed. closed.items ≡ closed_by (length rows.items) rows.items) }
{
    let count = rows.len();
    let mut rows = rows;
    for number in 0..count {
        rows = pass(alloc, &rows, number)?;
    }
    Ok(rows)
}
