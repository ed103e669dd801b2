//! The rows of a table. A row is a line, with more lines if an insert continues, and the lines below it that are
//! indented further. Tables (bb_cases) compare rows.

use crate::fault::Fault;
use crate::parts::{Line, Part};
use crate::pieces::OUTSIDE;
use std::alloc::{AllocError, Global};

/// A row of a table.
#[derive(Drop)]
pub struct Row {
    /// The number of the row's line in the file.
    pub number: usize,
    text: String,
    /// The lines below the row, each with its line end.
    pub below: String,
}

impl Row {
    /// Returns the texts before and after the first `|`, without the space on either side of it. `Row`: `|` is
    /// missing.
    pub fn sides(&self) -> Result<(&str, &str), Fault> {
        let (front, back) = self.text.split_once('|').ok_or(Fault::Row)?;
        Ok((
            front.strip_suffix(' ').unwrap_or(front),
            back.strip_prefix(' ').unwrap_or(back),
        ))
    }
}

fn row_of(alloc: Global, line: &Line<'_>) -> Result<Row, AllocError> {
    Ok(Row {
        number: line.number,
        text: String::from_str(alloc, line.text)?,
        below: String::new(alloc),
    })
}

/// Returns the rows of a part. `Row`: lines are above the first row.
pub fn rows_of(alloc: Global, part: &Part<'_>) -> Result<Vec<Row>, Fault> {
    let mut rows: Vec<Row> = Vec::new(alloc);
    let mut nesting = OUTSIDE;
    for line in &part.lines {
        if nesting.depth > 0 {
            let row = rows.last_mut().ok_or(Fault::Row)?;
            row.text.push_str("\n")?;
            row.text.push_str(line.text)?;
        } else if let Some(below) = line.text.strip_prefix("  ") {
            let row = rows.last_mut().ok_or(Fault::Row)?;
            row.below.push_str(below)?;
            row.below.push_str("\n")?;
        } else {
            rows.push(row_of(alloc, line)?)?;
        }
        nesting.add(line.text);
    }
    Ok(rows)
}
