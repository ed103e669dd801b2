//! Cases of histories: the outcome of a history is compared. The suite calls this.

use crate::history::{History, Text, Told, natives};
use bb_cases_format::{Difference, Entry, Fault, Header, Scope, expanded_text, number};
use std::alloc::{AllocError, Global};

// Returns the names that the host answers for, which are separated by commas.
fn names(alloc: Global, listed: Option<&str>) -> Result<Vec<Text>, Fault> {
    let mut names = Vec::new(alloc);
    if let Some(listed) = listed {
        for name in listed.split(',') {
            names.push(Text::from_str(alloc, name)?)?;
        }
    }
    Ok(names)
}

// Returns whether a header hands in the native `reaper`. Without the option there are no natives.
fn has_reaper(header: &Header<'_>) -> Result<bool, Fault> {
    match header.option("natives") {
        None => Ok(false),
        Some("reaper") => Ok(true),
        Some(_) => Err(Fault::Options),
    }
}

// Returns the first difference of an output, or else of the status.
fn differs(
    alloc: Global,
    given: u8,
    taken: &[u8],
    status: u8,
    output: &[u8],
) -> Result<Option<Difference>, AllocError> {
    let difference = Difference::of(alloc, output, taken)?;
    if difference.is_some() || given == status {
        return Ok(difference);
    }
    Ok(Some(Difference {
        line: 0,
        wanted: format!(in alloc; "{status}")?,
        given: format!(in alloc; "{given}")?,
    }))
}

/// Compares a case of a history. Returns the first difference.
pub(crate) fn compare_history(
    alloc: Global,
    scope: Scope<'_>,
    entry: &Entry<'_>,
) -> Result<Option<Difference>, Fault> {
    let header = &entry.first.header;
    header.check(&["floor", "natives", "outside"])?;
    let gives = entry.second("gives")?;
    gives.header.check(&[])?;
    let status = number(gives.header.name)?;
    let wanted = expanded_text(scope, gives.text(alloc)?.as_str())?;
    let text = expanded_text(scope, entry.first.text(alloc)?.as_str())?;
    let told = told(alloc, header, text.as_str())?;
    let trace = told.trace.as_slice();
    Ok(differs(alloc, told.status, trace, status, wanted.as_bytes())?)
}

// Returns the outcome of a history, with the floor and natives that its header names.
fn told(alloc: Global, header: &Header<'_>, text: &str) -> Result<Told, Fault> {
    let floor = header.number("floor", 0)?;
    let has_reaper = has_reaper(header)?;
    let history = History::of_text(alloc, text)?;
    let outside = names(alloc, header.option("outside"))?;
    history.run(alloc, natives(alloc, has_reaper)?, outside, floor)
}
