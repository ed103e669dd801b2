//! Warnings about foci among the initial units that name a missing source or class.

use bb_basis::{Memory, Names};
use bb_diag_text::{FirstFocus, write_quoted};
use bb_schema::Schema;
use std::fmt::Write;

// Appends that a focus names something that is not there.
fn write_focus(text: &mut String, index: usize, called: &str, name: &str) -> Result<(), Memory> {
    write!(
        text,
        "input: warning[focus]: units, units[{index}]: there is no {called} "
    )?;
    write_quoted(text, name)?;
    text.push_str(", so the focus weighs nothing\n")
}

/// Appends the foci among the initial units whose source is not among these names, or whose area is not a class. The
/// empty name means all.
pub(crate) fn write_foci(
    text: &mut String,
    schema: &Schema,
    names: &Names,
    foci: &[FirstFocus],
) -> Result<(), Memory> {
    for focus in foci {
        let source = focus.source.as_str();
        if !source.is_empty() && !names.contains(source) {
            write_focus(text, focus.index, "source", source)?;
        }
        let area = focus.area.as_str();
        if !area.is_empty() && schema.class(area).is_none() {
            write_focus(text, focus.index, "class", area)?;
        }
    }
    Ok(())
}
