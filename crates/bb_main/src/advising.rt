//! The advice on a checked input. The check (serving.rt) returns it besides writing its lines.

use crate::refusing::input_of;
use bb_diag::{FirstUnits, read_first_units};
use bb_lint::{Accepted, advice};
use bb_main_input::Sections;
use bb_shell::{Check, Memory};
use std::alloc::Global;
use std::fmt::Write;

/// Returns the advice on an input's schema and sources, after a warning if its initial units would be refused.
pub(crate) fn advice_on<'a>(
    alloc: Global,
    checked: &'a Check,
    floor: i64,
    sections: Sections<'a>,
) -> Result<String, Memory> {
    let input = input_of(sections);
    let mut text = String::new(alloc);
    let mut noted = None;
    let mut first_foci = Vec::new(alloc);
    match read_first_units(alloc, input)? {
        Some(FirstUnits::Noted { notes, foci }) => {
            noted = Some(notes);
            first_foci = foci;
        }
        Some(FirstUnits::Refused(report)) => writeln!(text, "{report}")?,
        None => {}
    }
    let accepted = Accepted {
        schema: &checked.schema,
        sources: checked.sources.as_slice(),
        text: input.text_of_sources(),
        first: noted.as_deref(),
        foci: first_foci.as_slice(),
        floor,
    };
    let advice = advice(alloc, accepted)?;
    text.push_str(advice.as_str())?;
    Ok(text)
}
