//! Parts of a source that are out of order, or occur twice. Messages on tokens check this first.

use bb_basis::Memory;
use bb_diag_text::Spot;
use std::fmt::Write;

// The words of a source's parts, in order.
const PARTS: &str = "when rate require obviate retrigger revalidate do native";

// What a source has that does two things.
const ONE_ACT: &str = "a source has \"do\" or \"native\"";

// Returns the position of a part in the order, if the word begins one.
fn rank_of(word: &str) -> Option<usize> {
    PARTS.split(' ').position(|part| part == word)
}

// Returns whether the next part of a source, or its end, could come at the location.
fn is_between_parts(spot: &Spot<'_>) -> bool {
    let goes_on = |word: &str| spot.due.iter().any(|due| due.is(word));
    spot.open.len() == 1
        && spot.head == "source"
        && (goes_on("when") || goes_on("rate") || goes_on("do") || goes_on("}"))
}

// Returns the first part present that has to come after a part with this rank.
fn part_behind<'a>(spot: &Spot<'a>, rank: usize) -> Option<&'a str> {
    spot.parts
        .iter()
        .copied()
        .find(|part| rank_of(part).is_some_and(|it| it > rank))
}

/// Appends the fault of the part at the location, and returns whether the location has such a part.
pub(crate) fn write_order(text: &mut String, spot: &Spot<'_>) -> Result<bool, Memory> {
    let Some(rank) = rank_of(spot.at.text) else {
        return Ok(false);
    };
    if !is_between_parts(spot) {
        return Ok(false);
    }
    let part = spot.at.text;
    if spot.parts.is_empty() {
        write_missing(text, spot, part)?;
    } else if spot.parts.iter().any(|it| *it == part) {
        write!(text, "a source has one \"{part}\"")?;
    } else if let Some(behind) = part_behind(spot, rank) {
        if is_act(part) && is_act(behind) {
            text.push_str(ONE_ACT)?;
        } else {
            write!(text, "\"{part}\" stands before \"{behind}\"")?;
        }
    } else {
        text.push_str(ONE_ACT)?;
    }
    Ok(true)
}

// Returns whether a part is what a source does.
fn is_act(part: &str) -> bool {
    part == "do" || part == "native"
}

// Appends what is missing before the first part of a source.
fn write_missing(text: &mut String, spot: &Spot<'_>, part: &str) -> Result<(), Memory> {
    if spot.due.iter().any(|due| due.is("rate")) {
        return write!(
            text,
            "\"rate INT;\" is due before \"{part}\", behind the \"when\" lines"
        );
    }
    write!(
        text,
        "\"when EVENT;\" is due before \"{part}\": a source has one event or more"
    )
}
