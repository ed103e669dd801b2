//! Sources that bring about what triggers them each time they act. Advice on sources checks for them.

use bb_basis::Memory;
use bb_board::ChangeKind;
use bb_code::{Code, Op};
use bb_lint_parts::{Possible, SourceSites, Subject};
use bb_rules::{Act, Clause, ClauseList, Source};
use bb_schema::Schema;
use std::alloc::Global;

// Returns whether a code makes all of its changes whenever its unit is there, and leaves the unit there: it has no loop
// and no test but whether units are there, follows no link and deletes nothing.
fn is_plain(code: &Code) -> bool {
    let has_test = code.ops().iter().any(|op| {
        matches!(
            op,
            Op::Unless(_) | Op::One(_, _) | Op::As(_, _) | Op::Delete
        )
    });
    !has_test && code.loops().is_empty()
}

// Returns whether only the rate of a source decides about its activations, and is not below the floor.
fn is_unasked(floor: i64, source: &Source) -> bool {
    let parts = source.parts();
    parts.require.is_none()
        && parts.obviate.is_none()
        && parts.retrigger.is_none()
        && parts.revalidate.is_none()
        && parts.rate >= floor
}

/// Returns the index of the first trigger of a source that its own act brings about each time, if there is one: that a
/// unit is created, or that a slot is set. Links and entries that already exist are not events.
pub(crate) fn is_repeated(
    alloc: Global,
    schema: &Schema,
    floor: i64,
    source: &Source,
) -> Result<Option<usize>, Memory> {
    let Act::Code(lowered) = &source.parts().act else {
        return Ok(None);
    };
    if !is_unasked(floor, source) || !is_plain(lowered.checked().code()) {
        return Ok(None);
    }
    let own = Possible::of_source(alloc, schema, source)?;
    let triggers = source.parts().triggers.as_slice();
    Ok(
        triggers.iter().position(|clause| match clause {
            Clause::Change { kind, class } => {
                matches!(kind, ChangeKind::Create | ChangeKind::Update(_))
                    && own.can_happen(schema, *kind, *class)
            }
            Clause::Quiescence => false,
        }),
    )
}

/// Appends that a source brings about what triggers it.
pub(crate) fn write_repeated(
    text: &mut String,
    source: &Source,
    sites: &SourceSites<'_>,
    index: usize,
) -> Result<(), Memory> {
    let site = sites.clause(ClauseList::Triggers, index);
    let subject = Subject {
        kind: "warning[trigger]",
        source: source.parts().name.as_str(),
        part: "",
    };
    site.begin(text, subject)?;
    text.push_str("its own `do` brings this about each time, and it has no `require`; ")?;
    text.push_str("unless foci weigh it below the floor, the run goes on to its limit")?;
    site.end(text, subject)
}
