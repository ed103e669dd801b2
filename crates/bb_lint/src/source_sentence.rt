//! Warnings about a whole source as sentences: its rate, quiescence, its `require`, and events that never come.
//! `advice` writes them.

use bb_basis::Memory;
use bb_board::ChangeKind;
use bb_code::{ClassId, SlotId};
use bb_lint_parts::{Possible, SourceSites, Subject};
use bb_rules::{Clause, ClauseList, Source};
use bb_schema::{Schema, SpaceId};
use std::fmt::Write;

// Returns what a warning about a source, or one of its parts, is about.
fn subject<'a>(kind: &'static str, source: &'a Source, part: &'a str) -> Subject<'a> {
    Subject {
        kind,
        source: source.parts().name.as_str(),
        part,
    }
}

/// Appends that no activation of a source is chosen.
pub(crate) fn write_rating(
    text: &mut String,
    source: &Source,
    sites: &SourceSites<'_>,
    floor: i64,
) -> Result<(), Memory> {
    let rate = source.parts().rate;
    let site = sites.rate();
    let subject = subject("warning[rate]", source, "");
    site.begin(text, subject)?;
    write!(
        text,
        "its rate {rate} is below the floor {floor}, and no source makes a focus; "
    )?;
    text.push_str("unless a first unit is one, it is never chosen")?;
    site.end(text, subject)
}

/// Appends that quiescence triggers a source again and again.
pub(crate) fn write_restless(
    text: &mut String,
    source: &Source,
    sites: &SourceSites<'_>,
) -> Result<(), Memory> {
    let triggers = source.parts().triggers.as_slice();
    let quiescence = triggers
        .iter()
        .position(|clause| matches!(clause, Clause::Quiescence));
    let site = sites.clause(ClauseList::Triggers, quiescence.unwrap_or(0));
    let subject = subject("warning[quiescence]", source, "");
    site.begin(text, subject)?;
    text.push_str("each quiescence triggers it, and it has no `require`; ")?;
    text.push_str("unless foci weigh it below the floor, the run goes on to its limit")?;
    site.end(text, subject)
}

/// Appends that no event triggers a source.
pub(crate) fn write_never_rates(
    text: &mut String,
    source: &Source,
    sites: &SourceSites<'_>,
) -> Result<(), Memory> {
    let site = sites.part("require");
    let subject = subject("warning[require]", source, "require");
    site.begin(text, subject)?;
    text.push_str("it has no way to a rating, so no event triggers the source")?;
    site.end(text, subject)
}

/// Appends the clauses of a source that name something that never happens.
pub(crate) fn write_clauses(
    text: &mut String,
    schema: &Schema,
    possible: &Possible,
    source: &Source,
    sites: &SourceSites<'_>,
) -> Result<(), Memory> {
    let parts = source.parts();
    let triggers = parts.triggers.as_slice();
    let sentences = ClauseSentences {
        schema,
        possible,
        source,
        sites,
    };
    sentences.write_list(text, ClauseList::Triggers, triggers)?;
    if let Some(reaction) = &parts.obviate {
        sentences.write_list(text, ClauseList::Obviate, reaction.clauses.as_slice())?;
    }
    if let Some(reaction) = &parts.retrigger {
        sentences.write_list(text, ClauseList::Retrigger, reaction.clauses.as_slice())?;
    }
    Ok(())
}

// What the sentences on a source's clauses are written from.
#[derive(Clone, Copy)]
struct ClauseSentences<'a> {
    schema: &'a Schema,
    possible: &'a Possible,
    source: &'a Source,
    sites: &'a SourceSites<'a>,
}

impl ClauseSentences<'_> {
    // Appends the clauses of a list that name something that never happens.
    fn write_list(
        self,
        text: &mut String,
        list: ClauseList,
        clauses: &[Clause],
    ) -> Result<(), Memory> {
        for (index, clause) in clauses.iter().enumerate() {
            if let Clause::Change { kind, class } = *clause {
                if !self.possible.can_happen(self.schema, kind, class) {
                    let site = self.sites.clause(list, index);
                    let subject = subject("warning[event]", self.source, part_of(list));
                    site.begin(text, subject)?;
                    text.push_str("no first unit and no source brings \"")?;
                    write_event(text, self.schema, kind, class)?;
                    text.push_str(what_follows(list))?;
                    site.end(text, subject)?;
                }
            }
        }
        Ok(())
    }
}

// Returns the word of the part with a list of clauses; empty for the triggers.
fn part_of(list: ClauseList) -> &'static str {
    match list {
        ClauseList::Triggers => "",
        ClauseList::Obviate => "obviate",
        ClauseList::Retrigger => "retrigger",
    }
}

// Returns the consequence of a clause that names something that never happens.
fn what_follows(list: ClauseList) -> &'static str {
    match list {
        ClauseList::Triggers => "\" about, so it triggers nothing",
        _ => "\" about, so it asks nothing",
    }
}

// Returns the name of a slot.
fn slot_name(schema: &Schema, slot: SlotId) -> &str {
    schema.slot_name(slot).unwrap_or("?")
}

// Returns the name of a space.
fn space_name(schema: &Schema, space: SpaceId) -> &str {
    schema.space_name(space).unwrap_or("?")
}

// Appends an event as a clause names it.
fn write_event(
    text: &mut String,
    schema: &Schema,
    kind: ChangeKind,
    class: ClassId,
) -> Result<(), Memory> {
    let class = schema.class_name(class).unwrap_or("?");
    match kind {
        ChangeKind::Create => write!(text, "create {class}"),
        ChangeKind::Delete => write!(text, "delete {class}"),
        ChangeKind::Update(slot) => write!(text, "update {class}.{}", slot_name(schema, slot)),
        ChangeKind::Link(slot) => write!(text, "link {class}.{}", slot_name(schema, slot)),
        ChangeKind::Unlink(slot) => write!(text, "unlink {class}.{}", slot_name(schema, slot)),
        ChangeKind::Enter(space) => write!(text, "enter {class} {}", space_name(schema, space)),
        ChangeKind::Leave(space) => write!(text, "leave {class} {}", space_name(schema, space)),
    }
}
