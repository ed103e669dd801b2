//! Costs that depend on the contents of the blackboard and the agenda, which budgets do not show: reactions, searches
//! that no test bounds, and searches used only to learn whether anything is found. `write_costs` writes them below the
//! table.

use crate::costs::Costed;
use crate::existence::asks_for_one;
use crate::op_sites::OpSites;
use crate::site::{Site, Subject};
use crate::source_sites::{SourceSites, Texts};
use bb_basis::Memory;
use bb_code::{ClassId, Code, Node, Op, Place, Query};
use bb_rules::{Reaction, Source};
use bb_schema::Schema;
use bb_verify::Checked;
use std::alloc::Global;
use std::fmt::Write;

// Returns the query of an op that searches without a test that bounds it.
fn unbounded(code: &Code, op: Op) -> Option<&Query> {
    let Op::Find(index) = op else {
        return None;
    };
    let query = code.queries().get(index as usize)?;
    match query.pattern.node() {
        Node::All | Node::Not(_) => Some(query),
        _ => None,
    }
}

// Begins a line about a part of a source.
fn begin(text: &mut String, name: &str, part: &str, site: Site<'_>) -> Result<(), Memory> {
    let subject = Subject {
        kind: "note[cost]",
        source: name,
        part,
    };
    site.begin_in_line(text, subject)
}

// Returns whether an op searches a space that can hold many units. The number of all units of a class in a space that
// admits no others is known without a search.
fn is_dear(costed: Costed<'_, '_>, code: &Code, place: Place) -> bool {
    let Some(Op::Find(index)) = code.op(place as usize) else {
        return false;
    };
    let Some(query) = code.queries().get(index as usize) else {
        return false;
    };
    let is_counted = code.op(place.saturating_add(1) as usize) == Some(Op::Size);
    if is_counted && matches!(query.pattern.node(), Node::All) {
        let schema = costed.schema;
        let count = schema.class_count() as ClassId;
        let admits_others = (0..count).any(|class| {
            schema.allowed(query.space, class) && !schema.descends(class, query.class)
        });
        return admits_others && costed.crowds.is_large(query.space);
    }
    costed.crowds.is_large(query.space)
}

// Appends the further costs of an op's search.
fn write_search(
    text: &mut String,
    schema: &Schema,
    name: &str,
    checked: &Checked,
    sites: &OpSites<'_>,
    place: Place,
) -> Result<(), Memory> {
    let code = checked.code();
    let Some(op) = code.op(place as usize) else {
        return Ok(());
    };
    let part = checked.part().word();
    if let Some(query) = unbounded(code, op) {
        let space = schema.space_name(query.space).unwrap_or("?");
        begin(text, name, part, sites.at(place, op))?;
        writeln!(
            text,
            "no test bounds it, so it goes over all members of space {space}"
        )?;
    }
    if asks_for_one(checked, place) {
        begin(text, name, part, sites.at(place, op))?;
        text.push_str(
            "it counts all that it finds, and its size only tells whether there is one; ",
        )?;
        text.push_str("have tests leave few, or keep the number in a slot\n")?;
    }
    Ok(())
}

// Returns whether a source has a reaction that is asked about every pending activation, not only the one of the event's
// unit.
fn asks_about_all(reaction: &Option<Reaction>) -> bool {
    match reaction {
        None => false,
        Some(reaction) => !reaction.code.asks_own(),
    }
}

// Appends that a reaction is asked for every pending activation.
fn write_reaction(
    text: &mut String,
    name: &str,
    part: &str,
    sites: &SourceSites<'_>,
) -> Result<(), Memory> {
    begin(text, name, part, sites.part(part))?;
    text.push_str("an event asks it once for each pending activation of the source\n")
}

// Appends the further costs of a source's parts.
fn write_notes_on(
    alloc: Global,
    text: &mut String,
    costed: Costed<'_, '_>,
    source: &Source,
    sites: &SourceSites<'_>,
) -> Result<(), Memory> {
    let parts = source.parts();
    let name = parts.name.as_str();
    if asks_about_all(&parts.obviate) {
        write_reaction(text, name, "obviate", sites)?;
    }
    if asks_about_all(&parts.retrigger) {
        write_reaction(text, name, "retrigger", sites)?;
    }
    for code in source.codes() {
        if let Some(checked) = code {
            let ops = sites.ops(alloc, checked)?;
            let count = checked.code().ops().len() as Place;
            for place in 0..count {
                if is_dear(costed, checked.code(), place) {
                    write_search(text, costed.schema, name, checked, &ops, place)?;
                }
            }
        }
    }
    Ok(())
}

/// Appends the costs that depend on what exists: the reactions of every source, and its searches that cost more than
/// needed in spaces that can hold many units.
pub(crate) fn write_cost_notes(
    alloc: Global,
    text: &mut String,
    texts: &Texts<'_>,
    costed: Costed<'_, '_>,
) -> Result<(), Memory> {
    for (index, source) in costed.sources.iter().enumerate() {
        let sites = texts.sites(alloc, index, source)?;
        write_notes_on(alloc, text, costed, source, &sites)?;
    }
    Ok(())
}
