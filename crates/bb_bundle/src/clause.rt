//! Reads the clause of a `when` line. The parser calls it for each.

ghost use Rattle.std.specs.Prelude.{◌≡◌, map, option_map, IfOk};
ghost use Rattle.bb_bundle.specs.Clauses.{unit_change, slot_change, space_change, split_dot, unit_clause, slot_clause};
ghost use Rattle.bb_bundle.specs.Clauses.{subject_clause, space_clause, quiescence_clause};
ghost use Rattle.bb_bundle.specs.Clauses.{clause_of};

use bb_basis::{Text, is_name};
use bb_lang_tree::{ChangeText, ClauseText};
use std::alloc::{AllocError, Global};

#[tactic(auto, unfolding(crate::specs::Clauses::unit_change))]
fn unit_change(event: &str) -> Option<ChangeText>
    ensures { result ≡ unit_change event.now }
{
    if event == "create" {
        return Some(ChangeText::Create);
    }
    if event == "delete" {
        return Some(ChangeText::Delete);
    }
    None
}

#[tactic(auto, unfolding(crate::specs::Clauses::slot_change))]
fn slot_change(event: &str, slot: Text) -> Option<ChangeText>
    ensures { result ≡ slot_change event.now slot }
{
    if event == "update" {
        return Some(ChangeText::Update(slot));
    }
    if event == "link" {
        return Some(ChangeText::Link(slot));
    }
    if event == "unlink" {
        return Some(ChangeText::Unlink(slot));
    }
    None
}

#[tactic(auto, unfolding(crate::specs::Clauses::space_change))]
fn space_change(event: &str, space: Text) -> Option<ChangeText>
    ensures { result ≡ space_change event.now space }
{
    if event == "enter" {
        return Some(ChangeText::Enter(space));
    }
    if event == "leave" {
        return Some(ChangeText::Leave(space));
    }
    None
}

// Splits a word at its first dot.
fn split_dot(word: &str) -> Option<(&str, &str)>
    ensures { option_map (λ p. (p.0.now, p.1.now)) result ≡ split_dot word.now }
{
    word.split_once('.')
}

#[tactic(auto, unfolding(crate::specs::Clauses::unit_clause))]
fn read_unit_clause(
    alloc: Global,
    kind: ChangeText,
    class: &str,
) -> Result<Option<ClauseText>, AllocError>
    ensures { IfOk result (λ c. c ≡ unit_clause kind class.now) }
{
    if !is_name(class) {
        return Ok(None);
    }
    Ok(Some(ClauseText::Change {
        kind,
        class: Text::from_str(alloc, class)?,
    }))
}

#[tactic(auto, unfolding(crate::specs::Clauses::slot_clause))]
fn read_slot_clause(
    alloc: Global,
    event: &str,
    class: &str,
    slot: &str,
) -> Result<Option<ClauseText>, AllocError>
    ensures { IfOk result (λ c. c ≡ slot_clause event.now class.now slot.now) }
{
    if !is_name(slot) {
        return Ok(None);
    }
    let Some(kind) = slot_change(event, Text::from_str(alloc, slot)?) else {
        return Ok(None);
    };
    read_unit_clause(alloc, kind, class)
}

#[tactic(auto, unfolding(crate::specs::Clauses::space_clause))]
fn read_space_clause(
    alloc: Global,
    event: &str,
    class: &str,
    space: &str,
) -> Result<Option<ClauseText>, AllocError>
    ensures { IfOk result (λ c. c ≡ space_clause event.now class.now space.now) }
{
    if !is_name(space) {
        return Ok(None);
    }
    let Some(kind) = space_change(event, Text::from_str(alloc, space)?) else {
        return Ok(None);
    };
    read_unit_clause(alloc, kind, class)
}

// Reads a clause of an event and one more word, which names a class, or a class and a slot with a dot between.
#[tactic(auto, unfolding(crate::specs::Clauses::subject_clause))]
fn read_subject_clause(
    alloc: Global,
    event: &str,
    subject: &str,
) -> Result<Option<ClauseText>, AllocError>
    ensures { IfOk result (λ c. c ≡ subject_clause event.now subject.now) }
{
    if let Some(kind) = unit_change(event) {
        return read_unit_clause(alloc, kind, subject);
    }
    let Some((class, slot)) = split_dot(subject) else {
        return Ok(None);
    };
    read_slot_clause(alloc, event, class, slot)
}

#[tactic(auto, unfolding(crate::specs::Clauses::quiescence_clause))]
fn quiescence(event: &str) -> Option<ClauseText>
    ensures { result ≡ quiescence_clause event.now }
{
    if event == "quiescence" {
        return Some(ClauseText::Quiescence);
    }
    None
}

/// Returns the clause that the words after `when` spell. `None`: they do not spell a clause.
#[tactic(auto, unfolding(crate::specs::Clauses::clause_of))]
pub(crate) fn read_clause(alloc: Global, words: &[&str]) -> Result<Option<ClauseText>, AllocError>
    ensures { IfOk result (λ c. c ≡ clause_of (map (λ w. w.now) words.now)) }
{
    match words {
        [event] => Ok(quiescence(event)),
        [event, subject] => read_subject_clause(alloc, event, subject),
        [event, class, space] => read_space_clause(alloc, event, class, space),
        _ => Ok(None),
    }
}
