//! Lists of clauses, with an index by the kind of an event. The triggers of a source and the clauses of a reaction are
//! `Clauses`.

ghost use Rattle.std.specs.Prelude.{◌≡◌, ◌∷◌, ◌++◌, [], IfOk};
ghost use Rattle.std.specs.List.{list_any};
ghost use Rattle.bb_schema.specs.Schema.{descends};
ghost use Rattle.bb_rules.specs.Match.{any_match};
ghost use Rattle.bb_rules.specs.KindIndex.{ids_for};

use crate::clause::Clause;
use crate::kind_index::KindIndex;
use bb_basis::Items;
use bb_board::{ChangeKind, Event};
use bb_schema::{ClassId, Schema};
use std::alloc::{AllocError, Global};
use std::marker::Model;

/// Clauses in order. Whether one of them names an event is looked up by the event's kind, among the classes that
/// clauses of that kind name, regardless of the number of clauses.
pub struct Clauses {
    list: Items<Clause>,
    // The classes that the clauses name, by kind.
    index: KindIndex,
    // Whether one of the clauses is `Quiescence`.
    quiescence: bool,
}

// Written by hand, so that a proof meets one call when it is dropped, not each of its parts.
impl Drop for Clauses {
    fn drop(self) {
        let Clauses {
            list: _,
            index: _,
            quiescence: _,
        } = self;
    }
}

impl Model for Clauses {
    ghost use Rattle.std.specs.Prelude.{List};
    ghost use Rattle.bb_rules.specs.declared.clause.Clause.{Clause as Named};
    ghost use Rattle.bb_rules.specs.proving.Index.{IsIndex};

    ghost Value = { List Named };

    ghost view = { λ c. c.list };

    ghost invariant = { λ c. IsIndex c.list c.index c.quiescence };
}

impl Clauses {
    /// Creates an empty list. Allocates nothing.
    pub(crate) fn new(alloc: Global) -> Clauses
        ensures { result ≡ [] }
    {
        Clauses {
            list: Items::new(alloc),
            index: KindIndex::new(alloc),
            quiescence: false,
        }
    }

    /// Returns the clauses, in order.
    pub fn as_slice(&self) -> &[Clause]
        ensures { result.now ≡ self.now }
    {
        self.list.as_slice()
    }

    /// Appends a clause.
    pub(crate) fn and(self, clause: Clause) -> Result<Clauses, AllocError>
        ensures { IfOk result (λ clauses. clauses ≡ self ++ clause ∷ []) }
    {
        let Clauses {
            mut list,
            mut index,
            quiescence,
        } = self;
        let quiescence = match clause {
            Clause::Change { kind, class } => {
                index.add(kind, class)?;
                quiescence
            }
            Clause::Quiescence => true,
        };
        list.push(clause)?;
        Ok(Clauses {
            list,
            index,
            quiescence,
        })
    }

    /// Returns whether one of the clauses names an event.
    pub fn match_any(&self, schema: &Schema, event: Event) -> bool
        ensures { result ≡ any_match schema.now self.now event }
    {
        match event {
            Event::Change { class, change, .. } => {
                descends_from_named(schema, class, &self.index, change.kind())
            }
            Event::Quiescence => self.quiescence,
        }
    }
}

// Returns whether a class descends from one that the index has for a kind.
fn descends_from_named(schema: &Schema, class: ClassId, index: &KindIndex, kind: ChangeKind) -> bool
    ensures { result ≡ list_any (λ d. descends schema.now class d) (ids_for index.now kind) }
{
    match index.at(kind) {
        None => false,
        Some(classes) => descends_from_one(schema, class, classes.as_slice()),
    }
}

// Returns whether a class descends from one of these, at most 256. This takes two comparisons for each, however deep
// the class is.
fn descends_from_one(schema: &Schema, class: ClassId, named: &[ClassId]) -> bool
    ensures { result ≡ list_any (λ d. descends schema.now class d) named.now }
{
    named.iter().any(|one| schema.descends(class, *one))
}
