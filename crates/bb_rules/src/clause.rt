//! A clause of a source: the events it names. `Source` has clauses as its triggers.

ghost use Rattle.std.specs.Prelude.{◌≡◌};
ghost use Rattle.bb_rules.specs.Match.{matches};

use bb_board::{ChangeKind, Event};
use bb_schema::{ClassId, Schema};

/// The events that a clause of a source names: GBBopen's trigger events of a knowledge source.
#[derive(Clone, Copy, Debug, PartialEq, Eq)]
pub enum Clause {
    /// A change of this kind, to a unit whose class is this one or descends from it.
    Change { kind: ChangeKind, class: ClassId },
    /// No activation could be chosen.
    Quiescence,
}

impl Clause {
    /// Returns whether the clause names an event.
    pub fn matches(self, schema: &Schema, event: Event) -> bool
        ensures { result ≡ matches schema.now self event }
    {
        match (self, event) {
            (
                Clause::Change { kind, class },
                Event::Change {
                    class: of,
                    change,
                    ..
                },
            ) => kind == change.kind() && schema.descends(of, class),
            (Clause::Quiescence, Event::Quiescence) => true,
            _ => false,
        }
    }
}
