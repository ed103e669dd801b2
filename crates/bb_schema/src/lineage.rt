//! The descent of classes from classes, decided by their spans. A schema uses this, and the table of deleted classes
//! (struck.rt), which is made before the schema, does too.

ghost use Rattle.std.specs.Prelude.{◌≡◌, ◌≤◌, ◌↔◌, IsTrue, length};
ghost use Rattle.std.specs.List.{list_any};
ghost use Rattle.bb_schema_classes.specs.Inheritance.{Descends, descends_in};
ghost use Rattle.bb_schema_classes.specs.declared.read.classes.TheConstants.{CLASS_LIMIT};
ghost use Rattle.bb_schema.specs.Heirs.{related_in};
ghost use Rattle.bb_schema.specs.proving.Lineage.{IsLineage};

use bb_schema_classes::{Class, ClassId, Span, span_at};
use std::marker::Model;

/// Classes with their spans. Contracts see the classes.
#[derive(Drop)]
pub struct Lineage<'a> {
    classes: &'a [Class],
    spans: &'a [Span],
}

impl<'a> Model for Lineage<'a> {
    ghost use Rattle.std.specs.Prelude.{List};
    ghost use Rattle.bb_schema_classes.specs.declared.class.Class.{Class as OneClass};

    ghost Value = { List OneClass };

    ghost view = { λ l. l.classes.now };

    ghost use Rattle.bb_schema.specs.proving.Lineage.{IsLineage};

    ghost invariant = { λ l. IsLineage l.classes.now l.spans.now };
}

impl<'a> Lineage<'a> {
    pub fn new(classes: &'a [Class], spans: &'a [Span]) -> Lineage<'a>
        requires { IsLineage classes.now spans.now }
        ensures { result ≡ classes.now }
    {
        Lineage { classes, spans }
    }

    /// Returns the number of classes.
    pub fn count(&self) -> usize
        ensures count { result ≡ length self.now }
        ensures few { result ≤ CLASS_LIMIT }
    {
        self.classes.len()
    }

    /// Returns whether a class descends from another. A number without a class descends only from itself.
    pub fn descends(&self, class: ClassId, ancestor: ClassId) -> bool
        ensures computed { result ≡ descends_in self.now class ancestor }
        ensures least { IsTrue result ↔ Descends self.now class ancestor }
    {
        let Some(own) = span_at(self.spans, class) else {
            return class == ancestor;
        };
        match span_at(self.spans, ancestor) {
            None => false,
            Some(above) => above.holds(own),
        }
    }

    /// Returns whether two classes are related: one descends from the other.
    pub fn related(&self, class: ClassId, other: ClassId) -> bool
        ensures { result ≡ related_in self.now class other }
    {
        self.descends(class, other) || self.descends(other, class)
    }

    /// Returns whether a class is related to any of some others.
    pub fn related_to_any(&self, class: ClassId, others: &[ClassId]) -> bool
        ensures { result ≡ list_any (related_in self.now class) others.now }
    {
        others.iter().any(|other| self.related(class, *other))
    }
}
