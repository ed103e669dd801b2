//! Label sets. A schema keeps them in a table, and defaults and dimensions refer to them.

ghost use Rattle.std.specs.Prelude.{◌≡◌, ◌<◌, [], ◌∷◌, ◌++◌, false, length, position, slice_get, option_map, OnOk, OnErr};
ghost use Rattle.std.specs.List.{list_any};
ghost use Rattle.std.specs.Str.{bytes_eq};

use bb_basis::{Named, Table, Text};
use std::alloc::{AllocError, Global};
use std::marker::Model;

/// The number of a label set, in document order.
pub type LabelSetId = u16;

/// The number of a label in its set.
pub type LabelId = u8;

/// The maximum number of labels of a set.
pub(crate) const LABEL_LIMIT: usize = 256;

/// The labels of a set, each found by its text.
#[derive(Drop)]
pub struct Labels {
    table: Table<Text>,
}

impl Model for Labels {
    ghost use Rattle.std.specs.Prelude.{List, ℕ, length, ◌≤◌};

    ghost Value = { List (List ℕ) };

    ghost view = { λ l. l.table };

    ghost use Rattle.bb_schema_classes.specs.declared.label_set.TheConstants.{LABEL_LIMIT};

    ghost invariant = { λ l. length l.table ≤ LABEL_LIMIT };
}

impl PartialEq for Labels {
    ghost use Rattle.std.specs.Prelude.{nat_eq};
    ghost use Rattle.std.specs.Cmp.{partial_equiv_from_equiv};
    ghost use Rattle.std.specs.Cmp.Lexicographic.{pointwise, lists_equiv, nat_list_eq_equiv};

    ghost eq = { pointwise (pointwise nat_eq) };

    ghost laws = { partial_equiv_from_equiv (lists_equiv nat_list_eq_equiv) };

    fn eq(&self, other: &Self) -> bool {
        self.table == other.table
    }
}

impl Labels {
    ghost use Rattle.bb_schema_classes.specs.declared.label_set.TheConstants.{LABEL_LIMIT};

    /// Returns an empty list of labels. Allocates nothing.
    pub(crate) fn new(alloc: Global) -> Labels
        ensures { result ≡ [] }
    {
        Labels {
            table: Table::new(alloc),
        }
    }

    /// Returns the number of labels.
    pub fn len(&self) -> usize
        ensures { result ≡ length self.now }
    {
        self.table.len()
    }

    /// Returns the label with a number, if there is one.
    pub fn get(&self, label: LabelId) -> Option<&str>
        ensures { option_map (λ t. t.now) result ≡ slice_get self.now label }
    {
        Some(self.table.get(label as usize)?.as_str())
    }

    /// Returns the number of a label, if the list has it.
    pub fn index_of(&self, label: &str) -> Option<LabelId>
        ensures { result ≡ position (bytes_eq label.now) self.now }
    {
        let index = self.table.index_of(label)?;
        Some(index as LabelId)
    }

    /// Returns whether the list has the label.
    pub(crate) fn contains(&self, label: &str) -> bool
        ensures { result ≡ list_any (bytes_eq label.now) self.now }
    {
        self.table.contains(label)
    }

    /// Appends a new label. On an error, nothing changes.
    pub(crate) fn push(&mut self, alloc: Global, label: Text) -> Result<(), AllocError>
        requires room { length self.old < LABEL_LIMIT }
        requires fresh { list_any (bytes_eq label) self.old ≡ false }
        ensures ok { OnOk result (self.new ≡ self.old ++ label ∷ []) }
        ensures err { OnErr result (self.new ≡ self.old) }
    {
        self.table.push(alloc, label)
    }
}

/// A set of labels.
#[derive(PartialEq, Drop)]
pub struct LabelSet {
    pub name: Text,
    pub values: Labels,
}

impl Named for LabelSet {
    ghost name_of = { λ s. s.name };

    fn name(&self) -> &str {
        self.name.as_str()
    }
}
