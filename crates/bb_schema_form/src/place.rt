//! The location of a fault in a document: an entry of one of its lists. Faults of both documents have such locations.

ghost use Rattle.std.specs.Prelude.{◌≡◌};
ghost use Rattle.bb_schema_form.specs.Places.{inside_place, list_key};

use std::fmt;
use std::fmt::{Display, Formatter, Write};

/// A list of a document, named by its key.
#[derive(Clone, Copy, Debug, PartialEq, Eq)]
pub enum ListKey {
    /// The label sets of a schema.
    Labels,
    /// The labels of a set.
    Values,
    /// The classes of a schema, or the classes that a space admits.
    Classes,
    /// The ordinary slots of a class.
    Slots,
    /// The link slots of a class, or the links between initial units.
    Links,
    /// The spaces of a schema, or the memberships of initial units in spaces.
    Spaces,
    /// The dimensions of a space.
    Dims,
    /// The initial units.
    Units,
}

impl ListKey {
    /// Returns the key, as in documents.
    pub fn key(self) -> &'static str
        ensures { result.now ≡ list_key self }
    {
        match self {
            ListKey::Labels => "labels",
            ListKey::Values => "values",
            ListKey::Classes => "classes",
            ListKey::Slots => "slots",
            ListKey::Links => "links",
            ListKey::Spaces => "spaces",
            ListKey::Dims => "dims",
            ListKey::Units => "units",
        }
    }
}

/// An entry of a list. The index counts from 0.
#[derive(Clone, Copy, Debug, PartialEq, Eq)]
pub struct ListItem {
    pub list: ListKey,
    pub index: usize,
}

/// Where in a document a fault is.
#[derive(Clone, Copy, Debug, PartialEq, Eq)]
pub enum DocumentPlace {
    /// The document itself, not an entry of a list. While an entry is read, the entry itself.
    Whole,
    /// An entry, as `classes[3]`.
    Entry(ListItem),
    /// An entry of a list of an entry, as `classes[3].links[0]`.
    Inner(ListItem, ListItem),
}

impl DocumentPlace {
    /// Returns the location of an entry, seen from the value that lists the entry. Entries are nested at most two deep.
    pub fn inside(self, list: ListKey, index: usize) -> DocumentPlace
        ensures { result ≡ inside_place list index self }
    {
        let outer = ListItem { list, index };
        match self {
            DocumentPlace::Whole => DocumentPlace::Entry(outer),
            DocumentPlace::Entry(inner) => DocumentPlace::Inner(outer, inner),
            DocumentPlace::Inner(inner, _) => DocumentPlace::Inner(outer, inner),
        }
    }
}

impl Display for ListItem {
    fn fmt<W: Write>(&self, f: &mut Formatter<W>) -> fmt::Result {
        write!(f, "{}[{}]", self.list.key(), self.index)
    }
}

/// Writes the entry as a program would: `classes[3].links[0]`. Writes nothing for the document itself.
impl Display for DocumentPlace {
    fn fmt<W: Write>(&self, f: &mut Formatter<W>) -> fmt::Result {
        match self {
            DocumentPlace::Whole => Ok(()),
            DocumentPlace::Entry(entry) => write!(f, "{entry}"),
            DocumentPlace::Inner(entry, inner) => write!(f, "{entry}.{inner}"),
        }
    }
}
