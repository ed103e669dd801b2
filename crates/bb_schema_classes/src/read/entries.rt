//! The class entries of a document and the slots that each declares, found by name. The reader of links looks up a
//! link's target class, and the link's inverse in that class.

ghost use Rattle.std.specs.Prelude.{◌≡◌, map, slice_get, option_map, option_and_then, IfOk};
ghost use Rattle.bb_schema_form.specs.Document.{class_declaration, link_declaration};
ghost use Rattle.bb_schema_classes.specs.LinkReading.{first_named, link_entry};

use crate::read::index::{first_places, indexed_place, is_indexed};
use bb_schema_form::{ClassEntry, LinkEntry};
use std::alloc::{AllocError, Global};
use std::collections::BTreeMap;
use std::marker::Model;

/// A class entry, with its slots and links found by name without a scan. If a name is declared twice, the first
/// declaration counts.
pub(crate) struct ClassIndex<'a> {
    entry: &'a ClassEntry,
    // The index of the first slot with each name.
    slots: BTreeMap<&'a str, usize>,
    // The index of the first link with each name.
    links: BTreeMap<&'a str, usize>,
}

impl<'a> Model for ClassIndex<'a> {
    ghost use Rattle.bb_schema_form.specs.Document.{ClassDeclaration, class_declaration};

    ghost Value = { ClassDeclaration };

    ghost view = { λ c. class_declaration c.entry.now };

    ghost use Rattle.bb_schema_classes.specs.proving.Entries.{IsClassIndex};

    ghost invariant = { λ c. IsClassIndex c.slots c.links (class_declaration c.entry.now) };
}

// By hand, so that proofs see a drop as one call, not one per part.
impl<'a> Drop for ClassIndex<'a> {
    fn drop(self) {
        let ClassIndex {
            entry: _,
            slots: _,
            links: _,
        } = self;
    }
}

fn link_at(links: &[LinkEntry], place: Option<usize>) -> Option<&LinkEntry>
    ensures { option_map (λ e. e.now) result ≡ option_and_then (slice_get links.now) place }
{
    links.get(place?)
}

impl<'a> ClassIndex<'a> {
    fn of(alloc: Global, entry: &'a ClassEntry) -> Result<ClassIndex<'a>, AllocError>
        ensures { IfOk result (λ class. class ≡ class_declaration entry.now) }
    {
        let slots = first_places(alloc, &entry.slots)?;
        let links = first_places(alloc, &entry.links)?;
        Ok(ClassIndex {
            entry,
            slots,
            links,
        })
    }

    /// Returns the link slot with a name that the class itself declares. `None` if an ordinary slot of the class has
    /// the name.
    pub(crate) fn link(&self, name: &str) -> Option<&'a LinkEntry>
        ensures { option_map (λ e. link_declaration e.now) result ≡ link_entry self.now name.now }
    {
        if is_indexed(&self.slots, name) {
            return None;
        }
        link_at(&self.entry.links, indexed_place(&self.links, name))
    }
}

/// The class entries of a document, each found by its name without a scan. If a name is declared twice, the first
/// declaration counts.
pub(crate) struct Entries<'a> {
    classes: Vec<ClassIndex<'a>>,
    // The index of the first class with each name.
    places: BTreeMap<&'a str, usize>,
}

impl<'a> Model for Entries<'a> {
    ghost use Rattle.std.specs.Prelude.{List, map};
    ghost use Rattle.bb_schema_form.specs.Document.{ClassDeclaration};

    ghost Value = { List ClassDeclaration };

    ghost view = { λ e. e.classes.items };

    ghost use Rattle.bb_schema_classes.specs.proving.Entries.{IsIndex};

    ghost invariant = { λ e. IsIndex e.places (map (λ c. c.name) e.classes.items) };
}

// By hand, for the reason of `ClassIndex`.
impl<'a> Drop for Entries<'a> {
    fn drop(self) {
        let Entries {
            classes: _,
            places: _,
        } = self;
    }
}

fn class_indexes<'a>(
    alloc: Global,
    entries: &'a [ClassEntry],
) -> Result<Vec<ClassIndex<'a>>, AllocError>
    ensures { IfOk result (λ classes. classes.items ≡ map class_declaration entries.now) }
{
    let mut classes = Vec::new(alloc);
    for entry in entries {
        classes.push(ClassIndex::of(alloc, entry)?)?;
    }
    Ok(classes)
}

fn class_at<'b, 'a>(
    classes: &'b [ClassIndex<'a>],
    place: Option<usize>,
) -> Option<&'b ClassIndex<'a>>
    ensures { option_map (λ c. c.now) result ≡ option_and_then (slice_get classes.now) place }
{
    classes.get(place?)
}

impl<'a> Entries<'a> {
    pub(crate) fn new(alloc: Global, entries: &'a [ClassEntry]) -> Result<Entries<'a>, AllocError>
        ensures { IfOk result (λ all. all ≡ map class_declaration entries.now) }
    {
        let places = first_places(alloc, entries)?;
        let classes = class_indexes(alloc, entries)?;
        Ok(Entries { classes, places })
    }

    /// Returns the first class with a name, if there is one.
    pub(crate) fn named(&self, name: &str) -> Option<&ClassIndex<'a>>
        ensures { option_map (λ c. c.now) result ≡ first_named (λ c. c.name) name.now self.now }
    {
        class_at(&self.classes, indexed_place(&self.places, name))
    }
}
