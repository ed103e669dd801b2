//! Indexes of named entries, which find an entry without a scan. `entries.rt` keeps them, and bb_schema makes one of
//! the slots of a schema.

ghost use Rattle.std.specs.Prelude.{◌≡◌, ℕ, List, ◌∷◌, [], ◌++◌, length, map, is_some, IfOk, OnOk};
ghost use Rattle.bb_schema_classes.specs.proving.Entries.{indexed_place, IsIndex};

use bb_schema_form::{ClassEntry, LinkEntry, SlotEntry};
use std::alloc::{AllocError, Global};
use std::collections::BTreeMap;

/// An entry that has a name.
pub trait NamedEntry {
    ghost use Rattle.std.specs.Prelude.{List, ℕ};

    ghost name_of: { Self → List ℕ };

    /// Returns the name.
    fn name(&self) -> &str
        ensures { result.now ≡ name_of self.now };
}

impl NamedEntry for ClassEntry {
    ghost use Rattle.std.specs.Prelude.{string_bytes};

    ghost name_of = { λ e. string_bytes e.name };

    fn name(&self) -> &str {
        self.name.as_str()
    }
}

impl NamedEntry for SlotEntry {
    ghost use Rattle.std.specs.Prelude.{string_bytes};

    ghost name_of = { λ e. string_bytes e.name };

    fn name(&self) -> &str {
        self.name.as_str()
    }
}

impl NamedEntry for LinkEntry {
    ghost use Rattle.std.specs.Prelude.{string_bytes};

    ghost name_of = { λ e. string_bytes e.name };

    fn name(&self) -> &str {
        self.name.as_str()
    }
}

// Adds the place of a name, unless the index has an earlier place of that name.
fn keep_first<'a>(
    places: &mut BTreeMap<&'a str, usize>,
    name: &'a str,
    place: usize,
) -> Result<(), AllocError>
    ensures { OnOk result ((texts : List (List ℕ)) → place ≡ length texts →
        IsIndex places.old texts → IsIndex places.new (texts ++ name.now ∷ [])) }
{
    if places.contains_key(name) {
        return Ok(());
    }
    places.insert(name, place)?;
    Ok(())
}

/// Returns the index of the first entry with each name. The map is ordered by name instead of hashed, so that no choice
/// of names makes it slow.
pub fn first_places<'a, T: NamedEntry>(
    alloc: Global,
    entries: &'a [T],
) -> Result<BTreeMap<&'a str, usize>, AllocError>
    ensures { IfOk result (λ places. IsIndex places (map T.name_of entries.now)) }
{
    let mut places = BTreeMap::new(alloc);
    for (place, entry) in entries.iter().enumerate() {
        keep_first(&mut places, entry.name(), place)?;
    }
    Ok(places)
}

/// Returns the index of the first entry with a name, if there is one.
pub fn indexed_place(places: &BTreeMap<&str, usize>, name: &str) -> Option<usize>
    ensures { result ≡ indexed_place places.now name.now }
{
    places.get(name).copied()
}

/// Returns whether an entry has the name.
pub(crate) fn is_indexed(places: &BTreeMap<&str, usize>, name: &str) -> bool
    ensures { result ≡ is_some (indexed_place places.now name.now) }
{
    places.contains_key(name)
}
