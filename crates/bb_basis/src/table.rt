//! A list of named items, each found by its name. A schema keeps its classes, label sets and spaces in tables.

ghost use Rattle.std.specs.Prelude.{◌≡◌, ◌<◌, [], ◌∷◌, ◌++◌, false, length, map, position, slice_get, option_map, OnOk};
ghost use Rattle.std.specs.Prelude.{OnErr};
ghost use Rattle.std.specs.List.{list_any};
ghost use Rattle.std.specs.Str.{bytes_eq};
ghost use Rattle.bb_basis.specs.declared.table.TheConstants.{ITEM_LIMIT};

use crate::names::Names;
use crate::text::Text;
use std::alloc::{AllocError, Global};
use std::marker::Model;

/// The maximum number of items in a table.
pub const ITEM_LIMIT: usize = 65_536;

/// A named item.
pub trait Named: Drop {
    ghost use Rattle.std.specs.Prelude.{List, ℕ};

    ghost name_of: { Self → List ℕ };

    /// Returns the name.
    fn name(&self) -> &str
        ensures { result.now ≡ name_of self.now };
}

impl Named for Text {
    ghost name_of = { λ t. t };

    fn name(&self) -> &str {
        self.as_str()
    }
}

/// At most `ITEM_LIMIT` named items in insertion order, each found by its name without a scan.
#[derive(Drop)]
pub struct Table<T: Named> {
    items: Vec<T>,
    names: Names,
}

impl<T: Named> Model for Table<T> {
    ghost use Rattle.std.specs.Prelude.{List};

    ghost Value = { List T };

    ghost view = { λ t. t.items.items };

    ghost use Rattle.bb_basis.specs.proving.Tables.{IsTable};

    ghost invariant = { λ t. IsTable T.name_of t.items.items t.names };
}

impl<T: Named + PartialEq> PartialEq for Table<T> {
    ghost use Rattle.std.specs.Cmp.Lexicographic.{pointwise, lists_per};

    ghost eq = { pointwise T.eq };

    ghost laws = { lists_per T.PartialEq.laws };

    fn eq(&self, other: &Self) -> bool {
        self.items == other.items
    }
}

impl<T: Named> Table<T> {
    /// Returns an empty table. Allocates nothing.
    pub fn new(alloc: Global) -> Table<T>
        ensures { result ≡ [] }
    {
        Table {
            items: Vec::new(alloc),
            names: Names::new(alloc),
        }
    }

    /// Returns the number of items.
    pub fn len(&self) -> usize
        ensures { result ≡ length self.now }
    {
        self.items.len()
    }

    /// Returns the items.
    pub fn as_slice(&self) -> &[T]
        ensures { result.now ≡ self.now }
    {
        self.items.as_slice()
    }

    /// Returns the item at an index, if there is one.
    pub fn get(&self, index: usize) -> Option<&T>
        ensures { option_map (λ x. x.now) result ≡ slice_get self.now index }
    {
        self.items.get(index)
    }

    /// Returns the index of the first item with a name, if there is one.
    pub fn index_of(&self, name: &str) -> Option<u16>
        ensures { result ≡ position (bytes_eq name.now) (map T.name_of self.now) }
    {
        let index = self.names.index_of(name)?;
        Some(index as u16)
    }

    /// Returns whether an item has the name.
    pub fn contains(&self, name: &str) -> bool
        ensures { result ≡ list_any (bytes_eq name.now) (map T.name_of self.now) }
    {
        self.names.contains(name)
    }

    /// Appends an item whose name no other item has. On an error, nothing changes.
    pub fn push(&mut self, alloc: Global, item: T) -> Result<(), AllocError>
        requires room { length self.old < ITEM_LIMIT }
        requires fresh { list_any (bytes_eq (T.name_of item)) (map T.name_of self.old) ≡ false }
        ensures ok { OnOk result (self.new ≡ self.old ++ item ∷ []) }
        ensures err { OnErr result (self.new ≡ self.old) }
    {
        self.items.reserve(1)?;
        self.names.insert(alloc, item.name())?;
        self.items.push_reserved(item);
        Ok(())
    }
}
