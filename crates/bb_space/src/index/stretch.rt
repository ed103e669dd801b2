//! Ranges of an index that tests search for candidates. `near.rt`, `pair.rt` and `thin.rt` visit their keys.

ghost use Rattle.std.specs.Prelude.{◌≡◌, ◌<◌, ◌^◌, length};
ghost use Rattle.std.specs.List.Sorted.{IsStrictlySortedBy};
ghost use Rattle.std.specs.Map.Iter.{ShowsInOrder, deref};
ghost use Rattle.bb_space.specs.declared.index.place.Place.{Place as At};
ghost use Rattle.bb_space.specs.index.proving.Places.{place_cmp};
ghost use Rattle.bb_space.specs.index.proving.Stretches.{spot, intervals, stretch_of, turned, turned_of, has_one_key, beside, all_beside, places_in};

use crate::index::leaf::Leaf;
use crate::index::place::Place;
use bb_pattern::Relation;
use std::collections::BTreeSet;
use std::collections::btree_set::Range;

/// A range of an index: the keys from its first up to its end, excluded. It is empty if the end comes before the first,
/// as for a `Within` test of a reversed interval.
#[derive(Clone, Copy)]
pub(crate) struct Stretch {
    pub(crate) first: Place,
    pub(crate) end: Place,
}

/// Makes an index key that no value has: before the values of a sort and key if the edge is 0, after them if it is 2.
pub(crate) fn spot(dim: usize, sort: u32, key: i64, edge: u8) -> Place
    ensures { result ≡ spot dim sort key edge }
{
    Place {
        dim,
        sort,
        key,
        edge,
        next_sort: 0,
        next_key: 0,
        next_edge: 0,
        unit: 0,
    }
}

// The range of the intervals that can be in a relation to `[low, high]`.
fn intervals(relation: Relation, dim: usize, low: i64, high: i64) -> Stretch
    ensures { result ≡ intervals relation dim low high }
{
    // Before all values of the dimension, and after its intervals.
    let begin = spot(dim, 0, 0, 0);
    let after = spot(dim, 2, 0, 0);
    let (first, end) = match relation {
        Relation::Within => (spot(dim, 1, low, 0), spot(dim, 1, high, 2)),
        Relation::Covers => (begin, spot(dim, 1, low, 2)),
        Relation::Overlaps => (begin, spot(dim, 1, high, 2)),
        Relation::Less => (begin, spot(dim, 1, low, 0)),
        Relation::More => (spot(dim, 1, high, 2), after),
    };
    Stretch { first, end }
}

// Among the values of the pin's sort and key, the place that corresponds to a place of the next dimension.
fn beside(pin: Place, next: Place) -> Place
    ensures { result ≡ beside pin next }
{
    Place {
        dim: pin.dim,
        sort: pin.sort,
        key: pin.key,
        edge: 1,
        next_sort: next.sort,
        next_key: next.key,
        next_edge: next.edge,
        unit: 0,
    }
}

impl Stretch {
    /// Returns the range of the values that can pass a test, except reversed intervals.
    pub(crate) fn of(leaf: &Leaf) -> Stretch
        ensures { result ≡ stretch_of leaf.now }
    {
        match *leaf {
            Leaf::Ordered {
                relation,
                dim,
                low,
                high,
            } => intervals(relation, dim as usize, low, high),
            Leaf::Is { dim, set, label } => {
                let dim = dim as usize;
                let sort = 4 + u32::from(set);
                let key = i64::from(label);
                Stretch {
                    first: spot(dim, sort, key, 0),
                    end: spot(dim, sort, key, 2),
                }
            }
        }
    }

    /// Returns the range of the reversed intervals of a dimension.
    pub(crate) fn turned(dim: usize) -> Stretch
        ensures { result ≡ turned dim }
    {
        Stretch {
            first: spot(dim, 2, 0, 0),
            end: spot(dim, 3, 0, 0),
        }
    }

    /// Returns the range of the reversed intervals, if they can pass a test: one of an ordered dimension.
    pub(crate) fn turned_of(leaf: &Leaf) -> Option<Stretch>
        ensures { result ≡ turned_of leaf.now }
    {
        match *leaf {
            Leaf::Ordered { dim, .. } => Some(Stretch::turned(dim as usize)),
            Leaf::Is { .. } => None,
        }
    }

    /// Returns whether all its values have one sort and key.
    pub(crate) fn has_one_key(self) -> bool
        ensures { result ≡ has_one_key self }
    {
        self.first.sort == self.end.sort && self.first.key == self.end.key
    }

    /// Returns the range, among the values of the pin's sort and key, of those whose units have a value in this range
    /// on the next dimension.
    pub(crate) fn beside(self, pin: Place) -> Stretch
        ensures { result ≡ all_beside pin self }
    {
        Stretch {
            first: beside(pin, self.first),
            end: beside(pin, self.end),
        }
    }

    /// Returns its keys, in order.
    pub(crate) fn places(self, index: &BTreeSet<Place>) -> Range<'_, Place>
        ensures stand { result ≡ places_in self index.now }
        ensures ordered { IsStrictlySortedBy place_cmp index.now.keys }
        ensures runs { ShowsInOrder (deref {X = At}) }
        ensures fits { length result < 2 ^ 63 }
    {
        if self.end < self.first {
            return index.range(self.first..self.first);
        }
        index.range(self.first..self.end)
    }
}
