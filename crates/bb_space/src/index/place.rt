//! The key of a value in the index of a space. `index.rt` keeps the keys of all members in order.

ghost use Rattle.std.specs.Prelude.{◌≡◌, ◌<◌, true, length, slice_get};
ghost use Rattle.bb_space.specs.index.proving.Places.{sort_of, key_of, next_of, place_of, is_at};

use bb_pattern::DimValue;
use bb_schema::UnitId;

/// The index key of a unit's value on a dimension. The index keys of a dimension are adjacent: first intervals, by low
/// end, then reversed intervals (high end below the low end), then labels, by set. Index keys with the same low end or
/// label are ordered by their units' values on the next dimension.
#[derive(Clone, Copy, PartialEq, Eq, PartialOrd, Ord)]
pub struct Place {
    pub dim: usize,
    /// 1 for an interval, 2 for a reversed interval, 4 plus the number of its set for a label.
    pub sort: u32,
    /// The low end or the label; 0 for a reversed interval.
    pub key: i64,
    /// 1 for every value, so that 0 comes before all values of a sort and key, and 2 after them.
    pub edge: u8,
    /// The sort of the value on the next dimension. This, `next_key` and `next_edge` are 0 if no such value exists.
    pub next_sort: u32,
    pub next_key: i64,
    pub next_edge: u8,
    pub unit: UnitId,
}

// The position of values of a kind among the values of a dimension.
fn sort_of(value: DimValue) -> u32
    ensures { result ≡ sort_of value }
{
    match value {
        DimValue::Interval(low, high) if low <= high => 1,
        DimValue::Interval(_, _) => 2,
        DimValue::Label(set, _) => 4 + u32::from(set),
    }
}

// The position of a value among values of its kind.
fn key_of(value: DimValue) -> i64
    ensures { result ≡ key_of value }
{
    match value {
        DimValue::Interval(low, high) if low <= high => low,
        DimValue::Interval(_, _) => 0,
        DimValue::Label(_, label) => i64::from(label),
    }
}

/// Returns the value on the dimension after `dim`, or the value on the first dimension if `dim` is the last.
pub(crate) fn next_of(values: &[DimValue], dim: usize) -> Option<DimValue>
    requires { dim < length values.now }
    ensures { result ≡ next_of values.now dim }
{
    if let Some(next) = values.get(dim + 1) {
        return Some(*next);
    }
    Some(*values.first()?)
}

// Whether two values are the same.
fn are_same(value: DimValue, other: DimValue) -> bool
    ensures { result ≡ true → value ≡ other }
{
    match (value, other) {
        (DimValue::Interval(low, high), DimValue::Interval(from, to)) => low == from && high == to,
        (DimValue::Label(set, label), DimValue::Label(of, other)) => set == of && label == other,
        _ => false,
    }
}

// Whether two values exist and are the same.
fn are_there(value: Option<DimValue>, other: Option<DimValue>) -> bool
    ensures { result ≡ true → value ≡ other }
{
    match (value, other) {
        (Some(value), Some(other)) => are_same(value, other),
        _ => false,
    }
}

/// Returns whether other values are the same on a dimension and on the next one, so that one of them has the same index
/// key as the value. This is faster than comparing index keys, but `false` doesn't mean that the index keys differ.
pub(crate) fn stays(values: &[DimValue], dim: usize, others: &[DimValue]) -> bool
    requires { dim < length values.now }
    ensures { result ≡ true → (slice_get others.now dim ≡ slice_get values.now dim)
        × (next_of others.now dim ≡ next_of values.now dim) }
{
    let Some(other) = others.get(dim) else {
        return false;
    };
    are_same(*other, values[dim]) && are_there(next_of(others, dim), next_of(values, dim))
}

impl Place {
    /// Makes the index key of a unit's value on a dimension, given its value on the next one.
    pub(crate) fn of(dim: usize, value: DimValue, next: Option<DimValue>, unit: UnitId) -> Place
        ensures { result ≡ place_of dim unit value next }
    {
        let (next_sort, next_key, next_edge) = match next {
            None => (0, 0, 0),
            Some(next) => (sort_of(next), key_of(next), 1),
        };
        Place {
            dim,
            sort: sort_of(value),
            key: key_of(value),
            edge: 1,
            next_sort,
            next_key,
            next_edge,
            unit,
        }
    }

    /// Returns whether this is the index key of one of these values, one for each dimension in order.
    pub(crate) fn is_of(&self, values: &[DimValue]) -> bool
        ensures { result ≡ is_at values.now self.now }
    {
        let Some(value) = values.get(self.dim) else {
            return false;
        };
        Place::of(self.dim, *value, next_of(values, self.dim), self.unit) == *self
    }
}
