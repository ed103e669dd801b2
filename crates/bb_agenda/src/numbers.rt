//! The numbers of pending activations of a source, one after another. The agenda returns them; a run (bb_run) walks
//! them when a source reacts to an event.

ghost use Rattle.std.specs.Prelude.{◌≡◌, map};
ghost use Rattle.bb_agenda.specs.proving.Places.{number_at};

use bb_schema::UnitId;
use std::collections::btree_set::Range;
use std::marker::Model;

/// The position of the number of an activation in an ordered set: after a unit and a source.
pub(crate) type Place = ((UnitId, u32), u64);

/// Numbers of pending activations, in ascending order.
#[derive(Drop)]
pub struct Numbers<'a> {
    places: Range<'a, Place>,
}

impl<'a> Model for Numbers<'a> {
    ghost use Rattle.std.specs.Prelude.{List, ℕ, map};
    ghost use Rattle.bb_agenda.specs.proving.Places.{number_at};

    ghost Value = { List ℕ };

    ghost view = { λ n. map number_at n.places };
}

impl<'a> Numbers<'a> {
    /// Returns the numbers at these positions.
    pub(crate) fn of(places: Range<'a, Place>) -> Numbers<'a>
        ensures { result ≡ map number_at places.entry }
    {
        Numbers { places }
    }
}

impl<'a> Iterator for Numbers<'a> {
    type Item = u64;

    ghost use Rattle.std.specs.Iterator.{YieldsFirst, item_count};

    ghost next_gives = { YieldsFirst (λ s. s) };

    ghost remaining = { item_count (λ s. s) };

    fn next(&mut self) -> Option<u64> {
        let (_, number) = self.places.next()?;
        Some(*number)
    }
}
