//! Sequences of units: `Find` and `Links` push one, and a loop iterates over it.

ghost use Rattle.std.specs.Prelude.{◌≡◌, drop};
ghost use Rattle.bb_machine.specs.Sequence.{whole, from_live, first_live as next_live};

use bb_board::Board;
use bb_schema::UnitId;
use std::marker::Model;

/// Units in order, and how many of them were passed.
#[derive(Drop)]
pub struct Sequence {
    units: Vec<UnitId>,
    passed: usize,
}

impl Model for Sequence {
    ghost use Rattle.std.specs.Prelude.{drop, length};
    ghost use Rattle.bb_machine.specs.Sequence.{Sequence as Rest};

    ghost Value = { Rest };

    ghost view = { λ s. record { rest = drop s.passed s.units.items; found = length s.units.items } };
}

impl Sequence {
    /// Returns a sequence with no unit passed yet.
    pub fn new(units: Vec<UnitId>) -> Sequence
        ensures { result ≡ whole units.items }
    {
        Sequence { units, passed: 0 }
    }

    /// Returns the number of all its units, passed or not.
    pub fn found(&self) -> usize
        ensures { result ≡ self.now.found }
    {
        self.units.len()
    }

    /// Returns the next live unit, if there is one, and continues after it.
    pub fn next(&mut self, board: &Board) -> Option<UnitId>
        ensures { (result, self.new) ≡ next_live board.now self.old }
    {
        self.passed = first_live(board, &self.units, self.passed);
        let unit = *self.units.get(self.passed)?;
        self.passed += 1;
        Some(unit)
    }
}

// The index of the first live unit at or after `start`, or the number of units.
#[tactic(auto, unfolding(crate::specs::Sequence::from_live))]
fn first_live(board: &Board, units: &[UnitId], start: usize) -> usize
    ensures { drop result units.now ≡ from_live board.now.world.units (drop start units.now) }
{
    let mut place = start;
    while place < units.len() && !board.live(units[place]) {
        place += 1;
    }
    place
}
