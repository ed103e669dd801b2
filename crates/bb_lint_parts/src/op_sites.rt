//! The locations, in the text of a part, of the ops that a search, a test of a unit, a `set` or a `link` compiles to.
//! Warnings and costs look up ops one by one.
//!
//! The compiler emits ops in the order of the text: each search is the query with its number, each `with .. as` begins
//! one test, and each `set` becomes one `Set`, each `link` one `Relink`. The locations of each sort therefore match its
//! ops in order. They are used only if the numbers of locations and ops are equal.

use crate::outline::PartOutline;
use crate::site::{Origin, Site};
use crate::spot::Spot;
use bb_basis::Memory;
use bb_code::{Code, LinkChange, Op, Place};
use std::alloc::Global;

/// Where the ops of a code are.
#[derive(Drop)]
pub struct OpSites<'a> {
    // The text, and the word of the part, if the code was compiled from a text.
    part: Option<(Origin<'a>, Spot)>,
    // The location of each op in the text, if known.
    spots: Vec<Option<Spot>>,
}

// The number of tests, `Set`s and links made among the ops so far.
#[derive(Clone, Copy)]
struct Passed {
    tests: usize,
    sets: usize,
    links: usize,
    is_alive: bool,
}

impl Passed {
    fn none() -> Passed {
        Passed {
            tests: 0,
            sets: 0,
            links: 0,
            is_alive: false,
        }
    }

    // Takes an op. A test is an `Alive`, an `As`, or an `Alive` directly followed by an `As`.
    fn step(&mut self, op: Op) {
        match op {
            Op::Alive(_) => self.tests = self.tests.saturating_add(1),
            Op::As(_, _) if !self.is_alive => self.tests = self.tests.saturating_add(1),
            Op::Set(_) => self.sets = self.sets.saturating_add(1),
            Op::Relink(LinkChange::Link, _) => self.links = self.links.saturating_add(1),
            _ => {}
        }
        self.is_alive = matches!(op, Op::Alive(_));
    }

    // Counts those among all of the ops.
    fn over(ops: &[Op]) -> Passed {
        let mut passed = Passed::none();
        for op in ops {
            passed.step(*op);
        }
        passed
    }
}

// Returns the locations if there are `count` of them, else none.
fn if_all(spots: &[Spot], count: usize) -> &[Spot] {
    if spots.len() == count { spots } else { &[] }
}

// Returns the location of the last of the first `count`.
fn last_of(spots: &[Spot], count: usize) -> Option<Spot> {
    spots.get(count.checked_sub(1)?).copied()
}

// Returns the location of every op of a code in the text of its part, if known.
fn spots_of(
    alloc: Global,
    part: &PartOutline<'_>,
    code: &Code,
) -> Result<Vec<Option<Spot>>, Memory> {
    let all = Passed::over(code.ops());
    let finds = if_all(part.finds.as_slice(), code.queries().len());
    let tests = if_all(part.tests.as_slice(), all.tests);
    let sets = if_all(part.sets.as_slice(), all.sets);
    let links = if_all(part.links.as_slice(), all.links);
    let mut spots = Vec::new(alloc);
    let mut passed = Passed::none();
    for op in code.ops() {
        passed.step(*op);
        let spot = match *op {
            Op::Find(query) => finds.get(query as usize).copied(),
            Op::Alive(_) | Op::As(_, _) => last_of(tests, passed.tests),
            Op::Set(_) => last_of(sets, passed.sets),
            Op::Relink(LinkChange::Link, _) => last_of(links, passed.links),
            _ => None,
        };
        spots.push(spot)?;
    }
    Ok(spots)
}

impl<'a> OpSites<'a> {
    /// Makes the sites of a code that came as bytecode.
    pub(crate) fn of_bytecode(alloc: Global) -> OpSites<'a> {
        OpSites {
            part: None,
            spots: Vec::new(alloc),
        }
    }

    /// Makes the sites of the code of a part with a text.
    pub(crate) fn of_text(
        alloc: Global,
        origin: Origin<'a>,
        part: &PartOutline<'_>,
        code: &Code,
    ) -> Result<OpSites<'a>, Memory> {
        Ok(OpSites {
            part: Some((origin, part.spot)),
            spots: spots_of(alloc, part, code)?,
        })
    }

    /// Returns the site of an op: the statement that makes it, if known, else its part.
    pub fn at(&self, place: Place, op: Op) -> Site<'a> {
        match self.part {
            None => Site::Op { place, op },
            Some((origin, word)) => {
                let spot = self.spots.get(place as usize).copied().flatten();
                Site::Text {
                    origin,
                    spot: spot.unwrap_or(word),
                }
            }
        }
    }

    /// Returns the site of the part.
    pub fn part(&self) -> Site<'a> {
        match self.part {
            None => Site::Bytecode,
            Some((origin, spot)) => Site::Text { origin, spot },
        }
    }
}
