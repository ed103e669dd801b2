//! The record of a source's text: the locations of its clauses and parts and, in every part, the pieces that make the
//! ops that advice mentions. The walk (outlining.rt) makes outlines, and sites are read from them.

use crate::spot::Spot;
use bb_rules::ClauseList;
use std::alloc::Global;

/// Where the pieces of a source are.
#[derive(Drop)]
pub(crate) struct Outline<'a> {
    /// The word `rate` of its head.
    pub(crate) rate: Option<Spot>,
    triggers: Vec<Spot>,
    obviating: Vec<Spot>,
    retriggering: Vec<Spot>,
    pub(crate) parts: Vec<PartOutline<'a>>,
}

/// Where the pieces of a part are.
#[derive(Drop)]
pub(crate) struct PartOutline<'a> {
    /// The word of the part, and its location.
    pub(crate) word: &'a str,
    pub(crate) spot: Spot,
    /// Each `find`, in the order of the searches: one inside a test of another comes before that one.
    pub(crate) finds: Vec<Spot>,
    /// The unit of each `with n = u as C`.
    pub(crate) tests: Vec<Spot>,
    /// The value of each `set`.
    pub(crate) sets: Vec<Spot>,
    /// Each `link`.
    pub(crate) links: Vec<Spot>,
}

impl<'a> Outline<'a> {
    /// Makes the outline of a source with nothing recorded yet.
    pub(crate) fn new(alloc: Global) -> Outline<'a> {
        Outline {
            rate: None,
            triggers: Vec::new(alloc),
            obviating: Vec::new(alloc),
            retriggering: Vec::new(alloc),
            parts: Vec::new(alloc),
        }
    }

    /// Returns the start locations of the clauses of a list.
    pub(crate) fn clauses(&self, list: ClauseList) -> &[Spot] {
        match list {
            ClauseList::Triggers => self.triggers.as_slice(),
            ClauseList::Obviate => self.obviating.as_slice(),
            ClauseList::Retrigger => self.retriggering.as_slice(),
        }
    }

    /// Returns the same list as `clauses`, to add to it.
    pub(crate) fn clauses_mut(&mut self, list: ClauseList) -> &mut Vec<Spot> {
        match list {
            ClauseList::Triggers => &mut self.triggers,
            ClauseList::Obviate => &mut self.obviating,
            ClauseList::Retrigger => &mut self.retriggering,
        }
    }

    /// Returns the part with a word, if the source has it.
    pub(crate) fn part(&self, word: &str) -> Option<&PartOutline<'a>> {
        self.parts.iter().find(|part| part.word == word)
    }
}

impl<'a> PartOutline<'a> {
    /// Makes the outline of a part that begins with a word.
    pub(crate) fn new(alloc: Global, word: &'a str, spot: Spot) -> PartOutline<'a> {
        PartOutline {
            word,
            spot,
            finds: Vec::new(alloc),
            tests: Vec::new(alloc),
            sets: Vec::new(alloc),
            links: Vec::new(alloc),
        }
    }
}
