//! The walk over the tokens of an accepted source, which records the locations of its pieces. `Texts` calls `outline`.
//!
//! Reserved words are names only after a `.`; everywhere else a reserved word therefore shows what it begins.

use crate::outline::{Outline, PartOutline};
use crate::spot::Spot;
use bb_basis::Memory;
use bb_diag_text::{ListedSource, Token};
use bb_rules::ClauseList;
use std::alloc::Global;

// How much of a `set` was read.
#[derive(Clone, Copy, Debug, PartialEq, Eq)]
enum Setting {
    No,
    // Its word was read.
    Begun,
    // Its `=` was read, and the value is next.
    Due,
}

// The state of the walk.
#[derive(Drop)]
struct Walk<'a> {
    alloc: Global,
    outline: Outline<'a>,
    // The list that clauses belong to here.
    list: ClauseList,
    // The number of open braces.
    depth: usize,
    // For each open round or square bracket, the `find` that begins in it.
    brackets: Vec<Option<Spot>>,
    // The `find` of a `for`, until the block begins.
    looped: Option<Spot>,
    setting: Setting,
    before: Token<'a>,
}

/// Returns the locations of the pieces of a source.
pub(crate) fn outline<'a>(alloc: Global, source: &ListedSource<'a>) -> Result<Outline<'a>, Memory> {
    let mut walk = Walk {
        alloc,
        outline: Outline::new(alloc),
        list: ClauseList::Triggers,
        depth: 0,
        brackets: Vec::new(alloc),
        looped: None,
        setting: Setting::No,
        before: source.name,
    };
    let mut behind = source.behind;
    for _turn in 0..behind.left() {
        let Some(token) = behind.take() else {
            break;
        };
        walk.step(token)?;
        walk.before = token;
    }
    Ok(walk.outline)
}

impl<'a> Walk<'a> {
    // Takes a token.
    fn step(&mut self, token: Token<'a>) -> Result<(), Memory> {
        if self.before.is(".") {
            return Ok(());
        }
        if self.setting == Setting::Due {
            self.setting = Setting::No;
            self.note_set(Spot::of(token))?;
        }
        match token.text {
            "{" | "}" | "(" | "[" | ")" | "]" => self.bracket(token),
            "=" if self.setting == Setting::Begun => {
                self.setting = Setting::Due;
                Ok(())
            }
            _ if self.depth == 1 => self.outer_word(token),
            _ => self.inner_word(token),
        }
    }

    // Takes a bracket. A search is made where it ends: before the block of its `for`, or at the end of its `size(..)`.
    fn bracket(&mut self, token: Token<'a>) -> Result<(), Memory> {
        match token.text {
            "{" => {
                self.depth = self.depth.saturating_add(1);
                let looped = self.looped.take();
                self.note_find(looped)
            }
            "}" => {
                self.depth = self.depth.saturating_sub(1);
                Ok(())
            }
            "(" | "[" => {
                self.brackets.push(None)?;
                Ok(())
            }
            _ => {
                let closed = self.brackets.pop().flatten();
                self.note_find(closed)
            }
        }
    }

    // Takes a word between the parts of the source.
    fn outer_word(&mut self, token: Token<'a>) -> Result<(), Memory> {
        let spot = Spot::of(token);
        match token.text {
            "when" => {
                self.outline.clauses_mut(self.list).push(spot)?;
                Ok(())
            }
            "rate" => {
                self.outline.rate = Some(spot);
                Ok(())
            }
            "require" | "revalidate" | "do" => self.begin_part(token),
            "obviate" => {
                self.list = ClauseList::Obviate;
                self.begin_part(token)
            }
            "retrigger" => {
                self.list = ClauseList::Retrigger;
                self.begin_part(token)
            }
            _ => Ok(()),
        }
    }

    fn begin_part(&mut self, token: Token<'a>) -> Result<(), Memory> {
        let part = PartOutline::new(self.alloc, token.text, Spot::of(token));
        self.outline.parts.push(part)?;
        Ok(())
    }

    // Takes a word of a part.
    fn inner_word(&mut self, token: Token<'a>) -> Result<(), Memory> {
        match token.text {
            "find" => self.begin_find(Spot::of(token)),
            "as" => self.note_test(Spot::of(self.before)),
            "set" => {
                self.setting = Setting::Begun;
                Ok(())
            }
            "link" => self.note_link(Spot::of(token)),
            _ => Ok(()),
        }
    }

    // Begins a search: one in a bracket belongs to a `size`.
    fn begin_find(&mut self, spot: Spot) -> Result<(), Memory> {
        if !self.before.is("(") {
            self.looped = Some(spot);
            return Ok(());
        }
        if let Some(bracket) = self.brackets.last_mut() {
            *bracket = Some(spot);
        }
        Ok(())
    }

    // Records a search that was made.
    fn note_find(&mut self, spot: Option<Spot>) -> Result<(), Memory> {
        if let (Some(part), Some(spot)) = (self.outline.parts.last_mut(), spot) {
            part.finds.push(spot)?;
        }
        Ok(())
    }

    // Records the unit of a test.
    fn note_test(&mut self, spot: Spot) -> Result<(), Memory> {
        if let Some(part) = self.outline.parts.last_mut() {
            part.tests.push(spot)?;
        }
        Ok(())
    }

    // Records the value of a `set`.
    fn note_set(&mut self, spot: Spot) -> Result<(), Memory> {
        if let Some(part) = self.outline.parts.last_mut() {
            part.sets.push(spot)?;
        }
        Ok(())
    }

    // Records a `link`.
    fn note_link(&mut self, spot: Spot) -> Result<(), Memory> {
        if let Some(part) = self.outline.parts.last_mut() {
            part.links.push(spot)?;
        }
        Ok(())
    }
}
