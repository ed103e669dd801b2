//! A parsed source: its names are texts, not looked up yet. `parse` of bb_lang makes it.

use crate::block::Block;
use crate::place::Place;
use bb_basis::{Items, Text};
use std::alloc::AllocError;

/// The kind of change that a clause names.
pub enum ChangeText {
    /// A unit is created.
    Create,
    /// A unit is deleted.
    Delete,
    /// The slot of this name is set.
    Update(Text),
    /// A link is added to the slot of this name.
    Link(Text),
    /// A link is removed from the slot of this name.
    Unlink(Text),
    /// A unit enters the space of this name.
    Enter(Text),
    /// A unit leaves the space of this name.
    Leave(Text),
}

// Written by hand, so that a proof meets one call when it is dropped, not each of its variants.
impl Drop for ChangeText {
    fn drop(self) {
        match self {
            ChangeText::Create => {}
            ChangeText::Delete => {}
            ChangeText::Update(_) => {}
            ChangeText::Link(_) => {}
            ChangeText::Unlink(_) => {}
            ChangeText::Enter(_) => {}
            ChangeText::Leave(_) => {}
        }
    }
}

/// The events that a clause names.
pub enum ClauseText {
    /// A change of this kind, to a unit whose class has this name or descends from it.
    Change { kind: ChangeText, class: Text },
    /// No activation could be chosen.
    Quiescence,
}

// Written by hand, so that a proof meets one call when it is dropped, not each of its variants.
impl Drop for ClauseText {
    fn drop(self) {
        match self {
            ClauseText::Change { kind: _, class: _ } => {}
            ClauseText::Quiescence => {}
        }
    }
}

impl Clone for ChangeText {
    ghost use Rattle.std.specs.Prelude.{◌≡◌};

    ghost is_clone = { λ change copy. copy ≡ change };

    fn clone(&self) -> Result<ChangeText, AllocError> {
        Ok(match self {
            ChangeText::Create => ChangeText::Create,
            ChangeText::Delete => ChangeText::Delete,
            ChangeText::Update(slot) => ChangeText::Update(slot.clone()?),
            ChangeText::Link(slot) => ChangeText::Link(slot.clone()?),
            ChangeText::Unlink(slot) => ChangeText::Unlink(slot.clone()?),
            ChangeText::Enter(space) => ChangeText::Enter(space.clone()?),
            ChangeText::Leave(space) => ChangeText::Leave(space.clone()?),
        })
    }
}

impl Clone for ClauseText {
    ghost use Rattle.std.specs.Prelude.{◌≡◌};

    ghost is_clone = { λ clause copy. copy ≡ clause };

    fn clone(&self) -> Result<ClauseText, AllocError> {
        Ok(match self {
            ClauseText::Change { kind, class } => ClauseText::Change {
                kind: kind.clone()?,
                class: class.clone()?,
            },
            ClauseText::Quiescence => ClauseText::Quiescence,
        })
    }
}

/// A part of a source that is a block, with the location of its first token.
pub struct PartText {
    pub place: Place,
    pub block: Block,
}

// Written by hand, so that a proof meets one call when it is dropped, not each of its parts.
impl Drop for PartText {
    fn drop(self) {
        let PartText { place: _, block: _ } = self;
    }
}

/// A source's action on its pending activations when certain events happen, with the locations of its first token and
/// of `on`.
pub struct ReactionText {
    pub place: Place,
    pub on: Place,
    pub class: Text,
    pub clauses: Items<ClauseText>,
    pub block: Block,
}

// Written by hand, so that a proof meets one call when it is dropped, not each of its parts.
impl Drop for ReactionText {
    fn drop(self) {
        let ReactionText {
            place: _,
            on: _,
            class: _,
            clauses: _,
            block: _,
        } = self;
    }
}

/// What an activation does.
pub enum ActText {
    /// The activation executes this block.
    Do(PartText),
    /// The activation calls the native of the source's name.
    Native,
}

// Written by hand, so that a proof meets one call when it is dropped, not each of its variants.
impl Drop for ActText {
    fn drop(self) {
        match self {
            ActText::Do(_) => {}
            ActText::Native => {}
        }
    }
}

/// The name of a source, and the class of the units that it works on, with the location of `on`.
pub struct HeaderText {
    pub name: Text,
    pub on: Place,
    pub class: Text,
}

// Written by hand, so that a proof meets one call when it is dropped, not each of its parts.
impl Drop for HeaderText {
    fn drop(self) {
        let HeaderText {
            name: _,
            on: _,
            class: _,
        } = self;
    }
}

/// The parts of a source other than its act, if the text has them.
pub struct PartTexts {
    /// Decides whether a triggering event makes an activation, and its base rating.
    pub require: Option<PartText>,
    /// Selects the pending activations that end without acting.
    pub obviate: Option<ReactionText>,
    /// Selects the pending activations that are rated again.
    pub retrigger: Option<ReactionText>,
    /// Decides whether a chosen activation may still act.
    pub revalidate: Option<PartText>,
}

// Written by hand, so that a proof meets one call when it is dropped, not each of its parts.
impl Drop for PartTexts {
    fn drop(self) {
        let PartTexts {
            require: _,
            obviate: _,
            retrigger: _,
            revalidate: _,
        } = self;
    }
}

/// A source.
pub struct SourceText {
    /// The source's name and class.
    pub header: HeaderText,
    /// The events that trigger it. There is at least one clause.
    pub clauses: Items<ClauseText>,
    /// The base rating of its activations.
    pub rate: i64,
    /// The parts other than the act.
    pub parts: PartTexts,
    /// What an activation does.
    pub act: ActText,
}

// Written by hand, so that a proof meets one call when it is dropped, not each of its parts.
impl Drop for SourceText {
    fn drop(self) {
        let SourceText {
            header: _,
            clauses: _,
            rate: _,
            parts: _,
            act: _,
        } = self;
    }
}
