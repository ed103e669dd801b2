//! Drafts: sources whose names are texts, not looked up yet. The parser of bundles and the compiler (bb_compile) make
//! them with a `Code` for each part, bb_shell translates the codes into `Lowered` ones, and bb_rules builds sources
//! from them.

ghost use Rattle.std.specs.Prelude.{◌≡◌};
ghost use Rattle.bb_bundle.specs.Drafts.{no_parts, with_obviate, with_require, with_retrigger, with_revalidate};

use bb_basis::{Items, Text};
use bb_lang_tree::ClauseText;
use std::mem;

/// The name, class, rate and triggers of a source.
#[derive(Drop)]
pub struct Header {
    /// The source's name.
    pub name: Text,
    /// The name of the class of the units that it works on.
    pub class: Text,
    /// The base rating of its activations.
    pub rate: i64,
    /// The events that trigger it.
    pub triggers: Items<ClauseText>,
}

/// What a source does about its pending activations when certain events happen. `C` is the type of its code.
#[derive(Drop)]
pub struct ReactionDraft<C> {
    /// The name of the class of the units whose events it reacts to.
    pub class: Text,
    /// The events that the source reacts to.
    pub clauses: Items<ClauseText>,
    /// The code that decides about each pending activation.
    pub code: C,
}

/// The parts of a source other than its act, if it has them. `C` is the type of codes.
pub struct Parts<C> {
    /// Decides whether a triggering event makes an activation, and its base rating.
    pub require: Option<C>,
    /// Selects the pending activations that end without acting.
    pub obviate: Option<ReactionDraft<C>>,
    /// Selects the pending activations that are rated again.
    pub retrigger: Option<ReactionDraft<C>>,
    /// Decides whether a chosen activation may still act.
    pub revalidate: Option<C>,
}

/// What an activation does. `C` is the type of its code.
#[derive(Drop)]
pub enum ActDraft<C> {
    /// The activation executes this code.
    Do(C),
    /// The activation calls the native of the source's name.
    Native,
}

/// A source whose names are not looked up yet, with a `C` for each of its codes (`Code`, or `Lowered` once verified).
#[derive(Drop)]
pub struct SourceDraft<C> {
    /// The name, class, rate and triggers.
    pub header: Header,
    /// The parts other than the act.
    pub parts: Parts<C>,
    /// What an activation does.
    pub act: ActDraft<C>,
}

// Written by hand, so that a proof meets one call when parts are dropped, not one for each of them.
impl<C: Drop> Drop for Parts<C> {
    fn drop(self) {
        let Parts {
            require: _,
            obviate: _,
            retrigger: _,
            revalidate: _,
        } = self;
    }
}

impl<C> Parts<C> {
    /// Returns no parts.
    pub fn none() -> Parts<C>
        ensures { result ≡ no_parts }
    {
        Parts {
            require: None,
            obviate: None,
            retrigger: None,
            revalidate: None,
        }
    }
}

impl<C: Drop> Parts<C> {
    /// Replaces the code that decides whether an activation is made.
    pub fn put_require(&mut self, code: Option<C>)
        ensures { self.new ≡ with_require self.old code }
    {
        drop(mem::replace(&mut self.require, code));
    }

    /// Replaces the reaction that ends activations.
    pub fn put_obviate(&mut self, reaction: Option<ReactionDraft<C>>)
        ensures { self.new ≡ with_obviate self.old reaction }
    {
        drop(mem::replace(&mut self.obviate, reaction));
    }

    /// Replaces the reaction that rates activations again.
    pub fn put_retrigger(&mut self, reaction: Option<ReactionDraft<C>>)
        ensures { self.new ≡ with_retrigger self.old reaction }
    {
        drop(mem::replace(&mut self.retrigger, reaction));
    }

    /// Replaces the code that decides whether an activation may still act.
    pub fn put_revalidate(&mut self, code: Option<C>)
        ensures { self.new ≡ with_revalidate self.old code }
    {
        drop(mem::replace(&mut self.revalidate, code));
    }
}
