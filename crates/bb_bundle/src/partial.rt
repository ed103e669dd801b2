//! A source that has been read up to, but without, its act. The parser of bundles makes and completes it.

ghost use Rattle.std.specs.Prelude.{◌≡◌, OnOk};
ghost use Rattle.bb_bundle.specs.Partial.{has_clause, has_clauses, takes_clause, before_revalidate, before_retrigger};
ghost use Rattle.bb_bundle.specs.Partial.{before_obviate, before_require, may_come, with_act, with_clause};

use crate::draft::{ActDraft, Header, Parts, ReactionDraft, SourceDraft};
use crate::keyword::Keyword;
use bb_code::Code;
use bb_lang_tree::ClauseText;
use std::alloc::AllocError;

/// What has been read of a source so far. Its parts are those whose line was read; the last of them that has clauses
/// may get more.
#[derive(Drop)]
pub(crate) struct PartialSource {
    pub(crate) header: Header,
    pub(crate) parts: Parts<Code>,
}

fn has_clause(reaction: &Option<ReactionDraft<Code>>) -> bool
    ensures { result ≡ has_clause reaction.now }
{
    match reaction {
        None => true,
        Some(reaction) => reaction.clauses.len() > 0,
    }
}

impl PartialSource {
    // Returns whether each list of clauses that was begun has at least one clause.
    #[tactic(auto, unfolding(crate::specs::Partial::has_clauses))]
    fn has_clauses(&self) -> bool
        ensures { result ≡ has_clauses self.now }
    {
        self.header.triggers.len() > 0
            && has_clause(&self.parts.obviate)
            && has_clause(&self.parts.retrigger)
    }

    // Returns whether the part that was begun last has clauses.
    #[tactic(auto, unfolding(crate::specs::Partial::takes_clause))]
    fn takes_clause(&self) -> bool
        ensures { result ≡ takes_clause self.now }
    {
        self.parts.revalidate.is_none()
            && (self.parts.require.is_none()
                || self.parts.obviate.is_some()
                || self.parts.retrigger.is_some())
    }

    // Returns whether `revalidate` may still come.
    fn before_revalidate(&self) -> bool
        ensures { result ≡ before_revalidate self.now }
    {
        self.has_clauses() && self.parts.revalidate.is_none()
    }

    // Returns whether `retrigger` may still come.
    fn before_retrigger(&self) -> bool
        ensures { result ≡ before_retrigger self.now }
    {
        self.before_revalidate() && self.parts.retrigger.is_none()
    }

    // Returns whether `obviate` may still come.
    fn before_obviate(&self) -> bool
        ensures { result ≡ before_obviate self.now }
    {
        self.before_retrigger() && self.parts.obviate.is_none()
    }

    // Returns whether `require` may still come.
    fn before_require(&self) -> bool
        ensures { result ≡ before_require self.now }
    {
        self.before_obviate() && self.parts.require.is_none()
    }

    /// Returns whether a line with this keyword may come next.
    #[tactic(auto, unfolding(crate::specs::Partial::may_come))]
    pub(crate) fn may_come(&self, keyword: Keyword) -> bool
        ensures { result ≡ may_come self.now keyword }
    {
        match keyword {
            Keyword::When => self.takes_clause(),
            Keyword::Require => self.before_require(),
            Keyword::Obviate => self.before_obviate(),
            Keyword::Retrigger => self.before_retrigger(),
            Keyword::Revalidate => self.before_revalidate(),
            Keyword::Do => self.has_clauses(),
            Keyword::Native => self.has_clauses(),
        }
    }

    /// Adds a clause to the part that was begun last.
    #[tactic(auto, unfolding(crate::specs::Partial::with_clause))]
    pub(crate) fn add_clause(&mut self, clause: ClauseText) -> Result<(), AllocError>
        ensures { OnOk result (self.new ≡ with_clause self.old clause) }
    {
        if let Some(reaction) = &mut self.parts.retrigger {
            return reaction.clauses.push(clause);
        }
        if let Some(reaction) = &mut self.parts.obviate {
            return reaction.clauses.push(clause);
        }
        self.header.triggers.push(clause)
    }

    /// Completes the source with its act.
    pub(crate) fn with_act(self, act: ActDraft<Code>) -> SourceDraft<Code>
        ensures { result ≡ with_act self act }
    {
        SourceDraft {
            header: self.header,
            parts: self.parts,
            act,
        }
    }
}
