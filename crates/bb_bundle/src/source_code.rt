//! `SourceCode`: a source that a bundle can spell. Its names are texts, not looked up yet. `unbundle` and the compiler
//! (bb_compile) make it, and `bundle` writes it; bb_shell has its codes verified, and bb_rules looks up its names.

ghost use Rattle.std.specs.Prelude.{◌≡◌};
ghost use Rattle.bb_bundle.specs.Spelled.{IsSpelled, if_spelled};

use crate::draft::SourceDraft;
use crate::spelled::is_spelled;
use bb_code::Code;
use std::marker::Model;

/// A source that a bundle can spell: all names are valid, it has a trigger, and each reaction has a clause.
#[derive(Drop)]
pub struct SourceCode {
    draft: SourceDraft<Code>,
}

impl Model for SourceCode {
    ghost use Rattle.bb_code.specs.Code as code;
    ghost use Rattle.bb_bundle.specs.declared.draft.SourceDraft.{SourceDraft};
    ghost use Rattle.bb_bundle.specs.Spelled.{IsSpelled};

    ghost Value = { SourceDraft code.Code };

    ghost use Rattle.bb_code.specs.contracts.code.Code as codes_of;
    ghost use Rattle.std.specs.Coded.{codes};

    ghost coded = { Prim.hlevel (codes, codes_of.the_row.coded) };

    ghost view = { λ s. s.draft };

    ghost invariant = { λ s. IsSpelled s.draft };
}

impl SourceCode {
    /// Makes a source of a draft. `None`: a bundle cannot spell it.
    pub fn new(draft: SourceDraft<Code>) -> Option<SourceCode>
        ensures { result ≡ if_spelled draft }
    {
        if is_spelled(&draft) {
            Some(SourceCode { draft })
        } else {
            None
        }
    }

    /// Returns the draft.
    pub fn draft(&self) -> &SourceDraft<Code>
        ensures value { result.now ≡ self.now }
        ensures spelled { IsSpelled self.now }
    {
        &self.draft
    }

    /// Returns the draft, without copying it.
    pub fn into_draft(self) -> SourceDraft<Code>
        ensures value { result ≡ self }
        ensures spelled { IsSpelled self }
    {
        self.draft
    }
}
