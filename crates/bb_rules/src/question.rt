//! The codes that a source asks: the codes of parts other than `do`. `Source::new` makes them of accepted codes, and
//! the run (bb_run) asks them.

ghost use Rattle.std.specs.Prelude.{◌≡◌, Err};
ghost use Rattle.bb_code.specs.declared.flaw.Flaw.TheVariants.{Effect};
ghost use Rattle.bb_verify.specs.Part.{writes};
ghost use Rattle.bb_rules.specs.Own.{asks_own};
ghost use Rattle.bb_rules.specs.Questions.{IsQuestion};

use crate::own;
use bb_exec_lower::Lowered;
use bb_verify::Checked;
use std::marker::Model;

/// A code that a source asks: it was accepted for a part that may not write. Contracts see it as that code.
#[derive(Drop)]
pub struct Question {
    code: Lowered,
}

impl Model for Question {
    ghost use Rattle.bb_verify.specs.Accepted.{Checked as Accepted};
    ghost use Rattle.bb_verify.specs.proving.Codes.{checked_code};
    ghost use Rattle.bb_rules.specs.Questions.{IsQuestion as Asked};

    ghost Value = { Accepted };

    ghost coded = { checked_code };

    ghost view = { λ q. q.code };

    ghost invariant = { λ q. Asked q.code };
}

impl Question {
    pub(crate) fn new(code: Lowered) -> Question
        requires { writes code.part ≡ Err Effect }
        ensures { result ≡ code }
    {
        // For the proof: the code's invariant.
        code.checked().fits();
        Question { code }
    }

    /// Returns the code.
    pub fn checked(&self) -> &Checked
        ensures { result.now ≡ self.now }
    {
        self.code.checked()
    }

    /// Returns the code with its instructions.
    pub fn lowered(&self) -> &Lowered
        ensures { result.now ≡ self.now }
    {
        &self.code
    }

    /// Returns whether its first ops compare the activation's unit with the event's, and its answer is no if they
    /// differ. If it returns true, an event need ask it only about the activations for the event's own unit.
    pub fn asks_own(&self) -> bool
        ensures { result ≡ asks_own self.now.code }
    {
        own::asks_own(self.code.checked().code())
    }

    /// Exposes the invariant: the code was accepted under some schema, for a part that may not write. Does nothing.
    pub fn fits(&self)
        ensures { IsQuestion self.now }
    {
        let _ = &self.code;
    }
}
