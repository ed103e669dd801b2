//! How a run ends unless it is cut short, or why it returns to its host. The run notes its end last, and line.rt makes
//! a line of it.

use bb_agenda::Activation;
use std::marker::Model;

/// How a run ends unless it is cut short.
#[derive(Clone, Copy, Debug, PartialEq, Eq)]
pub enum EndKind {
    /// Nothing can be chosen, and quiescence changed nothing.
    Quiescence,
    /// The limit of cycles was reached, and something can still be chosen.
    Limit,
    /// The blackboard or the agenda is full.
    Full,
    /// This activation was chosen, and its source acts by a native that was not passed in: it is due, and the host that
    /// holds the run can answer for it. No whole run ends like this.
    Due(Activation),
}

/// The end of a run that is not cut short. Contracts see it as an end of the definitions, which have another one: an
/// execution was stuck.
#[derive(Clone, Copy, Debug, PartialEq, Eq)]
pub struct End {
    pub kind: EndKind,
}

impl Model for End {
    ghost use Rattle.bb_trace.specs.End.{End as Ends};
    ghost use Rattle.bb_trace.specs.proving.Ends.{end_code, end_of, kind_of};

    ghost Value = { Ends };

    ghost coded = { end_code };

    ghost view = { λ e. end_of e.kind };

    ghost inverse = { λ e. record { kind = kind_of e } };

    ghost use Rattle.bb_trace.specs.proving.Kinds.{end_back};

    ghost inverse_ok = { λ e _. end_back e };
}

impl End {
    ghost use Rattle.std.specs.Prelude.{◌≡◌};
    ghost use Rattle.bb_trace.specs.End.{Due};

    /// Nothing can be chosen, and quiescence changed nothing.
    pub const QUIESCENCE: End = End {
        kind: EndKind::Quiescence,
    };

    /// The limit of cycles was reached, and something can still be chosen.
    pub const LIMIT: End = End {
        kind: EndKind::Limit,
    };

    /// The blackboard or the agenda is full.
    pub const FULL: End = End {
        kind: EndKind::Full,
    };

    /// Returns the end of a run if the native of an activation is due.
    pub fn due(activation: Activation) -> End
        ensures { result ≡ Due activation }
    {
        End {
            kind: EndKind::Due(activation),
        }
    }
}
