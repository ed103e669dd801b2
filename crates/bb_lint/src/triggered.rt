//! Sources that are triggered without end, or never. Advice on sources checks for them.

ghost use Rattle.std.specs.Prelude.{◌≡◌};
ghost use Rattle.std.specs.List.{list_any};
ghost use Rattle.bb_lint.specs.Triggered.{at_quiescence, is_quiescence, is_rating, is_restless, never_rates, rates};

use bb_code::Op;
use bb_rules::{Clause, Question, Source};

// Returns whether a clause names quiescence.
fn is_quiescence(clause: &Clause) -> bool
    ensures { result ≡ is_quiescence clause.now }
{
    match clause {
        Clause::Quiescence => true,
        Clause::Change { .. } => false,
    }
}

/// Returns whether quiescence triggers a source.
pub(crate) fn at_quiescence(source: &Source) -> bool
    ensures { result ≡ at_quiescence source.now }
{
    source
        .parts()
        .triggers
        .as_slice()
        .iter()
        .any(|clause| is_quiescence(clause))
}

/// Returns whether every quiescence gives a source an activation that is chosen, unless foci lower its rating. Then no
/// quiescence is the last.
pub(crate) fn is_restless(floor: i64, source: &Source) -> bool
    ensures { result ≡ is_restless floor source.now }
{
    let parts = source.parts();
    if parts.require.is_some() || parts.retrigger.is_some() || parts.rate < floor {
        return false;
    }
    at_quiescence(source)
}

fn is_rating(op: Op) -> bool
    ensures { result ≡ is_rating op }
{
    match op {
        Op::Rate => true,
        _ => false,
    }
}

fn rates(question: &Question) -> bool
    ensures { result ≡ rates question.now }
{
    question
        .checked()
        .code()
        .ops()
        .iter()
        .any(|op| is_rating(*op))
}

/// Returns whether a source has a `require` without an op that rates, so that no event triggers it.
pub(crate) fn never_rates(source: &Source) -> bool
    ensures { result ≡ never_rates source.now }
{
    match &source.parts().require {
        None => false,
        Some(question) => !rates(question),
    }
}
