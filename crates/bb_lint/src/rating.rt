//! Sources whose activations are never chosen as long as no unit is a focus. Advice on sources checks for them.

ghost use Rattle.std.specs.Prelude.{◌≡◌};
ghost use Rattle.std.specs.List.{list_any};
ghost use Rattle.bb_lint.specs.Ratings.{any_makes_focus, makes_focus, may_make_focus, starts_below, stays_below};

use bb_code::{ClassId, Op};
use bb_rules::{Act, Source};
use bb_schema::Schema;

// The class of foci, which is the first of every schema.
const FOCUS: ClassId = 0;

// Returns whether an op creates a focus.
fn makes_focus(schema: &Schema, op: Op) -> bool
    ensures { result ≡ makes_focus schema.now op }
{
    match op {
        Op::New(class) => schema.descends(class, FOCUS),
        _ => false,
    }
}

// Returns whether one of the ops creates a focus.
fn any_op_makes_focus(schema: &Schema, ops: &[Op]) -> bool
    ensures { result ≡ list_any (makes_focus schema.now) ops.now }
{
    ops.iter().any(|op| makes_focus(schema, *op))
}

// Returns whether the act of a source may create a focus.
fn may_make_focus(schema: &Schema, act: &Act) -> bool
    ensures { result ≡ may_make_focus schema.now act.now }
{
    match act {
        Act::Code(lowered) => any_op_makes_focus(schema, lowered.checked().code().ops()),
        Act::Native => true,
    }
}

/// Returns whether one of the sources may create a focus.
pub(crate) fn any_makes_focus(schema: &Schema, sources: &[Source]) -> bool
    ensures { result ≡ any_makes_focus schema.now sources.now }
{
    sources
        .iter()
        .any(|source| may_make_focus(schema, &source.parts().act))
}

// Returns whether every activation of a source has the source's rate as its base, and this is below the floor.
fn starts_below(floor: i64, source: &Source) -> bool
    ensures { result ≡ starts_below floor source.now }
{
    let parts = source.parts();
    parts.require.is_none() && parts.retrigger.is_none() && parts.rate < floor
}

/// Returns whether every activation of a source stays below the floor; `raised` is true if a source may create a
/// focus.
pub(crate) fn stays_below(raised: bool, floor: i64, source: &Source) -> bool
    ensures { result ≡ stays_below raised floor source.now }
{
    !raised && starts_below(floor, source)
}
