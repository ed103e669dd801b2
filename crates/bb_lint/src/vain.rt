//! Tests for a class that never hold. The warnings about a code (warning.rt) check for them.

ghost use Rattle.std.specs.Prelude.{◌≡◌, ◌<◌, length};
ghost use Rattle.bb_lint.specs.Tests.{held_class, is_vain_at, is_vain_test, related, unit_class};

use bb_code::{ClassId, Kind, Op, Place};
use bb_schema::Schema;
use bb_verify::{Checked, Frame};

// Returns whether one of two classes descends from the other.
fn related(schema: &Schema, class: ClassId, other: ClassId) -> bool
    ensures { result ≡ related schema.now class other }
{
    schema.descends(class, other) || schema.descends(other, class)
}

// Returns the class of an entry that is a unit.
fn unit_class(kind: Kind) -> Option<ClassId>
    ensures { result ≡ unit_class kind }
{
    match kind {
        Kind::Ref(class) => Some(class),
        Kind::Old(class) => Some(class),
        _ => None,
    }
}

/// Returns the class of the newest entry of a frame's stack, if it is a unit.
pub(crate) fn held_class(frame: Frame) -> Option<ClassId>
    ensures { result ≡ held_class frame }
{
    let mut frame = frame;
    match frame.pop() {
        Ok(kind) => unit_class(kind),
        Err(_) => None,
    }
}

// Returns whether an op tests a unit for a class that is not related to the unit's own.
fn is_vain_test(schema: &Schema, frame: Frame, op: Op) -> bool
    ensures { result ≡ is_vain_test schema.now frame op }
{
    let Op::As(class, _) = op else {
        return false;
    };
    match held_class(frame) {
        Some(held) => !related(schema, held, class),
        None => false,
    }
}

/// Returns whether the op at an index tests a unit for a class that is not related to its own, by the frame there.
pub(crate) fn is_vain_at(schema: &Schema, checked: &Checked, place: Place, op: Op) -> bool
    requires { place < length checked.now.code.ops }
    ensures { result ≡ is_vain_at schema.now checked.now place op }
{
    match op {
        Op::As(_, _) => is_vain_test(schema, checked.frame(place), op),
        _ => false,
    }
}
