//! What follows from the kinds of values: which are units, and which may be compared and assigned. The checks of
//! statements call it.

ghost use Rattle.std.specs.Prelude.{◌≡◌};
ghost use Rattle.bb_compile_scope.specs.Kinds.{class_of, is_live, unit_of, equality, assigned};

use bb_code::{Comparison, Kind, Op};
use bb_schema::Schema;
use bb_schema_classes::ClassId;
use bb_verify_effect::is_same_plain;

/// Returns the class of a unit, if the kind is a unit's.
pub fn class_of(kind: Kind) -> Option<ClassId>
    ensures { result ≡ class_of kind }
{
    match kind {
        Kind::Ref(class) => Some(class),
        Kind::Old(class) => Some(class),
        _ => None,
    }
}

/// Returns whether the kind is a live unit's.
pub fn is_live(kind: Kind) -> bool
    ensures { result ≡ is_live kind }
{
    match kind {
        Kind::Ref(_class) => true,
        _ => false,
    }
}

// Returns the kind of a unit of a class: live, or perhaps deleted.
fn unit_of(live: bool, class: ClassId) -> Kind
    ensures { result ≡ unit_of live class }
{
    if live {
        Kind::Ref(class)
    } else {
        Kind::Old(class)
    }
}

/// Returns the op that tests whether two values are equal: numbers, texts, labels of one set, or units. `None`: values
/// of these kinds cannot be compared.
#[tactic(auto, unfolding(crate::specs::Kinds::equality))]
pub fn equality(left: Kind, right: Kind) -> Option<Op>
    ensures { result ≡ equality left right }
{
    if class_of(left).is_some() && class_of(right).is_some() {
        return Some(Op::EqUnit);
    }
    if !is_same_plain(left, right) {
        return None;
    }
    match left {
        Kind::Int => Some(Op::Compare(Comparison::EqInt)),
        Kind::Text => Some(Op::EqText),
        Kind::Label(_set) => Some(Op::EqLabel),
        _ => None,
    }
}

/// Returns the kind of a name after a value is assigned to it. `None`: it may not be assigned. It may if both have the
/// same kind, or are units and the value's class descends from the name's.
#[tactic(auto, unfolding(crate::specs::Kinds::assigned, crate::specs::Kinds::assigned_unit))]
pub fn assigned(schema: &Schema, held: Kind, value: Kind) -> Option<Kind>
    ensures { result ≡ assigned schema.now held value }
{
    if is_same_plain(held, value) {
        return Some(held);
    }
    let class = class_of(held)?;
    let other = class_of(value)?;
    if !schema.descends(other, class) {
        return None;
    }
    Some(unit_of(is_live(value), class))
}
