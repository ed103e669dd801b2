//! Kinds: which are allowed for declared ones, and which are still known after a deletion. Checks of ops and edges call
//! it, and the compiler calls `mark_stale`.

ghost use Rattle.std.specs.Prelude.{◌≡◌, ◌≤◌, ◌++◌, drop, length, map};
ghost use Rattle.std.specs.Cmp.Lexicographic.{pointwise};
ghost use Rattle.bb_verify_effect.specs.Kinds.{is_same_plain, weakens, weakens_local, frame_weakens, struck};
ghost use Rattle.bb_verify_effect.specs.Frame.{frame_of};

use crate::frame::Frame;
use bb_code::{Frame as Declared, Kind};
use bb_schema::Schema;
use bb_schema_classes::ClassId;

/// Returns whether two kinds are equal and neither units nor sequences.
pub fn is_same_plain(kind: Kind, other: Kind) -> bool
    ensures { result ≡ is_same_plain kind other }
{
    match (kind, other) {
        (Kind::Int, Kind::Int) => true,
        (Kind::Text, Kind::Text) => true,
        (Kind::Bool, Kind::Bool) => true,
        (Kind::Label(set), Kind::Label(of)) => set == of,
        (Kind::Interval, Kind::Interval) => true,
        _ => false,
    }
}

/// Returns whether the kind of an entry of the stack is allowed for a declared kind.
#[tactic(auto, unfolding(crate::specs::Kinds::weakens))]
pub(crate) fn weakens(schema: &Schema, kind: Kind, declared: Kind) -> bool
    ensures { result ≡ weakens schema.now kind declared }
{
    match (kind, declared) {
        (Kind::Ref(class), Kind::Ref(ancestor)) => schema.descends(class, ancestor),
        (Kind::Ref(class), Kind::Old(ancestor)) => schema.descends(class, ancestor),
        (Kind::Old(class), Kind::Old(ancestor)) => schema.descends(class, ancestor),
        (Kind::Seq(class), Kind::Seq(ancestor)) => schema.descends(class, ancestor),
        _ => is_same_plain(kind, declared),
    }
}

/// Returns whether the kind of a local is allowed for a declared kind.
#[tactic(auto, unfolding(crate::specs::Kinds::weakens_local))]
pub(crate) fn weakens_local(schema: &Schema, kind: Kind, declared: Kind) -> bool
    ensures { result ≡ weakens_local schema.now kind declared }
{
    match declared {
        Kind::Any => true,
        _ => weakens(schema, kind, declared),
    }
}

// Whether all entries of a stack are allowed where others are declared.
fn all_weaken(schema: &Schema, kinds: &[Kind], declared: &[Kind]) -> bool
    ensures { result ≡ pointwise (weakens schema.now) kinds.now declared.now }
{
    if kinds.len() != declared.len() {
        return false;
    }
    for i in 0..kinds.len() {
        if !weakens(schema, kinds[i], declared[i]) {
            return false;
        }
    }
    true
}

// Whether all locals are allowed where others are declared.
fn all_locals_weaken(schema: &Schema, kinds: &[Kind], declared: &[Kind]) -> bool
    ensures { result ≡ pointwise (weakens_local schema.now) kinds.now declared.now }
{
    if kinds.len() != declared.len() {
        return false;
    }
    for i in 0..kinds.len() {
        if !weakens_local(schema, kinds[i], declared[i]) {
            return false;
        }
    }
    true
}

/// Returns whether a frame is allowed for a declared frame.
#[tactic(auto, unfolding(crate::specs::Kinds::frame_weakens), using(crate::proofs::StackLemmas::pointwise_onto))]
pub fn frame_weakens(schema: &Schema, frame: &Frame, declared: &Declared) -> bool
    ensures { result ≡ frame_weakens schema.now frame.now (frame_of declared.now) }
{
    if !all_locals_weaken(schema, frame.locals.kinds(), declared.locals.as_slice()) {
        return false;
    }
    all_weaken(schema, frame.stack.entries(), declared.stack.as_slice())
}

// What is known of a local or an entry of the stack after a unit of a class was deleted.
#[tactic(auto, unfolding(crate::specs::Kinds::struck))]
fn struck(schema: &Schema, deleted: ClassId, kind: Kind) -> Kind
    ensures { result ≡ struck schema.now deleted kind }
{
    match kind {
        Kind::Ref(class) => {
            if schema.strikes(deleted, class) {
                return Kind::Old(class);
            }
            kind
        }
        _ => kind,
    }
}

/// Changes every kind of a slice to the kind still known after a unit of class `deleted` was deleted.
pub fn mark_stale(schema: &Schema, deleted: ClassId, kinds: &mut [Kind])
    ensures { kinds.new ≡ map (struck schema.now deleted) kinds.old }
{
    for i in 0..kinds.len() {
        kinds[i] = struck(schema, deleted, kinds[i]);
    }
}

/// Overwrites the first kinds of a slice.
pub(crate) fn put_front(kinds: &mut [Kind], front: &[Kind])
    requires { length front.now ≤ length kinds.old }
    ensures value { kinds.new ≡ front.now ++ drop (length front.now) kinds.old }
    ensures len { length kinds.new ≡ length kinds.old }
{
    kinds[..front.len()].copy_from_slice(front);
}
