//! Spans, which show by two comparisons of numbers whether one class descends from another. A schema keeps a span for
//! each of its classes, so that it need not climb from a class to its parents.

ghost use Rattle.std.specs.Prelude.{◌≡◌, ◌≤◌, ◌<◌, ◌↔◌, length, map, slice_get, All, IfOk, IsTrue};
ghost use Rattle.bb_schema_classes.specs.Inheritance.{ParentsAreEarlier};
ghost use Rattle.bb_schema_classes.specs.Spans.{LiesIn, AreSpans};
ghost use Rattle.bb_schema_classes.specs.declared.read.classes.TheConstants.{CLASS_LIMIT};
ghost use Rattle.bb_schema_classes.specs.proving.SpanWalk.{moved, moved_span, place_of, with_class, IsWithin};

use crate::class::{Class, ClassId};
use std::alloc::{AllocError, Global};

/// The numbers of a class and its descendants in a walk over all classes. The walk visits a class right before its
/// descendants.
#[derive(Clone, Copy, Debug, PartialEq, Eq)]
pub struct Span {
    /// The class's own number.
    pub first: u16,
    /// The number after its last descendant's, or after its own if it has no descendant.
    pub end: u16,
}

impl Span {
    /// Returns whether the number of another class is in the span.
    pub fn holds(self, other: Span) -> bool
        ensures { IsTrue result ↔ LiesIn other self }
    {
        self.first <= other.first && other.first < self.end
    }

    // The span after a number was inserted at a place.
    fn moved(self, at: u16) -> Span
        requires { IsWithin CLASS_LIMIT self }
        ensures { result ≡ moved_span at self }
    {
        Span {
            first: moved(self.first, at),
            end: moved(self.end, at),
        }
    }
}

// A number after another was inserted at a place.
fn moved(number: u16, at: u16) -> u16
    requires { number ≤ CLASS_LIMIT }
    ensures { result ≡ moved at number }
{
    if number < at {
        return number;
    }
    number + 1
}

// The place right after the parent's, or the first place if there is no parent.
fn place_of(spans: &[Span], parent: Option<ClassId>) -> u16
    requires { All (IsWithin CLASS_LIMIT) spans.now }
    ensures { result ≡ place_of spans.now parent }
{
    let Some(number) = parent else {
        return 0;
    };
    match spans.get(number as usize) {
        None => 0,
        Some(span) => span.first + 1,
    }
}

// Moves the numbers of all spans to insert a number at a place.
fn make_room(spans: &mut Vec<Span>, at: u16)
    requires { All (IsWithin CLASS_LIMIT) spans.old.items }
    ensures { spans.new.items ≡ map (moved_span at) spans.old.items }
{
    for index in 0..spans.len() {
        spans[index] = spans[index].moved(at);
    }
}

// Adds a class right after its parent, before the parent's other descendants.
#[tactic(auto, unfolding(crate::specs::proving::SpanWalk::with_class))]
fn add_class(spans: &mut Vec<Span>, parent: Option<ClassId>) -> Result<(), AllocError>
    requires { All (IsWithin CLASS_LIMIT) spans.old.items }
    ensures { IfOk result (λ _. spans.new.items ≡ with_class spans.old.items parent) }
{
    let at = place_of(spans, parent);
    make_room(spans, at);
    spans.push(Span {
        first: at,
        end: at + 1,
    })?;
    Ok(())
}

/// Returns the span of a class, `None` if no class has the number.
pub fn span_at(spans: &[Span], class: ClassId) -> Option<Span>
    ensures { result ≡ slice_get spans.now class }
{
    Some(*spans.get(class as usize)?)
}

/// Returns the spans of classes, in the same order.
pub fn spans_of(alloc: Global, classes: &[Class]) -> Result<Vec<Span>, AllocError>
    requires few { length classes.now ≤ CLASS_LIMIT }
    requires parents { ParentsAreEarlier classes.now }
    ensures { IfOk result (λ spans. AreSpans classes.now spans.items) }
{
    let mut spans = Vec::new(alloc);
    for class in classes {
        add_class(&mut spans, class.parent)?;
    }
    Ok(spans)
}
