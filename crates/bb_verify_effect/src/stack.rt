//! The kinds of the entries of the stack of a frame.

ghost use Rattle.std.specs.Prelude.{◌≡◌, ◌<◌, ◌≤◌, length, [], ◌∷◌, List, Option, Some, None, option_map, drop, reverse, take, map};
ghost use Rattle.bb_code.specs.declared.parts.TheConstants.{STACK_LIMIT};
ghost use Rattle.bb_verify_effect.specs.Kinds.{struck};
ghost use Rattle.bb_verify_effect.specs.Stack.{newest};

use crate::kind::{mark_stale, put_front};
use bb_code::{Kind, STACK_LIMIT};
use bb_schema::Schema;
use bb_schema_classes::ClassId;
use std::marker::Model;

/// The kinds of at most `STACK_LIMIT` entries. Contracts see them as a list, the newest first.
#[derive(Drop)]
pub struct Stack {
    // The deepest first. The kinds from index `len` on are unused.
    kinds: [Kind; STACK_LIMIT],
    len: usize,
}

impl Model for Stack {
    ghost use Rattle.std.specs.Prelude.{◌≡◌, ◌≤◌, List, length, reverse, take};
    ghost use Rattle.bb_code.specs.declared.frame.Kind.{Kind as Entry};

    ghost Value = { List Entry };

    ghost view = { λ s. reverse (take s.len s.kinds) };

    ghost invariant = { λ s. (length s.kinds ≡ 64) × (s.len ≤ 64) };
}

impl Stack {
    /// Returns a copy.
    pub(crate) fn copied(&self) -> Stack
        ensures { result ≡ self.now }
    {
        Stack {
            kinds: self.kinds,
            len: self.len,
        }
    }

    /// Returns the empty stack.
    pub fn new() -> Stack
        ensures { result ≡ [] }
    {
        Stack {
            kinds: [Kind::Any; STACK_LIMIT],
            len: 0,
        }
    }

    /// Returns the stack of these entries, the deepest first.
    pub(crate) fn of(entries: &[Kind]) -> Stack
        requires { length entries.now ≤ STACK_LIMIT }
        ensures { result ≡ reverse entries.now }
    {
        let mut stack = Stack::new();
        for kind in entries {
            stack.push(*kind);
        }
        stack
    }

    /// Replaces the entries by these, the deepest first.
    pub(crate) fn take_on(&mut self, entries: &[Kind])
        requires { length entries.now ≤ STACK_LIMIT }
        ensures { self.new ≡ reverse entries.now }
    {
        put_front(&mut self.kinds, entries);
        self.len = entries.len();
    }

    /// Returns the number of entries.
    pub fn len(&self) -> usize
        ensures { result ≡ length self.now }
    {
        self.len
    }

    /// Pushes an entry.
    pub(crate) fn push(&mut self, kind: Kind)
        requires { length self.old < STACK_LIMIT }
        ensures { self.new ≡ kind ∷ self.old }
    {
        self.kinds[self.len] = kind;
        self.len += 1;
    }

    /// Pops the newest entry, or returns `None` if the stack is empty.
    pub(crate) fn pop(&mut self) -> Option<Kind>
        ensures { option_map (λ kind. (kind, self.new)) result ≡ newest self.old }
    {
        if self.len == 0 {
            return None;
        }
        self.len -= 1;
        Some(self.kinds[self.len])
    }

    /// Drops the `count` newest entries.
    pub(crate) fn shorten(&mut self, count: usize)
        requires { count ≤ length self.old }
        ensures { self.new ≡ drop count self.old }
    {
        self.len -= count;
    }

    /// Returns the `count` newest entries, the deepest first.
    pub(crate) fn top(&self, count: usize) -> &[Kind]
        requires { count ≤ length self.now }
        ensures { result.now ≡ reverse (take count self.now) }
    {
        &self.kinds[self.len - count..self.len]
    }

    /// Returns all entries, the deepest first.
    pub fn entries(&self) -> &[Kind]
        ensures value { result.now ≡ reverse self.now }
        ensures few { length self.now ≤ STACK_LIMIT }
    {
        &self.kinds[..self.len]
    }

    /// Changes every entry's kind to the kind still known after a unit of class `deleted` was deleted.
    pub fn mark_stale(&mut self, schema: &Schema, deleted: ClassId)
        ensures { self.new ≡ map (struck schema.now deleted) self.old }
    {
        mark_stale(schema, deleted, &mut self.kinds);
    }
}
