//! The kinds of the locals of a frame.

ghost use Rattle.std.specs.Prelude.{◌≡◌, ◌<◌, ◌≤◌, length, [], ◌∷◌, ◌++◌, List, Option, Some, None, set, slice_get, map, replicate};
ghost use Rattle.bb_code.specs.declared.parts.TheConstants.{LOCAL_LIMIT};
ghost use Rattle.bb_code.specs.declared.frame.Kind.TheVariants.{Any};
ghost use Rattle.bb_verify_effect.specs.Kinds.{struck};

use crate::kind::{mark_stale, put_front};
use bb_code::{Kind, LOCAL_LIMIT};
use bb_schema::Schema;
use bb_schema_classes::ClassId;
use std::marker::Model;

/// The kinds of at most `LOCAL_LIMIT` locals. Contracts see them as a list.
#[derive(Drop)]
pub struct Locals {
    // The kinds from index `count` on are unused.
    kinds: [Kind; LOCAL_LIMIT as usize],
    count: usize,
}

impl Model for Locals {
    ghost use Rattle.std.specs.Prelude.{◌≡◌, ◌≤◌, List, length, take};
    ghost use Rattle.bb_code.specs.declared.frame.Kind.{Kind as Entry};

    ghost Value = { List Entry };

    ghost view = { λ l. take l.count l.kinds };

    ghost invariant = { λ l. (length l.kinds ≡ 32) × (l.count ≤ 32) };
}

impl Locals {
    /// Returns `count` locals with unknown kinds.
    pub fn anything(count: u8) -> Locals
        requires { count ≤ LOCAL_LIMIT }
        ensures { result ≡ replicate count Any }
    {
        Locals {
            kinds: [Kind::Any; LOCAL_LIMIT as usize],
            count: count as usize,
        }
    }

    /// Returns the locals of a declared frame.
    pub(crate) fn of(declared: &[Kind]) -> Locals
        requires { length declared.now ≤ LOCAL_LIMIT }
        ensures { result ≡ declared.now }
    {
        let mut kinds = [Kind::Any; LOCAL_LIMIT as usize];
        for i in 0..declared.len() {
            kinds[i] = declared[i];
        }
        Locals {
            kinds,
            count: declared.len(),
        }
    }

    /// Replaces the kinds by the kinds of a declared frame.
    pub(crate) fn take_on(&mut self, declared: &[Kind])
        requires { length declared.now ≤ LOCAL_LIMIT }
        ensures { self.new ≡ declared.now }
    {
        put_front(&mut self.kinds, declared);
        self.count = declared.len();
    }

    /// Returns a copy.
    pub(crate) fn copied(&self) -> Locals
        ensures { result ≡ self.now }
    {
        Locals {
            kinds: self.kinds,
            count: self.count,
        }
    }

    /// Returns the kind of a local, or `None` if the local does not exist.
    pub fn get(&self, local: u8) -> Option<Kind>
        ensures { result ≡ slice_get self.now local }
    {
        if local as usize >= self.count {
            return None;
        }
        Some(self.kinds[local as usize])
    }

    /// Returns the locals with another kind for one of them, if there is one of that number.
    pub fn with(self, local: u8, kind: Kind) -> Locals
        ensures { result ≡ set self local kind }
    {
        let mut locals = self;
        locals.put(local, kind);
        locals
    }

    /// Sets the kind of a local, if there is one of that number.
    pub(crate) fn put(&mut self, local: u8, kind: Kind)
        ensures { self.new ≡ set self.old local kind }
    {
        if (local as usize) < self.count {
            self.kinds[local as usize] = kind;
        }
    }

    /// Returns all kinds.
    pub fn kinds(&self) -> &[Kind]
        ensures value { result.now ≡ self.now }
        ensures few { length self.now ≤ LOCAL_LIMIT }
    {
        &self.kinds[..self.count]
    }

    /// Changes every local's kind to the kind still known after a unit of class `deleted` was deleted.
    pub fn mark_stale(&mut self, schema: &Schema, deleted: ClassId)
        ensures { self.new ≡ map (struck schema.now deleted) self.old }
    {
        mark_stale(schema, deleted, &mut self.kinds);
    }
}
