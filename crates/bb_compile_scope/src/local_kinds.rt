//! The kinds of a code's locals at one point of the code. A scope contains them, and frames are built from them.

ghost use Rattle.std.specs.Prelude.{◌≡◌, ◌<◌, length, map, set, position, IfSome};
ghost use Rattle.bb_verify_effect.specs.Kinds.{struck};
ghost use Rattle.bb_code.specs.declared.parts.TheConstants.{LOCAL_LIMIT};
ghost use Rattle.bb_compile_scope.specs.LocalKinds.{is_free, all_free, kind_at, left_kind, met_kind, kinds_left, kinds_met};

use crate::kinds::is_live;
use bb_code::{Kind, LOCAL_LIMIT, LocalId};
use bb_schema::Schema;
use bb_schema_classes::ClassId;
use bb_verify_effect::mark_stale;
use std::marker::Model;

/// What each of the locals that a code may have holds: `Any` if it is free. Contracts see it as a list.
#[derive(Drop)]
pub struct LocalKinds {
    kinds: [Kind; LOCAL_LIMIT as usize],
}

impl Model for LocalKinds {
    ghost use Rattle.std.specs.Prelude.{◌≡◌, List, length};
    ghost use Rattle.bb_verify_effect.specs.Kind.{Kind as Held};

    ghost Value = { List Held };

    ghost view = { λ l. l.kinds };

    ghost invariant = { λ l. length l.kinds ≡ 32 };
}

// Returns whether a local of this kind is free.
fn is_free(kind: Kind) -> bool
    ensures { result ≡ is_free kind }
{
    match kind {
        Kind::Any => true,
        _ => false,
    }
}

// Returns what a local holds after a block: it is free again if it was free before the block.
fn left_kind(before: Kind, now: Kind) -> Kind
    ensures { result ≡ left_kind before now }
{
    if is_free(before) { Kind::Any } else { now }
}

// Returns what is known of a local where two branches meet: a unit is live if it is live after both.
fn met_kind(other: Kind, one: Kind) -> Kind
    ensures { result ≡ met_kind other one }
{
    if is_live(one) { other } else { one }
}

// Returns the index of the first free local.
fn first_free(kinds: &[Kind]) -> Option<usize>
    ensures value { result ≡ position is_free kinds.now }
    ensures below { IfSome result (λ i. i < length kinds.now) }
{
    kinds.iter().position(|kind| is_free(*kind))
}

// Frees the locals that were free before.
fn leave_each(before: &[Kind], kinds: &mut [Kind])
    requires { length before.now ≡ length kinds.old }
    ensures { kinds.new ≡ kinds_left before.now kinds.old }
{
    for i in 0..kinds.len() {
        kinds[i] = left_kind(before[i], kinds[i]);
    }
}

// Keeps only what is known after another branch too.
fn meet_each(other: &[Kind], kinds: &mut [Kind])
    requires { length other.now ≡ length kinds.old }
    ensures { kinds.new ≡ kinds_met other.now kinds.old }
{
    for i in 0..kinds.len() {
        kinds[i] = met_kind(other[i], kinds[i]);
    }
}

impl LocalKinds {
    /// Returns the kinds when all locals are free.
    pub fn new() -> LocalKinds
        ensures { result ≡ all_free }
    {
        LocalKinds {
            kinds: [Kind::Any; LOCAL_LIMIT as usize],
        }
    }

    /// Returns a copy of the kinds.
    pub fn copied(&self) -> LocalKinds
        ensures { result ≡ self.now }
    {
        LocalKinds { kinds: self.kinds }
    }

    /// Returns the kinds, indexed by local.
    pub fn as_slice(&self) -> &[Kind]
        ensures value { result.now ≡ self.now }
        ensures count { length self.now ≡ LOCAL_LIMIT }
    {
        &self.kinds
    }

    /// Returns what a local holds.
    pub fn get(&self, local: LocalId) -> Kind
        ensures { result ≡ kind_at self.now local }
    {
        match self.as_slice().get(local as usize) {
            None => Kind::Any,
            Some(kind) => *kind,
        }
    }

    /// Sets what a local holds.
    pub fn put(&mut self, local: LocalId, kind: Kind)
        ensures { self.new ≡ set self.old local kind }
    {
        if (local as usize) < self.kinds.len() {
            self.kinds[local as usize] = kind;
        }
    }

    /// Returns the lowest free local, if there is one.
    pub fn free(&self) -> Option<LocalId>
        ensures value { result ≡ position is_free self.now }
        ensures below { IfSome result (λ local. local < LOCAL_LIMIT) }
    {
        Some(first_free(&self.kinds)? as LocalId)
    }

    /// Marks the units that may be deleted when a unit of a class is.
    pub fn strike(&mut self, schema: &Schema, deleted: ClassId)
        ensures { self.new ≡ map (struck schema.now deleted) self.old }
    {
        mark_stale(schema, deleted, &mut self.kinds);
    }

    /// Frees the locals that were free before.
    pub fn leave(&mut self, before: &LocalKinds)
        ensures { self.new ≡ kinds_left before.now self.old }
    {
        leave_each(&before.kinds, &mut self.kinds);
    }

    /// Keeps only the facts that are known after another branch too.
    pub fn meet(&mut self, other: &LocalKinds)
        ensures { self.new ≡ kinds_met other.now self.old }
    {
        meet_each(&other.kinds, &mut self.kinds);
    }
}
