//! The ops of a code that is being emitted. The buffer contains them.

ghost use Rattle.std.specs.Prelude.{◌≡◌, ◌<◌, ◌≤◌, ◌↔◌, [], ◌∷◌, ◌++◌, length, IsTrue, OnOk};
ghost use Rattle.bb_code.specs.declared.parts.TheConstants.{OP_LIMIT};
ghost use Rattle.bb_compile_buffer.specs.Buffers.{aimed, aimed_at};

use bb_code::{OP_LIMIT, Op};
use std::alloc::{AllocError, Global};
use std::marker::Model;

/// At most `OP_LIMIT` ops, in order. Contracts see them as a list.
#[derive(Drop)]
pub struct Ops {
    ops: Vec<Op>,
}

impl Model for Ops {
    ghost use Rattle.std.specs.Prelude.{◌≤◌, List, length};
    ghost use Rattle.bb_verify_effect.specs.Op.{Op as OneOp};

    ghost Value = { List OneOp };

    ghost view = { λ o. o.ops.items };

    ghost invariant = { λ o. length o.ops.items ≤ 4096 };
}

// Returns an op with another target, if it has a target.
fn aimed(op: Op, place: u16) -> Op
    ensures { result ≡ aimed op place }
{
    match op {
        Op::One(slot, _place) => Op::One(slot, place),
        Op::Alive(_place) => Op::Alive(place),
        Op::As(class, _place) => Op::As(class, place),
        Op::Jump(_place) => Op::Jump(place),
        Op::Unless(_place) => Op::Unless(place),
        Op::Next(local, _place) => Op::Next(local, place),
        _ => op,
    }
}

impl Ops {
    /// Creates an empty list. Allocates nothing.
    pub fn new(alloc: Global) -> Ops
        ensures { result ≡ [] }
    {
        Ops {
            ops: Vec::new(alloc),
        }
    }

    /// Returns the index of the next op.
    pub fn here(&self) -> u16
        ensures { result ≡ length self.now }
    {
        self.ops.len() as u16
    }

    /// Returns whether no more ops fit.
    pub fn is_full(&self) -> bool
        ensures { IsTrue result ↔ OP_LIMIT ≤ length self.now }
    {
        self.ops.len() >= OP_LIMIT as usize
    }

    /// Appends an op. It must fit.
    pub fn push(&mut self, op: Op) -> Result<(), AllocError>
        requires { length self.old < OP_LIMIT }
        ensures { OnOk result (self.new ≡ self.old ++ op ∷ []) }
    {
        self.ops.push(op)?;
        Ok(())
    }

    /// Sets the target of the op at an index to the index of the next op.
    pub fn aim(&mut self, at: u16)
        ensures { self.new ≡ aimed_at at self.old }
    {
        let here = self.here();
        let Some(op) = self.ops.get(at as usize).copied() else {
            return;
        };
        self.ops[at as usize] = aimed(op, here);
    }

    /// Returns the ops.
    pub fn into_vec(self) -> Vec<Op>
        ensures { result.items ≡ self }
    {
        self.ops
    }
}
