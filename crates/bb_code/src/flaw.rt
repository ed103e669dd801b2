//! The flaws that the verifier refuses. Refusal lines give the flaw's number.

ghost use Rattle.std.specs.Prelude.{◌≡◌};
ghost use Rattle.bb_code.specs.Flaws.{fault_number, out_of_memory};
ghost use Rattle.bb_code.specs.declared.flaw.Flaw.TheVariants.{Memory};

use std::alloc::{AllocError, AllocFailed};

/// A flaw of a code at an op.
#[derive(Clone, Copy, Debug, PartialEq, Eq)]
pub enum Flaw {
    /// A table is out of order or names something unknown, an operand names no entry of its table, there are too few
    /// locals, or the version is 1 under a schema with owning slots.
    Table,
    /// A jump goes in the wrong direction, or out of the code.
    Jump,
    /// A loop is out of order, or the ops at its ends or within it are not allowed there.
    Loop,
    /// An op index has no frame, or an edge goes to an op index whose declared frame does not fit.
    Frame,
    /// Operands are missing, or more than 64 entries are on the stack after the op.
    Depth,
    /// An operand has the wrong kind.
    Kind,
    /// A unit may be deleted, but a live one is needed.
    Dead,
    /// A slot is unknown, not of the class, or of the wrong sort.
    Slot,
    /// A link is between classes that the slot does not join.
    LinkClass,
    /// A space is unknown, or does not admit the class.
    Space,
    /// A query does not fit.
    Query,
    /// An op writes, in a part that only reads.
    Effect,
    /// The op ends another part, or the last op can continue.
    End,
    /// Memory ran out. This says nothing about the code.
    Memory,
}

impl Flaw {
    /// Returns the number of the flaw in refusal lines, from 1 to 14.
    pub fn number(self) -> u8
        ensures { result ≡ fault_number self }
    {
        match self {
            Flaw::Table => 1,
            Flaw::Jump => 2,
            Flaw::Loop => 3,
            Flaw::Frame => 4,
            Flaw::Depth => 5,
            Flaw::Kind => 6,
            Flaw::Dead => 7,
            Flaw::Slot => 8,
            Flaw::LinkClass => 9,
            Flaw::Space => 10,
            Flaw::Query => 11,
            Flaw::Effect => 12,
            Flaw::End => 13,
            Flaw::Memory => 14,
        }
    }
}

/// Why a code is not accepted: its first flaw.
#[derive(Clone, Copy, Debug, PartialEq, Eq)]
pub struct VerifyFault {
    /// The index of the op, from 0. For `Memory` it is 0.
    pub place: u16,
    pub flaw: Flaw,
}

impl<T: Drop> From<AllocFailed<T>> for Flaw {
    ghost from_gives = { λ _ flaw. flaw ≡ Memory };

    fn from(_error: AllocFailed<T>) -> Flaw {
        Flaw::Memory
    }
}

impl From<AllocError> for Flaw {
    ghost from_gives = { λ _ flaw. flaw ≡ Memory };

    fn from(_error: AllocError) -> Flaw {
        Flaw::Memory
    }
}

impl From<AllocError> for VerifyFault {
    ghost from_gives = { λ _ fault. fault ≡ out_of_memory };

    fn from(_error: AllocError) -> VerifyFault {
        VerifyFault {
            place: 0,
            flaw: Flaw::Memory,
        }
    }
}

impl<T: Drop> From<AllocFailed<T>> for VerifyFault {
    ghost from_gives = { λ _ fault. fault ≡ out_of_memory };

    fn from(_error: AllocFailed<T>) -> VerifyFault {
        VerifyFault {
            place: 0,
            flaw: Flaw::Memory,
        }
    }
}
