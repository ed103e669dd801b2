//! Why a pattern does not fit a schema. `Pattern::fits` returns it.

ghost use Rattle.std.specs.Prelude.{◌≡◌};
ghost use Rattle.bb_pattern.specs.Faults.{fault_number};

use thiserror::Error;

/// Why a pattern does not fit a schema.
#[derive(Clone, Copy, Debug, PartialEq, Eq, Error)]
pub enum PatternFault {
    /// The space has no dimension with the number, or it is not of the sort that the test needs.
    #[error("no such dimension of this sort")]
    Dimension,
    /// The query has no operand with the number, or it is not of the kind that the test needs.
    #[error("no such operand of this kind")]
    Operand,
    /// The space or the class does not exist.
    #[error("no such space or class")]
    Space,
    /// The pattern has more than 64 nodes, or there are more than 16 operands.
    #[error("too many nodes or operands")]
    Limit,
}

impl PatternFault {
    /// Returns the number of the fault in refusals, from 1 to 4.
    pub fn number(self) -> u8
        ensures { result ≡ fault_number self }
    {
        match self {
            PatternFault::Dimension => 1,
            PatternFault::Operand => 2,
            PatternFault::Space => 3,
            PatternFault::Limit => 4,
        }
    }
}
