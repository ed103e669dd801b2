//! Whether a pattern fits a schema. The verifier checks every query of a code.

ghost use Rattle.std.specs.Prelude.{◌≡◌, length};
ghost use Rattle.bb_pattern.specs.Fits.{room_after, rooms_after, ordered_fits, is_fits, tests_fit, all_tests_fit, pattern_fits};
ghost use Rattle.bb_pattern.specs.View.{trees_of};

use crate::fault::PatternFault;
use crate::pattern::{Node, Pattern};
use crate::value::OperandKind;
use bb_schema::{Dim, Schema, SpaceId};
use bb_schema_classes::ClassId;

/// The maximum number of nodes of a pattern.
pub const NODE_LIMIT: usize = 64;

/// The maximum number of operands of a query.
pub const OPERAND_LIMIT: usize = 16;

// Whether a test of an ordered dimension fits.
#[tactic(auto, unfolding(crate::specs::Fits::ordered_fits))]
fn ordered_fits(
    dims: &[Dim],
    kinds: &[OperandKind],
    dim: u8,
    operand: u8,
) -> Result<(), PatternFault>
    ensures { result ≡ ordered_fits dims.now kinds.now dim operand }
{
    let Some(found) = dims.get(dim as usize) else {
        return Err(PatternFault::Dimension);
    };
    if found.set.is_some() {
        return Err(PatternFault::Dimension);
    }
    match kinds.get(operand as usize) {
        Some(OperandKind::Interval) => Ok(()),
        _ => Err(PatternFault::Operand),
    }
}

// Whether a test of an enumerated dimension fits.
#[tactic(auto, unfolding(crate::specs::Fits::is_fits))]
fn is_fits(dims: &[Dim], kinds: &[OperandKind], dim: u8, operand: u8) -> Result<(), PatternFault>
    ensures { result ≡ is_fits dims.now kinds.now dim operand }
{
    let Some(found) = dims.get(dim as usize) else {
        return Err(PatternFault::Dimension);
    };
    let Some(set) = found.set else {
        return Err(PatternFault::Dimension);
    };
    match kinds.get(operand as usize) {
        Some(OperandKind::Label(of)) => {
            if *of == set {
                Ok(())
            } else {
                Err(PatternFault::Operand)
            }
        }
        _ => Err(PatternFault::Operand),
    }
}

// Whether all tests of some patterns fit, in order.
#[cycle(tests)]
#[tactic(auto, unfolding(crate::specs::Fits::tests_fit))]
fn all_tests_fit(
    patterns: &[Pattern],
    dims: &[Dim],
    kinds: &[OperandKind],
) -> Result<(), PatternFault>
    ensures { result ≡ all_tests_fit dims.now kinds.now (trees_of patterns.now) }
{
    for pattern in patterns {
        pattern.tests_fit(dims, kinds)?;
    }
    Ok(())
}

// Subtracts the nodes of some patterns from a number; `None` if they have more.
#[cycle(room)]
fn rooms_after(patterns: &[Pattern], room: usize) -> Option<usize>
    ensures { result ≡ rooms_after room (trees_of patterns.now) }
{
    let mut left = room;
    for pattern in patterns {
        left = pattern.room_after(left)?;
    }
    Some(left)
}

impl Pattern {
    // Subtracts the nodes of the pattern from a number; `None` if it has more. Goes no deeper than that number.
    #[cycle(room)]
    fn room_after(&self, room: usize) -> Option<usize>
        ensures { result ≡ room_after room self.now }
    {
        if room == 0 {
            return None;
        }
        match &self.node {
            Node::And(parts) => rooms_after(parts.as_slice(), room - 1),
            Node::Or(parts) => rooms_after(parts.as_slice(), room - 1),
            Node::Not(part) => part.room_after(room - 1),
            _ => Some(room - 1),
        }
    }

    // Whether all tests fit, in order.
    #[cycle(tests)]
    #[tactic(auto, unfolding(crate::specs::Fits::tests_fit))]
    fn tests_fit(&self, dims: &[Dim], kinds: &[OperandKind]) -> Result<(), PatternFault>
        ensures { result ≡ tests_fit dims.now kinds.now self.now }
    {
        match &self.node {
            Node::All => Ok(()),
            Node::And(parts) => all_tests_fit(parts.as_slice(), dims, kinds),
            Node::Or(parts) => all_tests_fit(parts.as_slice(), dims, kinds),
            Node::Not(part) => part.tests_fit(dims, kinds),
            Node::Ordered { dim, operand, .. } => ordered_fits(dims, kinds, *dim, *operand),
            Node::Is { dim, operand } => is_fits(dims, kinds, *dim, *operand),
        }
    }

    /// Checks that the pattern fits a query for a class in a space, with operands of these kinds. The error is the
    /// first that applies: `Space`, the space or the class does not exist; `Limit`, there are more than 64 nodes or 16
    /// operands; then node by node, in order: `Dimension`, the space has no such dimension of this sort; `Operand`, the
    /// operand is missing or has another kind. Goes no deeper than the limit, regardless of the depth of the pattern.
    #[tactic(auto, unfolding(crate::specs::Fits::pattern_fits))]
    pub fn fits(
        &self,
        schema: &Schema,
        class: ClassId,
        space: SpaceId,
        kinds: &[OperandKind],
    ) -> Result<(), PatternFault>
        ensures { result ≡ pattern_fits schema.now class space kinds.now self.now }
    {
        if space as usize >= schema.space_count() || class as usize >= schema.class_count() {
            return Err(PatternFault::Space);
        }
        if self.room_after(NODE_LIMIT).is_none() || kinds.len() > OPERAND_LIMIT {
            return Err(PatternFault::Limit);
        }
        self.tests_fit(schema.dims(space), kinds)
    }
}
