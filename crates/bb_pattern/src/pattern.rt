//! Patterns. Code that reads or makes queries builds them from these nodes.

use std::marker::Model;

/// The relation that a test requires between a unit's `[low, high]` and an operand's `[first, last]`.
#[derive(Clone, Copy, Debug, PartialEq)]
pub enum Relation {
    /// `[low, high]` is within `[first, last]`.
    Within,
    /// `[low, high]` covers `[first, last]`.
    Covers,
    /// The two have a number in common.
    Overlaps,
    /// All of `[low, high]` is less than all of `[first, last]`.
    Less,
    /// All of `[low, high]` is more than all of `[first, last]`.
    More,
}

/// A condition on the values of a unit on the dimensions of a space (GBBopen Reference Manual, find-instances).
/// Contracts see it as a tree.
#[cycle(pattern)]
#[derive(Drop)]
pub struct Pattern {
    pub(crate) node: Node,
}

/// A node of a pattern. Dimensions are numbered by the space, operands by the query, both from 0.
#[cycle(pattern)]
#[derive(Drop)]
pub enum Node {
    /// Every unit satisfies it.
    All,
    /// All of the patterns hold. Without patterns, every unit satisfies it.
    And(Vec<Pattern>),
    /// At least one of the patterns holds. Without patterns, no unit satisfies it.
    Or(Vec<Pattern>),
    /// The pattern does not hold.
    Not(Box<Pattern>),
    /// The value on an ordered dimension is in this relation to an operand.
    Ordered {
        relation: Relation,
        dim: u8,
        operand: u8,
    },
    /// The value on an enumerated dimension equals an operand, a label.
    Is {
        dim: u8,
        operand: u8,
    },
}

impl Model for Pattern {
    ghost use Rattle.bb_pattern.specs.Trees.{Tree, node_count};
    ghost use Rattle.bb_pattern.specs.proving.Codes.{tree_code};

    ghost Value = { Tree };

    ghost coded = { tree_code };

    ghost use Rattle.bb_pattern.specs.View.{tree_of};

    ghost view = { λ p. tree_of p.node };

    ghost size = { node_count };

    ghost use Rattle.bb_pattern.specs.proving.Depths.{falls};

    ghost size_decreases = { λ p h. falls p.node };
}

impl Pattern {
    ghost use Rattle.std.specs.Prelude.{◌≡◌};
    ghost use Rattle.bb_pattern.specs.View.{tree_of};

    /// Makes a pattern of a node.
    pub fn new(node: Node) -> Pattern
        ensures { result ≡ tree_of node }
    {
        Pattern { node }
    }

    /// Returns the root node.
    pub fn node(&self) -> &Node
        ensures { tree_of result.now ≡ self.now }
    {
        &self.node
    }
}
