//! Expressions, the sequences that loops iterate over, and the patterns of `find`. They contain one another.

use crate::atom::{Atom, Binary, Division, Operator, Relation, Unary, Variable};
use bb_basis::Text;
use std::marker::Model;

/// An expression. Contracts see it as a tree.
#[cycle(tree)]
#[derive(Drop)]
pub struct Expr {
    pub(crate) node: ExprNode,
}

/// The top of an expression, with its parts.
#[cycle(tree)]
#[derive(Drop)]
pub enum ExprNode {
    /// An expression without parts.
    Atom(Atom),
    /// An operation on one operand.
    Unary {
        operation: Unary,
        operand: Box<Expr>,
    },
    /// An operation on two operands.
    Binary {
        operation: Binary,
        left: Box<Expr>,
        right: Box<Expr>,
    },
    /// Operands with operators of one level between them, grouped from the left. There is at least one step.
    Chain {
        first: Box<Expr>,
        steps: Vec<Step>,
    },
    /// `size(..)`: the number of units in a sequence.
    Size(Box<Sequence>),
}

/// An operator of a chain, with the operand after it.
#[cycle(tree)]
#[derive(Drop)]
pub enum Step {
    /// An operator with an expression.
    Apply { operator: Operator, operand: Expr },
    /// A division by a number that is not 0.
    Divide { division: Division, divisor: i64 },
}

/// Units in order.
#[cycle(tree)]
#[derive(Drop)]
pub enum Sequence {
    /// `find class in space where pattern`
    Find {
        class: Text,
        space: Text,
        pattern: Pattern,
    },
    /// `unit.slot`: the units that a unit is linked to by a slot.
    Links {
        unit: Variable,
        slot: Text,
    },
}

/// A condition on the values that a unit has on the dimensions of a space. Contracts see it as a tree.
#[cycle(tree)]
#[derive(Drop)]
pub struct Pattern {
    pub(crate) node: PatternNode,
}

/// The top of a pattern, with its parts.
#[cycle(tree)]
#[derive(Drop)]
pub enum PatternNode {
    /// `all`: holds for every unit.
    All,
    /// `and(..)`: holds if all of these hold.
    And(Vec<Pattern>),
    /// `or(..)`: holds if at least one of these holds.
    Or(Vec<Pattern>),
    /// `not(..)`: holds if this does not.
    Not(Box<Pattern>),
    /// `dimension relation operand`
    Test {
        dimension: Text,
        relation: Relation,
        operand: Expr,
    },
}

impl Model for Expr {
    ghost use Rattle.bb_lang_tree.specs.Trees.{ExprTree};
    ghost use Rattle.bb_lang_tree.specs.proving.Codes.{expr_code, expr_size};

    ghost Value = { ExprTree };

    ghost coded = { expr_code };

    ghost use Rattle.bb_lang_tree.specs.View.{expr_of};

    ghost view = { λ e. expr_of e.node };

    ghost size = { expr_size };

    ghost use Rattle.bb_lang_tree.specs.proving.Depths.{expr_falls};

    ghost size_decreases = { λ e h. expr_falls e.node };
}

impl Model for Pattern {
    ghost use Rattle.bb_lang_tree.specs.Trees.{PatternTree};
    ghost use Rattle.bb_lang_tree.specs.proving.Codes.{pattern_code, pattern_size};

    ghost Value = { PatternTree };

    ghost coded = { pattern_code };

    ghost use Rattle.bb_lang_tree.specs.View.{pattern_of};

    ghost view = { λ p. pattern_of p.node };

    ghost size = { pattern_size };

    ghost use Rattle.bb_lang_tree.specs.proving.Depths.{pattern_falls};

    ghost size_decreases = { λ p h. pattern_falls p.node };
}

impl Expr {
    ghost use Rattle.std.specs.Prelude.{◌≡◌};
    ghost use Rattle.bb_lang_tree.specs.View.{expr_of};

    /// Makes the expression with this top node.
    pub fn new(node: ExprNode) -> Expr
        ensures { result ≡ expr_of node }
    {
        Expr { node }
    }

    /// Returns the top node.
    pub fn node(&self) -> &ExprNode
        ensures { expr_of result.now ≡ self.now }
    {
        &self.node
    }
}

impl Pattern {
    ghost use Rattle.std.specs.Prelude.{◌≡◌};
    ghost use Rattle.bb_lang_tree.specs.View.{pattern_of};

    /// Makes the pattern with this top node.
    pub fn new(node: PatternNode) -> Pattern
        ensures { result ≡ pattern_of node }
    {
        Pattern { node }
    }

    /// Returns the top node.
    pub fn node(&self) -> &PatternNode
        ensures { pattern_of result.now ≡ self.now }
    {
        &self.node
    }
}
