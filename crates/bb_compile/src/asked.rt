//! A query that is being emitted: its operands so far, and how many more nodes its pattern may have. The emission of
//! sequences keeps one.

ghost use Rattle.std.specs.Prelude.{◌≡◌, IfOk};
ghost use Rattle.bb_pattern.specs.View.{tree_of};
ghost use Rattle.bb_pattern.specs.declared.pattern.Node.TheVariants.{Ordered};
ghost use Rattle.bb_compile.specs.Queries.{no_operand, node_counted, node_noted, operand_kind, with_operand, operand_number, operand_noted, test_tree};

use bb_basis::Items;
use bb_code::Kind;
use bb_compile_buffer::Buffer;
use bb_compile_scope::TextFlaw;
use bb_lang::Relation;
use bb_pattern::{NODE_LIMIT, Node, OPERAND_LIMIT, OperandKind, Relation as PatternRelation};
use std::alloc::{AllocError, Global};

/// The kinds of a query's operands so far, and how many more nodes its pattern may have.
#[derive(Drop)]
pub struct Asked {
    pub kinds: Items<OperandKind>,
    pub nodes: usize,
}

// Returns the operand kind for a kind.
fn operand_kind(kind: Kind) -> OperandKind
    ensures { result ≡ operand_kind kind }
{
    match kind {
        Kind::Label(set) => OperandKind::Label(set),
        _ => OperandKind::Interval,
    }
}

/// Makes a test of a dimension by an operand.
pub(crate) fn test_node(relation: Relation, dim: u8, operand: u8) -> Node
    ensures { tree_of result ≡ test_tree relation dim operand }
{
    match relation {
        Relation::Within => ordered(PatternRelation::Within, dim, operand),
        Relation::Covers => ordered(PatternRelation::Covers, dim, operand),
        Relation::Overlaps => ordered(PatternRelation::Overlaps, dim, operand),
        Relation::Less => ordered(PatternRelation::Less, dim, operand),
        Relation::More => ordered(PatternRelation::More, dim, operand),
        Relation::Is => Node::Is { dim, operand },
    }
}

// Makes a test by an operand on a dimension that has an order.
fn ordered(relation: PatternRelation, dim: u8, operand: u8) -> Node
    ensures { result ≡ Ordered relation dim operand }
{
    Node::Ordered {
        relation,
        dim,
        operand,
    }
}

impl Asked {
    /// Creates a query without operands.
    pub fn new(alloc: Global) -> Asked
        ensures { result ≡ no_operand }
    {
        Asked {
            kinds: Items::new(alloc),
            nodes: NODE_LIMIT,
        }
    }

    /// Counts a node. Notes `Limit` if it is one too many.
    pub fn count_node(&mut self, buffer: &mut Buffer)
        ensures query { self.new ≡ node_counted self.old }
        ensures buffer { buffer.new ≡ node_noted self.old buffer.old }
    {
        if self.nodes == 0 {
            buffer.note(TextFlaw::Limit);
            return;
        }
        self.nodes -= 1;
    }

    /// Adds an operand of a kind and returns its number. Notes `Limit` if it is one too many.
    pub fn add_operand(&mut self, buffer: &mut Buffer, kind: Kind) -> Result<u8, AllocError>
        ensures number { IfOk result (λ number. number ≡ operand_number self.old) }
        ensures query { IfOk result (λ _. self.new ≡ with_operand kind self.old) }
        ensures buffer { IfOk result (λ _. buffer.new ≡ operand_noted self.old buffer.old) }
    {
        let number = self.kinds.len();
        if number >= OPERAND_LIMIT {
            buffer.note(TextFlaw::Limit);
            return Ok(0);
        }
        self.kinds.push(operand_kind(kind))?;
        Ok(number as u8)
    }
}
