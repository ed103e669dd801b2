//! Statements and blocks, which contain one another. The reader of statements (bb_lang) makes them.

use crate::atom::Variable;
use crate::place::Place;
use crate::tree::{Expr, Sequence};
use bb_basis::{Items, Text};
use std::marker::Model;

/// A statement without blocks.
pub enum Action {
    /// `let name = value;`
    Let {
        name: Text,
        value: Expr,
    },
    /// `name = value;`
    Assign {
        name: Text,
        value: Expr,
    },
    /// `new name: class;`
    New {
        name: Text,
        class: Text,
    },
    /// `set unit.slot = value;`
    Set {
        unit: Variable,
        slot: Text,
        value: Expr,
    },
    /// `link unit.slot other;`
    Link {
        unit: Variable,
        slot: Text,
        other: Variable,
    },
    /// `unlink unit.slot other;`
    Unlink {
        unit: Variable,
        slot: Text,
        other: Variable,
    },
    /// `enter unit space;`
    Enter {
        unit: Variable,
        space: Text,
    },
    /// `leave unit space;`
    Leave {
        unit: Variable,
        space: Text,
    },
    /// `delete unit;`
    Delete {
        unit: Variable,
    },
    /// `say ..;`
    Say(Items<Expr>),
    /// `rate value;`
    Rate(Expr),
    /// `decline;`
    Decline,
    /// `answer value;`
    Answer(Expr),
}

// Written by hand, so that a proof meets one call when it is dropped, not each of its variants.
impl Drop for Action {
    fn drop(self) {
        match self {
            Action::Let { name: _, value: _ } => {}
            Action::Assign { name: _, value: _ } => {}
            Action::New { name: _, class: _ } => {}
            Action::Set {
                unit: _,
                slot: _,
                value: _,
            } => {}
            Action::Link {
                unit: _,
                slot: _,
                other: _,
            } => {}
            Action::Unlink {
                unit: _,
                slot: _,
                other: _,
            } => {}
            Action::Enter { unit: _, space: _ } => {}
            Action::Leave { unit: _, space: _ } => {}
            Action::Delete { unit: _ } => {}
            Action::Say(_) => {}
            Action::Rate(_) => {}
            Action::Decline => {}
            Action::Answer(_) => {}
        }
    }
}

/// What a `with` declares: a name for a unit that passes the test.
pub enum Binding {
    /// `name = unit as class`: tests that the unit exists and belongs to the class.
    As {
        name: Text,
        unit: Variable,
        class: Text,
    },
    /// `name = unit.slot`: tests that the unit has a partner in the slot; the name is the partner's.
    Linked {
        name: Text,
        unit: Variable,
        slot: Text,
    },
}

// Written by hand, so that a proof meets one call when it is dropped, not each of its variants.
impl Drop for Binding {
    fn drop(self) {
        match self {
            Binding::As {
                name: _,
                unit: _,
                class: _,
            } => {}
            Binding::Linked {
                name: _,
                unit: _,
                slot: _,
            } => {}
        }
    }
}

/// Statements in order. Contracts see them as a tree.
#[cycle(block)]
#[derive(Drop)]
pub struct Block {
    statements: Vec<Placed>,
}

/// A statement with the location of its first token.
#[cycle(block)]
#[derive(Drop)]
pub struct Placed {
    pub place: Place,
    pub statement: Statement,
}

/// A statement.
#[cycle(block)]
#[derive(Drop)]
pub enum Statement {
    /// A statement without blocks.
    Action(Action),
    /// `if test { .. } else { .. }`
    If {
        test: Expr,
        branches: Branches,
    },
    /// `with .. { .. } else { .. }`
    With {
        binding: Binding,
        branches: Branches,
    },
    /// `for name in sequence { .. }`
    For(ForLoop),
}

/// The blocks of an `if` or a `with`.
#[cycle(block)]
#[derive(Drop)]
pub struct Branches {
    /// Executed if the test holds.
    pub then: Block,
    /// Executed if it does not, if there is an `else`.
    pub otherwise: Option<Block>,
}

/// A block that is executed for each unit of a sequence, under a name.
#[cycle(block)]
#[derive(Drop)]
pub struct ForLoop {
    pub name: Text,
    pub sequence: Sequence,
    pub body: Block,
}

impl Model for Block {
    ghost use Rattle.bb_lang_tree.specs.Blocks.{BlockTree};
    ghost use Rattle.bb_lang_tree.specs.proving.BlockCodes.{block_code, block_size};

    ghost Value = { BlockTree };

    ghost coded = { block_code };

    ghost use Rattle.bb_lang_tree.specs.BlockView.{block_of};

    ghost view = { λ b. block_of b.statements.items };

    ghost size = { block_size };

    ghost use Rattle.bb_lang_tree.specs.proving.BlockDepths.{block_falls};

    ghost size_decreases = { λ b h. block_falls b.statements.items };
}

impl Block {
    ghost use Rattle.std.specs.Prelude.{◌≡◌};
    ghost use Rattle.bb_lang_tree.specs.BlockView.{block_of};

    /// Makes a block of statements.
    pub fn new(statements: Vec<Placed>) -> Block
        ensures { result ≡ block_of statements.items }
    {
        Block { statements }
    }

    /// Returns the statements.
    pub fn statements(&self) -> &[Placed]
        ensures { block_of result.now ≡ self.now }
    {
        self.statements.as_slice()
    }
}
