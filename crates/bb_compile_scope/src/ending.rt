//! Which statements always end. Every path through a part other than `do` must end.

ghost use Rattle.std.specs.Prelude.{◌≡◌};
ghost use Rattle.bb_lang_tree.specs.BlockView.{statement_of, otherwise_of};
ghost use Rattle.bb_compile_scope.specs.Ending.{ends, otherwise_ends, always_ends, block_ends};

use bb_lang_tree::{Action, Block, Statement};

/// Returns whether a statement without blocks ends the part.
pub fn ends(action: &Action) -> bool
    ensures { result ≡ ends action.now }
{
    match action {
        Action::Rate(_value) => true,
        Action::Decline => true,
        Action::Answer(_value) => true,
        _ => false,
    }
}

// Returns whether each path through an `else` ends.
#[cycle(ends)]
#[tactic(auto, unfolding(crate::specs::Ending::otherwise_ends))]
fn otherwise_ends(otherwise: &Option<Block>) -> bool
    ensures { result ≡ otherwise_ends (otherwise_of otherwise.now) }
{
    match otherwise {
        None => false,
        Some(block) => block_ends(block),
    }
}

// Returns whether each path through a statement ends.
#[cycle(ends)]
#[tactic(auto, unfolding(crate::specs::Ending::always_ends))]
fn always_ends(statement: &Statement) -> bool
    ensures { result ≡ always_ends (statement_of statement.now) }
{
    match statement {
        Statement::Action(action) => ends(action),
        Statement::If { branches, .. } => {
            block_ends(&branches.then) && otherwise_ends(&branches.otherwise)
        }
        Statement::With { branches, .. } => {
            block_ends(&branches.then) && otherwise_ends(&branches.otherwise)
        }
        Statement::For(_) => false,
    }
}

/// Returns whether each path through a block ends.
#[cycle(ends)]
#[tactic(auto, unfolding(crate::specs::Ending::block_ends))]
pub fn block_ends(block: &Block) -> bool
    ensures { result ≡ block_ends block.now }
{
    for placed in block.statements() {
        if always_ends(&placed.statement) {
            return true;
        }
    }
    false
}
