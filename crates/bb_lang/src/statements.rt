//! Readers of statements and blocks: a function for each production. The reader of sources calls `read_block`.

ghost use Rattle.std.specs.Prelude.{◌≡◌, ◌<◌, Some, None, OnOk};
ghost use Rattle.bb_basis.specs.Results.{Gives};
ghost use Rattle.bb_lang_tree.specs.declared.fault.LangFault.TheVariants.{Memory as OutOfMemory};
ghost use Rattle.bb_lang.specs.Repeats.{as_many};
ghost use Rattle.bb_lang.specs.Statements.{plain, otherwise_in, if_in, bound, binding, with_in, for_in, statement_in};
ghost use Rattle.bb_lang.specs.Statements.{next_statement, block};

use crate::actions::read_action;
use crate::atoms::read_variable;
use crate::expressions::{close, open, read_expr, read_sequence};
use bb_basis::Text;
use bb_lang_tree::{
    Binding, Block, Branches, ForLoop, LangFault, Parser, Placed, Statement, Variable,
};

// Reads a statement without blocks.
#[tactic(auto, unfolding(crate::specs::Statements::plain))]
fn read_plain(parser: &mut Parser<'_>) -> Result<Statement, LangFault>
    ensures read { Gives OutOfMemory (λ s. (s, parser.new.state)) result (plain parser.old.nesting parser.old.state) }
    ensures nesting { OnOk result (parser.new.nesting ≡ parser.old.nesting) }
{
    let action = read_action(parser)?;
    parser.skip(";")?;
    Ok(Statement::Action(action))
}

// Reads the test of a `with`.
#[tactic(auto, unfolding(crate::specs::Statements::bound))]
fn read_bound(parser: &mut Parser<'_>, name: Text, unit: Variable) -> Result<Binding, LangFault>
    ensures read { Gives OutOfMemory (λ b. (b, parser.new.state)) result (bound name unit parser.old.state) }
    ensures nesting { OnOk result (parser.new.nesting ≡ parser.old.nesting) }
{
    if parser.at("as") {
        parser.advance()?;
        let class = parser.read_name()?;
        return Ok(Binding::As { name, unit, class });
    }
    parser.skip(".")?;
    let slot = parser.read_member()?;
    Ok(Binding::Linked { name, unit, slot })
}

// Reads the name that a `with` declares, and its test.
#[tactic(auto, unfolding(crate::specs::Statements::binding))]
fn read_binding(parser: &mut Parser<'_>) -> Result<Binding, LangFault>
    ensures read { Gives OutOfMemory (λ b. (b, parser.new.state)) result (binding parser.old.state) }
    ensures nesting { OnOk result (parser.new.nesting ≡ parser.old.nesting) }
{
    let name = parser.read_declared()?;
    parser.skip("=")?;
    let unit = read_variable(parser)?;
    read_bound(parser, name, unit)
}

// Reads the block of an `else`, if one follows.
#[cycle(statements)]
#[tactic(auto, unfolding(crate::specs::Statements::otherwise_in))]
fn read_otherwise(parser: &mut Parser<'_>) -> Result<Option<Block>, LangFault>
    ensures read { Gives OutOfMemory (λ o. (o, parser.new.state)) result
        (otherwise_in (block parser.old.nesting) parser.old.state) }
    ensures nesting { OnOk result (parser.new.nesting ≡ parser.old.nesting) }
{
    if !parser.at("else") {
        return Ok(None);
    }
    parser.advance()?;
    Ok(Some(read_block(parser)?))
}

// Reads an `if`.
#[cycle(statements)]
#[tactic(auto, unfolding(crate::specs::Statements::if_in))]
fn read_if(parser: &mut Parser<'_>) -> Result<Statement, LangFault>
    ensures read { Gives OutOfMemory (λ s. (s, parser.new.state)) result
        (if_in parser.old.nesting (block parser.old.nesting) parser.old.state) }
    ensures nesting { OnOk result (parser.new.nesting ≡ parser.old.nesting) }
{
    parser.advance()?;
    let test = read_expr(parser)?;
    let then = read_block(parser)?;
    let otherwise = read_otherwise(parser)?;
    let branches = Branches { then, otherwise };
    Ok(Statement::If { test, branches })
}

// Reads a `with`.
#[cycle(statements)]
#[tactic(auto, unfolding(crate::specs::Statements::with_in))]
fn read_with(parser: &mut Parser<'_>) -> Result<Statement, LangFault>
    ensures read { Gives OutOfMemory (λ s. (s, parser.new.state)) result
        (with_in (block parser.old.nesting) parser.old.state) }
    ensures nesting { OnOk result (parser.new.nesting ≡ parser.old.nesting) }
{
    let scope = parser.scope_len();
    parser.advance()?;
    let binding = read_binding(parser)?;
    let then = read_block(parser)?;
    parser.leave_scope(scope);
    let otherwise = read_otherwise(parser)?;
    let branches = Branches { then, otherwise };
    Ok(Statement::With { binding, branches })
}

// Reads a `for`.
#[cycle(statements)]
#[tactic(auto, unfolding(crate::specs::Statements::for_in))]
fn read_for(parser: &mut Parser<'_>) -> Result<Statement, LangFault>
    ensures read { Gives OutOfMemory (λ s. (s, parser.new.state)) result
        (for_in parser.old.nesting (block parser.old.nesting) parser.old.state) }
    ensures nesting { OnOk result (parser.new.nesting ≡ parser.old.nesting) }
{
    let scope = parser.scope_len();
    parser.advance()?;
    let name = parser.read_declared()?;
    parser.skip("in")?;
    let sequence = read_sequence(parser)?;
    let body = read_block(parser)?;
    parser.leave_scope(scope);
    Ok(Statement::For(ForLoop {
        name,
        sequence,
        body,
    }))
}

// Reads a statement.
#[cycle(statements)]
#[tactic(auto, unfolding(crate::specs::Statements::statement_in))]
fn read_statement(parser: &mut Parser<'_>) -> Result<Statement, LangFault>
    ensures read { Gives OutOfMemory (λ s. (s, parser.new.state)) result
        (statement_in parser.old.nesting (block parser.old.nesting) parser.old.state) }
    ensures nesting { OnOk result (parser.new.nesting ≡ parser.old.nesting) }
{
    if parser.at("if") {
        return read_if(parser);
    }
    if parser.at("with") {
        return read_with(parser);
    }
    if parser.at("for") {
        return read_for(parser);
    }
    read_plain(parser)
}

// Reads the next statement of a block, if the block does not end here.
#[cycle(statements)]
#[tactic(auto, unfolding(crate::specs::Statements::next_statement))]
fn read_next_statement(parser: &mut Parser<'_>) -> Result<Option<Placed>, LangFault>
    ensures read { Gives OutOfMemory (λ o. (o, parser.new.state)) result
        (next_statement parser.old.nesting (block parser.old.nesting) parser.old.state) }
    ensures nesting { OnOk result (parser.new.nesting ≡ parser.old.nesting) }
{
    if parser.at("}") {
        return Ok(None);
    }
    let place = parser.place();
    let statement = read_statement(parser)?;
    Ok(Some(Placed { place, statement }))
}

// Reads statements until the end of the block.
#[cycle(statements)]
#[tactic(auto, unfolding(crate::specs::Repeats::as_many))]
fn read_statements(parser: &mut Parser<'_>) -> Result<Vec<Placed>, LangFault>
    ensures read { Gives OutOfMemory (λ v. (v.items, parser.new.state)) result
        (as_many (next_statement parser.old.nesting (block parser.old.nesting)) parser.old.state) }
    ensures nesting { OnOk result (parser.new.nesting ≡ parser.old.nesting) }
{
    let mut statements = Vec::new(parser.alloc());
    for _turn in 0..parser.left() {
        let Some(statement) = read_next_statement(parser)? else {
            return Ok(statements);
        };
        statements.push(statement)?;
    }
    Ok(statements)
}

/// Reads a block. Names declared in it are in scope up to its end.
#[cycle(statements)]
pub(crate) fn read_block(parser: &mut Parser<'_>) -> Result<Block, LangFault>
    ensures read { Gives OutOfMemory (λ b. (b, parser.new.state)) result (block parser.old.nesting parser.old.state) }
    ensures nesting { OnOk result (parser.new.nesting ≡ parser.old.nesting) }
{
    let scope = parser.scope_len();
    let outer = open(parser, "{")?;
    let statements = read_statements(parser)?;
    close(parser, "}", outer)?;
    parser.leave_scope(scope);
    Ok(Block::new(statements))
}
