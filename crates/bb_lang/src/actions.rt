//! Readers of statements without blocks: a function for each. The reader of statements calls `read_action`.

ghost use Rattle.std.specs.Prelude.{◌≡◌, ◌<◌, codes, OnOk};
ghost use Rattle.bb_basis.specs.Results.{Gives};
ghost use Rattle.bb_lang_tree.specs.declared.fault.LangFault.TheVariants.{Memory as OutOfMemory};
ghost use Rattle.bb_lang.specs.Expressions.{expr};
ghost use Rattle.bb_lang.specs.Repeats.{next_item, items};
ghost use Rattle.bb_lang.specs.Statements.{slot_of, space_of, let_of, assign_of, new_of, set_of, link_of, unlink_of};
ghost use Rattle.bb_lang.specs.Statements.{enter_of, leave_of, delete_of, say_of, change_of, action_of};

use crate::atoms::read_variable;
use crate::expressions::read_expr;
use bb_basis::{Items, Text};
use bb_lang_tree::{Action, Expr, LangFault, Parser, Variable};

// A unit and one of its slots.
#[derive(Drop)]
struct UnitSlot {
    unit: Variable,
    slot: Text,
}

// A unit and a space.
#[derive(Drop)]
struct UnitSpace {
    unit: Variable,
    space: Text,
}

// Reads `unit.slot`.
#[tactic(auto, unfolding(crate::specs::Statements::slot_of))]
fn read_slot(parser: &mut Parser<'_>) -> Result<UnitSlot, LangFault>
    ensures read { Gives OutOfMemory (λ u. (u, parser.new.state)) result (slot_of parser.old.state) }
    ensures nesting { OnOk result (parser.new.nesting ≡ parser.old.nesting) }
{
    let unit = read_variable(parser)?;
    parser.skip(".")?;
    let slot = parser.read_member()?;
    Ok(UnitSlot { unit, slot })
}

// Reads `unit space`.
#[tactic(auto, unfolding(crate::specs::Statements::space_of))]
fn read_space(parser: &mut Parser<'_>) -> Result<UnitSpace, LangFault>
    ensures read { Gives OutOfMemory (λ u. (u, parser.new.state)) result (space_of parser.old.state) }
    ensures nesting { OnOk result (parser.new.nesting ≡ parser.old.nesting) }
{
    let unit = read_variable(parser)?;
    let space = parser.read_name()?;
    Ok(UnitSpace { unit, space })
}

// Reads a `let`.
#[tactic(auto, unfolding(crate::specs::Statements::let_of))]
fn read_let(parser: &mut Parser<'_>) -> Result<Action, LangFault>
    ensures read { Gives OutOfMemory (λ a. (a, parser.new.state)) result (let_of parser.old.nesting parser.old.state) }
    ensures nesting { OnOk result (parser.new.nesting ≡ parser.old.nesting) }
{
    parser.advance()?;
    let name = parser.read_declared()?;
    parser.skip("=")?;
    let value = read_expr(parser)?;
    Ok(Action::Let { name, value })
}

// Reads an assignment.
#[tactic(auto, unfolding(crate::specs::Statements::assign_of))]
fn read_assign(parser: &mut Parser<'_>) -> Result<Action, LangFault>
    ensures read { Gives OutOfMemory (λ a. (a, parser.new.state)) result
        (assign_of parser.old.nesting parser.old.state) }
    ensures nesting { OnOk result (parser.new.nesting ≡ parser.old.nesting) }
{
    let name = parser.read_name()?;
    parser.skip("=")?;
    let value = read_expr(parser)?;
    Ok(Action::Assign { name, value })
}

// Reads a `new`.
#[tactic(auto, unfolding(crate::specs::Statements::new_of))]
fn read_new(parser: &mut Parser<'_>) -> Result<Action, LangFault>
    ensures read { Gives OutOfMemory (λ a. (a, parser.new.state)) result (new_of parser.old.state) }
    ensures nesting { OnOk result (parser.new.nesting ≡ parser.old.nesting) }
{
    parser.advance()?;
    let name = parser.read_declared()?;
    parser.skip(":")?;
    let class = parser.read_name()?;
    Ok(Action::New { name, class })
}

// Reads a `set`.
#[tactic(auto, unfolding(crate::specs::Statements::set_of))]
fn read_set(parser: &mut Parser<'_>) -> Result<Action, LangFault>
    ensures read { Gives OutOfMemory (λ a. (a, parser.new.state)) result (set_of parser.old.nesting parser.old.state) }
    ensures nesting { OnOk result (parser.new.nesting ≡ parser.old.nesting) }
{
    parser.advance()?;
    let UnitSlot { unit, slot } = read_slot(parser)?;
    parser.skip("=")?;
    let value = read_expr(parser)?;
    Ok(Action::Set { unit, slot, value })
}

// Reads a `link`.
#[tactic(auto, unfolding(crate::specs::Statements::link_of))]
fn read_link(parser: &mut Parser<'_>) -> Result<Action, LangFault>
    ensures read { Gives OutOfMemory (λ a. (a, parser.new.state)) result (link_of parser.old.state) }
    ensures nesting { OnOk result (parser.new.nesting ≡ parser.old.nesting) }
{
    parser.advance()?;
    let UnitSlot { unit, slot } = read_slot(parser)?;
    let other = read_variable(parser)?;
    Ok(Action::Link { unit, slot, other })
}

// Reads an `unlink`.
#[tactic(auto, unfolding(crate::specs::Statements::unlink_of))]
fn read_unlink(parser: &mut Parser<'_>) -> Result<Action, LangFault>
    ensures read { Gives OutOfMemory (λ a. (a, parser.new.state)) result (unlink_of parser.old.state) }
    ensures nesting { OnOk result (parser.new.nesting ≡ parser.old.nesting) }
{
    parser.advance()?;
    let UnitSlot { unit, slot } = read_slot(parser)?;
    let other = read_variable(parser)?;
    Ok(Action::Unlink { unit, slot, other })
}

// Reads another expression after a comma, if one follows.
#[tactic(auto, unfolding(crate::specs::Repeats::next_item))]
fn read_next_expr(parser: &mut Parser<'_>) -> Result<Option<Expr>, LangFault>
    ensures read { Gives OutOfMemory (λ o. (o, parser.new.state)) result
        (next_item (expr parser.old.nesting) parser.old.state) }
    ensures nesting { OnOk result (parser.new.nesting ≡ parser.old.nesting) }
{
    if !parser.at(",") {
        return Ok(None);
    }
    parser.advance()?;
    Ok(Some(read_expr(parser)?))
}

// Reads expressions, separated by commas, up to `;`.
#[tactic(auto, unfolding(crate::specs::Repeats::items))]
fn read_exprs(parser: &mut Parser<'_>) -> Result<Vec<Expr>, LangFault>
    ensures read { Gives OutOfMemory (λ v. (v.items, parser.new.state)) result
        (items (codes ";") (expr parser.old.nesting) parser.old.state) }
    ensures nesting { OnOk result (parser.new.nesting ≡ parser.old.nesting) }
{
    let mut exprs = Vec::new(parser.alloc());
    if parser.at(";") {
        return Ok(exprs);
    }
    exprs.push(read_expr(parser)?)?;
    for _turn in 0..parser.left() {
        let Some(expr) = read_next_expr(parser)? else {
            return Ok(exprs);
        };
        exprs.push(expr)?;
    }
    Ok(exprs)
}

// Reads a statement that changes a unit or a name.
#[tactic(auto, unfolding(crate::specs::Statements::change_of, crate::specs::Statements::enter_of, crate::specs::Statements::leave_of, crate::specs::Statements::delete_of))]
fn read_change(parser: &mut Parser<'_>) -> Result<Action, LangFault>
    ensures read { Gives OutOfMemory (λ a. (a, parser.new.state)) result
        (change_of parser.old.nesting parser.old.state) }
    ensures nesting { OnOk result (parser.new.nesting ≡ parser.old.nesting) }
{
    if parser.at("set") {
        return read_set(parser);
    }
    if parser.at("link") {
        return read_link(parser);
    }
    if parser.at("unlink") {
        return read_unlink(parser);
    }
    if parser.at("enter") {
        parser.advance()?;
        let UnitSpace { unit, space } = read_space(parser)?;
        return Ok(Action::Enter { unit, space });
    }
    if parser.at("leave") {
        parser.advance()?;
        let UnitSpace { unit, space } = read_space(parser)?;
        return Ok(Action::Leave { unit, space });
    }
    if parser.at("delete") {
        parser.advance()?;
        let unit = read_variable(parser)?;
        return Ok(Action::Delete { unit });
    }
    read_assign(parser)
}

/// Reads a statement without blocks, up to its `;`.
#[tactic(auto, unfolding(crate::specs::Statements::action_of, crate::specs::Statements::say_of, crate::specs::Statements::rate_of, crate::specs::Statements::decline_of, crate::specs::Statements::answer_of))]
pub(crate) fn read_action(parser: &mut Parser<'_>) -> Result<Action, LangFault>
    ensures read { Gives OutOfMemory (λ a. (a, parser.new.state)) result
        (action_of parser.old.nesting parser.old.state) }
    ensures nesting { OnOk result (parser.new.nesting ≡ parser.old.nesting) }
{
    if parser.at("let") {
        return read_let(parser);
    }
    if parser.at("new") {
        return read_new(parser);
    }
    if parser.at("say") {
        parser.advance()?;
        let exprs = read_exprs(parser)?;
        return Ok(Action::Say(Items::from(exprs)));
    }
    if parser.at("rate") {
        parser.advance()?;
        return Ok(Action::Rate(read_expr(parser)?));
    }
    if parser.at("decline") {
        parser.advance()?;
        return Ok(Action::Decline);
    }
    if parser.at("answer") {
        parser.advance()?;
        return Ok(Action::Answer(read_expr(parser)?));
    }
    read_change(parser)
}
