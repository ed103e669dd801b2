//! Readers of atoms: expressions without parts. The reader of expressions calls `read_atom` if no bracket opens.

ghost use Rattle.std.specs.Prelude.{◌≡◌, OnOk};
ghost use Rattle.bb_basis.specs.Results.{Gives};
ghost use Rattle.bb_lang_tree.specs.declared.fault.LangFault.TheVariants.{Memory as OutOfMemory};
ghost use Rattle.bb_lang.specs.Expressions.{variable_at, variable, label_or_variable, named, atom_of};

use bb_lang_tree::{Atom, LangFault, Parser, Variable};

// Returns the token as a variable: `it`, `ev` or a name.
#[tactic(auto, unfolding(crate::specs::Expressions::variable_at))]
fn variable_at(parser: &Parser<'_>) -> Result<Variable, LangFault>
    ensures { Gives OutOfMemory (λ v. v) result (variable_at parser.now.state) }
{
    if parser.at("it") {
        return Ok(Variable::It);
    }
    if parser.at("ev") {
        return Ok(Variable::Ev);
    }
    Ok(Variable::Named(parser.name_at()?))
}

/// Reads a variable: the name of a unit or another value.
#[tactic(auto, unfolding(crate::specs::Expressions::variable))]
pub(crate) fn read_variable(parser: &mut Parser<'_>) -> Result<Variable, LangFault>
    ensures read { Gives OutOfMemory (λ v. (v, parser.new.state)) result (variable parser.old.state) }
    ensures nesting { OnOk result (parser.new.nesting ≡ parser.old.nesting) }
{
    let variable = variable_at(parser)?;
    parser.advance()?;
    Ok(variable)
}

// Reads the rest after a variable: the label of a set, or nothing.
#[tactic(auto, unfolding(crate::specs::Expressions::label_or_variable))]
fn read_label(parser: &mut Parser<'_>, variable: Variable) -> Result<Atom, LangFault>
    ensures read { Gives OutOfMemory (λ a. (a, parser.new.state)) result (label_or_variable variable parser.old.state) }
    ensures nesting { OnOk result (parser.new.nesting ≡ parser.old.nesting) }
{
    let Variable::Named(set) = &variable else {
        return Ok(Atom::Variable(variable));
    };
    if !parser.at(":") {
        return Ok(Atom::Variable(variable));
    }
    let set = set.clone()?;
    parser.advance()?;
    let label = parser.read_name()?;
    Ok(Atom::Label { set, label })
}

// Reads an atom that begins with a name.
#[tactic(auto, unfolding(crate::specs::Expressions::named))]
fn read_named(parser: &mut Parser<'_>) -> Result<Atom, LangFault>
    ensures read { Gives OutOfMemory (λ a. (a, parser.new.state)) result (named parser.old.state) }
    ensures nesting { OnOk result (parser.new.nesting ≡ parser.old.nesting) }
{
    let unit = read_variable(parser)?;
    if !parser.at(".") {
        return read_label(parser, unit);
    }
    parser.advance()?;
    let slot = parser.read_member()?;
    Ok(Atom::Slot { unit, slot })
}

/// Reads an expression without parts.
#[tactic(auto, unfolding(crate::specs::Expressions::atom_of))]
pub(crate) fn read_atom(parser: &mut Parser<'_>) -> Result<Atom, LangFault>
    ensures read { Gives OutOfMemory (λ a. (a, parser.new.state)) result (atom_of parser.old.state) }
    ensures nesting { OnOk result (parser.new.nesting ≡ parser.old.nesting) }
{
    if parser.kind().is_int() || parser.at("-") {
        return Ok(Atom::Int(parser.read_int()?));
    }
    if parser.kind().is_text() {
        return Ok(Atom::Text(parser.read_text()?));
    }
    if parser.at("true") {
        parser.advance()?;
        return Ok(Atom::Bool(true));
    }
    if parser.at("false") {
        parser.advance()?;
        return Ok(Atom::Bool(false));
    }
    read_named(parser)
}
