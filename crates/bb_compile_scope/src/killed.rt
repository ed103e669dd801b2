//! Which names are live at a loop's start: a name is not live there if the body assigns to it, or may delete a unit of
//! its class. The emission of loops calls `kill_under`.

ghost use Rattle.std.specs.Prelude.{◌≡◌, OnOk};
ghost use Rattle.bb_lang_tree.specs.BlockView.{statement_of, otherwise_of};
ghost use Rattle.bb_compile_scope.specs.Killed.{unit_kind, declared, unit_class, value_class, sequence_class, bound_name, bound_class, killed_name, killed_action, killed_statement, killed_otherwise, killed_under, killed_block};

use crate::kinds::class_of;
use crate::scope::{Scope, name_of};
use crate::slots::{link_slot, partner_slot};
use bb_basis::Text;
use bb_code::Kind;
use bb_lang_tree::{Action, Atom, Binding, Block, Expr, ExprNode, Sequence, Statement, Variable};
use bb_schema::Schema;
use bb_schema_classes::ClassId;
use std::alloc::{AllocError, Global};

// Returns the kind that a name is declared with: a live unit's, or, if no class is known, one that is not a unit's.
fn unit_kind(class: Option<ClassId>) -> Kind
    ensures { result ≡ unit_kind class }
{
    match class {
        None => Kind::Int,
        Some(class) => Kind::Ref(class),
    }
}

// Declares a name for the lowest free local, if there is one.
#[tactic(auto, unfolding(crate::specs::Killed::declared))]
fn declare(
    alloc: Global,
    scope: &mut Scope,
    name: &Text,
    class: Option<ClassId>,
) -> Result<(), AllocError>
    ensures { OnOk result (scope.new ≡ declared name.now class scope.old) }
{
    let Some(local) = scope.kinds.free() else {
        return Ok(());
    };
    scope.name_local(alloc, name.as_str(), local, unit_kind(class))
}

// Returns the class of the unit that a name stands for.
#[tactic(auto, unfolding(crate::specs::Killed::unit_class))]
fn unit_class(scope: &Scope, unit: &Variable) -> Option<ClassId>
    ensures { result ≡ unit_class scope.now unit.now }
{
    class_of(scope.kind_of(name_of(unit))?)
}

// Returns the class of the unit that is an expression's value. A chain without steps is its first operand.
fn value_class(scope: &Scope, value: &Expr) -> Option<ClassId>
    ensures { result ≡ value_class scope.now value.now }
{
    match value.node() {
        ExprNode::Atom(Atom::Variable(unit)) => unit_class(scope, unit),
        ExprNode::Chain { first, steps } => match steps.as_slice() {
            [] => value_class(scope, first),
            _ => None,
        },
        _ => None,
    }
}

// Returns the class of the units of a sequence.
fn sequence_class(schema: &Schema, scope: &Scope, sequence: &Sequence) -> Option<ClassId>
    ensures { result ≡ sequence_class schema.now scope.now sequence.now }
{
    match sequence {
        Sequence::Find { class, .. } => schema.class(class.as_str()),
        Sequence::Links { unit, slot } => {
            let class = unit_class(scope, unit)?;
            let (_slot, link) = link_slot(schema, class, slot.as_str()).ok()?;
            Some(link.to)
        }
    }
}

// Returns the name that a `with` declares.
fn bound_name(binding: &Binding) -> &Text
    ensures { result.now ≡ bound_name binding.now }
{
    match binding {
        Binding::As { name, .. } => name,
        Binding::Linked { name, .. } => name,
    }
}

// Returns the class of the unit that a `with` declares a name for.
fn bound_class(schema: &Schema, scope: &Scope, binding: &Binding) -> Option<ClassId>
    ensures { result ≡ bound_class schema.now scope.now binding.now }
{
    match binding {
        Binding::As { class, .. } => schema.class(class.as_str()),
        Binding::Linked { unit, slot, .. } => {
            let class = unit_class(scope, unit)?;
            let (_slot, to) = partner_slot(schema, class, slot.as_str()).ok()?;
            Some(to)
        }
    }
}

// Marks the unit of a name that is assigned to: from then on it may be a deleted one.
#[tactic(auto, unfolding(crate::specs::Killed::killed_name))]
fn kill_name(scope: &mut Scope, name: &Text)
    ensures { scope.new ≡ killed_name name.now scope.old }
{
    let Some(local) = scope.local_of(name.as_str()) else {
        return;
    };
    if let Some(class) = class_of(scope.kinds.get(local)) {
        scope.kinds.put(local, Kind::Old(class));
    }
}

// Walks a statement without blocks.
#[tactic(auto, unfolding(crate::specs::Killed::killed_action))]
fn kill_action(
    alloc: Global,
    schema: &Schema,
    scope: &mut Scope,
    action: &Action,
) -> Result<(), AllocError>
    ensures { OnOk result (scope.new ≡ killed_action schema.now scope.old action.now) }
{
    match action {
        Action::Let { name, value } => {
            let class = value_class(scope, value);
            declare(alloc, scope, name, class)
        }
        Action::New { name, class } => {
            let class = schema.class(class.as_str());
            declare(alloc, scope, name, class)
        }
        Action::Assign { name, .. } => {
            kill_name(scope, name);
            Ok(())
        }
        Action::Delete { unit } => {
            if let Some(class) = unit_class(scope, unit) {
                scope.kinds.strike(schema, class);
            }
            Ok(())
        }
        _ => Ok(()),
    }
}

// Walks the block of an `else`, if there is one.
#[cycle(kill)]
#[tactic(auto, unfolding(crate::specs::Killed::killed_otherwise))]
fn kill_otherwise(
    alloc: Global,
    schema: &Schema,
    scope: &mut Scope,
    otherwise: &Option<Block>,
) -> Result<(), AllocError>
    ensures { OnOk result (scope.new ≡ killed_otherwise schema.now scope.old (otherwise_of otherwise.now)) }
{
    match otherwise {
        None => Ok(()),
        Some(block) => kill(alloc, schema, scope, block),
    }
}

/// Walks a block with a name declared for a unit, and marks the names that are not live after some path through it.
#[cycle(kill)]
pub fn kill_under(
    alloc: Global,
    schema: &Schema,
    scope: &mut Scope,
    name: &Text,
    class: Option<ClassId>,
    block: &Block,
) -> Result<(), AllocError>
    ensures { OnOk result (scope.new ≡ killed_under schema.now scope.old name.now class block.now) }
{
    let mark = scope.mark();
    declare(alloc, scope, name, class)?;
    kill(alloc, schema, scope, block)?;
    scope.leave(&mark);
    Ok(())
}

// Walks a statement.
#[cycle(kill)]
#[tactic(auto, unfolding(crate::specs::Killed::killed_statement))]
fn kill_statement(
    alloc: Global,
    schema: &Schema,
    scope: &mut Scope,
    statement: &Statement,
) -> Result<(), AllocError>
    ensures { OnOk result (scope.new ≡ killed_statement schema.now scope.old (statement_of statement.now)) }
{
    match statement {
        Statement::Action(action) => kill_action(alloc, schema, scope, action),
        Statement::If { branches, .. } => {
            kill(alloc, schema, scope, &branches.then)?;
            kill_otherwise(alloc, schema, scope, &branches.otherwise)
        }
        Statement::With { binding, branches } => {
            let class = bound_class(schema, scope, binding);
            kill_under(
                alloc,
                schema,
                scope,
                bound_name(binding),
                class,
                &branches.then,
            )?;
            kill_otherwise(alloc, schema, scope, &branches.otherwise)
        }
        Statement::For(for_loop) => {
            let class = sequence_class(schema, scope, &for_loop.sequence);
            kill_under(alloc, schema, scope, &for_loop.name, class, &for_loop.body)
        }
    }
}

// Walks a block.
#[cycle(kill)]
#[tactic(auto, unfolding(crate::specs::Killed::killed_statements))]
fn kill(alloc: Global, schema: &Schema, scope: &mut Scope, block: &Block) -> Result<(), AllocError>
    ensures { OnOk result (scope.new ≡ killed_block schema.now scope.old block.now) }
{
    let mark = scope.mark();
    for placed in block.statements() {
        kill_statement(alloc, schema, scope, &placed.statement)?;
    }
    scope.leave(&mark);
    Ok(())
}
