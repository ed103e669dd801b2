//! Readers of expressions, sequences and patterns: a function for each production. The reader of statements calls
//! `read_expr` and `read_sequence`.

ghost use Rattle.std.specs.Prelude.{◌≡◌, ◌+◌, IfOk, OnOk, codes};
ghost use Rattle.bb_basis.specs.Results.{Gives};
ghost use Rattle.bb_lang_tree.specs.declared.fault.LangFault.TheVariants.{Memory as OutOfMemory};
ghost use Rattle.bb_lang_tree.specs.Trees.{binary as tree_binary};
ghost use Rattle.bb_lang_tree.specs.State.{skip};
ghost use Rattle.bb_lang.specs.Repeats.{as_many, items, next_item};
ghost use Rattle.bb_lang.specs.Expressions.{opened, inside, inner_of, chained, step, operand_of, chain_at, comparison};
ghost use Rattle.bb_lang.specs.Expressions.{factor, grouped, pair_of, linked_to, sequence, expr, pattern};

use crate::atoms::{read_atom, read_variable};
use crate::level::{
    Level, binary_at, comparison_at, division_at, operator_at, relation_at, unary_at,
};
use bb_lang_tree::{
    Binary, Expr, ExprNode, LangFault, Parser, Pattern, PatternNode, Sequence, Step,
};
use std::alloc::{AllocError, Global};

// Makes a chain of an operand and the steps after it; without steps, returns the operand alone.
fn chained(alloc: Global, first: Expr, steps: Vec<Step>) -> Result<Expr, AllocError>
    ensures { IfOk result (λ e. e ≡ chained first steps.items) }
{
    if steps.is_empty() {
        return Ok(first);
    }
    let first = Box::new(alloc, first)?;
    Ok(Expr::new(ExprNode::Chain { first, steps }))
}

// Makes an operation on two operands.
fn binary(alloc: Global, operation: Binary, left: Expr, right: Expr) -> Result<Expr, AllocError>
    ensures { IfOk result (λ e. e ≡ tree_binary operation left right) }
{
    let left = Box::new(alloc, left)?;
    let right = Box::new(alloc, right)?;
    Ok(Expr::new(ExprNode::Binary {
        operation,
        left,
        right,
    }))
}

/// Reads an opening bracket, inside which one bracket less may be opened. Returns how many may be opened after the
/// closing one. `Token`: the token is another one. `Nesting`: no more brackets may be opened.
#[tactic(auto, unfolding(crate::specs::Expressions::opened))]
pub(crate) fn open(parser: &mut Parser<'_>, bracket: &str) -> Result<usize, LangFault>
    ensures inner { Gives OutOfMemory (λ _. (inner_of parser.new.nesting, parser.new.state)) result
        (opened bracket.now (inside parser.old.nesting) parser.old.state) }
    ensures one { OnOk result (parser.new.nesting + 1 ≡ parser.old.nesting) }
    ensures outer { IfOk result (λ outer. outer ≡ parser.old.nesting) }
{
    let place = parser.place();
    if !parser.at(bracket) {
        return Err(LangFault::Token { place });
    }
    let nesting = parser.nesting();
    if nesting == 0 {
        return Err(LangFault::Nesting { place });
    }
    parser.advance()?;
    parser.set_nesting(nesting - 1);
    Ok(nesting)
}

/// Reads a closing bracket, after which `outer` brackets may be opened.
pub(crate) fn close(parser: &mut Parser<'_>, bracket: &str, outer: usize) -> Result<(), LangFault>
    ensures read { Gives OutOfMemory (λ _. parser.new.state) result (skip bracket.now parser.old.state) }
    ensures outer { OnOk result (parser.new.nesting ≡ outer) }
{
    parser.skip(bracket)?;
    parser.set_nesting(outer);
    Ok(())
}

// Reads a link slot of a unit, as the sequence of its partners.
#[tactic(auto, unfolding(crate::specs::Expressions::linked_to))]
fn read_links(parser: &mut Parser<'_>) -> Result<Sequence, LangFault>
    ensures read { Gives OutOfMemory (λ q. (q, parser.new.state)) result (linked_to parser.old.state) }
    ensures nesting { OnOk result (parser.new.nesting ≡ parser.old.nesting) }
{
    let unit = read_variable(parser)?;
    parser.skip(".")?;
    let slot = parser.read_member()?;
    Ok(Sequence::Links { unit, slot })
}

// Reads an operand of a level.
#[cycle(reading)]
fn read_operand(parser: &mut Parser<'_>, level: Level) -> Result<Expr, LangFault>
    ensures read { Gives OutOfMemory (λ e. (e, parser.new.state)) result
        (operand_of level (inside parser.old.nesting) parser.old.state) }
    ensures nesting { OnOk result (parser.new.nesting ≡ parser.old.nesting) }
{
    match level {
        Level::Or => read_chain(parser, Level::And),
        Level::And => read_comparison(parser),
        Level::Sum => read_chain(parser, Level::Term),
        Level::Term => read_factor(parser),
    }
}

// Reads the next operator of a level with its operand, if one follows.
#[cycle(reading)]
#[tactic(auto, unfolding(crate::specs::Expressions::step, crate::specs::Expressions::step_by))]
fn read_step(parser: &mut Parser<'_>, level: Level) -> Result<Option<Step>, LangFault>
    ensures read { Gives OutOfMemory (λ o. (o, parser.new.state)) result
        (step level (operand_of level (inside parser.old.nesting)) parser.old.state) }
    ensures nesting { OnOk result (parser.new.nesting ≡ parser.old.nesting) }
{
    if let Some(division) = division_at(parser, level) {
        parser.advance()?;
        let divisor = parser.read_divisor()?;
        return Ok(Some(Step::Divide { division, divisor }));
    }
    let Some(operator) = operator_at(parser, level) else {
        return Ok(None);
    };
    parser.advance()?;
    let operand = read_operand(parser, level)?;
    Ok(Some(Step::Apply { operator, operand }))
}

// Reads all steps of a level that follow.
#[cycle(reading)]
#[tactic(auto, unfolding(crate::specs::Repeats::as_many))]
fn read_steps(parser: &mut Parser<'_>, level: Level) -> Result<Vec<Step>, LangFault>
    ensures read { Gives OutOfMemory (λ v. (v.items, parser.new.state)) result
        (as_many (step level (operand_of level (inside parser.old.nesting))) parser.old.state) }
    ensures nesting { OnOk result (parser.new.nesting ≡ parser.old.nesting) }
{
    let mut steps = Vec::new(parser.alloc());
    for _turn in 0..parser.left() {
        let Some(step) = read_step(parser, level)? else {
            return Ok(steps);
        };
        steps.push(step)?;
    }
    Ok(steps)
}

// Reads operands with the operators of a level between them.
#[cycle(reading)]
fn read_chain(parser: &mut Parser<'_>, level: Level) -> Result<Expr, LangFault>
    ensures read { Gives OutOfMemory (λ e. (e, parser.new.state)) result
        (chain_at level (inside parser.old.nesting) parser.old.state) }
    ensures nesting { OnOk result (parser.new.nesting ≡ parser.old.nesting) }
{
    let first = read_operand(parser, level)?;
    let steps = read_steps(parser, level)?;
    Ok(chained(parser.alloc(), first, steps)?)
}

// Reads a sum, or a comparison of two sums.
#[cycle(reading)]
#[tactic(auto, unfolding(crate::specs::Expressions::comparison, crate::specs::Expressions::compared))]
fn read_comparison(parser: &mut Parser<'_>) -> Result<Expr, LangFault>
    ensures read { Gives OutOfMemory (λ e. (e, parser.new.state)) result
        (comparison (inside parser.old.nesting) parser.old.state) }
    ensures nesting { OnOk result (parser.new.nesting ≡ parser.old.nesting) }
{
    let left = read_chain(parser, Level::Sum)?;
    let Some(operation) = comparison_at(parser) else {
        return Ok(left);
    };
    parser.advance()?;
    let right = read_chain(parser, Level::Sum)?;
    Ok(binary(parser.alloc(), operation, left, right)?)
}

// Reads an expression in parentheses.
#[cycle(reading)]
#[tactic(auto, unfolding(crate::specs::Expressions::grouped))]
fn read_group(parser: &mut Parser<'_>) -> Result<Expr, LangFault>
    ensures read { Gives OutOfMemory (λ e. (e, parser.new.state)) result
        (grouped (inside parser.old.nesting) parser.old.state) }
    ensures nesting { OnOk result (parser.new.nesting ≡ parser.old.nesting) }
{
    let outer = open(parser, "(")?;
    let expr = read_chain(parser, Level::Or)?;
    close(parser, ")", outer)?;
    Ok(expr)
}

// Reads an operation on two expressions in brackets, with a comma between them.
#[cycle(reading)]
#[tactic(auto, unfolding(crate::specs::Expressions::pair_of))]
fn read_pair(
    parser: &mut Parser<'_>,
    operation: Binary,
    opening: &str,
    closing: &str,
) -> Result<Expr, LangFault>
    ensures read { Gives OutOfMemory (λ e. (e, parser.new.state)) result
        (pair_of operation opening.now closing.now (inside parser.old.nesting) parser.old.state) }
    ensures nesting { OnOk result (parser.new.nesting ≡ parser.old.nesting) }
{
    let outer = open(parser, opening)?;
    let left = read_chain(parser, Level::Or)?;
    parser.skip(",")?;
    let right = read_chain(parser, Level::Or)?;
    close(parser, closing, outer)?;
    Ok(binary(parser.alloc(), operation, left, right)?)
}

// Reads an operand of `*`: something in brackets, an operation, or an expression without parts.
#[cycle(reading)]
#[tactic(auto, unfolding(crate::specs::Expressions::factor, crate::specs::Expressions::interval, crate::specs::Expressions::sized, crate::specs::Expressions::applied))]
fn read_factor(parser: &mut Parser<'_>) -> Result<Expr, LangFault>
    ensures read { Gives OutOfMemory (λ e. (e, parser.new.state)) result
        (factor (inside parser.old.nesting) parser.old.state) }
    ensures nesting { OnOk result (parser.new.nesting ≡ parser.old.nesting) }
{
    if parser.at("(") {
        return read_group(parser);
    }
    if parser.at("[") {
        return read_pair(parser, Binary::Interval, "[", "]");
    }
    if parser.at("size") {
        parser.advance()?;
        let outer = open(parser, "(")?;
        let sequence = read_sequence(parser)?;
        close(parser, ")", outer)?;
        let sequence = Box::new(parser.alloc(), sequence)?;
        return Ok(Expr::new(ExprNode::Size(sequence)));
    }
    if let Some(operation) = unary_at(parser) {
        parser.advance()?;
        let operand = read_group(parser)?;
        let operand = Box::new(parser.alloc(), operand)?;
        return Ok(Expr::new(ExprNode::Unary { operation, operand }));
    }
    if let Some(operation) = binary_at(parser) {
        parser.advance()?;
        return read_pair(parser, operation, "(", ")");
    }
    let atom = read_atom(parser)?;
    Ok(Expr::new(ExprNode::Atom(atom)))
}

/// Reads the sequence that a loop iterates over.
#[cycle(reading)]
#[tactic(auto, unfolding(crate::specs::Expressions::sequence, crate::specs::Expressions::found_in, crate::specs::Expressions::condition))]
pub(crate) fn read_sequence(parser: &mut Parser<'_>) -> Result<Sequence, LangFault>
    ensures read { Gives OutOfMemory (λ q. (q, parser.new.state)) result
        (sequence (pattern parser.old.nesting) parser.old.state) }
    ensures nesting { OnOk result (parser.new.nesting ≡ parser.old.nesting) }
{
    if !parser.at("find") {
        return read_links(parser);
    }
    parser.skip("find")?;
    let class = parser.read_name()?;
    parser.skip("in")?;
    let space = parser.read_name()?;
    if !parser.at("where") {
        return Ok(Sequence::Find {
            class,
            space,
            pattern: Pattern::new(PatternNode::All),
        });
    }
    parser.advance()?;
    let pattern = read_pattern(parser)?;
    Ok(Sequence::Find {
        class,
        space,
        pattern,
    })
}

// Reads another pattern after a comma, if one follows.
#[cycle(reading)]
#[tactic(auto, unfolding(crate::specs::Repeats::next_item))]
fn read_next_pattern(parser: &mut Parser<'_>) -> Result<Option<Pattern>, LangFault>
    ensures read { Gives OutOfMemory (λ o. (o, parser.new.state)) result
        (next_item (pattern parser.old.nesting) parser.old.state) }
    ensures nesting { OnOk result (parser.new.nesting ≡ parser.old.nesting) }
{
    if !parser.at(",") {
        return Ok(None);
    }
    parser.advance()?;
    Ok(Some(read_pattern(parser)?))
}

// Reads patterns, separated by commas, up to `)`.
#[cycle(reading)]
#[tactic(auto, unfolding(crate::specs::Repeats::items, crate::specs::Repeats::as_many))]
fn read_patterns(parser: &mut Parser<'_>) -> Result<Vec<Pattern>, LangFault>
    ensures read { Gives OutOfMemory (λ v. (v.items, parser.new.state)) result
        (items (codes ")") (pattern parser.old.nesting) parser.old.state) }
    ensures nesting { OnOk result (parser.new.nesting ≡ parser.old.nesting) }
{
    let mut patterns = Vec::new(parser.alloc());
    if parser.at(")") {
        return Ok(patterns);
    }
    patterns.push(read_pattern(parser)?)?;
    for _turn in 0..parser.left() {
        let Some(pattern) = read_next_pattern(parser)? else {
            return Ok(patterns);
        };
        patterns.push(pattern)?;
    }
    Ok(patterns)
}

// Reads a pattern.
#[cycle(reading)]
#[tactic(auto, unfolding(crate::specs::Expressions::pattern_in, crate::specs::Expressions::parts, crate::specs::Expressions::part, crate::specs::Expressions::tested))]
fn read_pattern(parser: &mut Parser<'_>) -> Result<Pattern, LangFault>
    ensures read { Gives OutOfMemory (λ p. (p, parser.new.state)) result (pattern parser.old.nesting parser.old.state) }
    ensures nesting { OnOk result (parser.new.nesting ≡ parser.old.nesting) }
{
    if parser.at("all") {
        parser.advance()?;
        return Ok(Pattern::new(PatternNode::All));
    }
    if parser.at("and") {
        parser.advance()?;
        let outer = open(parser, "(")?;
        let parts = read_patterns(parser)?;
        close(parser, ")", outer)?;
        return Ok(Pattern::new(PatternNode::And(parts)));
    }
    if parser.at("or") {
        parser.advance()?;
        let outer = open(parser, "(")?;
        let parts = read_patterns(parser)?;
        close(parser, ")", outer)?;
        return Ok(Pattern::new(PatternNode::Or(parts)));
    }
    if parser.at("not") {
        parser.advance()?;
        let outer = open(parser, "(")?;
        let part = read_pattern(parser)?;
        close(parser, ")", outer)?;
        return Ok(Pattern::new(PatternNode::Not(Box::new(parser.alloc(), part)?)));
    }
    let dimension = parser.read_name()?;
    let place = parser.place();
    let relation = relation_at(parser).ok_or(LangFault::Token { place })?;
    parser.advance()?;
    let operand = read_chain(parser, Level::Or)?;
    Ok(Pattern::new(PatternNode::Test {
        dimension,
        relation,
        operand,
    }))
}

/// Reads an expression.
pub(crate) fn read_expr(parser: &mut Parser<'_>) -> Result<Expr, LangFault>
    ensures read { Gives OutOfMemory (λ e. (e, parser.new.state)) result (expr parser.old.nesting parser.old.state) }
    ensures nesting { OnOk result (parser.new.nesting ≡ parser.old.nesting) }
{
    read_chain(parser, Level::Or)
}
