//! The levels of operators, for the reader of expressions.

ghost use Rattle.std.specs.Prelude.{◌≡◌};
ghost use Rattle.bb_lang.specs.Expressions.{operator_at, division_at, unary_at, binary_at, comparison_at, relation_at};

use bb_lang_tree::{Binary, Division, Operator, Parser, Relation, Unary};

/// Levels of chained operators, from the weakest binding to the strongest. Comparisons are between `And` and `Sum`.
#[derive(Clone, Copy, Debug)]
pub(crate) enum Level {
    /// Operands of `or`.
    Or,
    /// Operands of `and`.
    And,
    /// Operands of `+` and `-`.
    Sum,
    /// Operands of `*`, `/` and `%`.
    Term,
}

/// Returns the token as an operator of a level.
#[tactic(auto, unfolding(crate::specs::Expressions::operator_at))]
pub(crate) fn operator_at(parser: &Parser<'_>, level: Level) -> Option<Operator>
    ensures { result ≡ operator_at level parser.now.state }
{
    match level {
        Level::Or if parser.at("or") => Some(Operator::Or),
        Level::And if parser.at("and") => Some(Operator::And),
        Level::Sum if parser.at("+") => Some(Operator::Plus),
        Level::Sum if parser.at("-") => Some(Operator::Minus),
        Level::Term if parser.at("*") => Some(Operator::Times),
        _ => None,
    }
}

/// Returns the token as a division, at the level of terms only.
#[tactic(auto, unfolding(crate::specs::Expressions::division_at))]
pub(crate) fn division_at(parser: &Parser<'_>, level: Level) -> Option<Division>
    ensures { result ≡ division_at level parser.now.state }
{
    match level {
        Level::Term if parser.at("/") => Some(Division::Quotient),
        Level::Term if parser.at("%") => Some(Division::Remainder),
        _ => None,
    }
}

/// Returns the token as an operation on one operand.
#[tactic(auto, unfolding(crate::specs::Expressions::unary_at))]
pub(crate) fn unary_at(parser: &Parser<'_>) -> Option<Unary>
    ensures { result ≡ unary_at parser.now.state }
{
    if parser.at("not") {
        return Some(Unary::Not);
    }
    if parser.at("low") {
        return Some(Unary::Low);
    }
    if parser.at("high") {
        return Some(Unary::High);
    }
    None
}

/// Returns the token as an operation on two operands.
#[tactic(auto, unfolding(crate::specs::Expressions::binary_at))]
pub(crate) fn binary_at(parser: &Parser<'_>) -> Option<Binary>
    ensures { result ≡ binary_at parser.now.state }
{
    if parser.at("min") {
        return Some(Binary::Min);
    }
    if parser.at("max") {
        return Some(Binary::Max);
    }
    None
}

/// Returns the token as a comparison.
#[tactic(auto, unfolding(crate::specs::Expressions::comparison_at))]
pub(crate) fn comparison_at(parser: &Parser<'_>) -> Option<Binary>
    ensures { result ≡ comparison_at parser.now.state }
{
    if parser.at("<") {
        return Some(Binary::Less);
    }
    if parser.at("<=") {
        return Some(Binary::AtMost);
    }
    if parser.at("=") {
        return Some(Binary::Equal);
    }
    None
}

/// Returns the token as the relation of a test.
#[tactic(auto, unfolding(crate::specs::Expressions::relation_at))]
pub(crate) fn relation_at(parser: &Parser<'_>) -> Option<Relation>
    ensures { result ≡ relation_at parser.now.state }
{
    if parser.at("within") {
        return Some(Relation::Within);
    }
    if parser.at("covers") {
        return Some(Relation::Covers);
    }
    if parser.at("overlaps") {
        return Some(Relation::Overlaps);
    }
    if parser.at("less") {
        return Some(Relation::Less);
    }
    if parser.at("more") {
        return Some(Relation::More);
    }
    if parser.at("is") {
        return Some(Relation::Is);
    }
    None
}
