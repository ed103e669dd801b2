//! The grammar rules of expressions, from the weakest binding.

use crate::pattern_rules::PatternRule;
use crate::symbol::{Alternatives, Rule, Symbol};

/// A production of expressions.
#[derive(Clone, Copy, Debug)]
pub(crate) enum ValueRule {
    Expr,
    Ors,
    Both,
    Ands,
    Comparison,
    Compared,
    Sum,
    Summands,
    Term,
    Factors,
    Factor,
    Group,
    Pair,
    Member,
    Named,
}

impl ValueRule {
    pub(crate) fn alternatives(self) -> Alternatives {
        match self {
            ValueRule::Expr => &EXPR,
            ValueRule::Ors => &ORS,
            ValueRule::Both => &BOTH,
            ValueRule::Ands => &ANDS,
            ValueRule::Comparison => &COMPARISON,
            ValueRule::Compared => &COMPARED,
            ValueRule::Sum => &SUM,
            ValueRule::Summands => &SUMMANDS,
            ValueRule::Term => &TERM,
            ValueRule::Factors => &FACTORS,
            ValueRule::Factor => &FACTOR,
            ValueRule::Group => &GROUP,
            ValueRule::Pair => &PAIR,
            ValueRule::Member => &MEMBER,
            ValueRule::Named => &NAMED,
        }
    }

    pub(crate) fn called(self) -> Option<&'static str> {
        match self {
            ValueRule::Expr | ValueRule::Both | ValueRule::Sum => Some("a value"),
            ValueRule::Term | ValueRule::Factor => Some("a value"),
            ValueRule::Ors | ValueRule::Ands | ValueRule::Compared => Some("an operator"),
            ValueRule::Summands | ValueRule::Factors => Some("an operator"),
            ValueRule::Member | ValueRule::Named => Some("an operator"),
            _ => None,
        }
    }
}

const OR: Symbol = Symbol::Word("or");

const AND: Symbol = Symbol::Word("and");

const COMMA: Symbol = Symbol::Word(",");

const OPEN: Symbol = Symbol::Word("(");

const CLOSE: Symbol = Symbol::Word(")");

const EXPR_RULE: Symbol = Symbol::Rule(Rule::Value(ValueRule::Expr));

const ORS_RULE: Symbol = Symbol::Rule(Rule::Value(ValueRule::Ors));

const BOTH_RULE: Symbol = Symbol::Rule(Rule::Value(ValueRule::Both));

const ANDS_RULE: Symbol = Symbol::Rule(Rule::Value(ValueRule::Ands));

const COMPARISON_RULE: Symbol = Symbol::Rule(Rule::Value(ValueRule::Comparison));

const SUM_RULE: Symbol = Symbol::Rule(Rule::Value(ValueRule::Sum));

const SUMMANDS_RULE: Symbol = Symbol::Rule(Rule::Value(ValueRule::Summands));

const TERM_RULE: Symbol = Symbol::Rule(Rule::Value(ValueRule::Term));

const FACTORS_RULE: Symbol = Symbol::Rule(Rule::Value(ValueRule::Factors));

const FACTOR_RULE: Symbol = Symbol::Rule(Rule::Value(ValueRule::Factor));

const GROUP_RULE: Symbol = Symbol::Rule(Rule::Value(ValueRule::Group));

const PAIR_RULE: Symbol = Symbol::Rule(Rule::Value(ValueRule::Pair));

const MEMBER_RULE: Symbol = Symbol::Rule(Rule::Value(ValueRule::Member));

const SEQUENCE_RULE: Symbol = Symbol::Rule(Rule::Pattern(PatternRule::Sequence));

const EXPR: [&[Symbol]; 1] = [&[BOTH_RULE, ORS_RULE]];

const ORS: [&[Symbol]; 2] = [&[OR, BOTH_RULE, ORS_RULE], &[]];

const BOTH: [&[Symbol]; 1] = [&[COMPARISON_RULE, ANDS_RULE]];

const ANDS: [&[Symbol]; 2] = [&[AND, COMPARISON_RULE, ANDS_RULE], &[]];

const COMPARISON: [&[Symbol]; 1] = [&[SUM_RULE, Symbol::Rule(Rule::Value(ValueRule::Compared))]];

const COMPARED: [&[Symbol]; 4] = [
    &[Symbol::Word("<"), SUM_RULE],
    &[Symbol::Word("<="), SUM_RULE],
    &[Symbol::Word("="), SUM_RULE],
    &[],
];

const SUM: [&[Symbol]; 1] = [&[TERM_RULE, SUMMANDS_RULE]];

const SUMMANDS: [&[Symbol]; 3] = [
    &[Symbol::Word("+"), TERM_RULE, SUMMANDS_RULE],
    &[Symbol::Word("-"), TERM_RULE, SUMMANDS_RULE],
    &[],
];

const TERM: [&[Symbol]; 1] = [&[FACTOR_RULE, FACTORS_RULE]];

const FACTORS: [&[Symbol]; 4] = [
    &[Symbol::Word("*"), FACTOR_RULE, FACTORS_RULE],
    &[Symbol::Word("/"), Symbol::Int, FACTORS_RULE],
    &[Symbol::Word("%"), Symbol::Int, FACTORS_RULE],
    &[],
];

const FACTOR: [&[Symbol]; 16] = [
    &[OPEN, EXPR_RULE, CLOSE],
    &[
        Symbol::Word("["),
        EXPR_RULE,
        COMMA,
        EXPR_RULE,
        Symbol::Word("]"),
    ],
    &[Symbol::Word("size"), OPEN, SEQUENCE_RULE, CLOSE],
    &[Symbol::Word("not"), GROUP_RULE],
    &[Symbol::Word("low"), GROUP_RULE],
    &[Symbol::Word("high"), GROUP_RULE],
    &[Symbol::Word("min"), PAIR_RULE],
    &[Symbol::Word("max"), PAIR_RULE],
    &[Symbol::Word("-"), Symbol::Int],
    &[Symbol::Int],
    &[Symbol::Text],
    &[Symbol::Word("true")],
    &[Symbol::Word("false")],
    &[Symbol::Word("it"), MEMBER_RULE],
    &[Symbol::Word("ev"), MEMBER_RULE],
    &[
        Symbol::Name("a name"),
        Symbol::Rule(Rule::Value(ValueRule::Named)),
    ],
];

const GROUP: [&[Symbol]; 1] = [&[OPEN, EXPR_RULE, CLOSE]];

const PAIR: [&[Symbol]; 1] = [&[OPEN, EXPR_RULE, COMMA, EXPR_RULE, CLOSE]];

const MEMBER: [&[Symbol]; 2] = [&[Symbol::Word("."), Symbol::Slot], &[]];

const NAMED: [&[Symbol]; 3] = [
    &[Symbol::Word("."), Symbol::Slot],
    &[Symbol::Word(":"), Symbol::Name("a label")],
    &[],
];
