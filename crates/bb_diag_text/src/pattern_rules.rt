//! The grammar rules of sequences and patterns.

use crate::statement_rules::StatementRule;
use crate::symbol::{Alternatives, Rule, Symbol};
use crate::value_rules::ValueRule;

/// A production of what loops iterate over.
#[derive(Clone, Copy, Debug)]
pub(crate) enum PatternRule {
    Sequence,
    Where,
    Pattern,
    Patterns,
    Listed,
    More,
    Relation,
}

impl PatternRule {
    pub(crate) fn alternatives(self) -> Alternatives {
        match self {
            PatternRule::Sequence => &SEQUENCE,
            PatternRule::Where => &WHERE,
            PatternRule::Pattern => &PATTERN,
            PatternRule::Patterns => &PATTERNS,
            PatternRule::Listed => &LISTED,
            PatternRule::More => &MORE,
            PatternRule::Relation => &RELATION,
        }
    }

    pub(crate) fn called(self) -> Option<&'static str> {
        match self {
            PatternRule::Sequence => Some("a sequence"),
            PatternRule::Pattern => Some("a pattern"),
            PatternRule::Relation => Some("a relation (within, covers, overlaps, less, more, is)"),
            _ => None,
        }
    }
}

const OPEN: Symbol = Symbol::Word("(");

const CLOSE: Symbol = Symbol::Word(")");

const PATTERN_RULE: Symbol = Symbol::Rule(Rule::Pattern(PatternRule::Pattern));

const PATTERNS_RULE: Symbol = Symbol::Rule(Rule::Pattern(PatternRule::Patterns));

const MORE_RULE: Symbol = Symbol::Rule(Rule::Pattern(PatternRule::More));

const EXPR: Symbol = Symbol::Rule(Rule::Value(ValueRule::Expr));

const SEQUENCE: [&[Symbol]; 2] = [
    &[
        Symbol::Word("find"),
        Symbol::Name("a class"),
        Symbol::Word("in"),
        Symbol::Name("a space"),
        Symbol::Rule(Rule::Pattern(PatternRule::Where)),
    ],
    &[
        Symbol::Rule(Rule::Statement(StatementRule::Unit)),
        Symbol::Word("."),
        Symbol::Slot,
    ],
];

const WHERE: [&[Symbol]; 2] = [&[Symbol::Word("where"), PATTERN_RULE], &[]];

const PATTERN: [&[Symbol]; 5] = [
    &[Symbol::Word("all")],
    &[Symbol::Word("and"), PATTERNS_RULE],
    &[Symbol::Word("or"), PATTERNS_RULE],
    &[Symbol::Word("not"), OPEN, PATTERN_RULE, CLOSE],
    &[
        Symbol::Name("a dimension"),
        Symbol::Rule(Rule::Pattern(PatternRule::Relation)),
        EXPR,
    ],
];

const PATTERNS: [&[Symbol]; 1] = [&[
    OPEN,
    Symbol::Rule(Rule::Pattern(PatternRule::Listed)),
    CLOSE,
]];

const LISTED: [&[Symbol]; 2] = [&[PATTERN_RULE, MORE_RULE], &[]];

const MORE: [&[Symbol]; 2] = [&[Symbol::Word(","), PATTERN_RULE, MORE_RULE], &[]];

const RELATION: [&[Symbol]; 6] = [
    &[Symbol::Word("within")],
    &[Symbol::Word("covers")],
    &[Symbol::Word("overlaps")],
    &[Symbol::Word("less")],
    &[Symbol::Word("more")],
    &[Symbol::Word("is")],
];
