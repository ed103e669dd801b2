//! The grammar rules of blocks and statements.

use crate::pattern_rules::PatternRule;
use crate::symbol::{Alternatives, Rule, Symbol};
use crate::value_rules::ValueRule;

/// A production of the grammar in blocks.
#[derive(Clone, Copy, Debug)]
pub(crate) enum StatementRule {
    Block,
    Statements,
    Statement,
    Otherwise,
    Bound,
    Unit,
    Values,
    MoreValues,
}

impl StatementRule {
    pub(crate) fn alternatives(self) -> Alternatives {
        match self {
            StatementRule::Block => &BLOCK,
            StatementRule::Statements => &STATEMENTS,
            StatementRule::Statement => &STATEMENT,
            StatementRule::Otherwise => &OTHERWISE,
            StatementRule::Bound => &BOUND,
            StatementRule::Unit => &UNIT,
            StatementRule::Values => &VALUES,
            StatementRule::MoreValues => &MORE_VALUES,
        }
    }

    pub(crate) fn called(self) -> Option<&'static str> {
        match self {
            StatementRule::Statement => Some("a statement"),
            StatementRule::Unit => Some("the name of a unit"),
            _ => None,
        }
    }
}

const END: Symbol = Symbol::Word(";");

const GIVES: Symbol = Symbol::Word("=");

const DOT: Symbol = Symbol::Word(".");

const CLASS: Symbol = Symbol::Name("a class");

const SPACE: Symbol = Symbol::Name("a space");

const NEW: Symbol = Symbol::Name("a new name");

const EXPR: Symbol = Symbol::Rule(Rule::Value(ValueRule::Expr));

const SEQUENCE: Symbol = Symbol::Rule(Rule::Pattern(PatternRule::Sequence));

const BLOCK_RULE: Symbol = Symbol::Rule(Rule::Statement(StatementRule::Block));

const UNIT_RULE: Symbol = Symbol::Rule(Rule::Statement(StatementRule::Unit));

const OTHERWISE_RULE: Symbol = Symbol::Rule(Rule::Statement(StatementRule::Otherwise));

const BOUND_RULE: Symbol = Symbol::Rule(Rule::Statement(StatementRule::Bound));

const MORE_RULE: Symbol = Symbol::Rule(Rule::Statement(StatementRule::MoreValues));

const BLOCK: [&[Symbol]; 1] = [&[
    Symbol::Word("{"),
    Symbol::Rule(Rule::Statement(StatementRule::Statements)),
    Symbol::Word("}"),
]];

const STATEMENTS: [&[Symbol]; 2] = [
    &[
        Symbol::Rule(Rule::Statement(StatementRule::Statement)),
        Symbol::Rule(Rule::Statement(StatementRule::Statements)),
    ],
    &[],
];

const STATEMENT: [&[Symbol]; 16] = [
    &[Symbol::Word("let"), NEW, GIVES, EXPR, END],
    &[Symbol::Word("if"), EXPR, BLOCK_RULE, OTHERWISE_RULE],
    &[
        Symbol::Word("with"),
        NEW,
        GIVES,
        UNIT_RULE,
        BOUND_RULE,
        BLOCK_RULE,
        OTHERWISE_RULE,
    ],
    &[
        Symbol::Word("for"),
        NEW,
        Symbol::Word("in"),
        SEQUENCE,
        BLOCK_RULE,
    ],
    &[Symbol::Word("new"), NEW, Symbol::Word(":"), CLASS, END],
    &[
        Symbol::Word("set"),
        UNIT_RULE,
        DOT,
        Symbol::Slot,
        GIVES,
        EXPR,
        END,
    ],
    &[
        Symbol::Word("link"),
        UNIT_RULE,
        DOT,
        Symbol::Slot,
        UNIT_RULE,
        END,
    ],
    &[
        Symbol::Word("unlink"),
        UNIT_RULE,
        DOT,
        Symbol::Slot,
        UNIT_RULE,
        END,
    ],
    &[Symbol::Word("enter"), UNIT_RULE, SPACE, END],
    &[Symbol::Word("leave"), UNIT_RULE, SPACE, END],
    &[Symbol::Word("delete"), UNIT_RULE, END],
    &[
        Symbol::Word("say"),
        Symbol::Rule(Rule::Statement(StatementRule::Values)),
        END,
    ],
    &[Symbol::Word("rate"), EXPR, END],
    &[Symbol::Word("answer"), EXPR, END],
    &[Symbol::Word("decline"), END],
    &[Symbol::Name("a name"), GIVES, EXPR, END],
];

const OTHERWISE: [&[Symbol]; 2] = [&[Symbol::Word("else"), BLOCK_RULE], &[]];

const BOUND: [&[Symbol]; 2] = [&[Symbol::Word("as"), CLASS], &[DOT, Symbol::Slot]];

const UNIT: [&[Symbol]; 3] = [
    &[Symbol::Word("it")],
    &[Symbol::Word("ev")],
    &[Symbol::Name("the name of a unit")],
];

const VALUES: [&[Symbol]; 2] = [&[EXPR, MORE_RULE], &[]];

const MORE_VALUES: [&[Symbol]; 2] = [&[Symbol::Word(","), EXPR, MORE_RULE], &[]];
