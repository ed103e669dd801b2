//! The grammar rules of sources, their events and their parts.

use crate::statement_rules::StatementRule;
use crate::symbol::{Alternatives, Rule, Symbol};

/// A production of the grammar outside blocks.
#[derive(Clone, Copy, Debug)]
pub(crate) enum OuterRule {
    Sources,
    Source,
    Clauses,
    Clause,
    Event,
    Number,
    Require,
    Obviate,
    Retrigger,
    Revalidate,
    Act,
}

impl OuterRule {
    pub(crate) fn alternatives(self) -> Alternatives {
        match self {
            OuterRule::Sources => &SOURCES,
            OuterRule::Source => &SOURCE,
            OuterRule::Clauses => &CLAUSES,
            OuterRule::Clause => &CLAUSE,
            OuterRule::Event => &EVENT,
            OuterRule::Number => &NUMBER,
            OuterRule::Require => &REQUIRE,
            OuterRule::Obviate => &OBVIATE,
            OuterRule::Retrigger => &RETRIGGER,
            OuterRule::Revalidate => &REVALIDATE,
            OuterRule::Act => &ACT,
        }
    }

    pub(crate) fn called(self) -> Option<&'static str> {
        match self {
            OuterRule::Event => Some("an event"),
            OuterRule::Number => Some("a written number"),
            _ => None,
        }
    }
}

const CLASS: Symbol = Symbol::Name("a class");

const BLOCK: Symbol = Symbol::Rule(Rule::Statement(StatementRule::Block));

const CLAUSE_RULE: Symbol = Symbol::Rule(Rule::Outer(OuterRule::Clause));

const CLAUSES_RULE: Symbol = Symbol::Rule(Rule::Outer(OuterRule::Clauses));

const ON: Symbol = Symbol::Word("on");

const SOURCES: [&[Symbol]; 2] = [
    &[
        Symbol::Rule(Rule::Outer(OuterRule::Source)),
        Symbol::Rule(Rule::Outer(OuterRule::Sources)),
    ],
    &[],
];

const SOURCE: [&[Symbol]; 1] = [&[
    Symbol::Word("source"),
    Symbol::Name("the name of a source"),
    ON,
    CLASS,
    Symbol::Word("{"),
    CLAUSE_RULE,
    CLAUSES_RULE,
    Symbol::Word("rate"),
    Symbol::Rule(Rule::Outer(OuterRule::Number)),
    Symbol::Word(";"),
    Symbol::Rule(Rule::Outer(OuterRule::Require)),
    Symbol::Rule(Rule::Outer(OuterRule::Obviate)),
    Symbol::Rule(Rule::Outer(OuterRule::Retrigger)),
    Symbol::Rule(Rule::Outer(OuterRule::Revalidate)),
    Symbol::Rule(Rule::Outer(OuterRule::Act)),
    Symbol::Word("}"),
]];

const CLAUSES: [&[Symbol]; 2] = [&[CLAUSE_RULE, CLAUSES_RULE], &[]];

const CLAUSE: [&[Symbol]; 1] = [&[
    Symbol::Word("when"),
    Symbol::Rule(Rule::Outer(OuterRule::Event)),
    Symbol::Word(";"),
]];

const SPACE: Symbol = Symbol::Name("a space");

const EVENT: [&[Symbol]; 8] = [
    &[Symbol::Word("create"), CLASS],
    &[Symbol::Word("delete"), CLASS],
    &[
        Symbol::Word("update"),
        CLASS,
        Symbol::Word("."),
        Symbol::Slot,
    ],
    &[Symbol::Word("link"), CLASS, Symbol::Word("."), Symbol::Slot],
    &[
        Symbol::Word("unlink"),
        CLASS,
        Symbol::Word("."),
        Symbol::Slot,
    ],
    &[Symbol::Word("enter"), CLASS, SPACE],
    &[Symbol::Word("leave"), CLASS, SPACE],
    &[Symbol::Word("quiescence")],
];

const NUMBER: [&[Symbol]; 2] = [&[Symbol::Word("-"), Symbol::Int], &[Symbol::Int]];

const REQUIRE: [&[Symbol]; 2] = [&[Symbol::Word("require"), BLOCK], &[]];

const OBVIATE: [&[Symbol]; 2] = [
    &[
        Symbol::Word("obviate"),
        ON,
        CLASS,
        CLAUSE_RULE,
        CLAUSES_RULE,
        BLOCK,
    ],
    &[],
];

const RETRIGGER: [&[Symbol]; 2] = [
    &[
        Symbol::Word("retrigger"),
        ON,
        CLASS,
        CLAUSE_RULE,
        CLAUSES_RULE,
        BLOCK,
    ],
    &[],
];

const REVALIDATE: [&[Symbol]; 2] = [&[Symbol::Word("revalidate"), BLOCK], &[]];

const ACT: [&[Symbol]; 2] = [
    &[Symbol::Word("do"), BLOCK],
    &[Symbol::Word("native"), Symbol::Word(";")],
];
