//! The pieces of the grammar: rules, each with its alternatives, which consist of terminals and references to rules.
//! The tables are in the files of the rules; the walk follows them.

use crate::outer_rules::OuterRule;
use crate::pattern_rules::PatternRule;
use crate::statement_rules::StatementRule;
use crate::token::{Token, TokenKind};
use crate::value_rules::ValueRule;

/// The maximum length of a chain of rules, each beginning with the next: from the values of a `say` to an operand.
pub(crate) const CHAIN: usize = 12;

/// A piece of an alternative.
#[derive(Clone, Copy, Debug)]
pub(crate) enum Symbol {
    /// A reserved word, or a symbol.
    Word(&'static str),
    /// A name, and what it names.
    Name(&'static str),
    /// A name after a `.`, which may be any word.
    Slot,
    Int,
    Text,
    Rule(Rule),
}

/// A production, by its part of the language.
#[derive(Clone, Copy, Debug)]
pub(crate) enum Rule {
    Outer(OuterRule),
    Statement(StatementRule),
    Value(ValueRule),
    Pattern(PatternRule),
}

/// The alternatives of a rule. At most one begins with a rule; an empty one is the last.
pub(crate) type Alternatives = &'static [&'static [Symbol]];

/// A terminal that could come next, and the name of what it would begin, if that has one.
#[derive(Clone, Copy, Debug)]
pub struct Due {
    symbol: Symbol,
    begins: Option<&'static str>,
}

impl Due {
    pub(crate) fn of(symbol: Symbol, begins: Option<&'static str>) -> Due {
        Due { symbol, begins }
    }

    /// Returns the word or symbol, if it is one and begins nothing that has a name.
    pub fn word(&self) -> Option<&'static str> {
        match (self.symbol, self.begins) {
            (Symbol::Word(word), None) => Some(word),
            _ => None,
        }
    }

    /// Returns its description: `a statement`, `a class`; empty for a word.
    pub fn called(&self) -> &'static str {
        match (self.begins, self.symbol) {
            (Some(called), _) => called,
            (None, Symbol::Name(called)) => called,
            (None, Symbol::Slot) => "a slot",
            (None, Symbol::Int) => "a written number",
            (None, Symbol::Text) => "a text",
            _ => "",
        }
    }

    /// Returns whether it is this word, or its name in messages begins with it.
    pub fn is(&self, what: &str) -> bool {
        self.word() == Some(what) || (!what.is_empty() && self.called().starts_with(what))
    }

    /// Returns whether it is a name, which can't be a reserved word.
    pub fn is_name(&self) -> bool {
        matches!(self.symbol, Symbol::Name(_))
    }
}

impl Symbol {
    /// Returns whether a token is this terminal. Only tokens accepted by the parser are walked over; therefore a word
    /// that is a name there is not a reserved one.
    pub(crate) fn is(self, token: Token<'_>) -> bool {
        match self {
            Symbol::Word(word) => token.is(word),
            Symbol::Name(_) | Symbol::Slot => token.kind == TokenKind::Word,
            Symbol::Int => token.kind == TokenKind::Int,
            Symbol::Text => token.kind == TokenKind::Text,
            Symbol::Rule(_) => false,
        }
    }
}

impl Rule {
    pub(crate) fn alternatives(self) -> Alternatives {
        match self {
            Rule::Outer(rule) => rule.alternatives(),
            Rule::Statement(rule) => rule.alternatives(),
            Rule::Value(rule) => rule.alternatives(),
            Rule::Pattern(rule) => rule.alternatives(),
        }
    }

    /// Returns its name in messages, if it has one.
    pub(crate) fn called(self) -> Option<&'static str> {
        match self {
            Rule::Outer(rule) => rule.called(),
            Rule::Statement(rule) => rule.called(),
            Rule::Value(rule) => rule.called(),
            Rule::Pattern(rule) => rule.called(),
        }
    }

    /// Returns whether it continues a value with an operator, so that its symbols belong to what comes before.
    pub(crate) fn is_step(self) -> bool {
        matches!(self, Rule::Value(ValueRule::Ands | ValueRule::Ors))
    }

    /// Returns whether it may have no tokens.
    pub(crate) fn may_be_empty(self) -> bool {
        self.alternatives().iter().any(|it| it.is_empty())
    }

    /// Returns the rule that one of its alternatives begins with, if one does.
    pub(crate) fn leading(self) -> Option<Rule> {
        self.alternatives().iter().find_map(|it| leading(it))
    }

    // Returns whether a token begins one of the alternatives that begin with a terminal.
    fn begins_here(self, token: Token<'_>) -> bool {
        self.alternatives()
            .iter()
            .any(|it| begins_plainly(it, token))
    }

    /// Returns whether a token can begin it.
    pub(crate) fn begins_with(self, token: Token<'_>) -> bool {
        let mut rule = self;
        for _turn in 0..CHAIN {
            if rule.begins_here(token) {
                return true;
            }
            let Some(next) = rule.leading() else {
                return false;
            };
            rule = next;
        }
        false
    }

    /// Returns the alternative that a token begins, or else the last one, which is the empty one if there is one.
    pub(crate) fn chosen(self, token: Token<'_>) -> &'static [Symbol] {
        let alternatives = self.alternatives();
        match alternatives.iter().find(|it| begins(it, token)) {
            Some(found) => found,
            None => alternatives.last().copied().unwrap_or(&[]),
        }
    }
}

// Returns the rule that symbols begin with, if they begin with one.
fn leading(symbols: &[Symbol]) -> Option<Rule> {
    match symbols.first() {
        Some(Symbol::Rule(rule)) => Some(*rule),
        _ => None,
    }
}

// Returns whether symbols begin with a terminal that is the token.
fn begins_plainly(symbols: &[Symbol], token: Token<'_>) -> bool {
    match symbols.first() {
        Some(first) => first.is(token),
        None => false,
    }
}

// Returns whether a token can begin symbols.
fn begins(symbols: &[Symbol], token: Token<'_>) -> bool {
    match leading(symbols) {
        Some(rule) => rule.begins_with(token),
        None => begins_plainly(symbols, token),
    }
}

/// The reserved words, separated by blanks.
pub const RESERVED: &str =
    "source on when create delete update link unlink enter leave quiescence rate require obviate retrigger revalidate do native let if else with as for in find new set say decline answer where all and or not within covers overlaps less more is true false min max low high size it ev";

/// Returns whether a word is reserved, so that it can't be a name.
pub fn is_reserved(word: &str) -> bool {
    RESERVED.split(' ').any(|reserved| word == reserved)
}
