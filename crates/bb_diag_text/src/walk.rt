//! The walk over the tokens before a fault. It keeps a stack of the symbols still expected, the open brackets, and the
//! parts of the source. `look` calls it.

use crate::outer_rules::OuterRule;
use crate::spot::Bracket;
use crate::symbol::{CHAIN, Due, Rule, Symbol};
use crate::token::{Token, TokenKind};
use bb_basis::Memory;
use std::alloc::Global;

// The maximum number of rules expanded before a token is taken: from a source's parts to an operand.
const TURNS: usize = 64;

// A symbol still expected, and the first word of the construct it belongs to: `let`, `when`.
#[derive(Clone, Copy)]
struct Entry<'a> {
    symbol: Symbol,
    head: &'a str,
}

/// The state of the walk.
#[derive(Drop)]
pub(crate) struct Walk<'a> {
    // The symbols expected, the next one last.
    stack: Vec<Entry<'a>>,
    open: Vec<Bracket<'a>>,
    parts: Vec<&'a str>,
}

impl<'a> Walk<'a> {
    pub(crate) fn begin(alloc: Global) -> Result<Walk<'a>, Memory> {
        let mut stack = Vec::new(alloc);
        stack.push(Entry {
            symbol: Symbol::Rule(Rule::Outer(OuterRule::Sources)),
            head: "",
        })?;
        Ok(Walk {
            stack,
            open: Vec::new(alloc),
            parts: Vec::new(alloc),
        })
    }

    /// Takes a token, and returns whether the grammar allows it here.
    pub(crate) fn take(&mut self, token: Token<'a>) -> Result<bool, Memory> {
        for _turn in 0..TURNS {
            let Some(entry) = self.stack.pop() else {
                return Ok(false);
            };
            let Symbol::Rule(rule) = entry.symbol else {
                self.note(token, entry.head)?;
                return Ok(entry.symbol.is(token));
            };
            let symbols = rule.chosen(token);
            let head = if rule.is_step() {
                entry.head
            } else {
                head_of(symbols, token, entry.head)
            };
            self.push_all(symbols, head)?;
        }
        Ok(false)
    }

    // Pushes symbols onto the stack, the first one last.
    fn push_all(&mut self, symbols: &'static [Symbol], head: &'a str) -> Result<(), Memory> {
        for symbol in symbols.iter().rev() {
            self.stack.push(Entry {
                symbol: *symbol,
                head,
            })?;
        }
        Ok(())
    }

    // Records what a token opens or closes, and the parts of a source.
    fn note(&mut self, token: Token<'a>, head: &'a str) -> Result<(), Memory> {
        match token.text {
            "{" | "(" | "[" => self.open.push(Bracket { token, head })?,
            "}" | ")" | "]" => {
                let _closed = self.open.pop();
            }
            "source" => self.parts.clear(),
            "rate" | "require" | "obviate" | "retrigger" | "revalidate" | "do" | "native" => {
                if self.open.len() == 1 {
                    self.parts.push(token.text)?;
                }
            }
            _ => {}
        }
        Ok(())
    }

    /// Returns the first word of the construct that continues here: `let`, `when`; empty outside.
    pub(crate) fn head(&self) -> &'a str {
        match self.stack.last() {
            Some(entry) => entry.head,
            None => "",
        }
    }

    /// Lists the terminals that could come next.
    pub(crate) fn due(&self, alloc: Global) -> Result<Vec<Due>, Memory> {
        let mut due = Vec::new(alloc);
        for entry in self.stack.iter().rev() {
            match entry.symbol {
                Symbol::Rule(rule) => {
                    add_rule(&mut due, rule)?;
                    if !rule.may_be_empty() {
                        return Ok(due);
                    }
                }
                terminal => {
                    due.push(Due::of(terminal, None))?;
                    return Ok(due);
                }
            }
        }
        Ok(due)
    }

    /// Returns how many brackets are open.
    pub(crate) fn depth(&self) -> usize {
        self.open.len()
    }

    /// Lists the open brackets, the innermost last.
    pub(crate) fn open(&self, alloc: Global) -> Result<Vec<Bracket<'a>>, Memory> {
        self.open.iter().copied().collect(alloc)
    }

    /// Lists the parts that the source has so far.
    pub(crate) fn parts(&self, alloc: Global) -> Result<Vec<&'a str>, Memory> {
        self.parts.iter().copied().collect(alloc)
    }
}

// Returns the head of an alternative's symbols: the token if it is a word that they begin with, else the head of their
// rule.
fn head_of<'a>(symbols: &[Symbol], token: Token<'a>, head: &'a str) -> &'a str {
    match symbols.first() {
        Some(Symbol::Word(word)) if token.kind == TokenKind::Word && token.is(word) => token.text,
        _ => head,
    }
}

// Adds the terminals that a rule can begin with, rule by rule.
fn add_rule(due: &mut Vec<Due>, rule: Rule) -> Result<(), Memory> {
    let mut rule = rule;
    let mut begins = rule.called();
    for _turn in 0..CHAIN {
        add_terminals(due, rule, begins)?;
        let Some(next) = rule.leading() else {
            return Ok(());
        };
        rule = next;
        begins = begins.or(rule.called());
    }
    Ok(())
}

// Adds the terminals that alternatives of a rule begin with.
fn add_terminals(
    due: &mut Vec<Due>,
    rule: Rule,
    begins: Option<&'static str>,
) -> Result<(), Memory> {
    for symbols in rule.alternatives() {
        match symbols.first() {
            None | Some(Symbol::Rule(_)) => {}
            Some(terminal) => due.push(Due::of(*terminal, begins))?,
        }
    }
    Ok(())
}
