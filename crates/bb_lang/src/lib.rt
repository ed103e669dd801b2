//! The source language: parses a text into the trees of its sources.
//!
//! - In: the text of sources.
//! - Out: `parse`, one tree for each source, or the first `LangFault` with its line and column.
//! - Callers rely on: no more than `NESTING_LIMIT` brackets are open at any location, which limits the depth of trees,
//!   and there are at most `SOURCE_LIMIT` sources.
//! - Family: bb_lang_tree has the tokens and the types of the trees.
//! - Cases: `limits_of_texts`, `refused_sources`, `model-bent_texts`; tests in bb_rules_tests.
#![tactic(auto)]

mod actions;
mod atoms;
mod clauses;
mod expressions;
mod level;
mod sources;
mod statements;

pub use bb_lang_tree::{
    ActText, Action, Atom, Binary, Binding, Block, Branches, ChangeText, ClauseText, Division,
    Expr, ExprNode, ForLoop, HeaderText, LangFault, Operator, PartText, PartTexts, Pattern,
    PatternNode, Place, Placed, ReactionText, Relation, Sequence, SourceText, Statement, Step,
    TEXT_LIMIT, Unary, Variable,
};
pub use sources::{NESTING_LIMIT, SOURCE_LIMIT, parse};
