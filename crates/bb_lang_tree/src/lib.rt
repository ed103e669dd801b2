//! Tokens, names and syntax trees of source texts. The grammar (bb_lang) reads tokens through a `Parser` and builds the
//! trees; the compiler (bb_compile) gets them from `parse` of bb_lang.
//!
//! - In: a text of sources.
//! - Out: `Parser`, which gives one token at a time with its line and column, and keeps the declared names; the types
//!   of the trees, from `SourceText` down to `Atom`; `LangFault`, the faults of source texts.
//! - Callers rely on: what `Parser` reads as a name, number or text constant is within its limit, and contracts see
//!   expressions, patterns and blocks as plain trees.
#![tactic(auto)]

mod atom;
mod block;
mod fault;
mod literals;
mod parser;
mod place;
mod scan;
mod scope;
mod source_text;
mod tree;
mod words;

pub use atom::{Atom, Binary, Division, Operator, Relation, Unary, Variable};
pub use block::{Action, Binding, Block, Branches, ForLoop, Placed, Statement};
pub use fault::LangFault;
pub use literals::TEXT_LIMIT;
pub use parser::Parser;
pub use place::Place;
pub use scan::TokenKind;
pub use source_text::{
    ActText, ChangeText, ClauseText, HeaderText, PartText, PartTexts, ReactionText, SourceText,
};
pub use tree::{Expr, ExprNode, Pattern, PatternNode, Sequence, Step};
