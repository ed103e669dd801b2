//! Natives: code of the host that runs instead of a source's `do`.
//!
//! - In: a host's types that implement `NativeSource`, in a `Roster`.
//! - Out: the `View` that a native has of the blackboard, the changes that it may `Ask` for, and `apply`, which applies
//!   an ask.
//! - Callers rely on: a roster closes every native exactly once, and a refused ask changes nothing.
//! - Cases: `natives`; tests in bb_board_tests and bb_shell_tests.
#![tactic(auto)]

mod applying;
mod ask;
mod closing;
mod denial;
mod native_source;
mod refusal;
mod roster;
mod view;

pub use applying::apply;
pub use ask::Ask;
pub use bb_board::{DimValue, Query};
pub use bb_pattern::{Node, OperandKind, Pattern, Relation};
pub use closing::Closing;
pub use denial::Denial;
pub use native_source::NativeSource;
pub use refusal::Refusal;
pub use roster::{Closed, Roster, close_each};
pub use view::View;
