//! The blackboard shell: what the texts of an input mean, which inputs are refused, and their run.
//!
//! - In: the texts of a schema, of initial units, and of sources or a bundle; natives, a limit, a floor, and an output.
//! - Out: `run_texts` runs the texts; `units_texts` writes the units that their run leaves as a document of initial
//!   units; `check_texts` reports what their sources cost; `compile_texts` bundles their sources. A `Shell` holds a
//!   blackboard and sources for hosts that run more than once, a `HostedShell` for hosts that answer for natives.
//! - Callers rely on: the first fault, in the order of the texts, refuses the input, and then nothing is written. A
//!   blackboard that loads what `units_texts` writes has the contents of the run's final one, under numbers without
//!   gaps.
//! - Hosts: docs/hosts/EMBEDDING.md, and the host bb_shell_host.
//! - Cases: `refusals`, `check`, `examples_in_text`, `language`, `units_left`, `model-texts`, `model-checks`; tests in
//!   bb_shell_tests.
#![tactic(auto)]

mod accepting;
mod check;
mod check_text;
mod compile;
mod compiled;
mod fitting;
mod given;
mod hosted;
mod shell;
mod sink;
mod sources;
mod texts;
mod units;
mod written;

pub use bb_basis::{Items, Memory, Text};
pub use bb_bundle::BundleFault;
pub use bb_compile_scope::{CompileFault, TextFlaw};
pub use bb_lang::{LangFault, Place};
pub use bb_refusal::InputFault;
pub use bb_run::{
    Activation, Agenda, Ask, Board, ClassPlace, ClauseList, ClausePlace, Closed, Closing, DimValue,
    DocumentPlace, End, Finish, Halt, ListItem, ListKey, NativeSource, Node, OperandKind, Out,
    Pattern, Pipe, Plan, Query, Relation, Roster, RuleFault, Source, UnitsFault, UnitsFlaw, View,
    close_each, put_all, runs_are_orderly,
};
pub use bb_schema::{SchemaFault, SchemaFlaw, UnitId, Value};
pub use bb_verify::{Flaw, Part, VerifyFault};
pub use check::{Check, check_sources, check_texts};
pub use compile::compile_texts;
pub use hosted::HostedShell;
pub use shell::Shell;
pub use texts::{Texts, run_texts};
pub use units::{Left, units_texts};
pub use written::Done;
