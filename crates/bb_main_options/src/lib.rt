//! The words of the command line, read as options: a mode, a limit of cycles and a floor.
//!
//! - In: the words after the program's name.
//! - Out: `options`, the `Options` they choose, or an `OptionsFault` with the text to print.
//! - Callers rely on: words that `clap` accepts are refused only if memory runs out.
//! - Family: bb_main serves inputs by these options; bb reads the words.
//! - Tests: bb_main_tests.
#![tactic(auto)]

mod choice;
mod command;
mod fault;
mod reading;
mod tip;

pub use choice::{CYCLE_LIMIT, FLOOR, Mode, Options};
pub use command::VERSION;
pub use fault::OptionsFault;
pub use reading::options;
