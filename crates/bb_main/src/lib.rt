//! The program of the shell, from the bytes of its input to the bytes of its answer.
//!
//! - In: options, a reader, a writer, and a writer for messages.
//! - Out: `program` and `serve`, which write a trace, a check, a bundle, a document of units or a refusal, and return
//!   the exit status.
//! - Callers rely on: the answer is the one of bb_shell to the sections of the input; an input longer than
//!   `INPUT_LIMIT` is refused; every native is closed in any case.
//! - Family: bb_main_options has the command line, bb_main_input reads and cuts the input; `bb` is the program, bb_c
//!   the library for C.
//! - Cases: `program`, `units_left`, `outputs`, `sentences`, `advice`, `limits`; tests in bb_main_tests and
//!   bb_shell_tests.
#![tactic(auto)]

mod advising;
mod leaving;
mod obeying;
mod program_native;
mod refusing;
mod saying;
mod served;
mod serving;
mod words;

pub use bb_main_input::{INPUT_LIMIT, In, Intake};
pub use bb_main_options::{Mode, Options, OptionsFault, options};
pub use bb_shell::{Memory, NativeSource, Out, Pipe};
pub use obeying::obey;
pub use program_native::{ProgramNative, Trade, program_natives};
pub use served::Served;
pub use serving::{program, serve, serve_with};
pub use words::answer_words;
