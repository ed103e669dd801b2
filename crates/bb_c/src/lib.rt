//! The shell as a static library for hosts in C, C++, Rust and Python; `include/bb.h` declares its calls.
//!
//! - In: bytes of an input and buffers of the caller, and `Run`, the handle of a held run.
//! - Out: a status of every call; traces and the results of look-ups, copied into the buffers.
//! - Callers rely on: the contracts hold if the caller keeps what `include/bb.h` lists, which no check sees.
//! - Family: bb_main serves whole inputs, bb_c_run holds runs; `bindings/python` calls this library.
#![tactic(auto)]

mod agenda;
mod asks;
mod history;
mod input;
mod looking;
mod moves;
mod overview;
mod pointer;
mod reading;
mod refusing;
mod room;
mod run;
mod serving;
mod status;

pub use agenda::{bb_activation, bb_choice, bb_pending};
pub use asks::{
    bb_ask_bool, bb_ask_delete, bb_ask_enter, bb_ask_int, bb_ask_interval, bb_ask_label,
    bb_ask_leave, bb_ask_link, bb_ask_new, bb_ask_say, bb_ask_text, bb_ask_unlink, bb_discard,
};
pub use history::{bb_history, bb_resume};
pub use looking::{bb_bool, bb_class, bb_int, bb_interval, bb_kind, bb_label, bb_links, bb_text};
pub use moves::{bb_advance, bb_answer, bb_close, bb_finish, bb_open, bb_post, bb_turn};
pub use overview::{bb_creates, bb_document, bb_due, bb_members, bb_most_steps, bb_units};
pub use reading::{bb_made, bb_next, bb_read, bb_skip};
pub use refusing::{bb_explain, bb_refusal};
pub use run::Run;
pub use serving::{bb_serve, bb_version};
