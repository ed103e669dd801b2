//! The blackboard shell as a program: it serves standard input on standard output, with the options of its command
//! line. On standard error it says why an input is refused, and writes the advice on a checked one.
#![tactic(auto)]

use bb_main::{Intake, OptionsFault, Pipe, answer_words, obey};
use std::process::ExitCode;
use std::rt::Env;
use std::{env, io};

fn main(rt: HostRuntime) -> ExitCode {
    let mut writer = Pipe::new(io::writer(&rt));
    let status = match words(&rt) {
        Ok(words) => {
            let mut reader = Intake::new(rt.stdin());
            let mut errors = rt.stderr();
            obey(
                rt.alloc(),
                words.as_slice(),
                &mut reader,
                &mut writer,
                &mut errors,
            )
        }
        Err(fault) => answer_words(&fault, &mut writer),
    };
    ExitCode::from(status)
}

// Returns the words of the command line, the program's name first, which have to be UTF-8.
fn words<R: Env + AllocGlobal>(rt: &R) -> Result<Vec<String>, OptionsFault> {
    match env::args(rt) {
        Ok(all) => Ok(all.collect(rt.alloc())?),
        Err(error) if error.kind() == io::ErrorKind::OutOfMemory => Err(OptionsFault::Memory),
        Err(_) => {
            let text = String::from_str(rt.alloc(), "error: a word is not UTF-8\n")?;
            Err(OptionsFault::Words(text))
        }
    }
}
