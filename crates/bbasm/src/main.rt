//! Converts codes between text and hex, and lists them, for people who write bundles.
#![tactic(auto)]

mod fault;

use bb_code::Code;
use bb_code_asm::{assemble, disassemble, listing};
use bb_schema::Schema;
use fault::Fault;
use std::alloc::Global;
use std::process::ExitCode;
use std::rt::Files;
use std::{env, fs, io};

const USAGE: &str =
    "usage: bbasm hex                 the text of a code as the hex digits of a bundle
       bbasm text                the hex digits of a code as its text
       bbasm list [SCHEMA]       text or hex digits as text, with place and byte of each op;
                                 with the file of a schema also the names that it gives
Standard input is the code. Status 1: it is none; 2: the words on the command line are wrong.";

// What the words of the command line ask for.
#[derive(Clone, Copy)]
enum Task<'a> {
    Hex,
    Text,
    // A listing, with the file of a schema if one is named.
    List(Option<&'a str>),
}

fn task_of<'a>(words: &[&'a str]) -> Option<Task<'a>> {
    match words {
        [what] if *what == "hex" => Some(Task::Hex),
        [what] if *what == "text" => Some(Task::Text),
        [what] if *what == "list" => Some(Task::List(None)),
        [what, schema] if *what == "list" => Some(Task::List(Some(*schema))),
        _ => None,
    }
}

// Returns the code that hex digits spell.
fn code_of_hex(alloc: Global, digits: &str) -> Result<Code, Fault> {
    let Ok(bytes) = hex::decode(alloc, digits.trim()) else {
        return Err(Fault::Hex);
    };
    Ok(Code::decode(alloc, &bytes)?)
}

// Returns the code that hex digits spell, if the input begins as the digits of every code do, else the code of a text.
fn code_of_either(alloc: Global, input: &str) -> Result<Code, Fault> {
    if input.trim().starts_with("424243") {
        code_of_hex(alloc, input)
    } else {
        Ok(assemble(alloc, input)?)
    }
}

fn hex_of(alloc: Global, code: &Code) -> Result<String, Fault> {
    let mut line = hex::encode(alloc, code.encode(alloc)?)?;
    line.push_str("\n")?;
    Ok(line)
}

// Reads the schema of a file, if one is named.
fn schema_of<R: Files + AllocGlobal>(rt: &R, file: Option<&str>) -> Result<Option<Schema>, Fault> {
    let Some(file) = file else {
        return Ok(None);
    };
    let Ok(text) = fs::read_to_string(rt, file) else {
        return Err(Fault::File);
    };
    Ok(Some(Schema::read(rt.alloc(), &text)?))
}

// Returns the output of a task for the input.
fn answer<R: Files + AllocGlobal>(rt: &R, task: Task<'_>, input: &str) -> Result<String, Fault> {
    let alloc = rt.alloc();
    match task {
        Task::Hex => hex_of(alloc, &assemble(alloc, input)?),
        Task::Text => Ok(disassemble(alloc, &code_of_hex(alloc, input)?)?),
        Task::List(file) => {
            let schema = schema_of(rt, file)?;
            let code = code_of_either(alloc, input)?;
            Ok(listing(alloc, &code, schema.as_ref())?)
        }
    }
}

fn main(rt: HostRuntime) -> io::Result<ExitCode> {
    let given = env::args(&rt)?.skip(1).collect::<Vec<String>>(rt.alloc())?;
    let words = given
        .iter()
        .map(|word| word.as_str())
        .collect::<Vec<&str>>(rt.alloc())?;
    let Some(task) = task_of(&words) else {
        eprintln!(rt; "{USAGE}")?;
        return Ok(ExitCode::from(2));
    };
    let input = io::read_to_string(rt.alloc(), rt.stdin())?;
    match answer(&rt, task, &input) {
        Ok(text) => {
            print!(rt; "{}", text.as_str())?;
            Ok(ExitCode::SUCCESS)
        }
        Err(fault) => {
            eprintln!(rt; "bbasm: {fault}")?;
            Ok(ExitCode::from(1))
        }
    }
}
