//! Reads a history, and begins, moves and finishes its run. Cases and tables (bb_cases) call this.

ghost use Rattle.std.specs.Prelude.{◌≡◌, None, false, map, true};
ghost use Rattle.bb_moves.specs.Roster.{all_open};

use bb_basis::Text;
use bb_cases_format::Fault;
use bb_main_input::Sections;
use bb_moves::{
    Finish, InputFault, Move, MovesFault, NativeSource, Out, Pipe, Running, Schema, SchemaFault,
    moves_of, replay, replay_hosted,
};
use bb_shell::{HostedShell, Shell, Texts};
use std::alloc::Global;
use std::fmt::Write;

// The line between the input and the moves.
const MOVES: &str = "%moves\n";

// The status of a refused input.
const REFUSED: u8 = 2;

/// An input, and the moves to make in its run.
pub struct History<'a> {
    sections: Sections<'a>,
    moves: Vec<Move>,
}

// Written by hand, so that proofs meet one call where it is dropped, instead of each of its fields.
impl<'a> Drop for History<'a> {
    fn drop(self) {
        let History {
            sections: _,
            moves: _,
        } = self;
    }
}

/// The status that a run ends with, and its trace.
#[derive(Drop)]
pub struct Told {
    pub status: u8,
    pub trace: Vec<u8>,
}

// Returns the schema of a text that is not refused.
fn schema_of(alloc: Global, text: &str) -> Result<Schema, Fault> {
    match Schema::read(alloc, text) {
        Ok(schema) => Ok(schema),
        Err(SchemaFault::Memory) => Err(Fault::Memory),
        Err(_) => Err(Fault::Schema),
    }
}

impl<'a> History<'a> {
    /// Reads an input with moves below a line `%moves`. `Moves`: the line is missing, or the moves are refused.
    /// `Input`, `Schema`: the input has no sections, or its schema is refused.
    pub fn of_text(alloc: Global, text: &'a str) -> Result<History<'a>, Fault> {
        let (input, moves) = text.split_once(MOVES).ok_or(Fault::Moves)?;
        let sections = Sections::of_bytes(input.as_bytes())
            .ok()
            .ok_or(Fault::Input)?;
        let schema = schema_of(alloc, sections.schema)?;
        match moves_of(alloc, &schema, moves) {
            Ok(moves) => Ok(History { sections, moves }),
            Err(MovesFault::Memory) => Err(Fault::Memory),
            Err(MovesFault::At { .. }) => Err(Fault::Moves),
        }
    }

    /// Begins the run with natives, names that the host answers for, and a floor, makes the moves, and finishes it. For
    /// a refused input, the trace is the line of the refusal. `Memory`: memory ran out.
    pub fn run<N: NativeSource>(
        self,
        alloc: Global,
        natives: Vec<N>,
        outside: Vec<Text>,
        floor: i64,
    ) -> Result<Told, Fault>
        requires { all_open (map N.meaning natives.items) ≡ true }
    {
        let History { sections, moves } = self;
        let texts = Texts {
            schema: sections.schema,
            units: sections.units,
            sources: sections.sources,
            bundle: sections.bundle,
        };
        if outside.is_empty() {
            match Shell::of_texts(alloc, &texts, natives, floor) {
                Ok(shell) => run_alone(alloc, shell, moves),
                Err(fault) => refused(alloc, &fault),
            }
        } else {
            match HostedShell::of_texts(alloc, &texts, natives, outside, floor) {
                Ok(shell) => run_hosted(alloc, shell, moves),
                Err(fault) => refused(alloc, &fault),
            }
        }
    }
}

// Returns the line that refuses an input.
fn refused(alloc: Global, fault: &InputFault) -> Result<Told, Fault> {
    let line = fault.line(alloc)?;
    if line.is_empty() {
        return Err(Fault::Memory);
    }
    let mut trace = Vec::new(alloc);
    trace.extend_from_slice(line.as_bytes())?;
    trace.push(b'\n')?;
    let status = REFUSED;
    Ok(Told { status, trace })
}

// Returns the outcome of moves in a run that has all its natives.
fn run_alone<N: NativeSource>(
    alloc: Global,
    shell: Shell<N>,
    moves: Vec<Move>,
) -> Result<Told, Fault> {
    let mut out = Pipe::new(Vec::new(alloc));
    match replay(alloc, shell, moves, &mut out) {
        Ok(running) => Ok(told_by(running, out)),
        Err(_) => Err(Fault::Memory),
    }
}

// Returns the outcome of moves in a run whose host answers for natives.
fn run_hosted<N: NativeSource>(
    alloc: Global,
    shell: HostedShell<N>,
    moves: Vec<Move>,
) -> Result<Told, Fault> {
    let mut out = Pipe::new(Vec::new(alloc));
    match replay_hosted(alloc, shell, moves, &mut out) {
        Ok(running) => Ok(told_by(running, out)),
        Err(_) => Err(Fault::Memory),
    }
}

// Finishes a run, and returns its trace.
fn told_by<N: NativeSource>(running: Running<N>, mut out: Pipe<Vec<u8>>) -> Told
    requires whole { running.cut ≡ None }
    requires open { ⟦<Pipe<Vec<u8>> as Out>⟧.has_failed out ≡ false }
{
    Told {
        status: finished(running, &mut out),
        trace: out.into_inner(),
    }
}

// Returns the status of a run that is finished, or 8 if a native is due, so that it can't be finished.
fn finished<N: NativeSource>(running: Running<N>, out: &mut Pipe<Vec<u8>>) -> u8
    requires whole { running.cut ≡ None }
    requires open { ⟦<Pipe<Vec<u8>> as Out>⟧.has_failed out.old ≡ false }
{
    let pause = running.pause();
    if pause.is_due() {
        drop(running.close());
        return 8;
    }
    let (finish, board) = running.finish(out);
    drop(board);
    match finish {
        Finish::Quiescence => 0,
        Finish::Limit => 3,
        Finish::Full => 4,
        Finish::Memory => 5,
        Finish::Write => 6,
    }
}

/// Appends the line and number of the first flaw of a text of moves, or `ok`.
pub fn add_history(
    alloc: Global,
    given: &mut String,
    schema: &Schema,
    text: &str,
) -> Result<(), Fault> {
    match moves_of(alloc, schema, text) {
        Ok(_) => given.push_str("ok\n")?,
        Err(MovesFault::Memory) => return Err(Fault::Memory),
        Err(MovesFault::At { line, flaw }) => {
            let number = flaw.number();
            writeln!(given, "{line} {number}")?;
        }
    }
    Ok(())
}
