//! The program: reads an input, cuts it into sections, and runs, checks or compiles it. Writes the trace, the units
//! that the run leaves (leaving.rt), the lines of the check, the bundle, or the line of the refusal. Reports and advice
//! are written separately.

ghost use Rattle.std.specs.Prelude.{◌≡◌, ◌≢◌, ◌==◌, ◌+◌, ◌⊎◌, true, false, map};
ghost use Rattle.std.specs.Prelude.{IfErr, IsNone};
ghost use Rattle.std.specs.Bool.{OnFalse, OnTrue};
ghost use Rattle.bb_shell.specs.Check.{sources_in};
ghost use Rattle.bb_shell.specs.Fitting.{native_names};
ghost use Rattle.bb_shell.specs.Roster.{all_open};
ghost use Rattle.bb_shell.specs.Compile.{bundle_in};
ghost use Rattle.bb_shell.specs.Meaning.{meaning};
ghost use Rattle.bb_main_input.specs.Input.{input_of};
ghost use Rattle.bb_main.specs.Natives.{program_natives};
ghost use Rattle.bb_main_input.specs.Reading.{HasTaken, TakesAtMost};
ghost use Rattle.bb_main_input.specs.Refusals.{section_line};
ghost use Rattle.bb_main.specs.Serve.{CutShort, Delivers, Serves, answer, answer_to_check};
ghost use Rattle.bb_main.specs.Serve.{answer_to_compile, answer_to_meaning, done_status};
ghost use Rattle.bb_main.specs.Serve.{limit_refusal, read_refusal, refusal, status_of};
ghost use Rattle.bb_main.specs.declared.serving.TheConstants.{LIMIT, REFUSED, WRITE};

use crate::advising::advice_on;
use crate::leaving::units_sections;
use crate::program_native::program_natives;
use crate::refusing::{refuse, refuse_input};
use crate::saying::{say_advice, say_limit, say_report};
use crate::served::Served;
use bb_main_input::{
    INPUT_LIMIT, In, ReadFault, SectionFault, SectionReport, Sections, read_input,
};
use bb_main_options::{Mode, Options};
use bb_shell::{
    Check, Done, Finish, InputFault, NativeSource, Out, check_sources, close_each, compile_texts,
    run_texts,
};
use std::alloc::Global;
use std::io::Write;

/// The status of a refused input, and of refused words.
pub(crate) const REFUSED: u8 = 2;

/// The status if a run reached its limit.
pub(crate) const LIMIT: u8 = 3;

/// The status if memory ran out.
pub(crate) const MEMORY: u8 = 5;

/// The status if the output failed.
pub(crate) const WRITE: u8 = 6;

/// Runs the program: `serve` with the options of the command line and the natives `tally` and `reaper`. After the line
/// of a refusal it writes the reason to `errors`, after the lines of a check the advice on its sources, and after the
/// trace of a run that reached its limit a note on that. Returns the exit status, regardless of what happens to
/// `errors`.
pub fn program<R: In, O: Out, E: Write>(
    alloc: Global,
    options: Options,
    reader: &mut R,
    writer: &mut O,
    errors: &mut E,
) -> u8
    requires reader { R.has_failed reader.old ≡ false }
    requires writer { O.has_failed writer.old ≡ false }
    ensures answer { OnFalse (R.has_failed reader.new) (Serves program_natives options.mode options.limit options.floor
        (R.remaining reader.old) (O.taken writer.old) (O.taken writer.new) result) }
    ensures unread { OnTrue (R.has_failed reader.new)
        (Delivers read_refusal (O.taken writer.old) (O.taken writer.new) result) }
    ensures taken { TakesAtMost (INPUT_LIMIT + 1) (R.remaining reader.old) (R.remaining reader.new) }
    ensures too_long { HasTaken (INPUT_LIMIT + 1) (R.remaining reader.old) (R.remaining reader.new)
        → Delivers limit_refusal (O.taken writer.old) (O.taken writer.new) result }
    ensures failed { O.has_failed writer.new ≡ (result == WRITE) }
    // Something is written to `errors` only if the input is refused or checked, or its run reached the limit.
    ensures silent { result ≢ REFUSED → result ≢ LIMIT → options.mode ≢ Mode.Check → errors.new ≡ errors.old }
{
    let Ok(natives) = program_natives(alloc) else {
        return MEMORY;
    };
    let limit = options.limit;
    let Served {
        status,
        report,
        advice,
    } = serve_with(alloc, options, natives, reader, writer);
    say_report(report, errors);
    say_advice(advice, errors);
    say_limit(status, limit, errors);
    status
}

/// Serves an input. Modes: `Run` runs it, with at most `limit` cycles and no activation rated below `floor`, and writes
/// its trace; `Check` verifies its sources and writes what their parts cost; `Compile` writes the bundle of its sources
/// that are text; `Units` runs it as `Run` does, and writes a document of the units that are left instead of the trace.
/// If the input is refused, it writes the line that refuses it. Returns the exit status: 0 quiescence, or a check or
/// bundle written; 2 the input is refused; 3 the limit; 4 full; 5 memory ran out; 6 the output failed. Every native is
/// closed once, in order, regardless of the status.
pub fn serve<N: NativeSource, R: In, O: Out>(
    alloc: Global,
    mode: Mode,
    limit: u32,
    floor: i64,
    natives: Vec<N>,
    reader: &mut R,
    writer: &mut O,
) -> u8
    requires natives { all_open (map N.meaning natives.items) ≡ true }
    requires reader { R.has_failed reader.old ≡ false }
    requires writer { O.has_failed writer.old ≡ false }

    // The answer is the one to the reader's bytes, or its first pieces if memory ran out, or a prefix of its text if
    // the output failed. If the reader failed, the answer refuses the input.
    ensures answer { OnFalse (R.has_failed reader.new)
        (Serves (map N.meaning natives.items) mode limit floor (R.remaining reader.old) (O.taken writer.old)
        (O.taken writer.new) result) }
    ensures unread { OnTrue (R.has_failed reader.new)
        (Delivers read_refusal (O.taken writer.old) (O.taken writer.new) result) }

    // At most one byte more than `INPUT_LIMIT` is taken. The input is then refused, which needs no memory.
    ensures taken { TakesAtMost (INPUT_LIMIT + 1) (R.remaining reader.old) (R.remaining reader.new) }
    ensures too_long { HasTaken (INPUT_LIMIT + 1) (R.remaining reader.old) (R.remaining reader.new)
        → Delivers limit_refusal (O.taken writer.old) (O.taken writer.new) result }

    ensures failed { O.has_failed writer.new ≡ (result == WRITE) }
{
    let options = Options { mode, limit, floor };
    serve_with(alloc, options, natives, reader, writer).status
}

/// Serves an input as `serve` does, with the report on a refused input and the advice on a checked one.
pub fn serve_with<N: NativeSource, R: In, O: Out>(
    alloc: Global,
    options: Options,
    natives: Vec<N>,
    reader: &mut R,
    writer: &mut O,
) -> Served
    requires natives { all_open (map N.meaning natives.items) ≡ true }
    requires reader { R.has_failed reader.old ≡ false }
    requires writer { O.has_failed writer.old ≡ false }
    ensures answer { OnFalse (R.has_failed reader.new)
        (Serves (map N.meaning natives.items) options.mode options.limit options.floor
        (R.remaining reader.old) (O.taken writer.old) (O.taken writer.new) result.status) }
    ensures unread { OnTrue (R.has_failed reader.new)
        (Delivers read_refusal (O.taken writer.old) (O.taken writer.new) result.status) }
    ensures taken { TakesAtMost (INPUT_LIMIT + 1) (R.remaining reader.old) (R.remaining reader.new) }
    ensures too_long { HasTaken (INPUT_LIMIT + 1) (R.remaining reader.old) (R.remaining reader.new)
        → Delivers limit_refusal (O.taken writer.old) (O.taken writer.new) result.status }
    ensures failed { O.has_failed writer.new ≡ (result.status == WRITE) }
    ensures silent { result.status ≢ REFUSED → IsNone result.report }
    ensures unasked { options.mode ≢ Mode.Check → IsNone result.advice }
{
    match read_input(alloc, reader) {
        Ok(bytes) => serve_bytes(alloc, options, natives, bytes.as_slice(), writer),
        Err(ReadFault::Read) => {
            refuse_input(
                alloc,
                "refused input read",
                ReadFault::Read,
                natives,
                writer,
            )
        }
        Err(ReadFault::Limit) => {
            let fault = SectionFault::Limit;
            refuse_input(alloc, fault.line(), fault, natives, writer)
        }
        Err(ReadFault::Memory) => {
            close_each(natives);
            Served::quiet(MEMORY)
        }
    }
}

// Serves an input with these bytes. If they have no sections, the answer needs no memory.
fn serve_bytes<N: NativeSource, O: Out>(
    alloc: Global,
    options: Options,
    natives: Vec<N>,
    bytes: &[u8],
    writer: &mut O,
) -> Served
    requires natives { all_open (map N.meaning natives.items) ≡ true }
    requires open { O.has_failed writer.old ≡ false }
    ensures answer { let a = answer (map N.meaning natives.items) bytes.now options.mode options.limit options.floor in
        Delivers a (O.taken writer.old) (O.taken writer.new) result.status
        ⊎ CutShort a (O.taken writer.old) (O.taken writer.new) result.status }
    ensures refused { IfErr (input_of bytes.now)
        (λ fault. Delivers (refusal (section_line fault)) (O.taken writer.old) (O.taken writer.new) result.status) }
    ensures failed { O.has_failed writer.new ≡ (result.status == WRITE) }
    ensures silent { result.status ≢ REFUSED → IsNone result.report }
    ensures unasked { options.mode ≢ Mode.Check → IsNone result.advice }
{
    match Sections::of_bytes(bytes) {
        Ok(sections) => match options.mode {
            Mode::Run => run_sections(alloc, options, natives, sections, writer),
            Mode::Check => check_sections(alloc, options.floor, natives, sections, writer),
            Mode::Compile => compile_sections(alloc, natives, sections, writer),
            Mode::Units => units_sections(alloc, options, natives, sections, writer),
        },
        Err(fault) => {
            let reason = SectionReport { fault, bytes };
            refuse_input(alloc, fault.line(), reason, natives, writer)
        }
    }
}

// Runs an input with these sections.
fn run_sections<N: NativeSource, O: Out>(
    alloc: Global,
    options: Options,
    natives: Vec<N>,
    sections: Sections<'_>,
    writer: &mut O,
) -> Served
    requires natives { all_open (map N.meaning natives.items) ≡ true }
    requires open { O.has_failed writer.old ≡ false }
    ensures answer { let s = sections.entry in
        let a = answer_to_meaning (map N.meaning natives.items) options.limit
        (meaning (native_names (map N.meaning natives.items))
        s.schema.now s.units.now s.sources.now s.bundle.now options.floor) in
        Delivers a (O.taken writer.old) (O.taken writer.new) result.status
        ⊎ CutShort a (O.taken writer.old) (O.taken writer.new) result.status }
    ensures failed { O.has_failed writer.new ≡ (result.status == WRITE) }
    ensures silent { result.status ≢ REFUSED → IsNone result.report }
    ensures unasked { IsNone result.advice }
{
    let Sections {
        schema,
        units,
        sources,
        bundle,
        ..
    } = sections;
    let Options { limit, floor, .. } = options;
    match run_texts(
        alloc, schema, units, sources, bundle, natives, limit, floor, writer,
    ) {
        Ok(finish) => Served::quiet(status(finish)),
        Err(InputFault::Memory) => Served::quiet(MEMORY),
        Err(fault) => refuse(alloc, &fault, sections, writer),
    }
}

// Checks an input with these sections. The answer does not depend on the units; the advice does.
fn check_sections<N: NativeSource, O: Out>(
    alloc: Global,
    floor: i64,
    natives: Vec<N>,
    sections: Sections<'_>,
    writer: &mut O,
) -> Served
    requires natives { all_open (map N.meaning natives.items) ≡ true }
    requires open { O.has_failed writer.old ≡ false }
    ensures answer { let s = sections.entry in
        let a = answer_to_check
        (sources_in (native_names (map N.meaning natives.items)) s.schema.now s.sources.now s.bundle.now) in
        Delivers a (O.taken writer.old) (O.taken writer.new) result.status
        ⊎ CutShort a (O.taken writer.old) (O.taken writer.new) result.status }
    ensures failed { O.has_failed writer.new ≡ (result.status == WRITE) }
    ensures silent { result.status ≢ REFUSED → IsNone result.report }
{
    let Sections {
        schema,
        sources,
        bundle,
        ..
    } = sections;
    match check_sources(alloc, schema, sources, bundle, natives, writer) {
        Ok(checked) => advise(alloc, &checked, floor, sections),
        Err(InputFault::Memory) => Served::quiet(MEMORY),
        Err(fault) => refuse(alloc, &fault, sections, writer),
    }
}

// Returns the status of a checked input, and the advice on it.
fn advise(alloc: Global, checked: &Check, floor: i64, sections: Sections<'_>) -> Served
    ensures status { result.status ≡ done_status checked.now.done }
    ensures silent { IsNone result.report }
{
    Served {
        status: done_status(checked.done),
        report: None,
        advice: advice_on(alloc, checked, floor, sections).ok(),
    }
}

// Compiles an input with these sections. The units and the bundle are ignored.
fn compile_sections<N: NativeSource, O: Out>(
    alloc: Global,
    natives: Vec<N>,
    sections: Sections<'_>,
    writer: &mut O,
) -> Served
    requires natives { all_open (map N.meaning natives.items) ≡ true }
    requires open { O.has_failed writer.old ≡ false }
    ensures answer { let s = sections.entry in
        let a = answer_to_compile (bundle_in s.schema.now s.sources.now) in
        Delivers a (O.taken writer.old) (O.taken writer.new) result.status
        ⊎ CutShort a (O.taken writer.old) (O.taken writer.new) result.status }
    ensures failed { O.has_failed writer.new ≡ (result.status == WRITE) }
    ensures silent { result.status ≢ REFUSED → IsNone result.report }
    ensures unasked { IsNone result.advice }
{
    let Sections {
        schema,
        sources,
        ..
    } = sections;
    match compile_texts(alloc, schema, sources, natives, writer) {
        Ok(done) => Served::quiet(done_status(done)),
        Err(InputFault::Memory) => Served::quiet(MEMORY),
        Err(fault) => refuse(alloc, &fault, sections, writer),
    }
}

// Returns the status of a text, by how far it was written.
fn done_status(done: Done) -> u8
    ensures { result ≡ done_status done }
{
    match done {
        Done::Written => 0,
        Done::Write => WRITE,
    }
}

/// Returns the status of a finish.
pub(crate) fn status(finish: Finish) -> u8
    ensures { result ≡ status_of finish }
{
    match finish {
        Finish::Quiescence => 0,
        Finish::Limit => LIMIT,
        Finish::Full => 4,
        Finish::Memory => MEMORY,
        Finish::Write => WRITE,
    }
}
