//! Refuses an input: writes its line, and returns the report. serving.rt and leaving.rt end with these functions if the
//! input is refused.

ghost use Rattle.std.specs.Prelude.{◌≡◌, ◌≢◌, ◌==◌, ◌⊎◌, true, false, map, IsNone};
ghost use Rattle.bb_shell.specs.Roster.{all_open};
ghost use Rattle.bb_shell.specs.Refusals.{refusal_text};
ghost use Rattle.bb_main.specs.Serve.{CutShort, Delivers, line_of, refusal};
ghost use Rattle.bb_main.specs.declared.serving.TheConstants.{REFUSED, WRITE};

use crate::served::Served;
use crate::serving::{MEMORY, REFUSED, WRITE};
use bb_diag::{Input, brief, report, report_input};
use bb_main_input::Sections;
use bb_shell::{InputFault, Memory, NativeSource, Out, close_each, put_all};
use std::alloc::Global;
use std::fmt::Display;

/// Writes the line that refuses the sections of an input, and then makes the report. If memory for the notes runs out,
/// the report is only the sentence.
pub(crate) fn refuse<O: Out>(
    alloc: Global,
    fault: &InputFault,
    sections: Sections<'_>,
    writer: &mut O,
) -> Served
    requires { O.has_failed writer.old ≡ false }
    ensures answer { let a = refusal (refusal_text fault.now) in
        Delivers a (O.taken writer.old) (O.taken writer.new) result.status
        ⊎ CutShort a (O.taken writer.old) (O.taken writer.new) result.status }
    ensures failed { O.has_failed writer.new ≡ (result.status == WRITE) }
    ensures silent { result.status ≢ REFUSED → IsNone result.report }
    ensures unasked { IsNone result.advice }
{
    let Ok(line) = fault.line(alloc) else {
        return Served::quiet(MEMORY);
    };
    match write_line(line.as_str(), REFUSED, writer) {
        REFUSED => Served {
            status: REFUSED,
            report: reason(alloc, fault, sections),
            advice: None,
        },
        status => Served::quiet(status),
    }
}

// Returns the reason of a refusal: the message with its notes, or only its first line, or nothing, as memory allows.
fn reason(alloc: Global, fault: &InputFault, sections: Sections<'_>) -> Option<String> {
    match report(alloc, fault, input_of(sections)) {
        Ok(text) => Some(text),
        Err(_) => brief(alloc, fault).ok(),
    }
}

/// Converts sections to the input of a report.
pub(crate) fn input_of(sections: Sections<'_>) -> Input<'_> {
    let Sections {
        schema,
        units,
        sources,
        bundle,
        whole,
    } = sections;
    Input {
        schema,
        units,
        sources,
        bundle,
        whole: Some(whole),
    }
}

/// Closes the natives, in order, and writes the line of a refusal. Neither needs memory.
pub(crate) fn refuse_input<D: Display + Drop, N: NativeSource, O: Out>(
    alloc: Global,
    line: &str,
    reason: D,
    natives: Vec<N>,
    writer: &mut O,
) -> Served
    requires natives { all_open (map N.meaning natives.items) ≡ true }
    requires open { O.has_failed writer.old ≡ false }
    ensures answer { Delivers (refusal line.now) (O.taken writer.old) (O.taken writer.new) result.status }
    ensures failed { O.has_failed writer.new ≡ (result.status == WRITE) }
    ensures silent { result.status ≢ REFUSED → IsNone result.report }
    ensures unasked { IsNone result.advice }
{
    close_each(natives);
    answer(alloc, line, reason, writer)
}

// Writes the line of a refusal, and then makes the report. Only the report needs memory.
fn answer<D: Display + Drop, O: Out>(alloc: Global, line: &str, reason: D, writer: &mut O) -> Served
    requires { O.has_failed writer.old ≡ false }
    ensures answer { Delivers (refusal line.now) (O.taken writer.old) (O.taken writer.new) result.status }
    ensures failed { O.has_failed writer.new ≡ (result.status == WRITE) }
    ensures silent { result.status ≢ REFUSED → IsNone result.report }
    ensures unasked { IsNone result.advice }
{
    let status = write_line(line, REFUSED, writer);
    if status != REFUSED {
        return Served::quiet(status);
    }
    Served {
        status,
        report: message(alloc, line, reason).ok(),
        advice: None,
    }
}

// Returns the message on an input that has no sections.
fn message<D: Display + Drop>(alloc: Global, line: &str, reason: D) -> Result<String, Memory> {
    let said = reason.to_string(alloc)?;
    report_input(alloc, line, said.as_str())
}

/// Writes a line, which needs no memory, and returns `status` unless the output fails.
pub(crate) fn write_line<O: Out>(line: &str, status: u8, writer: &mut O) -> u8
    requires open { O.has_failed writer.old ≡ false }
    requires other { (status == WRITE) ≡ false }
    ensures answer { Delivers (line_of line.now status) (O.taken writer.old) (O.taken writer.new) result }
    ensures failed { O.has_failed writer.new ≡ (result == WRITE) }
{
    if put_all(writer, line.as_bytes()) && put_all(writer, b"\n") {
        status
    } else {
        WRITE
    }
}
