//! Why the input of a run is refused. A host asks after `Held::open` refused one.

ghost use Rattle.std.specs.Prelude.{◌≡◌, IfOk, option_map};
ghost use Rattle.std.specs.Str.Lines.{lines};
ghost use Rattle.bb_shell.specs.Meaning.{meaning};
ghost use Rattle.bb_shell.specs.Refusals.{refusal_text};
ghost use Rattle.bb_c_run.specs.Opening.{line_unless_meant, refusal_of};
ghost use Rattle.bb_c_run.specs.Refused.{line_of};

use crate::held::{hosted, names_in};
use bb_basis::{Memory, Text};
use bb_diag::{Input, report, report_input};
use bb_main_input::{SectionFault, SectionReport, Sections};
use bb_shell::InputFault;
use std::alloc::{AllocError, Global};

/// Why an input is refused.
#[derive(Drop)]
pub struct Refusal {
    /// The line that a program writes to refuse the input, without its line feed.
    pub line: String,
    /// For people: the sentence of the fault and, on lines below it, what the input has at its location. The last line
    /// has no line feed.
    pub message: String,
}

/// Returns why the input of a run is refused, if `Held::open` refuses it with the same arguments. `Memory`: memory ran
/// out.
pub fn why_refused(
    alloc: Global,
    input: &[u8],
    natives: &str,
    floor: i64,
) -> Result<Option<Refusal>, Memory>
    ensures { IfOk result (λ r. option_map line_of r ≡ refusal_of input.now (lines natives.now) floor) }
{
    let outside = names_in(alloc, natives)?;
    match Sections::of_bytes(input) {
        Ok(sections) => refusal_in(alloc, sections, outside, floor),
        Err(fault) => {
            let line = String::from_str(alloc, fault.line())?;
            let message = message_on(alloc, fault, input)?;
            Ok(Some(Refusal { line, message }))
        }
    }
}

// Returns the message on an input that has no sections.
fn message_on(alloc: Global, fault: SectionFault, bytes: &[u8]) -> Result<String, Memory> {
    let said = SectionReport { fault, bytes }.to_string(alloc)?;
    report_input(alloc, fault.line(), said.as_str())
}

// Returns why the sections of an input are refused, if they are.
fn refusal_in(
    alloc: Global,
    sections: Sections<'_>,
    outside: Vec<Text>,
    floor: i64,
) -> Result<Option<Refusal>, Memory>
    ensures { IfOk result (λ r. let s = sections.entry in option_map line_of r ≡ line_unless_meant
        (meaning outside.items s.schema.now s.units.now s.sources.now s.bundle.now floor)) }
{
    match hosted(alloc, sections, outside, floor) {
        Ok(shell) => {
            let (plan, board, roster) = shell.into_parts();
            drop(plan);
            drop(board);
            drop(roster.close_all());
            Ok(None)
        }
        Err(InputFault::Memory) => Err(AllocError),
        Err(fault) => Ok(Some(explained(alloc, &fault, sections)?)),
    }
}

// Returns the reason of a refusal by a fault.
fn explained(alloc: Global, fault: &InputFault, sections: Sections<'_>) -> Result<Refusal, Memory>
    ensures { IfOk result (λ r. line_of r ≡ refusal_text fault.now) }
{
    let line = fault.line(alloc)?;
    let message = report(alloc, fault, input_of(sections))?;
    Ok(Refusal { line, message })
}

// Converts sections to the input of a report.
fn input_of(sections: Sections<'_>) -> Input<'_> {
    let Sections {
        schema,
        units,
        sources,
        bundle,
        whole,
    } = sections;
    Input {
        schema,
        units,
        sources,
        bundle,
        whole: Some(whole),
    }
}
