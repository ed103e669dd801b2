//! Runs the input of a test, and returns why it was refused.

ghost use Rattle.std.specs.Prelude.{◌≡◌, true, map};
ghost use Rattle.bb_shell.specs.Roster.{all_open};

use crate::input::Input;
use bb_diag::{Input as Sections, report};
use bb_main::ProgramNative;
use bb_shell::{NativeSource, Pipe, run_texts};
use std::alloc::Global;
use std::test::Fail;

/// Why an input was refused.
#[derive(Drop)]
pub(crate) struct Outcome {
    /// The line of the refusal, empty if there was none.
    pub refusal: String,
    /// The number of the refusal, `None` if there was none.
    pub number: Option<u8>,
    /// The report on the refusal, empty if there was none.
    pub report: String,
}

// No natives.
fn no_natives(alloc: Global) -> Vec<ProgramNative>
    ensures { all_open (map ⟦<ProgramNative as NativeSource>⟧.meaning result.items) ≡ true }
{
    Vec::new(alloc)
}

/// Runs an input with an output in memory.
pub(crate) fn run_input(alloc: Global, input: Input<'_>) -> Result<Outcome, Fail> {
    let mut out = Pipe::new(Vec::new(alloc));
    let answer = run_texts(
        alloc,
        input.schema,
        input.units,
        input.sources,
        input.bundle,
        no_natives(alloc),
        input.limit,
        input.floor,
        &mut out,
    );
    let _bytes: Vec<u8> = out.into_inner();
    match answer {
        Ok(_) => Ok(Outcome {
            refusal: String::new(alloc),
            number: None,
            report: String::new(alloc),
        }),
        Err(fault) => Ok(Outcome {
            refusal: fault.line(alloc)?,
            number: Some(fault.number()),
            report: report(alloc, &fault, sections_of(input))?,
        }),
    }
}

/// Returns the texts of an input as its sections.
pub(crate) fn sections_of(input: Input<'_>) -> Sections<'_> {
    Sections {
        schema: input.schema,
        units: input.units,
        sources: input.sources,
        bundle: input.bundle,
        whole: None,
    }
}
