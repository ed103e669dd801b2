//! Messages for people, which the program writes besides its answer: `program` (serving.rt) calls these functions, and
//! nothing that happens to what they write changes the answer.

ghost use Rattle.std.specs.Prelude.{◌≡◌, ◌≢◌, IsNone};
ghost use Rattle.bb_main.specs.declared.serving.TheConstants.{LIMIT};

use crate::serving::LIMIT;
use std::io::Write;

/// Writes the report on a refused input, if there is one. Errors of the writer are ignored.
pub(crate) fn say_report<E: Write>(report: Option<String>, errors: &mut E)
    ensures { IsNone report → errors.new ≡ errors.old }
{
    let Some(report) = report else {
        return;
    };
    let _ = writeln!(errors, "{report}");
}

/// Writes the advice on a checked input, if there is any. Errors of the writer are ignored.
pub(crate) fn say_advice<E: Write>(advice: Option<String>, errors: &mut E)
    ensures { IsNone advice → errors.new ≡ errors.old }
{
    if let Some(advice) = advice {
        let _ = write!(errors, "{advice}");
    }
}

/// Writes a note if this is the status of a run that reached its limit. Errors of the writer are ignored.
pub(crate) fn say_limit<E: Write>(status: u8, limit: u32, errors: &mut E)
    ensures { status ≢ LIMIT → errors.new ≡ errors.old }
{
    if status == LIMIT {
        let _ = writeln!(
            errors,
            "input: note[limit]: an activation can still be chosen, but the run has made {limit} cycles, its limit; --limit N sets another"
        );
    }
}
