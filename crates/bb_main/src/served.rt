//! The outcome of serving an input. `serve_with` returns it, and `program` writes its report and advice.

ghost use Rattle.std.specs.Prelude.{◌≡◌, IsNone};

/// The status of the program, why the input is refused, and the advice on a checked input.
#[derive(Drop)]
pub struct Served {
    /// The status, as `serve` returns it.
    pub status: u8,
    /// Why the input is refused, without a line feed at the end. `None` if the input is not refused, if the line of the
    /// refusal could not be written, or if memory for the report ran out.
    pub report: Option<String>,
    /// The advice on a checked input: warnings, and a table of what its parts cost, in lines that end with a line feed.
    /// `None` in other modes, if the input is refused, or if memory for the advice ran out.
    pub advice: Option<String>,
}

impl Served {
    /// Makes a status without a report or advice.
    pub(crate) fn quiet(status: u8) -> Served
        ensures status { result.status ≡ status }
        ensures report { IsNone result.report }
        ensures advice { IsNone result.advice }
    {
        Served {
            status,
            report: None,
            advice: None,
        }
    }
}
