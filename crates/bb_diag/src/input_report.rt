//! The report on an input that has no sections, or was not read: nothing can be looked up in it. The program (bb_main) and
//! held runs (bb_c_run) call it; `report` is for inputs with sections.

use bb_basis::Memory;
use std::alloc::Global;

/// Explains to people why an input without sections is refused. `line` is the line that refuses it, and `reason` the
/// sentence, which may have notes below it. The head of the message has the words of that line and, if the first note
/// begins with a line of the input, this line. The text does not end in a line feed. `Memory`: memory ran out.
pub fn report_input(alloc: Global, line: &str, reason: &str) -> Result<String, Memory> {
    let words = line.strip_prefix("refused ").unwrap_or(line);
    let said = reason.strip_prefix("input: ").unwrap_or(reason);
    match noted_line(said) {
        "" => format!(in alloc; "input: error[{words}]: {said}"),
        line => format!(in alloc; "input:{line}: error[{words}]: {said}"),
    }
}

// Returns the line of the input that the note below a reason begins with; empty if there is none.
fn noted_line(reason: &str) -> &str {
    match reason.split_once("\n  | line ") {
        Some((_, note)) => note.split_once(": ").map_or("", |(line, _)| line),
        None => "",
    }
}
