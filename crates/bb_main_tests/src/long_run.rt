//! A run of one source that says much, and its trace. The tests serve it.

use std::alloc::{AllocError, Global};

// Appends a text `times` times.
fn repeat(text: &mut String, part: &str, times: usize) -> Result<(), AllocError> {
    for _ in 0..times {
        text.push_str(part)?;
    }
    Ok(())
}

// The ops of the long run: sixteen times `PushText 0`, then `Say 16`.
const PUSH: &str = "020000";

const SAY: &str = "2910";

/// Returns the input of a run of one source that says two lines of sixteen texts of 40,000 bytes each.
pub(crate) fn long_run(alloc: Global) -> Result<String, AllocError> {
    let mut input = String::from_str(
        alloc,
        "%schema\n{\"classes\":[{\"name\":\"note\"}]}\n%units\n{\"units\":[{\"name\":\"a\",\"class\":\"note\"}]}\n\
         %bundle\nsource hail note 100\nwhen create note\ndo 424243010100019c40",
    )?;
    repeat(&mut input, "61", 40_000)?;
    input.push_str("0000000000000023")?;
    for _ in 0..2 {
        repeat(&mut input, PUSH, 16)?;
        input.push_str(SAY)?;
    }
    input.push_str("2e\n")?;
    Ok(input)
}

/// Returns the trace of the long run. The segment of its execution, from the first `say` to `end`, has 1.28 MB.
pub(crate) fn long_trace(alloc: Global) -> Result<String, AllocError> {
    let mut trace = String::from_str(
        alloc,
        "create 1 note\ntrigger 1 hail unit 1 rating 100\ncycle 1 act 1 hail unit 1 rating 100\n",
    )?;
    for _ in 0..2 {
        trace.push_str("say")?;
        for _ in 0..16 {
            trace.push_str(" \"")?;
            repeat(&mut trace, "a", 40_000)?;
            trace.push_str("\"")?;
        }
        trace.push_str("\n")?;
    }
    trace.push_str("end steps 35 found 0 budget 35\nquiescence\nfinish quiescence\n")?;
    Ok(trace)
}
