//! The numbers of refusals. The program writes only their lines.

use crate::input::{FIRST, HAIL, Input, NOTE_SCHEMA, ONE_NOTE};
use crate::outcome::run_input;
use bb_shell::InputFault;
use std::alloc::Global;
use std::test::Fail;

/// A source whose code is not accepted.
pub(crate) const NOT_ACCEPTED: &str =
    "source hail note 1\nwhen create note\ndo 4242430101000000000000000000022e2e\n";

/// A text of a source on a class that does not exist.
pub(crate) const NOT_COMPILED: &str = "source echo on word { when create word; rate 1; native; }";

// The number of an input's refusal, or 0, and its line.
fn numbered_refusal(alloc: Global, input: Input<'_>) -> Result<String, Fail> {
    let outcome = run_input(alloc, input)?;
    let number = outcome.number.unwrap_or(0);
    let line = outcome.refusal;
    Ok(format!(in alloc; "{number} {line}")?)
}

// Each refusal has the number of the step that refuses.
#[test]
fn numbers_of_refusals(rt: HostRuntime) -> Result<(), Fail> {
    for (schema, units, sources, bundle, line) in [
        ("", ONE_NOTE, "X", HAIL, "1 refused schema 1"),
        (NOTE_SCHEMA, "", "X", HAIL, "2 refused units 1"),
        (NOTE_SCHEMA, ONE_NOTE, "X", "x", "3 refused lang 1:1 1"),
        (
            NOTE_SCHEMA,
            ONE_NOTE,
            NOT_COMPILED,
            "x",
            "4 refused compile echo 1:13 1",
        ),
        (NOTE_SCHEMA, ONE_NOTE, "", "x", "5 refused bundle 1 1"),
        (
            NOTE_SCHEMA,
            ONE_NOTE,
            "",
            NOT_ACCEPTED,
            "6 refused verify hail do 1 4",
        ),
        ("{}", "{}", "", HAIL, "7 refused rule hail 5"),
    ] {
        let input = Input {
            schema,
            units,
            sources,
            bundle,
            ..FIRST
        };
        assert_eq!(rt; numbered_refusal(rt.alloc(), input)?.as_str(), line);
    }
    Ok(())
}

// What is not refused has no number, and a lack of memory has no line.
#[test]
fn numbers_without_lines(rt: HostRuntime) -> Result<(), Fail> {
    assert_eq!(rt; run_input(rt.alloc(), FIRST)?.number, None);
    assert_eq!(rt; InputFault::Memory.number(), 8);
    assert_eq!(rt; InputFault::Memory.line(rt.alloc())?.as_str(), "");
    Ok(())
}
