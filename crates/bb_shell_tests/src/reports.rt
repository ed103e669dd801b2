//! The reports on refused inputs: the sentence of each step, the details shown of its location, and the line with its
//! caret.

use crate::input::{FIRST, HAIL, Input, NOTE_SCHEMA, ONE_NOTE};
use crate::outcome::{run_input, sections_of};
use crate::refusals::{NOT_ACCEPTED, NOT_COMPILED};
use bb_diag::report;
use bb_shell::InputFault;
use std::alloc::Global;
use std::test::Fail;

// A bundle whose third line has no pairs of hex digits.
const NO_HEX: &str = "source hail note 1\nwhen create note\ndo 4\n";

// A bundle whose third line has bytes that are no code.
const NO_CODE: &str = "source hail note 1\nwhen create note\ndo 42424303\n";

// The report on sources that are text.
fn said_of(alloc: Global, sources: &str) -> Result<String, Fail> {
    let input = Input {
        sources,
        bundle: "",
        ..FIRST
    };
    Ok(run_input(alloc, input)?.report)
}

// The report of each step that has no place in the text of sources.
#[test]
fn sentences(rt: HostRuntime) -> Result<(), Fail> {
    for (schema, units, bundle, sentence) in [
        (
            "",
            ONE_NOTE,
            HAIL,
            "%schema:1:1: error[schema 1]: it is not JSON
  | \n  | ^",
        ),
        (
            NOTE_SCHEMA,
            "",
            HAIL,
            "%units:1:1: error[units 1]: it is not JSON
  | \n  | ^",
        ),
        (
            NOTE_SCHEMA,
            ONE_NOTE,
            "x",
            "%bundle:1: error[bundle 1]: this is no line of a bundle, or it does not belong here
  | x",
        ),
        (
            NOTE_SCHEMA,
            ONE_NOTE,
            NO_HEX,
            "%bundle:3: error[bundle 2]: the code is not in pairs of hex digits
  | do 4",
        ),
        (
            NOTE_SCHEMA,
            ONE_NOTE,
            NO_CODE,
            "%bundle:3: error[bundle code 2]: the bytes are no code: their version is neither 1 nor 2
  | byte 3 of the code, which has 4",
        ),
        (
            NOTE_SCHEMA,
            ONE_NOTE,
            NOT_ACCEPTED,
            "input: error[verify 4]: source hail, do, op 1: no frame stands here, or what the op leaves does not fit a declared one
  | op 1 \"Done\"",
        ),
        (
            "{}",
            "{}",
            HAIL,
            "%bundle:1: error[rule 5]: source hail: a class is not there, or is neither that of the source or of its reaction nor below it
  | source hail note 100",
        ),
    ] {
        let input = Input {
            schema,
            units,
            bundle,
            ..FIRST
        };
        assert_eq!(rt; run_input(rt.alloc(), input)?.report.as_str(), sentence);
    }
    Ok(())
}

#[test]
fn nothing_said(rt: HostRuntime) -> Result<(), Fail> {
    let said = report(rt.alloc(), &InputFault::Memory, sections_of(FIRST))?;
    assert_eq!(rt; said.as_str(), "memory ran out");
    assert_eq!(rt; run_input(rt.alloc(), FIRST)?.report.as_str(), "");
    Ok(())
}

// The caret stands below the column: after a character of two bytes, after a tab, below one that a terminal would obey,
// and at the end of a text, where there is an empty line.
#[test]
fn carets(rt: HostRuntime) -> Result<(), Fail> {
    for (sources, report) in [
        (
            NOT_COMPILED,
            "%sources:1:16: error[compile 1]: no class \"word\" is declared; declared: note, focus
  | source echo
  | source echo on word { when create word; rate 1; native; }
  |                ^",
        ),
        (
            "source a on note {\n  when create note;\n  rate 1; do { say \"\u{e9}\", ; } }",
            "%sources:3:25: error[lang 2]: a value is due behind \",\"
  |   rate 1; do { say \"\u{e9}\", ; } }
  |                         ^",
        ),
        (
            "source a on note {\r\n\twhen create note\r\n\trate 1;",
            "%sources:3:2: error[lang 2]: \";\" is due at the end of line 2
  |  rate 1;
  |  ^",
        ),
        (
            "\u{1b}[2J",
            "%sources:1:1: error[lang 1]: U+001B begins no token
  |  [2J
  | ^",
        ),
        (
            "source a on note {\n",
            "%sources:2:1: error[lang 2]: \"when\" is due, and the text ends
  | \n  | ^",
        ),
    ] {
        assert_eq!(rt; said_of(rt.alloc(), sources)?.as_str(), report);
    }
    Ok(())
}

// How a line begins and ends that is not cut.
const BEGINNING: &str = "source a on note { when create note; rate 1; do { say \"";

const END: &str = "\"; } }";

// A line, or what is shown of it: a text of `before` letters, a comma too many, and a text of `after` letters.
fn line(
    alloc: Global,
    front: &str,
    before: usize,
    after: usize,
    back: &str,
) -> Result<String, Fail> {
    let mut line = String::from_str(alloc, front)?;
    push_repeated(&mut line, "a", before)?;
    line.push_str("\", , \"")?;
    push_repeated(&mut line, "b", after)?;
    line.push_str(back)?;
    Ok(line)
}

fn push_repeated(text: &mut String, part: &str, times: usize) -> Result<(), Fail> {
    for _ in 0..times {
        text.push_str(part)?;
    }
    Ok(())
}

// The report on a line with a comma too many at the column, with what is shown and the indent of the caret.
fn report_with(alloc: Global, column: usize, shown: &str, indent: usize) -> Result<String, Fail> {
    let mut report = format!(in alloc;
        "%sources:1:{column}: error[lang 2]: one \",\" is enough\n  | "
    )?;
    report.push_str(shown)?;
    report.push_str("\n  | ")?;
    push_repeated(&mut report, " ", indent)?;
    report.push_str("^")?;
    Ok(report)
}

// A line of 160 characters is whole, a longer one is cut around the comma, with a mark where it goes on.
#[test]
fn long_lines(rt: HostRuntime) -> Result<(), Fail> {
    let alloc = rt.alloc();
    for (before, after, front, shown_before, shown_after, back, indent) in [
        (40, 53, BEGINNING, 40, 53, END, 98),
        (200, 0, "..", 148, 0, END, 153),
        (200, 200, "..", 77, 77, "..", 82),
        (10, 200, BEGINNING, 10, 89, "..", 68),
    ] {
        let sources = line(alloc, BEGINNING, before, after, END)?;
        let shown = line(alloc, front, shown_before, shown_after, back)?;
        let report = report_with(alloc, before + 59, shown.as_str(), indent)?;
        assert_eq!(rt; said_of(alloc, sources.as_str())?.as_str(), report.as_str());
    }
    Ok(())
}
