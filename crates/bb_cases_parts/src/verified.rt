//! Verifies codes and writes the verdicts as lines; then executes the codes, if a case asks for that.

use crate::bent::Bending;
use crate::board::schema_of;
use crate::executions::{add_on_scene, entry_of};
use crate::machines::Asked;
use bb_basis::Whole;
use bb_cases_format::{
    Difference, Entry, Fault, Header, Names, Scene, Scope, code_of, expanded_text, number,
    write_kind,
};
use bb_code::{Flaw, Kind, VerifyFault};
use bb_schema::Schema;
use bb_verify::{Checked, FOUND_LIMIT, Frame, Part, verify};
use std::alloc::{AllocError, Global};
use std::fmt::Write;

// Returns the part that a word names, such as `do:1` or `obviate:1:2`.
fn part_of(word: Option<&str>) -> Result<Part, Fault> {
    let (name, classes) = word
        .and_then(|word| word.split_once(':'))
        .ok_or(Fault::Part)?;
    let (class, of) = match classes.split_once(':') {
        None => (number(classes)?, None),
        Some((class, of)) => (number(class)?, Some(number(of)?)),
    };
    match (name, of) {
        ("do", None) => Ok(Part::Do { class }),
        ("require", None) => Ok(Part::Require { class }),
        ("revalidate", None) => Ok(Part::Revalidate { class }),
        ("obviate", Some(of)) => Ok(Part::Obviate { class, of }),
        ("retrigger", Some(of)) => Ok(Part::Retrigger { class, of }),
        _ => Err(Fault::Part),
    }
}

// Appends a line with the verdict.
fn add_verdict(text: &mut String, answer: &Result<Checked, VerifyFault>) -> Result<(), AllocError> {
    match answer {
        Ok(_) => text.push_str("accepted\n"),
        Err(
            VerifyFault {
                place: _,
                flaw: Flaw::Memory,
            },
        ) => Err(AllocError),
        Err(VerifyFault { place, flaw }) => writeln!(text, "{place} {flaw:?}"),
    }
}

fn add_kinds(text: &mut String, kinds: &[Kind]) -> Result<(), AllocError> {
    for kind in kinds {
        text.push_str(" ")?;
        write_kind(text, *kind)?;
    }
    Ok(())
}

fn add_frame(text: &mut String, frame: &Frame) -> Result<(), AllocError> {
    add_kinds(text, frame.locals.kinds())?;
    if frame.stack.len() > 0 {
        text.push_str(" /")?;
        add_kinds(text, frame.stack.entries())?;
    }
    text.push_str("\n")
}

// Appends the budget or frame named at the start of a line.
fn add_fact(text: &mut String, checked: &Checked, asked: &str) -> Result<(), Fault> {
    write!(text, "{asked} =")?;
    match asked.split_once(' ') {
        Some(("budget", word)) => {
            let found = number(word)?;
            if found > FOUND_LIMIT {
                return Err(Fault::Number);
            }
            let budget = checked.budget(found);
            writeln!(text, " {budget}")?;
        }
        Some((_, word)) => {
            let place = number::<u16>(word)?;
            if usize::from(place) >= checked.code().ops().len() {
                return Err(Fault::Number);
            }
            add_frame(text, &checked.frame(place))?;
        }
        None => return Err(Fault::Call),
    }
    Ok(())
}

// Appends the budgets and frames that the lines name.
fn add_facts(text: &mut String, checked: &Checked, wanted: &str) -> Result<(), Fault> {
    for line in wanted.lines() {
        if line.starts_with("budget ") || line.starts_with("frame ") {
            let (asked, _) = line.split_once(" =").ok_or(Fault::Call)?;
            add_fact(text, checked, asked)?;
        }
    }
    Ok(())
}

// Appends the verdict on the text of a code, and the wanted ones of its facts.
fn add_answer(
    alloc: Global,
    lines: &mut String,
    schema: &Schema,
    part: Part,
    text: &str,
    wanted: &str,
) -> Result<(), Fault> {
    let answer = Whole::of(verify(alloc, schema, part, code_of(alloc, text)?));
    add_verdict(lines, &answer.value)?;
    match &answer.value {
        Ok(checked) => add_facts(lines, checked, wanted),
        Err(_) => Ok(()),
    }
}

// Appends how the execution of a code ends and, if the header asks for them, the code's neighbours.
fn add_execution(
    lines: &mut String,
    header: &Header<'_>,
    bending: Bending<'_>,
    text: &str,
) -> Result<(), Fault> {
    let code = code_of(bending.alloc, text)?;
    add_on_scene(bending.alloc, lines, bending.scene, &code, bending.asked)?;
    if is_bent(header)? {
        bending.add(lines, &code)?;
    }
    Ok(())
}

// Returns the lines for the text of a code, given the wanted lines.
fn given(
    alloc: Global,
    scene: &Scene,
    header: &Header<'_>,
    text: &str,
    wanted: &str,
) -> Result<String, Fault> {
    let part = part_of(header.option("part"))?;
    let schema = schema_of(alloc, scene.schema.as_str())?;
    let mut lines = String::new(alloc);
    add_answer(alloc, &mut lines, &schema, part, text, wanted)?;
    if let Some(word) = header.option("entry") {
        let asked = Asked {
            entry: entry_of(word)?,
            limit: header.number("limit", 1_000)?,
            part: Some(part),
        };
        let bending = Bending {
            alloc,
            schema: &schema,
            scene,
            part,
            asked,
        };
        add_execution(&mut lines, header, bending, text)?;
    }
    Ok(lines)
}

// Returns whether a header asks for the neighbours of its code.
fn is_bent(header: &Header<'_>) -> Result<bool, Fault> {
    match header.option("bent") {
        None => Ok(false),
        Some("bytes") => Ok(true),
        Some(_) => Err(Fault::Options),
    }
}

// Returns the lines for the text of a code, on the blackboard that a header names, or on an empty one.
fn lines_of(
    alloc: Global,
    names: &Names,
    header: &Header<'_>,
    text: &str,
    wanted: &str,
) -> Result<String, Fault> {
    if let Some(name) = header.option("board") {
        return given(alloc, names.board(name)?, header, text, wanted);
    }
    let scene = Whole::of(Scene {
        schema: names.copied(header.option("schema"))?,
        units: None,
        deleted: None,
    });
    given(alloc, &scene.value, header, text, wanted)
}

/// Compares a case of a code. Returns the first difference.
pub fn compare_code(
    alloc: Global,
    names: &Names,
    entry: &Entry<'_>,
) -> Result<Option<Difference>, Fault> {
    let header = &entry.first.header;
    header.check(&["schema", "board", "part", "entry", "limit", "bent"])?;
    let scope = Scope::new(alloc, names);
    let text = expanded_text(scope, entry.first.text(alloc)?.as_str())?;
    let gives = entry.second("gives")?;
    let wanted = expanded_text(scope, gives.text(alloc)?.as_str())?;
    let lines = lines_of(alloc, names, header, text.as_str(), wanted.as_str())?;
    Ok(Difference::of(alloc, wanted.as_bytes(), lines.as_bytes())?)
}
