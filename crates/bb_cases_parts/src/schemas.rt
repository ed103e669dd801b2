//! Documents of schemas, and what the calls of a schema return. The suite calls this for a case.

use crate::schema_calls::{add_answer, answer_of};
use bb_cases_format::{Difference, Entry, Fault, Scope, expanded_text};
use bb_schema::{Schema, SchemaFault};
use std::alloc::Global;

// Appends a line with the call that it begins with, and the result.
fn add_call(alloc: Global, text: &mut String, schema: &Schema, line: &str) -> Result<(), Fault> {
    let (asked, _) = line.split_once(" =").ok_or(Fault::Call)?;
    let (call, rest) = asked.split_once(' ').unwrap_or((asked, ""));
    let answer = answer_of(schema, call, rest)?;
    text.push_str(asked)?;
    text.push_str(" =")?;
    add_answer(alloc, text, schema, &answer)?;
    text.push_str("\n")?;
    Ok(())
}

// Returns the results of the lines' calls, if the document is a schema, else its refusal.
fn given(alloc: Global, document: &str, wanted: &str) -> Result<String, Fault> {
    let mut text = String::new(alloc);
    match Schema::read(alloc, document) {
        Ok(_) if wanted.starts_with("refused ") => text.push_str("accepted\n")?,
        Ok(schema) => {
            for line in wanted.lines() {
                add_call(alloc, &mut text, &schema, line)?;
            }
        }
        Err(SchemaFault::Memory) => return Err(Fault::Memory),
        Err(fault) => {
            let number = fault.number();
            text = format!(in alloc; "refused {number}\n")?;
        }
    }
    Ok(text)
}

/// Compares a case of a schema. Returns the first difference.
pub fn compare_schema(
    alloc: Global,
    scope: Scope<'_>,
    entry: &Entry<'_>,
) -> Result<Option<Difference>, Fault> {
    entry.first.header.check(&[])?;
    let document = expanded_text(scope, entry.first.text(alloc)?.as_str())?;
    let gives = entry.second("gives")?;
    let wanted = expanded_text(scope, gives.text(alloc)?.as_str())?;
    let lines = given(alloc, document.as_str(), wanted.as_str())?;
    Ok(Difference::of(alloc, wanted.as_bytes(), lines.as_bytes())?)
}
