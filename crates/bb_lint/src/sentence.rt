//! Warnings about the codes of a source as sentences, with the names of the schema. `advice` writes them.

ghost use Rattle.std.specs.Prelude.{◌<◌, length};
ghost use Rattle.bb_lint.specs.proving.Admitted.{AreAdmitted};

use crate::finds::Admitted;
use crate::linked::vain_links;
use crate::mistaken::{Mistake, mistake_at};
use crate::vain::held_class;
use crate::warning::{Warning, code_warnings};
use bb_basis::{Memory, Names};
use bb_code::{ClassId, Code, Op, Place};
use bb_lint_parts::{OpSites, Possible, Site, Subject};
use bb_rules::Source;
use bb_schema::Schema;
use bb_verify::Checked;
use std::alloc::Global;
use std::fmt::Write;

// Returns the name of a class.
fn class_name(schema: &Schema, class: ClassId) -> &str {
    schema.class_name(class).unwrap_or("?")
}

/// A code of a source, with the locations of its ops.
#[derive(Clone, Copy)]
pub(crate) struct Part<'a> {
    pub(crate) source: &'a Source,
    pub(crate) checked: &'a Checked,
    pub(crate) sites: &'a OpSites<'a>,
}

impl<'a> Part<'a> {
    // Returns what a warning about the code is about.
    fn subject(self, kind: &'static str) -> Subject<'a> {
        Subject {
            kind,
            source: self.source.parts().name.as_str(),
            part: self.checked.part().word(),
        }
    }

    // Returns where an op is; the part, if the code has no op at the index.
    fn site(self, place: Place) -> Site<'a> {
        match self.checked.code().op(place as usize) {
            Some(op) => self.sites.at(place, op),
            None => self.sites.part(),
        }
    }
}

// Appends that no unit of the known class can have the class tested for.
fn write_test(
    text: &mut String,
    schema: &Schema,
    checked: &Checked,
    place: Place,
) -> Result<(), Memory> {
    let Some(op) = checked.code().op(place as usize) else {
        return Ok(());
    };
    if let (Op::As(class, _), Some(held)) = (op, held_class(checked.frame(place))) {
        let held = class_name(schema, held);
        let class = class_name(schema, class);
        write!(text, "no {held} is a {class}, ")?;
    }
    text.push_str("so the test never holds")
}

// Appends that no unit of the query's class can be in its space, or that none ever enters it.
fn write_find(
    text: &mut String,
    schema: &Schema,
    code: &Code,
    place: Place,
    why: &str,
) -> Result<(), Memory> {
    if let Some(Op::Find(index)) = code.op(place as usize) {
        if let Some(query) = code.queries().get(index as usize) {
            let class = class_name(schema, query.class);
            let space = schema.space_name(query.space).unwrap_or("?");
            write!(text, "no {class} {why} space {space}, ")?;
        }
    }
    text.push_str("so nothing is found")
}

// Appends a warning about a code.
fn write_slip(
    text: &mut String,
    schema: &Schema,
    part: Part<'_>,
    warning: Warning,
) -> Result<(), Memory> {
    let checked = part.checked;
    let site = match warning {
        Warning::Test(place) | Warning::Find(place) => part.site(place),
        Warning::Unused(_) => part.sites.part(),
    };
    let subject = part.subject(match warning {
        Warning::Test(_) => "warning[test]",
        Warning::Find(_) => "warning[find]",
        Warning::Unused(_) => "warning[query]",
    });
    site.begin(text, subject)?;
    match warning {
        Warning::Test(place) => write_test(text, schema, checked, place)?,
        Warning::Find(place) => write_find(text, schema, checked.code(), place, "is in")?,
        Warning::Unused(query) => write!(text, "no op names query {query}")?,
    }
    site.end(text, subject)
}

/// Appends the warnings about a code.
pub(crate) fn write_code(
    alloc: Global,
    text: &mut String,
    schema: &Schema,
    admitted: &Admitted,
    part: Part<'_>,
) -> Result<(), Memory>
    requires { AreAdmitted schema.now admitted.now.lists.items }
{
    let warnings = code_warnings(alloc, schema, admitted, part.checked)?;
    for warning in &warnings {
        write_slip(text, schema, part, *warning)?;
    }
    Ok(())
}

// Returns whether an op searches a space that admits units of its class but that none of them can enter.
fn finds_none(schema: &Schema, possible: &Possible, code: &Code, place: Place) -> bool {
    let Some(Op::Find(index)) = code.op(place as usize) else {
        return false;
    };
    match code.queries().get(index as usize) {
        None => false,
        Some(query) => {
            let count = schema.class_count() as ClassId;
            let is_admitted = (0..count).any(|class| {
                schema.descends(class, query.class) && schema.allowed(query.space, class)
            });
            is_admitted && !possible.can_enter(schema, query.space, query.class)
        }
    }
}

/// Appends the searches of a code in spaces that no unit of their class ever enters.
pub(crate) fn write_empty_finds(
    text: &mut String,
    schema: &Schema,
    possible: &Possible,
    part: Part<'_>,
) -> Result<(), Memory> {
    let code = part.checked.code();
    let count = code.ops().len() as Place;
    for place in 0..count {
        if finds_none(schema, possible, code, place) {
            let site = part.site(place);
            let subject = part.subject("warning[find]");
            site.begin(text, subject)?;
            write_find(text, schema, code, place, "ever enters")?;
            site.end(text, subject)?;
        }
    }
    Ok(())
}

// Appends what follows from a mistake shown by two ops.
fn write_mistake(text: &mut String, mistake: Mistake<'_>) -> Result<(), Memory> {
    match mistake {
        Mistake::NoSource(name) => {
            write!(
                text,
                "there is no source \"{name}\", so the focus weighs nothing"
            )
        }
        Mistake::NoArea(name) => {
            write!(
                text,
                "there is no class \"{name}\", so the focus weighs nothing"
            )
        }
        Mistake::NoUnit => text.push_str(
            "quiescence alone triggers the source, and gives it no unit, so the test never holds",
        ),
    }
}

/// Appends the mistakes of a code that two consecutive ops show, if the sources have these names.
pub(crate) fn write_mistakes(
    text: &mut String,
    schema: &Schema,
    names: &Names,
    part: Part<'_>,
) -> Result<(), Memory> {
    let code = part.checked.code();
    let count = code.ops().len() as Place;
    for place in 0..count {
        if let Some(mistake) = mistake_at(schema, names, part.source, code, place) {
            let site = part.site(place);
            let subject = part.subject(mistake.kind());
            site.begin(text, subject)?;
            write_mistake(text, mistake)?;
            site.end(text, subject)?;
        }
    }
    Ok(())
}

/// Appends the links of a code that exist where it makes them.
pub(crate) fn write_vain_links(
    alloc: Global,
    text: &mut String,
    schema: &Schema,
    part: Part<'_>,
) -> Result<(), Memory> {
    let links = vain_links(alloc, schema, part.checked.code())?;
    for link in &links {
        let site = part.site(link.place);
        let subject = part.subject("warning[link]");
        let slot = schema.slot_name(link.slot).unwrap_or("?");
        site.begin(text, subject)?;
        write!(text, "the loop is over the units of {slot}, ")?;
        text.push_str("so the two are linked already, and this does nothing")?;
        site.end(text, subject)?;
    }
    Ok(())
}
