//! The lines of a check (`check_texts` writes them): the costs of each source's parts, then the number of sources.

ghost use Rattle.std.specs.Prelude.{◌≡◌, ◌++◌, IfOk, OnOk, option_map, string_bytes};
ghost use Rattle.bb_shell.specs.CheckText.{act_text, check_text, part_line, part_text, source_text};

use bb_rules::{Act, Question, Reaction, Source};
use bb_verify::Checked;
use std::alloc::{AllocError, Global};
use std::fmt::Write;

/// Returns the lines of all sources, in order, and then their number. The error: out of memory.
pub(crate) fn check_text(alloc: Global, sources: &[Source]) -> Result<String, AllocError>
    ensures { IfOk result (λ text. string_bytes text ≡ check_text sources.now) }
{
    let mut text = String::new(alloc);
    for source in sources {
        add_source(&mut text, source)?;
    }
    let count = sources.len();
    writeln!(text, "checked {count}")?;
    Ok(text)
}

// Appends the lines of a source, one per part, in the order of a bundle.
fn add_source(text: &mut String, source: &Source) -> Result<(), AllocError>
    ensures { OnOk result (string_bytes text.new ≡ string_bytes text.old ++ source_text source.now) }
{
    let parts = source.parts();
    let name = parts.name.as_str();
    add_part(text, name, "require", parts.require.as_ref())?;
    add_part(text, name, "obviate", code_of(&parts.obviate))?;
    add_part(text, name, "retrigger", code_of(&parts.retrigger))?;
    add_part(text, name, "revalidate", parts.revalidate.as_ref())?;
    add_act(text, name, &parts.act)
}

fn code_of(reaction: &Option<Reaction>) -> Option<&Question>
    ensures { option_map (λ c. c.now) result ≡ option_map (λ r. r.code) reaction.now }
{
    match reaction {
        Some(reaction) => Some(&reaction.code),
        None => None,
    }
}

// Appends the line of a part, if the source has the part.
fn add_part(
    text: &mut String,
    name: &str,
    part: &str,
    code: Option<&Question>,
) -> Result<(), AllocError>
    ensures { OnOk result (string_bytes text.new
        ≡ string_bytes text.old ++ part_text name.now part.now (option_map (λ c. c.now) code.entry)) }
{
    match code {
        Some(code) => add_line(text, name, part, code.checked()),
        None => Ok(()),
    }
}

fn add_act(text: &mut String, name: &str, act: &Act) -> Result<(), AllocError>
    ensures { OnOk result (string_bytes text.new ≡ string_bytes text.old ++ act_text name.now act.now) }
{
    match act {
        Act::Code(code) => add_line(text, name, "do", code.checked()),
        Act::Native => writeln!(text, "{name} native"),
    }
}

// Appends the line of a part with this code.
fn add_line(text: &mut String, name: &str, part: &str, code: &Checked) -> Result<(), AllocError>
    ensures { OnOk result (string_bytes text.new ≡ string_bytes text.old ++ part_line name.now part.now code.now) }
{
    let ops = code.code().ops();
    let count = ops.len();
    let least = code.budget(0);
    let next = code.budget(1);
    write!(text, "{name} {part} ops {count}")?;
    writeln!(text, " budget {least} {next}")
}
