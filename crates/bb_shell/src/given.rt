//! The sources of an input, from its two texts: the sources in the language (compiled.rt) and the sources of a bundle.
//! The run (texts.rt) and the check (check.rt) of an input begin with them.

ghost use Rattle.std.specs.Prelude.{◌≡◌, ◌≤◌, length, IfOk};
ghost use Rattle.bb_basis.specs.Results.{Gives, map_err};
ghost use Rattle.bb_bundle.specs.Bundle.{sources_of};
ghost use Rattle.bb_shell.specs.Fitting.{names_in};
ghost use Rattle.bb_shell.specs.Sources.{codes_in, given};

use crate::compiled::compiled_text;
use crate::sources::sources_for;
use bb_bundle::{BundleFault, SourceCode, unbundle};
use bb_refusal::InputFault;
use bb_rules::Source;
use bb_run::{Closing, SOURCE_LIMIT};
use bb_schema::Schema;
use std::alloc::Global;

/// Returns the sources that run together: the sources that are text, then the sources of the bundle. All texts are
/// compiled before the bundle is read, and the whole bundle is read before any code is verified.
#[tactic(auto, unfolding(crate::specs::Sources::given))]
pub(crate) fn given(
    alloc: Global,
    natives: &[Closing],
    schema: &Schema,
    sources: &str,
    bundle: &str,
) -> Result<Vec<Source>, InputFault>
    ensures given { Gives InputFault.Memory (λ v. v.items) result
        (given (names_in natives.now) schema.now sources.now bundle.now) }
    ensures few { IfOk result (λ v. length v.items ≤ SOURCE_LIMIT) }
{
    let codes = codes_in(alloc, schema, sources, bundle)?;
    sources_for(alloc, natives, schema, codes)
}

// The sources of both texts, with their codes.
#[tactic(auto, unfolding(crate::specs::Sources::codes_in))]
fn codes_in(
    alloc: Global,
    schema: &Schema,
    sources: &str,
    bundle: &str,
) -> Result<Vec<SourceCode>, InputFault>
    ensures { Gives InputFault.Memory (λ v. v.items) result (codes_in schema.now sources.now bundle.now) }
{
    let mut codes = compiled_text(alloc, schema, sources)?;
    let mut bundled = read_bundle(alloc, bundle)?;
    codes.append(&mut bundled)?;
    Ok(codes)
}

fn read_bundle(alloc: Global, text: &str) -> Result<Vec<SourceCode>, InputFault>
    ensures { Gives InputFault.Memory (λ v. v.items) result (map_err InputFault.Bundle (sources_of text.now)) }
{
    match unbundle(alloc, text) {
        Ok(codes) => Ok(codes),
        Err(BundleFault::Memory) => Err(InputFault::Memory),
        Err(fault) => Err(InputFault::Bundle(fault)),
    }
}
