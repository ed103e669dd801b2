//! Bundles an input's sources that are text. Programs (bb_main) call `compile_texts`.

ghost use Rattle.std.specs.Prelude.{◌≡◌, ◌⊎◌, true, false, map, IfErr, IfOk, OnErr};
ghost use Rattle.bb_basis.specs.Results.{Gives};
ghost use Rattle.bb_run.specs.Roster.{all_open};
ghost use Rattle.bb_shell.specs.Compile.{IsReadAgain, WritesBundle, bundle_in};
ghost use Rattle.bb_shell.specs.Written.{is_cut};

use crate::compiled::compiled_text;
use crate::texts::read_schema;
use crate::written::{Done, write};
use bb_bundle::{SourceCode, bundle};
use bb_refusal::InputFault;
use bb_run::{NativeSource, Out, close_each};
use std::alloc::Global;

/// Reads a schema and a text of sources, compiles the sources, and writes them as a bundle. Reads neither units nor a
/// bundle and verifies nothing. An input is refused at the first step that refuses it: schema, text, then source by
/// source; then nothing is written. Every native is closed once, in order, and none is called. `Memory`: memory ran
/// out.
pub fn compile_texts<N: NativeSource, O: Out>(
    alloc: Global,
    schema: &str,
    sources: &str,
    natives: Vec<N>,
    out: &mut O,
) -> Result<Done, InputFault>
    requires open { O.has_failed out.old ≡ false }
    requires natives { all_open (map N.meaning natives.items) ≡ true }

    // `Ok`: the output took the text of a bundle of the text's sources; at `Write`, a prefix of it.
    ensures text { IfOk result (λ done.
        WritesBundle (bundle_in schema.now sources.now) done (O.taken out.old) (O.taken out.new)) }

    // The written bundle is read as the same sources.
    ensures again { IfOk result (λ _. IsReadAgain (bundle_in schema.now sources.now)) }

    // `Write` means that the output has failed.
    ensures failed { IfOk result (λ done. O.has_failed out.new ≡ is_cut done) }

    // `Err`: the fault is the first refusal, and the output is unchanged.
    ensures refused { IfErr result (λ e. (e ≡ InputFault.Memory) ⊎ (bundle_in schema.now sources.now ≡ Err e)) }
    ensures quiet { OnErr result (out.new ≡ out.old) }
{
    close_each(natives);
    let codes = read_codes(alloc, schema, sources)?;
    let text = bundle(alloc, codes.as_slice())?;
    Ok(write(text.as_str(), out))
}

#[tactic(auto, unfolding(crate::specs::Compile::bundle_in))]
fn read_codes(alloc: Global, schema: &str, sources: &str) -> Result<Vec<SourceCode>, InputFault>
    ensures { Gives InputFault.Memory (λ v. v.items) result (bundle_in schema.now sources.now) }
{
    let schema = read_schema(alloc, schema)?;
    compiled_text(alloc, &schema, sources)
}
