//! Checks an input: its sources are verified and made, nothing is run, and the costs of their parts are written.
//! Programs (bb_main) call `check_sources`, hosts call `check_texts`.

ghost use Rattle.std.specs.Prelude.{◌≡◌, ◌⊎◌, Ok, true, false, map, IfErr, IfOk, OnErr};
ghost use Rattle.bb_basis.specs.Results.{Gives, map_err};
ghost use Rattle.bb_schema.specs.Reading.{schema_of};
ghost use Rattle.bb_run.specs.Roster.{all_open};
ghost use Rattle.bb_shell.specs.Fitting.{names_in, native_names};
ghost use Rattle.bb_shell.specs.Check.{WritesCheck, sources_in};
ghost use Rattle.bb_shell.specs.Written.{is_cut};

use crate::check_text::check_text;
use crate::given::given;
use crate::texts::read_schema;
use crate::written::{Done, write};
use bb_refusal::InputFault;
use bb_rules::Source;
use bb_run::{Closing, NativeSource, Out, Roster};
use bb_schema::Schema;
use std::alloc::Global;

/// An input that was checked.
pub struct Check {
    /// How far the lines about the input were written.
    pub done: Done,
    pub schema: Schema,
    /// The sources of the input: the sources that are text, then the sources of the bundle.
    pub sources: Vec<Source>,
}

// By hand: proofs then meet one call per drop, not one per part.
impl Drop for Check {
    fn drop(self) {
        let Check {
            done: _,
            schema: _,
            sources: _,
        } = self;
    }
}

/// Reads a schema and sources, as text and from a bundle, verifies all their codes, and writes the costs of each
/// source's parts and the number of sources. No units are read. Otherwise an input is refused as by `run_texts`, and
/// then nothing is written. Every native is closed once, in order, and none is called. `Memory`: memory ran out.
pub fn check_sources<N: NativeSource, O: Out>(
    alloc: Global,
    schema: &str,
    sources: &str,
    bundle: &str,
    natives: Vec<N>,
    out: &mut O,
) -> Result<Check, InputFault>
    requires open { O.has_failed out.old ≡ false }
    requires natives { all_open (map N.meaning natives.items) ≡ true }

    // `Ok`: the sources are those of the texts, and the output took the lines about them; at `Write`, a prefix of the
    // lines.
    ensures text { IfOk result (λ c.
        WritesCheck (sources_in (native_names (map N.meaning natives.items)) schema.now sources.now bundle.now)
        c.done (O.taken out.old) (O.taken out.new)) }
    ensures sources { IfOk result (λ c.
        sources_in (native_names (map N.meaning natives.items)) schema.now sources.now bundle.now
        ≡ Ok c.sources.items) }
    ensures schema { IfOk result (λ c. map_err InputFault.Schema (schema_of schema.now) ≡ Ok c.schema) }

    // `Write` means that the output has failed.
    ensures failed { IfOk result (λ c. O.has_failed out.new ≡ is_cut c.done) }

    // `Err`: the fault is the first refusal, and the output is unchanged.
    ensures refused { IfErr result (λ e. (e ≡ InputFault.Memory)
        ⊎ (sources_in (native_names (map N.meaning natives.items)) schema.now sources.now bundle.now ≡ Err e)) }
    ensures quiet { OnErr result (out.new ≡ out.old) }
{
    let roster = Roster::new(alloc, natives)?;
    let read = read_sources(alloc, roster.handed_in(), schema, sources, bundle);
    drop(roster.close_all());
    let checked = read?;
    let text = check_text(alloc, checked.1.as_slice())?;
    let done = write(text.as_str(), out);
    let (schema, sources) = checked;
    Ok(Check {
        done,
        schema,
        sources,
    })
}

/// Checks an input as `check_sources` does, and returns only how far the lines were written.
pub fn check_texts<N: NativeSource, O: Out>(
    alloc: Global,
    schema: &str,
    sources: &str,
    bundle: &str,
    natives: Vec<N>,
    out: &mut O,
) -> Result<Done, InputFault>
    requires open { O.has_failed out.old ≡ false }
    requires natives { all_open (map N.meaning natives.items) ≡ true }

    // `Ok`: the sources are those of the texts, and the output took the lines about them; at `Write`, a prefix of the
    // lines.
    ensures text { IfOk result (λ done.
        WritesCheck (sources_in (native_names (map N.meaning natives.items)) schema.now sources.now bundle.now)
        done (O.taken out.old) (O.taken out.new)) }

    // `Write` means that the output has failed.
    ensures failed { IfOk result (λ done. O.has_failed out.new ≡ is_cut done) }

    // `Err`: the fault is the first refusal, and the output is unchanged.
    ensures refused { IfErr result (λ e. (e ≡ InputFault.Memory)
        ⊎ (sources_in (native_names (map N.meaning natives.items)) schema.now sources.now bundle.now ≡ Err e)) }
    ensures quiet { OnErr result (out.new ≡ out.old) }
{
    let checked = check_sources(alloc, schema, sources, bundle, natives, out)?;
    Ok(checked.done)
}

#[tactic(auto, unfolding(crate::specs::Check::sources_in))]
fn read_sources(
    alloc: Global,
    natives: &[Closing],
    schema: &str,
    sources: &str,
    bundle: &str,
) -> Result<(Schema, Vec<Source>), InputFault>
    ensures sources { Gives InputFault.Memory (λ v. v.1.items) result
        (sources_in (names_in natives.now) schema.now sources.now bundle.now) }
    ensures schema { IfOk result (λ v. map_err InputFault.Schema (schema_of schema.now) ≡ Ok v.0) }
{
    let schema = read_schema(alloc, schema)?;
    let sources = given(alloc, natives, &schema, sources, bundle)?;
    Ok((schema, sources))
}
