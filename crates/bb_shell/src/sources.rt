//! The sources that run together, from their codes. given.rt calls `sources_for`.

ghost use Rattle.std.specs.Prelude.{◌≡◌, ◌≤◌, length, IfOk, Ok, Err};
ghost use Rattle.bb_basis.specs.Results.{Gives};
ghost use Rattle.bb_shell.specs.Fitting.{names_in, source_after};
ghost use Rattle.bb_shell.specs.Sources.{resolved_source, sources_for};
ghost use Rattle.bb_shell.specs.proving.Gathering.{resolution_as, gathering, with_draft};

use crate::accepting::accept;
use crate::fitting::{SourceSet, Unfit};
use bb_basis::Text;
use bb_bundle::{SourceCode, SourceDraft};
use bb_exec_lower::Lowered;
use bb_refusal::InputFault;
use bb_rules::{RuleFault, Source};
use bb_run::{Closing, SOURCE_LIMIT};
use bb_schema::Schema;
use std::alloc::{AllocError, Global};

/// The outcome of the sources so far, whose codes are all accepted.
#[derive(Drop)]
pub(crate) enum Resolution {
    /// Each source fits the earlier ones.
    Fit(SourceSet),
    /// A source does not fit the earlier ones. A later source whose names can't be resolved is refused first.
    Unfit(Unfit),
    /// The names of a source can't be resolved. A later source whose code is not accepted is refused first.
    Unresolved(InputFault),
}

/// Returns the sources that run together: the codes of each are accepted, then the names of each are resolved, then
/// each must fit the earlier ones. The fault is the fault of the first step that refuses a source. No source is kept
/// after one that does not fit.
pub(crate) fn sources_for(
    alloc: Global,
    natives: &[Closing],
    schema: &Schema,
    codes: Vec<SourceCode>,
) -> Result<Vec<Source>, InputFault>
    ensures given { Gives InputFault.Memory (λ v. v.items) result
        (sources_for (names_in natives.now) schema.now codes.items) }
    ensures few { IfOk result (λ v. length v.items ≤ SOURCE_LIMIT) }
{
    match gather_all(alloc, natives, schema, codes)? {
        Resolution::Fit(source_set) => Ok(source_set.into_sources()),
        Resolution::Unfit(Unfit::Source { name, fault }) => Err(InputFault::Rule { name, fault }),
        Resolution::Unfit(Unfit::Memory) => Err(InputFault::Memory),
        Resolution::Unresolved(fault) => Err(fault),
    }
}

fn gather_all(
    alloc: Global,
    natives: &[Closing],
    schema: &Schema,
    codes: Vec<SourceCode>,
) -> Result<Resolution, InputFault>
    ensures { Gives InputFault.Memory resolution_as result (gathering (names_in natives.now) schema.now codes.items) }
{
    let mut resolution = Resolution::Fit(SourceSet::new(alloc));
    for code in codes {
        let draft = accept(alloc, schema, code.into_draft())?;
        resolution = gather(alloc, natives, schema, resolution, draft)?;
    }
    Ok(resolution)
}

// The outcome with another source.
fn gather(
    alloc: Global,
    natives: &[Closing],
    schema: &Schema,
    resolution: Resolution,
    draft: SourceDraft<Lowered>,
) -> Result<Resolution, AllocError>
    ensures { IfOk result (λ g. resolution_as g
        ≡ with_draft (names_in natives.now) schema.now (resolution_as resolution) draft) }
{
    match resolution {
        Resolution::Fit(source_set) => gather_fit(alloc, natives, schema, source_set, draft),
        Resolution::Unfit(unfit) => gather_unfit(alloc, natives, schema, unfit, draft),
        Resolution::Unresolved(fault) => {
            drop(draft);
            Ok(Resolution::Unresolved(fault))
        }
    }
}

// The outcome with another source, if all earlier ones fit.
fn gather_fit(
    alloc: Global,
    natives: &[Closing],
    schema: &Schema,
    source_set: SourceSet,
    draft: SourceDraft<Lowered>,
) -> Result<Resolution, AllocError>
    ensures { IfOk result (λ g.
        resolution_as g ≡ with_draft (names_in natives.now) schema.now (Ok (Ok source_set)) draft) }
{
    match resolve(alloc, schema, draft)? {
        Ok(source) => join(alloc, natives, source_set, source),
        Err(fault) => Ok(Resolution::Unresolved(fault)),
    }
}

// The outcome with another source, if an earlier one does not fit.
fn gather_unfit(
    alloc: Global,
    natives: &[Closing],
    schema: &Schema,
    unfit: Unfit,
    draft: SourceDraft<Lowered>,
) -> Result<Resolution, AllocError>
    ensures { IfOk result (λ g. resolution_as g ≡ with_draft (names_in natives.now) schema.now (Ok (Err unfit)) draft) }
{
    match resolve(alloc, schema, draft)? {
        Ok(source) => {
            drop(source);
            Ok(Resolution::Unfit(unfit))
        }
        Err(fault) => Ok(Resolution::Unresolved(fault)),
    }
}

// The source of a draft, or why it is refused.
fn resolve(
    alloc: Global,
    schema: &Schema,
    draft: SourceDraft<Lowered>,
) -> Result<Result<Source, InputFault>, AllocError>
    ensures { IfOk result (λ r. r ≡ resolved_source schema.now draft) }
{
    let name = Text::from_str(alloc, draft.header.name.as_str())?;
    match Source::new(alloc, schema, draft) {
        Ok(source) => Ok(Ok(source)),
        Err(RuleFault::Memory) => Err(AllocError),
        Err(fault) => Ok(Err(InputFault::Rule { name, fault })),
    }
}

// Adds a source to those that run together, if it fits them.
fn join(
    alloc: Global,
    natives: &[Closing],
    mut source_set: SourceSet,
    source: Source,
) -> Result<Resolution, AllocError>
    ensures { IfOk result (λ g. resolution_as g ≡ Ok (source_after (names_in natives.now) source_set source)) }
{
    match source_set.add(alloc, natives, source) {
        Ok(()) => Ok(Resolution::Fit(source_set)),
        Err(Unfit::Memory) => Err(AllocError),
        Err(unfit) => Ok(Resolution::Unfit(unfit)),
    }
}
