//! The sources that run together. `Shell::new` and `run_texts` check that each fits the earlier ones.

ghost use Rattle.std.specs.Prelude.{◌≡◌, ◌≤◌, ◌<◌, ◌∷◌, ◌++◌, [], false, length, vec_len};
ghost use Rattle.std.specs.Prelude.{OnErr, OnOk, position};
ghost use Rattle.std.specs.List.{list_any};
ghost use Rattle.std.specs.Str.{bytes_eq};
ghost use Rattle.std.specs.Vec.{vec_capacity};
ghost use Rattle.bb_basis.specs.Results.{Gives};
ghost use Rattle.bb_run.specs.Closing.{Closing};
ghost use Rattle.bb_shell.specs.declared.fitting.Unfit.TheVariants.{Memory as OutOfMemory};
ghost use Rattle.bb_shell.specs.Fitting.{fitted, has_native, is_native, lacks_native, names_in, names_of};
ghost use Rattle.bb_shell.specs.Fitting.{source_after};

use bb_basis::{Names, Text};
use bb_rules::{Act, RuleFault, Source};
use bb_run::{Closing, SOURCE_LIMIT};
use std::alloc::{AllocError, Global};
use std::marker::Model;

/// Why sources do not run together.
#[derive(Drop)]
pub(crate) enum Unfit {
    /// The source with this name does not fit the earlier ones.
    Source { name: Text, fault: RuleFault },
    /// Memory ran out.
    Memory,
}

/// Sources that run together, in order: each fits the earlier ones. Contracts see them as a list.
pub(crate) struct SourceSet {
    names: Names,
    sources: Vec<Source>,
}

// By hand: proofs then meet one call per drop, not one per part.
impl Drop for SourceSet {
    fn drop(self) {
        let SourceSet {
            names: _,
            sources: _,
        } = self;
    }
}

impl Model for SourceSet {
    ghost use Rattle.std.specs.Prelude.{◌≡◌, ◌≤◌, List, length};
    ghost use Rattle.bb_run.specs.Limits.{SOURCE_LIMIT};
    ghost use Rattle.bb_run.specs.Source.{Source as Placed};
    ghost use Rattle.bb_shell.specs.Fitting.{names_of};
    ghost use Rattle.bb_run.specs.proving.Codes.{sources_code};

    ghost Value = { List Placed };

    ghost coded = { sources_code };

    ghost view = { λ t. t.sources.items };

    ghost invariant = { λ t. (t.names ≡ names_of t.sources.items) × (length t.sources.items ≤ SOURCE_LIMIT) };
}

fn is_native(act: &Act) -> bool
    ensures { result ≡ is_native act.now }
{
    matches!(act, Act::Native)
}

// The place of the first native with a name.
fn place_of(natives: &[Closing], name: &str) -> Option<usize>
    ensures { result ≡ position (λ (c : Closing). bytes_eq c.name name.now) natives.now }
{
    natives
        .iter()
        .position(|native| native.name.as_str() == name)
}

// Whether there is a native with a name.
fn has_native(natives: &[Closing], name: &str) -> bool
    ensures { result ≡ has_native (names_in natives.now) name.now }
{
    place_of(natives, name).is_some()
}

// Whether a source needs a native that is missing.
fn lacks_native(natives: &[Closing], source: &Source) -> bool
    ensures { result ≡ lacks_native (names_in natives.now) source.now }
{
    let parts = source.parts();
    if !is_native(&parts.act) {
        return false;
    }
    let is_there = has_native(natives, parts.name.as_str());
    !is_there
}

// The fault of a source that does not fit, with its name.
fn refuse(source: Source, fault: RuleFault) -> Unfit
    ensures { result ≡ Unfit.Source source.name fault }
{
    let name = source.into_parts().into_name();
    Unfit::Source { name, fault }
}

// Drops a source because memory ran out.
fn give_up(_source: Source) -> Unfit
    ensures { result ≡ OutOfMemory }
{
    Unfit::Memory
}

// Reserves space for another source and adds its name, which no other source has. An error changes neither names nor
// sources.
fn make_room(
    alloc: Global,
    names: &mut Names,
    sources: &mut Vec<Source>,
    name: &str,
) -> Result<(), AllocError>
    requires { list_any (bytes_eq name.now) names.old ≡ false }
    ensures name { OnOk result (names.new ≡ names.old ++ name.now ∷ []) }
    ensures room { OnOk result (vec_len sources.new < vec_capacity sources.new) }
    ensures same { sources.new.items ≡ sources.old.items }
    ensures err { OnErr result (names.new ≡ names.old) }
{
    sources.reserve(1)?;
    names.insert(alloc, name)?;
    Ok(())
}

// Adds a source with its name, if it fits the earlier ones. An error changes nothing.
fn fit(
    alloc: Global,
    natives: &[Closing],
    names: &mut Names,
    sources: &mut Vec<Source>,
    source: Source,
) -> Result<(), Unfit>
    requires { names.old ≡ names_of sources.old.items }
    ensures after { Gives OutOfMemory (λ _. sources.new.items) result
        (source_after (names_in natives.now) sources.old.items source) }
    ensures names { OnOk result (names.new ≡ names_of sources.new.items) }
    ensures few { OnOk result (length sources.new.items ≤ SOURCE_LIMIT) }
    ensures same_names { OnErr result (names.new ≡ names.old) }
    ensures same_sources { OnErr result (sources.new.items ≡ sources.old.items) }
{
    let place = sources.len() as u64;
    if names.contains(source.parts().name.as_str()) {
        return Err(refuse(source, RuleFault::Twice { place }));
    }
    if sources.len() >= SOURCE_LIMIT {
        return Err(refuse(source, RuleFault::Limit { place }));
    }
    if lacks_native(natives, &source) {
        return Err(refuse(source, RuleFault::Native { place }));
    }
    match make_room(alloc, names, sources, source.parts().name.as_str()) {
        Ok(()) => {
            sources.push_reserved(source);
            Ok(())
        }
        Err(_) => Err(give_up(source)),
    }
}

impl SourceSet {
    /// Creates an empty set. Allocates nothing.
    pub(crate) fn new(alloc: Global) -> SourceSet
        ensures { result ≡ [] }
    {
        SourceSet {
            names: Names::new(alloc),
            sources: Vec::new(alloc),
        }
    }

    /// Adds a source, which must fit the earlier ones: no other has its name, there are at most 256, and the native
    /// that it needs is present.
    pub(crate) fn add(
        &mut self,
        alloc: Global,
        natives: &[Closing],
        source: Source,
    ) -> Result<(), Unfit>
        ensures { Gives OutOfMemory (λ _. self.new) result (source_after (names_in natives.now) self.old source) }
    {
        fit(alloc, natives, &mut self.names, &mut self.sources, source)
    }

    /// Returns the sources.
    pub(crate) fn into_sources(self) -> Vec<Source>
        ensures sources { result.items ≡ self }
        ensures few { length result.items ≤ SOURCE_LIMIT }
    {
        let SourceSet { names: _, sources } = self;
        sources
    }
}

/// Returns all sources in order, if each fits the earlier ones.
pub(crate) fn fit_all(
    alloc: Global,
    natives: &[Closing],
    sources: Vec<Source>,
) -> Result<SourceSet, Unfit>
    ensures { Gives OutOfMemory (λ t. t) result (fitted (names_in natives.now) sources.items) }
{
    let mut source_set = SourceSet::new(alloc);
    for source in sources {
        source_set.add(alloc, natives, source)?;
    }
    Ok(source_set)
}
