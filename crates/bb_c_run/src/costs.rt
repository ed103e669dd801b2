//! What the sources of a run can cost. `Held` returns it.

ghost use Rattle.std.specs.Prelude.{◌≡◌, ◌≤◌, ◌-◌, ◌^◌, min};
ghost use Rattle.std.specs.List.{list_any};
ghost use Rattle.bb_rules.specs.Cost.{creates};
ghost use Rattle.bb_verify.specs.declared.checked.TheConstants.{FOUND_LIMIT as MOST_FOUND};
ghost use Rattle.bb_c_run.specs.Costs.{most_steps_of};

use bb_rules::Source;
use bb_verify::FOUND_LIMIT;

/// Returns the maximum number of steps that an execution of any code of the sources can make if no sequence that it
/// finds has more than `found` units; at most 2^64 - 1. An execution can find at most `FOUND_LIMIT` units.
pub(crate) fn most_steps(sources: &[Source], found: u32) -> u64
    ensures { result ≡ min (most_steps_of sources.now (min found MOST_FOUND)) (2 ^ 64 - 1) }
{
    most_of(sources, found.min(FOUND_LIMIT)).min(u64::MAX as u128) as u64
}

fn most_of(sources: &[Source], found: u32) -> u128
    requires { found ≤ MOST_FOUND }
    ensures { result ≡ most_steps_of sources.now found }
{
    let mut most = 0;
    for source in sources {
        most = most.max(source.most_steps(found));
    }
    most
}

/// Returns whether one of the sources has a code that creates a unit.
pub(crate) fn creates(sources: &[Source]) -> bool
    ensures { result ≡ list_any creates sources.now }
{
    sources.iter().any(|source| source.creates())
}
