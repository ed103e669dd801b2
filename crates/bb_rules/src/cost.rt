//! What a source may cost. A host asks before it runs a source that somebody else wrote.

ghost use Rattle.std.specs.Prelude.{◌≡◌, ◌≤◌, option_map};
ghost use Rattle.std.specs.List.{list_any};
ghost use Rattle.bb_verify.specs.declared.checked.TheConstants.{FOUND_LIMIT};
ghost use Rattle.bb_rules.specs.Cost.{can_create, creates, is_new, most_steps, steps_of};

use crate::codes::{acting, asked, reacting};
use crate::source::Source;
use bb_code::Op;
use bb_verify::Checked;

fn steps_of(code: Option<&Checked>, found: u32) -> u128
    requires { found ≤ FOUND_LIMIT }
    ensures { result ≡ steps_of found (option_map (λ c. c.now) code.entry) }
{
    match code {
        None => 0,
        Some(checked) => checked.budget(found),
    }
}

fn is_new(op: Op) -> bool
    ensures { result ≡ is_new op }
{
    matches!(op, Op::New(_))
}

fn any_is_new(ops: &[Op]) -> bool
    ensures { result ≡ list_any is_new ops.now }
{
    ops.iter().any(|op| is_new(*op))
}

fn can_create(code: Option<&Checked>) -> bool
    ensures { result ≡ can_create (option_map (λ c. c.now) code.entry) }
{
    match code {
        None => false,
        Some(checked) => any_is_new(checked.code().ops()),
    }
}

impl Source {
    /// Returns the maximum number of steps that an execution of one of its codes can make, if no sequence it finds has
    /// more than `found` units; 0 if it has no code. An execution can find at most `FOUND_LIMIT` units.
    pub fn most_steps(&self, found: u32) -> u128
        requires { found ≤ FOUND_LIMIT }
        ensures { result ≡ most_steps self.now found }
    {
        let parts = self.parts();
        let require = steps_of(asked(&parts.require), found);
        let revalidate = steps_of(asked(&parts.revalidate), found);
        let obviate = steps_of(reacting(&parts.obviate), found);
        let retrigger = steps_of(reacting(&parts.retrigger), found);
        let act = steps_of(acting(&parts.act), found);
        require.max(revalidate).max(obviate.max(retrigger)).max(act)
    }

    /// Returns whether one of its codes has an op that makes a unit.
    pub fn creates(&self) -> bool
        ensures { result ≡ creates self.now }
    {
        let parts = self.parts();
        can_create(acting(&parts.act))
            || can_create(asked(&parts.require))
            || can_create(asked(&parts.revalidate))
            || can_create(reacting(&parts.obviate))
            || can_create(reacting(&parts.retrigger))
    }
}
