//! Begins a run that the host holds: from a shell, or from a shell whose host answers for natives.

ghost use Rattle.std.specs.Prelude.{◌≡◌, None, false, IfOk, map};
ghost use Rattle.bb_run.specs.Page.{stopped_by_write};
ghost use Rattle.bb_run.specs.Seen.{seen};
ghost use Rattle.bb_run_held.specs.Making.{Begins, stands};
ghost use Rattle.bb_run_held.specs.Moves.{started};

use crate::running::Running;
use bb_run::{Halt, NativeSource, Out, Start};
use bb_shell::{HostedShell, Shell};
use std::alloc::Global;

impl<N: NativeSource> Running<N> {
    /// Begins a run of a shell that the host holds: emits what the creation of the initial units noted, and processes
    /// its events. `Memory`: memory ran out. `Write`: the output failed. After an error every native is closed, in
    /// order, and the blackboard is dropped.
    pub fn of_shell<O: Out>(alloc: Global, shell: Shell<N>, out: &mut O) -> Result<Running<N>, Halt>
        requires open { O.has_failed out.old ≡ false }
        ensures begun { Begins shell.plan (started shell.plan shell.board (map N.meaning shell.roster.natives.items))
            (λ r. stands (seen N.meaning r.state) r.made r.pause) (O.taken out.old) (O.taken out.new) result }
        ensures kept { IfOk result (λ r. (r.plan ≡ shell.plan) × (r.cut ≡ None)) }
        ensures failed { O.has_failed out.new ≡ stopped_by_write result }
    {
        let (plan, board, roster) = shell.into_parts();
        Running::start(alloc, plan, Start { board, roster }, out)
    }

    /// Begins a run of a shell whose host answers for natives, as `of_shell` does for one with all its natives.
    pub fn of_hosted<O: Out>(
        alloc: Global,
        shell: HostedShell<N>,
        out: &mut O,
    ) -> Result<Running<N>, Halt>
        requires open { O.has_failed out.old ≡ false }
        ensures begun { Begins shell.plan (started shell.plan shell.board (map N.meaning shell.roster.natives.items))
            (λ r. stands (seen N.meaning r.state) r.made r.pause) (O.taken out.old) (O.taken out.new) result }
        ensures kept { IfOk result (λ r. (r.plan ≡ shell.plan) × (r.cut ≡ None)) }
        ensures failed { O.has_failed out.new ≡ stopped_by_write result }
    {
        let (plan, board, roster) = shell.into_parts();
        Running::start(alloc, plan, Start { board, roster }, out)
    }
}
