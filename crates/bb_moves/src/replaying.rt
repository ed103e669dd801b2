//! Makes moves in sequence: of a run that is held, or of one from its start. Hosts call `play`, `replay` and
//! `replay_hosted`.

ghost use Rattle.std.specs.Prelude.{◌≡◌, None, false, map, IfOk};
ghost use Rattle.bb_run_held.specs.Making.{Begins, Makes, halt_of, stands};
ghost use Rattle.bb_run_held.specs.Moves.{moved, played, started};
ghost use Rattle.bb_shell.specs.Seen.{seen};
ghost use Rattle.bb_moves.specs.Meant.{meant, replayed, stopped_by_write};

use crate::moves::Move;
use bb_run_held::{Pause, Running};
use bb_shell::{Halt, HostedShell, NativeSource, Out, Shell};
use std::alloc::Global;

/// Makes moves of a run, in sequence. A move that can't be made in the run's state changes nothing. `Memory`, `Write`:
/// the run is cut short in one of them.
pub fn play<N: NativeSource, O: Out>(
    running: &mut Running<N>,
    moves: Vec<Move>,
    out: &mut O,
) -> Result<Pause, Halt>
    requires open { O.has_failed out.old ≡ false }
    requires whole { running.old.cut ≡ None }
    ensures made { Makes running.old.plan (played running.old.plan (map meant moves.items)
        (stands (seen N.meaning running.old.state) running.old.made running.old.pause))
        (stands (seen N.meaning running.new.state) running.new.made running.new.pause)
        (O.taken out.old) (O.taken out.new) result }
    ensures kept { (running.new.plan ≡ running.old.plan) × (running.new.cut ≡ halt_of result) }
    ensures failed { O.has_failed out.new ≡ stopped_by_write result }
{
    for each in moves {
        make(running, each, out)?;
    }
    Ok(running.pause())
}

// Makes a move.
fn make<N: NativeSource, O: Out>(
    running: &mut Running<N>,
    each: Move,
    out: &mut O,
) -> Result<Pause, Halt>
    requires open { O.has_failed out.old ≡ false }
    requires whole { running.old.cut ≡ None }
    ensures made { Makes running.old.plan (moved running.old.plan (meant each)
        (stands (seen N.meaning running.old.state) running.old.made running.old.pause))
        (stands (seen N.meaning running.new.state) running.new.made running.new.pause)
        (O.taken out.old) (O.taken out.new) result }
    ensures kept { (running.new.plan ≡ running.old.plan) × (running.new.cut ≡ halt_of result) }
    ensures failed { O.has_failed out.new ≡ stopped_by_write result }
{
    match each {
        Move::Turn => running.turn(out),
        Move::Advance(cycles) => running.advance(cycles, out),
        Move::Post(asks) => running.post(asks, out),
        Move::Answer(asks) => running.answer(asks, out),
    }
}

/// Begins the run of a shell and makes its moves in sequence. This restores the run of a host that kept its moves.
/// `Memory`: memory ran out. `Write`: the output failed. After an error every native is closed, in order, and the
/// blackboard is dropped.
pub fn replay<N: NativeSource, O: Out>(
    alloc: Global,
    shell: Shell<N>,
    moves: Vec<Move>,
    out: &mut O,
) -> Result<Running<N>, Halt>
    requires open { O.has_failed out.old ≡ false }
    ensures begun { Begins shell.plan
        (replayed shell.plan (started shell.plan shell.board (map N.meaning shell.roster.natives.items))
        (map meant moves.items))
        (λ r. stands (seen N.meaning r.state) r.made r.pause) (O.taken out.old) (O.taken out.new) result }
    ensures kept { IfOk result (λ r. (r.plan ≡ shell.plan) × (r.cut ≡ None)) }
    ensures failed { O.has_failed out.new ≡ stopped_by_write result }
{
    let running = Running::of_shell(alloc, shell, out)?;
    go_on(running, moves, out)
}

/// Begins the run of a shell whose host answers for natives, and makes its moves as `replay` does. The moves include
/// the host's answers.
pub fn replay_hosted<N: NativeSource, O: Out>(
    alloc: Global,
    shell: HostedShell<N>,
    moves: Vec<Move>,
    out: &mut O,
) -> Result<Running<N>, Halt>
    requires open { O.has_failed out.old ≡ false }
    ensures begun { Begins shell.plan
        (replayed shell.plan (started shell.plan shell.board (map N.meaning shell.roster.natives.items))
        (map meant moves.items))
        (λ r. stands (seen N.meaning r.state) r.made r.pause) (O.taken out.old) (O.taken out.new) result }
    ensures kept { IfOk result (λ r. (r.plan ≡ shell.plan) × (r.cut ≡ None)) }
    ensures failed { O.has_failed out.new ≡ stopped_by_write result }
{
    let running = Running::of_hosted(alloc, shell, out)?;
    go_on(running, moves, out)
}

// Makes moves of a run that was begun. If one of them is cut short, the run is closed.
fn go_on<N: NativeSource, O: Out>(
    mut running: Running<N>,
    moves: Vec<Move>,
    out: &mut O,
) -> Result<Running<N>, Halt>
    requires open { O.has_failed out.old ≡ false }
    requires whole { running.cut ≡ None }
    ensures begun { Begins running.plan (played running.plan (map meant moves.items)
        (stands (seen N.meaning running.state) running.made running.pause))
        (λ r. stands (seen N.meaning r.state) r.made r.pause) (O.taken out.old) (O.taken out.new) result }
    ensures kept { IfOk result (λ r. (r.plan ≡ running.plan) × (r.cut ≡ None)) }
    ensures failed { O.has_failed out.new ≡ stopped_by_write result }
{
    match play(&mut running, moves, out) {
        Ok(_) => Ok(running),
        Err(halt) => {
            drop(running.close());
            Err(halt)
        }
    }
}
