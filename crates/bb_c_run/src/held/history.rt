//! The history of a held run: the text of a move before it is made, and the run that an input and a history leave.

ghost use Rattle.std.specs.Prelude.{◌≡◌, [], IfErr, IfOk, Some, map, string_bytes};
ghost use Rattle.std.specs.Str.Lines.{lines};
ghost use Rattle.bb_basis.specs.Results.{Gives};
ghost use Rattle.bb_moves.specs.Meant.{meant};
ghost use Rattle.bb_c_run.specs.History.{Resumes, TakesUp, past_in, past_of, told_in};

use crate::held::{Held, names_in, shell_of};
use crate::no_native::NoNative;
use crate::resuming::{ResumeFault, drop_shell, moves_under, refusal_by, unopened};
use crate::telling::{Step, TellFault, tell};
use crate::trace::Trace;
use bb_moves::{Move, replay_hosted};
use bb_shell::{HostedShell, NativeSource};
use std::alloc::Global;

// Begins the run of a shell without natives, and makes these moves of it.
fn replayed(
    alloc: Global,
    shell: HostedShell<NoNative>,
    moves: Vec<Move>,
) -> Result<Held, ResumeFault>
    requires { map ⟦<NoNative as NativeSource>⟧.meaning shell.roster.natives.items ≡ [] }
    ensures resumed { IfOk result (λ h. Resumes (record {
      means = record { plan = shell.plan; board = shell.board };
      moves = map meant moves.items;
    }) h) }
    ensures err { IfErr result (λ e. e ≡ ResumeFault.Memory) }
{
    let mut trace = Trace::new(alloc);
    match replay_hosted(alloc, shell, moves, &mut trace) {
        Ok(running) => Ok(Held {
            alloc,
            running: Some(running),
            trace,
            asks: Vec::new(alloc),
        }),
        Err(_) => Err(ResumeFault::Memory),
    }
}

// Begins the run of a shell without natives, and makes the moves of a history.
fn resumed(alloc: Global, shell: HostedShell<NoNative>, history: &str) -> Result<Held, ResumeFault>
    requires { map ⟦<NoNative as NativeSource>⟧.meaning shell.roster.natives.items ≡ [] }
    ensures { TakesUp (past_in (Some (record { plan = shell.plan; board = shell.board })) history.now) result }
{
    match moves_under(alloc, &shell, history) {
        Ok(moves) => replayed(alloc, shell, moves),
        Err(fault) => {
            drop_shell(shell);
            Err(refusal_by(fault))
        }
    }
}

impl Held {
    /// Returns the text of a move that the host is about to make, whole lines in the format of histories. A post or an
    /// answer has the asks gathered so far, which stay gathered. A host that appends the text to a log before it makes
    /// the move can take up the run again by `resume`. `Finished`: the run is finished. `Untold`: the format can't
    /// express the move. `Memory`: memory ran out. The run is unchanged.
    pub fn told(&mut self, step: Step) -> Result<String, TellFault>
        ensures text { Gives TellFault.Memory string_bytes result
            (told_in self.old.running step self.old.asks.items) }
        ensures kept { self.new ≡ self.old }
    {
        match &self.running {
            None => Err(TellFault::Finished),
            Some(running) => tell(self.alloc, running.plan().schema(), step, &mut self.asks),
        }
    }

    /// Begins the run of an input as `open` does, and makes the moves of a history, which are what `told` returned, one
    /// text after the other. The run is as it was after these moves; its trace can be read from the start. `Refused`:
    /// the input is refused. `Line`: the text is not a history. `Memory`: memory ran out.
    pub fn resume(
        alloc: Global,
        input: &[u8],
        natives: &str,
        floor: i64,
        history: &str,
    ) -> Result<Held, ResumeFault>
        ensures { TakesUp (past_of input.now (lines natives.now) floor history.now) result }
    {
        let Ok(outside) = names_in(alloc, natives) else {
            return Err(ResumeFault::Memory);
        };
        match shell_of(alloc, input, outside, floor) {
            Ok(shell) => resumed(alloc, shell, history),
            Err(fault) => Err(unopened(fault)),
        }
    }
}
