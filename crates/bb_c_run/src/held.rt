//! A held run, and its moves. The calls for C (bb_c) make them.

ghost use Rattle.std.specs.Prelude.{◌≡◌, ◌++◌, ◌∷◌, [], IfErr, IfOk, OnOk, OnErr, Some, None, drop, length, map, min, take, true};
ghost use Rattle.std.specs.Str.Lines.{lines};
ghost use Rattle.bb_c_run.specs.Moving.{Answers, Ends, Moves, Posts, did_nothing, left_by};
ghost use Rattle.bb_c_run.specs.Moves.{advance, one_turn};
ghost use Rattle.bb_c_run.specs.Opening.{Begins, meaning_of};
ghost use Rattle.bb_c_run.specs.Sitting.{stands_now, unread};
ghost use Rattle.bb_basis.specs.Results.{Gives};
ghost use Rattle.bb_shell.specs.Meaning.{Meaning, meaning};

use crate::no_native::{NoNative, no_natives};
use crate::stands::{Stands, stands_by};
use crate::trace::Trace;
use bb_basis::{Memory, Text};
use bb_main_input::Sections;
use bb_run_held::Running;
use bb_shell::{Ask, Finish, HostedShell, InputFault, NativeSource, Out, Texts};
use std::alloc::{AllocError, Global};
use std::mem;

mod history;
mod looks;

/// A held run, until it is finished; the part of its trace that was not read yet; and the asks that are gathered.
pub struct Held {
    alloc: Global,
    running: Option<Running<NoNative>>,
    trace: Trace,
    asks: Vec<Ask>,
}

/// Why a run could not begin.
#[derive(Clone, Copy, Debug, PartialEq, Eq)]
pub enum OpenFault {
    /// The input is refused.
    Refused,
    /// Memory ran out.
    Memory,
}

/// Lists the names of a text, one on each line.
pub(crate) fn names_in(alloc: Global, natives: &str) -> Result<Vec<Text>, AllocError>
    ensures { IfOk result (λ v. v.items ≡ lines natives.now) }
{
    let mut names = Vec::new(alloc);
    for name in natives.lines() {
        names.push(Text::from_str(alloc, name)?)?;
    }
    Ok(names)
}

/// Makes the shell of the sections of an input whose host answers for natives with these names.
pub(crate) fn hosted(
    alloc: Global,
    sections: Sections<'_>,
    outside: Vec<Text>,
    floor: i64,
) -> Result<HostedShell<NoNative>, InputFault>
    ensures means { let t = sections.entry in Gives InputFault.Memory (λ s. record { plan = s.plan; board = s.board }) result
        (meaning outside.items t.schema.now t.units.now t.sources.now t.bundle.now floor) }
    ensures natives { IfOk result (λ s. map ⟦<NoNative as NativeSource>⟧.meaning s.roster.natives.items ≡ []) }
{
    let texts = Texts {
        schema: sections.schema,
        units: sections.units,
        sources: sections.sources,
        bundle: sections.bundle,
    };
    HostedShell::of_texts(alloc, &texts, no_natives(alloc), outside, floor)
}

/// Makes the shell of an input whose host answers for natives with these names.
pub(crate) fn shell_of(
    alloc: Global,
    input: &[u8],
    outside: Vec<Text>,
    floor: i64,
) -> Result<HostedShell<NoNative>, OpenFault>
    ensures means { IfOk result (λ s.
        meaning_of input.now outside.items floor ≡ Some (record { plan = s.plan; board = s.board })) }
    ensures natives { IfOk result (λ s. map ⟦<NoNative as NativeSource>⟧.meaning s.roster.natives.items ≡ []) }
    ensures refused { result ≡ Err OpenFault.Refused → meaning_of input.now outside.items floor ≡ None }
{
    let Ok(sections) = Sections::of_bytes(input) else {
        return Err(OpenFault::Refused);
    };
    match hosted(alloc, sections, outside, floor) {
        Ok(shell) => Ok(shell),
        Err(InputFault::Memory) => Err(OpenFault::Memory),
        Err(_) => Err(OpenFault::Refused),
    }
}

// Begins the run of a shell without natives.
fn begun(alloc: Global, shell: HostedShell<NoNative>) -> Result<Held, OpenFault>
    requires { map ⟦<NoNative as NativeSource>⟧.meaning shell.roster.natives.items ≡ [] }
    ensures begun { IfOk result (λ h. Begins (record { plan = shell.plan; board = shell.board }) h) }
    ensures err { IfErr result (λ e. e ≡ OpenFault.Memory) }
{
    let mut trace = Trace::new(alloc);
    match Running::of_hosted(alloc, shell, &mut trace) {
        Ok(running) => Ok(Held {
            alloc,
            running: Some(running),
            trace,
            asks: Vec::new(alloc),
        }),
        Err(_) => Err(OpenFault::Memory),
    }
}

impl Held {
    /// Begins the run of an input, with no activation rated below `floor`. Its sources may act by natives with the
    /// names in `natives`, one on each line. If one of these is due, the run stops, and `answer` continues it.
    /// `Refused`: the input is refused. `Memory`: memory ran out.
    pub fn open(alloc: Global, input: &[u8], natives: &str, floor: i64) -> Result<Held, OpenFault>
        ensures begun { IfOk result (λ h.
            (m : Meaning) × (meaning_of input.now (lines natives.now) floor ≡ Some m) × Begins m h) }
        ensures refused { result ≡ Err OpenFault.Refused → meaning_of input.now (lines natives.now) floor ≡ None }
    {
        let Ok(outside) = names_in(alloc, natives) else {
            return Err(OpenFault::Memory);
        };
        match shell_of(alloc, input, outside, floor) {
            Ok(shell) => begun(alloc, shell),
            Err(fault) => Err(fault),
        }
    }

    /// Returns the state of the run.
    pub fn stands(&self) -> Stands
        ensures { result ≡ stands_now self.now.running }
    {
        match &self.running {
            None => Stands::Finished,
            Some(running) if running.was_cut() => Stands::Memory,
            Some(running) => stands_by(running.pause()),
        }
    }

    /// Makes a cycle, or emits quiescence if nothing can be chosen. Returns the state of the run.
    pub fn turn(&mut self) -> Stands
        ensures moves { Moves one_turn self.old.running self.new.running
            (unread self.old.trace) (unread self.new.trace) result }
        ensures asks { self.new.asks ≡ self.old.asks }
    {
        let Some(running) = &mut self.running else {
            return Stands::Finished;
        };
        if running.was_cut() || self.trace.failed() {
            return Stands::Memory;
        }
        match running.turn(&mut self.trace) {
            Ok(pause) => stands_by(pause),
            Err(_) => Stands::Memory,
        }
    }

    /// Makes up to `cycles` more cycles, then emits quiescence if nothing can be chosen. Returns the state of the run.
    pub fn advance(&mut self, cycles: u32) -> Stands
        ensures moves { Moves (advance cycles) self.old.running self.new.running
            (unread self.old.trace) (unread self.new.trace) result }
        ensures asks { self.new.asks ≡ self.old.asks }
    {
        let Some(running) = &mut self.running else {
            return Stands::Finished;
        };
        if running.was_cut() || self.trace.failed() {
            return Stands::Memory;
        }
        match running.advance(cycles, &mut self.trace) {
            Ok(pause) => stands_by(pause),
            Err(_) => Stands::Memory,
        }
    }

    /// Gathers an ask, after those gathered since the last post or answer. `Memory`: memory ran out, and it is not
    /// gathered.
    pub fn ask(&mut self, ask: Ask) -> Result<(), Memory>
        ensures asks { OnOk result (self.new.asks.items ≡ self.old.asks.items ++ ask ∷ []) }
        ensures err { OnErr result (self.new.asks.items ≡ self.old.asks.items) }
        ensures kept { (self.new.running ≡ self.old.running) × (self.new.trace ≡ self.old.trace) }
    {
        self.asks.push(ask)?;
        Ok(())
    }

    /// Discards the asks gathered since the last post or answer.
    pub fn discard(&mut self)
        ensures asks { self.new.asks.items ≡ [] }
        ensures kept { (self.new.running ≡ self.old.running) × (self.new.trace ≡ self.old.trace) }
    {
        self.asks.clear();
    }

    /// Posts the gathered asks, which report to the run what happened. No asks are gathered afterwards. If a native is
    /// due, or the run is finished, nothing happens, and the asks stay gathered. Returns the state of the run.
    #[tactic(auto, using(crate::proofs::AskLemmas::left_none, crate::proofs::AskLemmas::moved_keeps))]
    pub fn post(&mut self) -> Stands
        ensures posts { Posts self.old.asks.items self.old.running self.new.running
            (unread self.old.trace) (unread self.new.trace) result }
        ensures asks { self.new.asks.items ≡ left_by result self.old.asks.items }
        ensures kept { did_nothing result ≡ true → self.new ≡ self.old }
    {
        if let Some(running) = &self.running {
            if running.pause().is_due() && !running.was_cut() {
                return Stands::Misused;
            }
        }
        let Some(running) = &mut self.running else {
            return Stands::Finished;
        };
        let asks = mem::replace(&mut self.asks, Vec::new(self.alloc));
        if running.was_cut() || self.trace.failed() {
            return Stands::Memory;
        }
        match running.post(asks, &mut self.trace) {
            Ok(pause) => stands_by(pause),
            Err(_) => Stands::Memory,
        }
    }

    /// Answers for the native that is due with the gathered asks. No asks are gathered afterwards. If no native is due,
    /// or the run is finished, nothing happens, and the asks stay gathered. Returns the state of the run.
    #[tactic(auto, using(crate::proofs::AskLemmas::left_none, crate::proofs::AskLemmas::moved_keeps))]
    pub fn answer(&mut self) -> Stands
        ensures answers { Answers self.old.asks.items self.old.running self.new.running
            (unread self.old.trace) (unread self.new.trace) result }
        ensures asks { self.new.asks.items ≡ left_by result self.old.asks.items }
        ensures kept { did_nothing result ≡ true → self.new ≡ self.old }
    {
        if let Some(running) = &self.running {
            if !running.pause().is_due() && !running.was_cut() {
                return Stands::Misused;
            }
        }
        let Some(running) = &mut self.running else {
            return Stands::Finished;
        };
        let asks = mem::replace(&mut self.asks, Vec::new(self.alloc));
        if running.was_cut() || self.trace.failed() {
            return Stands::Memory;
        }
        match running.answer(asks, &mut self.trace) {
            Ok(pause) => stands_by(pause),
            Err(_) => Stands::Memory,
        }
    }

    /// Ends the run: if it is still going, it first continues until it rests or reaches its limit. Afterwards only the
    /// trace can be read. If a native is due, the run can't be ended, and nothing happens. Returns the state of the
    /// run.
    #[tactic(auto, using(crate::proofs::EndLemmas::memory_concludes, crate::proofs::EndLemmas::write_concludes))]
    pub fn finish(&mut self) -> Stands
        ensures ends { Ends self.old.running self.new.running (unread self.old.trace) (unread self.new.trace) result }
        ensures asks { self.new.asks ≡ self.old.asks }
    {
        if let Some(running) = &self.running {
            let pause = running.pause();
            if pause.is_due() && !running.was_cut() {
                return Stands::Due;
            }
        }
        let Some(running) = self.running.take() else {
            return Stands::Finished;
        };
        let pause = running.pause();
        if pause.is_due() || running.was_cut() || self.trace.failed() {
            drop(running.close());
            return Stands::Memory;
        }
        let (finish, board) = running.finish(&mut self.trace);
        drop(board);
        match finish {
            Finish::Quiescence => Stands::Resting,
            Finish::Limit => Stands::Going,
            Finish::Full => Stands::Full,
            Finish::Memory => Stands::Memory,
            Finish::Write => Stands::Memory,
        }
    }

    /// Reads the unread trace into `to`, up to its capacity, and returns the number of bytes read.
    pub fn read(&mut self, to: &mut [u8]) -> usize
        ensures count { result ≡ min (length (unread self.old.trace)) (length to.old) }
        ensures given { to.new ≡ take result (unread self.old.trace) ++ drop result to.old }
        ensures left { unread self.new.trace ≡ drop result (unread self.old.trace) }
        ensures kept { (self.new.running ≡ self.old.running) × (self.new.asks ≡ self.old.asks) }
    {
        self.trace.read(to)
    }

    /// Discards the unread trace, for hosts that do not need it.
    pub fn skip(&mut self)
        ensures none { unread self.new.trace ≡ [] }
        ensures kept { (self.new.running ≡ self.old.running) × (self.new.asks ≡ self.old.asks) }
    {
        self.trace.skip();
    }
}

impl Drop for Held {
    fn drop(self) {
        let Held {
            alloc: _,
            running,
            trace,
            asks,
        } = self;
        drop(trace);
        drop(asks);
        if let Some(running) = running {
            let (closed, board) = running.close();
            drop(closed);
            drop(board);
        }
    }
}
