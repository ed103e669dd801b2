//! The state of a run and what it begins with. The parts of the run (processing.rt, calling.rt, execution.rt,
//! cycles.rt) change it.

ghost use Rattle.std.specs.Prelude.{◌≡◌, map};
ghost use Rattle.bb_trace.specs.Roster.{closings_of};

use bb_agenda::Agenda;
use bb_trace::{Board, Closed, NativeSource, Roster};

/// What a run begins with: the blackboard in its first state, and the natives passed in.
pub struct Start<N: NativeSource> {
    pub board: Board,
    pub roster: Roster<N>,
}

/// The state of a run: the blackboard, the agenda and the natives. Contracts see them by `seen`.
pub struct State<N: NativeSource> {
    pub board: Board,
    pub agenda: Agenda,
    pub roster: Roster<N>,
}

impl<N: NativeSource> State<N> {
    /// Closes every native, in order, and returns what each reported and the blackboard. Needs no memory.
    pub fn close(self) -> (Closed, Board)
        ensures closed { result.0 ≡ closings_of (map N.meaning self.roster.natives.items) }
        ensures board { result.1 ≡ self.board }
    {
        let State {
            board,
            agenda,
            roster,
        } = self;
        drop(agenda);
        (roster.close_all(), board)
    }
}
