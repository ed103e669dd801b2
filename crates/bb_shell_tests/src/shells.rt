//! A shell that a host makes from a blackboard and sources, and runs.

ghost use Rattle.std.specs.Prelude.{◌≡◌, All, IfOk};
ghost use Rattle.bb_bundle.specs.declared.draft.ActDraft.TheVariants.{Do as Does};
ghost use Rattle.bb_verify.specs.Accepted.{Checked as Accepted};
ghost use Rattle.bb_shell.specs.Law.{IsAccepted, IsMade};

use crate::input::{HAIL, NOTE_SCHEMA, ONE_NOTE};
use crate::natives::{Recorder, no_natives};
use bb_bundle::{ActDraft, Parts, SourceCode, SourceDraft, unbundle};
use bb_code::Code;
use bb_exec_lower::Lowered;
use bb_schema::Schema;
use bb_shell::{Board, Finish, Part, Pipe, Roster, RuleFault, Shell, Source};
use bb_verify::verify;
use std::alloc::Global;
use std::test::Fail;

const PART: Part = Part::Do { class: 1 };

// The verified act of a source on notes.
fn verified(alloc: Global, schema: &Schema, act: ActDraft<Code>) -> Result<ActDraft<Lowered>, Fail>
    ensures { IfOk result (λ act. (c : Accepted) → act ≡ Does c → IsAccepted schema.now c) }
{
    match act {
        ActDraft::Do(code) => {
            let checked = verify(alloc, schema, PART, code)?;
            Ok(ActDraft::Do(Lowered::of(alloc, checked)?))
        }
        ActDraft::Native => Ok(ActDraft::Native),
    }
}

// A source on notes that has only an act, from its code.
fn source_of(alloc: Global, schema: &Schema, code: SourceCode) -> Result<Source, Fail>
    ensures { IfOk result (λ source. IsMade schema.now source) }
{
    let SourceDraft {
        header,
        parts: _,
        act,
    } = code.into_draft();
    let draft = SourceDraft {
        header,
        parts: Parts::none(),
        act: verified(alloc, schema, act)?,
    };
    Ok(Source::new(alloc, schema, draft)?)
}

// The source of `HAIL`.
fn hail(alloc: Global, schema: &Schema) -> Result<Source, Fail>
    ensures { IfOk result (λ source. IsMade schema.now source) }
{
    match unbundle(alloc, HAIL)?.pop() {
        Some(code) => source_of(alloc, schema, code),
        None => Err(Fail::from("the bundle has a source")),
    }
}

// The source of `HAIL`, `count` times.
fn hails(alloc: Global, schema: &Schema, count: u8) -> Result<Vec<Source>, Fail>
    ensures { IfOk result (λ sources. All (IsMade schema.now) sources.items) }
{
    let mut sources = Vec::new(alloc);
    for _turn in 0..count {
        sources.push(hail(alloc, schema)?)?;
    }
    Ok(sources)
}

// A roster of no natives.
fn no_roster(alloc: Global) -> Result<Roster<Recorder>, Fail> {
    Ok(Roster::new(alloc, no_natives(alloc))?)
}

// A blackboard with one note.
fn one_note(alloc: Global) -> Result<Board, Fail> {
    let mut board = Board::new(alloc, Schema::read(alloc, NOTE_SCHEMA)?)?;
    board.load(ONE_NOTE)?;
    Ok(board)
}

// A shell of one note and the source that says "hello" of each note, with this floor.
fn one_note_shell(alloc: Global, floor: i64) -> Result<Shell<Recorder>, Fail> {
    let board = one_note(alloc)?;
    let sources = hails(alloc, board.schema(), 1)?;
    Ok(Shell::new(alloc, board, sources, no_roster(alloc)?, floor)?)
}

// What a run of one note and one source writes, with this floor.
fn trace(alloc: Global, floor: i64) -> Result<Vec<u8>, Fail> {
    let shell = one_note_shell(alloc, floor)?;
    let mut out = Pipe::new(Vec::new(alloc));
    match shell.run(alloc, 100, &mut out) {
        Finish::Quiescence => Ok(out.into_inner()),
        _ => Err(Fail::from("the run ends by quiescence")),
    }
}

// Why a shell of one note and `count` sources of one name can't be made, if it can't.
fn refusal(alloc: Global, count: u8) -> Result<Option<RuleFault>, Fail> {
    let board = one_note(alloc)?;
    let sources = hails(alloc, board.schema(), count)?;
    match Shell::new(alloc, board, sources, no_roster(alloc)?, 0) {
        Ok(shell) => {
            let mut out = Pipe::new(Vec::new(alloc));
            shell.run(alloc, 0, &mut out);
            Ok(None)
        }
        Err(fault) => Ok(Some(fault)),
    }
}

#[test]
fn shell_of_one_source(rt: HostRuntime) -> Result<(), Fail> {
    let expected = "create 1 note\n\
        trigger 1 hail unit 1 rating 100\n\
        cycle 1 act 1 hail unit 1 rating 100\n\
        say \"hello\"\n\
        end steps 3 found 0 budget 3\n\
        quiescence\n\
        finish quiescence\n";
    assert_eq!(rt; trace(rt.alloc(), 0)?.as_slice(), expected.as_bytes());
    Ok(())
}

// Nothing is rated as high as the floor, and no cycle is made.
#[test]
fn shell_with_a_floor(rt: HostRuntime) -> Result<(), Fail> {
    let expected = "create 1 note\n\
        trigger 1 hail unit 1 rating 100\n\
        quiescence\n\
        finish quiescence\n";
    assert_eq!(rt; trace(rt.alloc(), 101)?.as_slice(), expected.as_bytes());
    Ok(())
}

#[test]
fn two_sources_of_one_name(rt: HostRuntime) -> Result<(), Fail> {
    assert_eq!(rt; refusal(rt.alloc(), 1)?, None);
    assert_eq!(rt;
        refusal(rt.alloc(), 2)?,
        Some(RuleFault::Twice { place: 1 })
    );
    Ok(())
}
