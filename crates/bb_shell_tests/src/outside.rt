//! A native that the host answers for: the run stops when it is due, and continues once it is answered.

ghost use Rattle.std.specs.Prelude.{◌≡◌, IfOk, None, false};

use crate::input::{NOTE_SCHEMA, ONE_NOTE};
use crate::natives::{Recorder, no_natives};
use bb_run_held::{Pause, Running};
use bb_shell::{Ask, Finish, HostedShell, InputFault, Out, Pipe, RuleFault, Shell, Text, Texts};
use std::alloc::Global;
use std::test::Fail;

// Where a run stands after a move, as a letter.
fn letter(pause: Pause) -> &'static str {
    match pause {
        Pause::Going => "g",
        Pause::Resting => "r",
        Pause::Due(_) => "d",
        Pause::Over(_) => "o",
    }
}

// One note, and a source that acts on notes by a native.
const CALLER: Texts<'static> = Texts {
    schema: NOTE_SCHEMA,
    units: ONE_NOTE,
    sources: "source caller on note { when create note; rate 1; native; }",
    bundle: "",
};

// The names for which the host answers.
fn outside(alloc: Global) -> Result<Vec<Text>, Fail> {
    let mut names = Vec::new(alloc);
    names.push(Text::from_str(alloc, "caller")?)?;
    Ok(names)
}

// What the native asks: a new note.
fn one_more(alloc: Global) -> Result<Vec<Ask>, Fail> {
    let mut asks = Vec::new(alloc);
    asks.push(Ask::New {
        class: Text::from_str(alloc, "note")?,
    })?;
    Ok(asks)
}

// Goes on to the native that is due, posts in vain, answers, and goes on to the next that is due, for which it answers
// nothing. Appends the letter of each pause.
fn answer_twice(
    alloc: Global,
    run: &mut Running<Recorder>,
    out: &mut Pipe<Vec<u8>>,
    pauses: &mut String,
) -> Result<Pause, Fail>
    requires whole { run.old.cut ≡ None }
    requires open { ⟦<Pipe<Vec<u8>> as Out>⟧.has_failed out.old ≡ false }
    ensures whole { IfOk result (λ _. run.new.cut ≡ None) }
    ensures open { IfOk result (λ _. ⟦<Pipe<Vec<u8>> as Out>⟧.has_failed out.new ≡ false) }
    ensures pause { IfOk result (λ p. p ≡ run.new.pause) }
{
    pauses.push_str(letter(run.advance(9, out)?))?;
    pauses.push_str(letter(run.post(one_more(alloc)?, out)?))?;
    pauses.push_str(letter(run.answer(one_more(alloc)?, out)?))?;
    pauses.push_str(letter(run.advance(9, out)?))?;
    pauses.push_str(letter(run.answer(Vec::new(alloc), out)?))?;
    let pause = run.turn(out)?;
    pauses.push_str(letter(pause))?;
    Ok(pause)
}

// Closes a run that can't go on.
fn closed(run: Running<Recorder>, fail: Fail) -> Fail {
    let (closed, board) = run.close();
    drop(closed);
    drop(board);
    fail
}

#[test]
fn a_native_outside(rt: HostRuntime) -> Result<(), Fail> {
    let alloc = rt.alloc();
    let shell = HostedShell::of_texts(alloc, &CALLER, no_natives(alloc), outside(alloc)?, 0)?;
    let mut out = Pipe::new(Vec::new(alloc));
    let Ok(run) = Running::of_hosted(alloc, shell, &mut out) else {
        return Err(Fail::from("the run begins"));
    };
    let mut run = run;
    let mut pauses = String::new(alloc);
    let pause = match answer_twice(alloc, &mut run, &mut out, &mut pauses) {
        Ok(pause) => pause,
        Err(fail) => return Err(closed(run, fail)),
    };
    if pause.is_due() {
        return Err(closed(run, Fail::from("each native is answered")));
    }
    let (finish, board) = run.finish(&mut out);
    drop(board);
    assert!(rt; matches!(finish, Finish::Quiescence));
    assert_eq!(rt; pauses.as_str(), "ddgdgr");
    let expected = "create 1 note\n\
        trigger 1 caller unit 1 rating 1\n\
        cycle 1 act 1 caller unit 1 rating 1\n\
        create 2 note\n\
        end native 1\n\
        trigger 2 caller unit 2 rating 1\n\
        cycle 2 act 2 caller unit 2 rating 1\n\
        end native 0\n\
        quiescence\n\
        finish quiescence\n";
    assert_eq!(rt; out.into_inner().as_slice(), expected.as_bytes());
    Ok(())
}

// Without its name among those of the host the input is refused, as ever.
#[test]
fn a_name_that_nobody_answers(rt: HostRuntime) -> Result<(), Fail> {
    let alloc = rt.alloc();
    match Shell::of_texts(alloc, &CALLER, no_natives(alloc), 0) {
        Err(InputFault::Rule { fault, .. }) => {
            assert!(rt; matches!(fault, RuleFault::Native { place: 0 }));
            Ok(())
        }
        Err(_) => Err(Fail::from("another refusal")),
        Ok(shell) => {
            let mut out = Pipe::new(Vec::new(alloc));
            let finish = shell.run(alloc, 1, &mut out);
            assert!(rt; matches!(finish, Finish::Memory));
            Err(Fail::from("the input is taken"))
        }
    }
}
