//! Natives that a host writes and that record when they are closed, also if an input is refused; and natives of two
//! types.

ghost use Rattle.std.specs.Prelude.{◌≡◌, true, map, IfOk};
ghost use Rattle.bb_shell.specs.Roster.{all_open};

use crate::input::{FIRST, HAIL, Input, NOTE_SCHEMA, ONE_NOTE};
use bb_schema::UnitId;
use bb_shell::{
    Ask, Done, Finish, InputFault, Memory, NativeSource, Pipe, View, check_texts, compile_texts,
    run_texts,
};
use std::alloc::Global;
use std::cell::Cell;
use std::rc::Rc;
use std::test::Fail;

/// A native with a number. When it is closed, it appends this to the numbers of the natives closed before.
#[derive(Drop)]
pub(crate) struct Recorder {
    number: u64,
    closings: Rc<Cell<u64>>,
    is_open: bool,
}

impl NativeSource for Recorder {
    ghost use Rattle.std.specs.Prelude.{[], pos, codes};

    ghost meaning = { λ recorder. record {
      name = codes "recorder";
      held = [];
      is_open = recorder.is_open;
      asks = λ held unit seen. [];
      next = λ held unit seen. held;
      closing = λ held. pos 0;
    } };

    fn name(&self) -> &str {
        "recorder"
    }

    fn act(&mut self, alloc: Global, _unit: UnitId, _view: &View<'_>) -> Result<Vec<Ask>, Memory> {
        Ok(Vec::new(alloc))
    }

    fn close(&mut self) -> i64 {
        self.is_open = false;
        let before = self.closings.get();
        self.closings
            .set(before.wrapping_mul(10).wrapping_add(self.number));
        0
    }
}

// A native that asks for nothing, and says the number of its executions when it is closed.
#[derive(Drop)]
struct Counter {
    count: i64,
    is_open: bool,
}

impl NativeSource for Counter {
    ghost use Rattle.std.specs.Prelude.{[], ◌∷◌, ◌+ℤ◌, pos, codes, slice_index_or, map};
    ghost use Rattle.std.specs.Int.{saturate_signed, w64};

    ghost meaning = { λ counter. record {
      name = codes "counter";
      held = counter.count ∷ [];
      is_open = counter.is_open;
      asks = λ held unit seen. [];
      next = λ held unit seen. map (λ count. saturate_signed w64 (count +ℤ pos 1)) held;
      closing = λ held. slice_index_or held 0 (pos 0);
    } };

    fn name(&self) -> &str {
        "counter"
    }

    fn act(&mut self, alloc: Global, _unit: UnitId, _view: &View<'_>) -> Result<Vec<Ask>, Memory> {
        self.count = self.count.saturating_add(1);
        Ok(Vec::new(alloc))
    }

    fn close(&mut self) -> i64 {
        self.is_open = false;
        self.count
    }
}

fn open_recorder(number: u64, closings: &Rc<Cell<u64>>) -> Result<Recorder, Memory>
    ensures { IfOk result (λ recorder. recorder.is_open ≡ true) }
{
    Ok(Recorder {
        number,
        closings: closings.clone()?,
        is_open: true,
    })
}

/// Returns an empty list of natives.
pub(crate) fn no_natives(alloc: Global) -> Vec<Recorder>
    ensures { all_open (map ⟦<Recorder as NativeSource>⟧.meaning result.items) ≡ true }
{
    Vec::new(alloc)
}

/// Returns two natives with one name.
pub(crate) fn recorders(alloc: Global, closings: &Rc<Cell<u64>>) -> Result<Vec<Recorder>, Memory>
    ensures { IfOk result (λ natives. all_open (map ⟦<Recorder as NativeSource>⟧.meaning natives.items) ≡ true) }
{
    let mut natives = Vec::new(alloc);
    natives.push(open_recorder(1, closings)?)?;
    natives.push(open_recorder(2, closings)?)?;
    Ok(natives)
}

// Runs an input with two natives. Returns the number of its refusal, 0 if there is none, what the natives appended when
// they were closed, and the number of bytes that were written.
fn run_with(alloc: Global, input: Input<'_>) -> Result<(u8, u64, usize), Fail> {
    let closings = Rc::new(alloc, Cell::new(0u64))?;
    let natives = recorders(alloc, &closings)?;
    let mut out = Pipe::new(Vec::new(alloc));
    let answer = run_texts(
        alloc,
        input.schema,
        input.units,
        input.sources,
        input.bundle,
        natives,
        input.limit,
        input.floor,
        &mut out,
    );
    let bytes: Vec<u8> = out.into_inner();
    let number = match answer {
        Ok(_) => 0,
        Err(fault) => fault.number(),
    };
    Ok((number, closings.get(), bytes.len()))
}

#[test]
fn each_refusal_closes_all(rt: HostRuntime) -> Result<(), Fail> {
    let alloc = rt.alloc();
    let damaged = "source hail note 1\nwhen create note\ndo 42\n";
    // Done, and after it an op that nothing goes to.
    let unreached = "source hail note 1\nwhen create note\ndo 4242430101000000000000000000022e2e\n";
    let alike = "source hail note 1\nwhen create note\nnative\n";
    let inputs = [
        (
            1,
            Input {
                schema: "{",
                ..FIRST
            },
        ),
        (
            2,
            Input {
                units: "{",
                ..FIRST
            },
        ),
        (
            3,
            Input {
                sources: "source",
                ..FIRST
            },
        ),
        (
            4,
            Input {
                sources: "source a on x { when create x; rate 1; do { } }",
                ..FIRST
            },
        ),
        (
            5,
            Input {
                bundle: damaged,
                ..FIRST
            },
        ),
        (
            6,
            Input {
                bundle: unreached,
                ..FIRST
            },
        ),
        (
            7,
            Input {
                bundle: alike,
                ..FIRST
            },
        ),
    ];
    for (number, input) in inputs {
        let (given, closings, written) = run_with(alloc, input)?;
        assert_eq!(rt; given, number);
        assert_eq!(rt; closings, 12);
        assert_eq!(rt; written, 0);
    }
    Ok(())
}

// The natives have no source, so they are never called.
#[test]
fn natives_without_a_source(rt: HostRuntime) -> Result<(), Fail> {
    let alloc = rt.alloc();
    let closings = Rc::new(alloc, Cell::new(0u64))?;
    let natives = recorders(alloc, &closings)?;
    let mut out = Pipe::new(Vec::new(alloc));
    let finish = run_texts(
        alloc,
        NOTE_SCHEMA,
        ONE_NOTE,
        "",
        HAIL,
        natives,
        100,
        0,
        &mut out,
    )?;
    assert!(rt; matches!(finish, Finish::Quiescence));
    let expected = "create 1 note\n\
        trigger 1 hail unit 1 rating 100\n\
        cycle 1 act 1 hail unit 1 rating 100\n\
        say \"hello\"\n\
        end steps 3 found 0 budget 3\n\
        quiescence\n\
        finish quiescence\n\
        closed recorder 0\n\
        closed recorder 0\n";
    assert!(rt; out.into_inner().as_slice() == expected.as_bytes());
    assert_eq!(rt; closings.get(), 12);
    Ok(())
}

// The trace of a run of one note, with natives of which one is called for it.
fn count_one_note<N: NativeSource>(alloc: Global, natives: Vec<N>) -> Result<Vec<u8>, Fail>
    requires { all_open (map N.meaning natives.items) ≡ true }
{
    let source = "source counter on note { when create note; rate 1; native; }";
    let mut out = Pipe::new(Vec::new(alloc));
    run_texts(
        alloc,
        NOTE_SCHEMA,
        ONE_NOTE,
        source,
        "",
        natives,
        100,
        0,
        &mut out,
    )?;
    Ok(out.into_inner())
}

// A box of a native is a native: a host with natives of several types passes its boxes to a generic function.
#[test]
fn natives_in_boxes(rt: HostRuntime) -> Result<(), Fail> {
    let alloc = rt.alloc();
    let closings = Rc::new(alloc, Cell::new(0u64))?;
    let mut natives: Vec<Box<dyn NativeSource>> = Vec::new(alloc);
    natives.push(Box::new(alloc, open_recorder(5, &closings)?)?)?;
    natives.push(Box::new(
        alloc,
        Counter {
            count: 6,
            is_open: true,
        },
    )?)?;
    let trace = count_one_note(alloc, natives)?;
    let expected = "create 1 note\n\
        trigger 1 counter unit 1 rating 1\n\
        cycle 1 act 1 counter unit 1 rating 1\n\
        end native 0\n\
        quiescence\n\
        finish quiescence\n\
        closed recorder 0\n\
        closed counter 7\n";
    assert!(rt; trace.as_slice() == expected.as_bytes());
    assert_eq!(rt; closings.get(), 5);
    Ok(())
}

#[test]
fn a_check_and_a_bundle_close_all(rt: HostRuntime) -> Result<(), Fail> {
    let alloc = rt.alloc();
    let closings = Rc::new(alloc, Cell::new(0u64))?;
    let natives = recorders(alloc, &closings)?;
    let mut out = Pipe::new(Vec::new(alloc));
    let checked = check_texts(alloc, NOTE_SCHEMA, "", HAIL, natives, &mut out)?;
    assert!(rt; matches!(checked, Done::Written));
    assert_eq!(rt; closings.get(), 12);
    let natives = recorders(alloc, &closings)?;
    let compiled = compile_texts(alloc, NOTE_SCHEMA, "", natives, &mut out)?;
    assert!(rt; matches!(compiled, Done::Written));
    assert_eq!(rt; closings.get(), 1212);
    assert!(rt; out.into_inner().as_slice() == b"hail do ops 3 budget 3 3\nchecked 1\n".as_slice());
    let natives = recorders(alloc, &closings)?;
    let mut none = Pipe::new(Vec::new(alloc));
    match check_texts(alloc, "{", "", HAIL, natives, &mut none) {
        Err(InputFault::Schema(_)) => {}
        _ => return Err(Fail::from("the schema is refused")),
    }
    assert_eq!(rt; closings.get(), 121_212);
    let natives = recorders(alloc, &closings)?;
    match compile_texts(alloc, "{", "", natives, &mut none) {
        Err(InputFault::Schema(_)) => {}
        _ => return Err(Fail::from("the schema is refused")),
    }
    assert_eq!(rt; closings.get(), 12_121_212);
    assert!(rt; none.into_inner().as_slice() == b"".as_slice());
    Ok(())
}
