//! Natives of a host that is refused something during a run: memory, a write or a read. They are closed, each once and
//! in order, regardless of which of these is refused.

use crate::input::{FIRST, Input};
use crate::natives::recorders;
use bb_main::{Intake, Mode, serve};
use bb_shell::{Finish, InputFault, Pipe, run_texts};
use std::alloc::Global;
use std::cell::Cell;
use std::io;
use std::io::{Error, ErrorKind, Read, Write};
use std::rc::Rc;
use std::test::Fail;

// One note, for which the native is called, and the source that says "hello" of it.
const CALLED: Input<'static> = Input {
    sources: "source recorder on note { when create note; rate 200; native; }",
    ..FIRST
};

// The trace of its run.
const TRACE: &str = "create 1 note\n\
    trigger 1 recorder unit 1 rating 200\n\
    trigger 2 hail unit 1 rating 100\n\
    cycle 1 act 1 recorder unit 1 rating 200\n\
    end native 0\n\
    cycle 2 act 2 hail unit 1 rating 100\n\
    say \"hello\"\n\
    end steps 3 found 0 budget 3\n\
    quiescence\n\
    finish quiescence\n\
    closed recorder 0\n\
    closed recorder 0\n";

// A writer that takes no more than `room` bytes, and then fails.
#[derive(Drop)]
struct Full {
    taken: Vec<u8>,
    room: usize,
}

impl Write for Full {
    fn write(&mut self, buf: &[u8]) -> io::Result<usize> {
        let count = buf.len().min(self.room);
        if count == 0 && !buf.is_empty() {
            return Err(Error::from(ErrorKind::StorageFull));
        }
        self.taken.extend_from_slice(&buf[..count])?;
        self.room -= count;
        Ok(count)
    }

    fn flush(&mut self) -> io::Result<()> {
        Ok(())
    }
}

// What a run of two natives comes to, where so many bytes are taken.
#[derive(Drop)]
struct Ended {
    answer: Result<Finish, InputFault>,
    taken: Vec<u8>,
    closings: u64,
}

fn run(alloc: Global, room: usize) -> Result<Ended, Fail> {
    let closings = Rc::new(alloc, Cell::new(0u64))?;
    let natives = recorders(alloc, &closings)?;
    let mut out = Pipe::new(Full {
        taken: Vec::new(alloc),
        room,
    });
    let answer = run_texts(
        alloc,
        CALLED.schema,
        CALLED.units,
        CALLED.sources,
        CALLED.bundle,
        natives,
        CALLED.limit,
        CALLED.floor,
        &mut out,
    );
    Ok(Ended {
        answer,
        taken: out.into_inner().taken,
        closings: closings.get(),
    })
}

// Memory suffices here, and `tools/refuse` runs this test once for each request for memory, which is refused then.
#[test]
fn a_run_closes_all_whatever_memory_there_is(rt: HostRuntime) -> Result<(), Fail> {
    let ended = run(rt.alloc(), usize::MAX)?;
    assert_eq!(rt; ended.closings, 12);
    let whole = TRACE.as_bytes();
    match &ended.answer {
        Ok(Finish::Quiescence) => assert!(rt; ended.taken.as_slice() == whole),
        // The writer is refused memory like the run.
        Ok(Finish::Memory | Finish::Write) => assert!(rt;
            whole.starts_with(ended.taken.as_slice())
        ),
        Err(InputFault::Memory) => assert!(rt; ended.taken.is_empty()),
        _ => return Err(Fail::from("the run ends otherwise")),
    }
    Ok(())
}

#[test]
fn each_refused_write_closes_all(rt: HostRuntime) -> Result<(), Fail> {
    let whole = TRACE.as_bytes();
    for room in 0..whole.len() {
        let ended = run(rt.alloc(), room)?;
        assert!(rt;
            matches!(ended.answer, Ok(Finish::Write)),
            "room for {room}"
        );
        assert!(rt; ended.taken.as_slice() == &whole[..room], "room for {room}");
        assert_eq!(rt; ended.closings, 12);
    }
    let ended = run(rt.alloc(), whole.len())?;
    assert!(rt; matches!(ended.answer, Ok(Finish::Quiescence)) && ended.taken.as_slice() == whole);
    Ok(())
}

// The input as the program reads it.
const SECTIONS: &str = "%schema\n\
    {\"classes\":[{\"name\":\"note\"}]}\n\
    %sources\n\
    source recorder on note { when create note; rate 200; native; }\n";

// A reader that gives its bytes, and then fails.
#[derive(Drop)]
struct Cut<'a> {
    bytes: &'a [u8],
}

impl Read for Cut<'_> {
    fn read(&mut self, buf: &mut [u8]) -> io::Result<usize> {
        let count = self.bytes.len().min(buf.len());
        if count == 0 {
            return Err(Error::from(ErrorKind::Other));
        }
        buf[..count].copy_from_slice(&self.bytes[..count]);
        self.bytes = &self.bytes[count..];
        Ok(count)
    }
}

#[test]
fn each_refused_read_closes_all(rt: HostRuntime) -> Result<(), Fail> {
    let alloc = rt.alloc();
    let whole = SECTIONS.as_bytes();
    for length in 0..=whole.len() {
        let closings = Rc::new(alloc, Cell::new(0u64))?;
        let natives = recorders(alloc, &closings)?;
        let mut reader = Intake::new(Cut {
            bytes: &whole[..length],
        });
        let mut writer = Pipe::new(Vec::new(alloc));
        let status = serve(alloc, Mode::Run, 100, 0, natives, &mut reader, &mut writer);
        let written: Vec<u8> = writer.into_inner();
        assert_eq!(rt; status, 2);
        assert!(rt;
            written.as_slice() == b"refused input read\n".as_slice(),
            "behind {length}"
        );
        assert_eq!(rt; closings.get(), 12);
    }
    Ok(())
}
