//! Tests of the program with writers that fail, also with writers that fail once and would then continue.

use crate::readers::{FIRST_RUN, none};
use bb_main::{answer_words, serve};
use bb_main_input::Intake;
use bb_main_options::{Mode, OptionsFault};
use bb_shell::Pipe;
use std::io;
use std::io::{Error, ErrorKind, Write};
use std::test::Fail;

// A writer that takes no more than `room` bytes.
#[derive(Drop)]
struct Full {
    room: usize,
}

impl Write for Full {
    fn write(&mut self, buf: &[u8]) -> io::Result<usize> {
        let taken = buf.len().min(self.room);
        self.room -= taken;
        Ok(taken)
    }

    fn flush(&mut self) -> io::Result<()> {
        Ok(())
    }
}

#[test]
fn told_words(rt: HostRuntime) -> Result<(), Fail> {
    let help = OptionsFault::Help(String::from_str(rt.alloc(), "help\n")?);
    let words = OptionsFault::Words(String::from_str(rt.alloc(), "no\n")?);
    for (fault, room, status) in [
        (&help, 5, 0),
        (&help, 4, 6),
        (&words, 3, 2),
        (&words, 0, 6),
        (&OptionsFault::Memory, 0, 5),
    ] {
        let mut writer = Pipe::new(Full { room });
        assert_eq!(rt; answer_words(fault, &mut writer), status);
    }
    Ok(())
}

#[test]
fn failing_writers(rt: HostRuntime) {
    // A trace, the line of a refusal and its end each need room.
    for (input, room) in [(FIRST_RUN, 0), (FIRST_RUN, 20), ("{}", 0), ("{}", 22)] {
        let mut reader = Intake::new(input.as_bytes());
        let mut writer = Pipe::new(Full { room });
        let status = serve(
            rt.alloc(),
            Mode::Run,
            100,
            0,
            none(rt.alloc()),
            &mut reader,
            &mut writer,
        );
        assert_eq!(rt; status, 6);
    }
}

// A writer that takes some bytes, fails once, by an error or by taking none, and counts what it is given after that.
#[derive(Drop)]
struct FailsOnce {
    room: usize,
    end: Option<ErrorKind>,
    failed: bool,
    later: usize,
}

impl Write for FailsOnce {
    fn write(&mut self, buf: &[u8]) -> io::Result<usize> {
        if self.failed {
            self.later = self.later.saturating_add(buf.len());
            return Ok(buf.len());
        }
        if self.room == 0 {
            self.failed = true;
            return match self.end {
                None => Ok(0),
                Some(kind) => Err(Error::from(kind)),
            };
        }
        let taken = buf.len().min(self.room);
        self.room -= taken;
        Ok(taken)
    }

    fn flush(&mut self) -> io::Result<()> {
        Ok(())
    }
}

// Whether the program stops at the writer's first failure.
fn stops_at(rt: &HostRuntime, input: &str, room: usize, end: Option<ErrorKind>) -> bool {
    let mut reader = Intake::new(input.as_bytes());
    let mut writer = Pipe::new(FailsOnce {
        room,
        end,
        failed: false,
        later: 0,
    });
    let status = serve(
        rt.alloc(),
        Mode::Run,
        100,
        0,
        none(rt.alloc()),
        &mut reader,
        &mut writer,
    );
    status == 6 && writer.into_inner().later == 0
}

#[test]
fn no_write_after_a_failure(rt: HostRuntime) {
    for (input, room) in [(FIRST_RUN, 0), (FIRST_RUN, 20), ("{}", 0), ("{}", 22)] {
        for end in [
            None,
            Some(ErrorKind::Other),
            Some(ErrorKind::Interrupted),
            Some(ErrorKind::WouldBlock),
        ] {
            assert!(rt; stops_at(&rt, input, room, end), "{room}");
        }
    }
}
