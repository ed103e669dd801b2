//! Tests of the program with readers that give pieces, that fail, also only once, that are interrupted or never end,
//! and with a long segment.

ghost use Rattle.std.specs.Prelude.{◌≡◌, true, map};
ghost use Rattle.bb_shell.specs.Roster.{all_open};

use crate::long_run::{long_run, long_trace};
use bb_main::{ProgramNative, program, serve};
use bb_main_input::{In, Intake, read_input};
use bb_main_options::{Mode, Options};
use bb_shell::{NativeSource, Pipe};
use std::alloc::Global;
use std::io;
use std::io::{Error, ErrorKind, Read, Write};
use std::test::Fail;

// A reader that gives its bytes a piece at a time, and then the end or an error.
#[derive(Drop)]
struct Pieces<'a> {
    bytes: &'a [u8],
    piece: usize,
    end: Option<ErrorKind>,
}

impl Read for Pieces<'_> {
    fn read(&mut self, buf: &mut [u8]) -> io::Result<usize> {
        if let Some(kind) = self.end
            && self.bytes.is_empty()
        {
            return Err(Error::from(kind));
        }
        let given = self.bytes.len().min(self.piece).min(buf.len());
        buf[..given].copy_from_slice(&self.bytes[..given]);
        self.bytes = &self.bytes[given..];
        Ok(given)
    }
}

// A reader that never ends, and counts what it gives.
#[derive(Drop)]
struct Endless {
    byte: u8,
    given: usize,
}

impl Read for Endless {
    fn read(&mut self, buf: &mut [u8]) -> io::Result<usize> {
        buf.fill(self.byte);
        self.given = self.given.saturating_add(buf.len());
        Ok(buf.len())
    }
}

// A reader of which `times` reads are interrupted before one is not.
#[derive(Drop)]
struct Interrupted<'a> {
    inner: Pieces<'a>,
    times: usize,
    left: usize,
}

impl Read for Interrupted<'_> {
    fn read(&mut self, buf: &mut [u8]) -> io::Result<usize> {
        if self.left > 0 {
            self.left -= 1;
            return Err(Error::from(ErrorKind::Interrupted));
        }
        self.left = self.times;
        self.inner.read(buf)
    }
}

#[test]
fn whole_readings(rt: HostRuntime) -> Result<(), Fail> {
    let bytes = b"%schema\n{}\n%units\n\xff";
    for piece in [1, 2, 7, 8_192] {
        let mut reader = Intake::new(Pieces {
            bytes,
            piece,
            end: None,
        });
        let input = read_input(rt.alloc(), &mut reader)?;
        assert!(rt; input.as_slice() == bytes.as_slice() && !reader.failed());
    }
    Ok(())
}

// The input of a run of one source, which says a word.
pub(crate) const FIRST_RUN: &str = "%schema
{\"classes\":[{\"name\":\"note\"}]}
%units
{\"units\":[{\"name\":\"a\",\"class\":\"note\"}]}
%bundle
source hail note 100
when create note
do 42424301010001000568656c6c6f000000000000000302000029012e
";

// The trace of the first run.
const FIRST_TRACE: &str = "create 1 note
trigger 1 hail unit 1 rating 100
cycle 1 act 1 hail unit 1 rating 100
say \"hello\"
end steps 3 found 0 budget 3
quiescence
finish quiescence
";

// No natives.
pub(crate) fn none(alloc: Global) -> Vec<ProgramNative>
    ensures { all_open (map ⟦<ProgramNative as NativeSource>⟧.meaning result.items) ≡ true }
{
    Vec::new(alloc)
}

// Whether an input, read from this reader, ends with that status and exactly that text.
fn serves<R: Read + Drop>(rt: &HostRuntime, reader: R, limit: u32, status: u8, text: &str) -> bool {
    let mut reader = Intake::new(reader);
    let mut writer = Pipe::new(Vec::new(rt.alloc()));
    let ended = serve(
        rt.alloc(),
        Mode::Run,
        limit,
        0,
        none(rt.alloc()),
        &mut reader,
        &mut writer,
    );
    ended == status && writer.into_inner().as_slice() == text.as_bytes()
}

#[test]
fn too_long_inputs(rt: HostRuntime) {
    // Whether the bytes are a text is not looked at.
    for byte in [b' ', 0xff] {
        let mut reader = Intake::new(Endless { byte, given: 0 });
        let mut writer = Pipe::new(Vec::new(rt.alloc()));
        let status = serve(
            rt.alloc(),
            Mode::Run,
            100,
            0,
            none(rt.alloc()),
            &mut reader,
            &mut writer,
        );
        assert_eq!(rt; status, 2);
        assert!(rt; writer.into_inner().as_slice() == b"refused input limit\n".as_slice());
        assert_eq!(rt; reader.into_inner().given, 16_777_217);
    }
}

#[test]
fn program_run(rt: HostRuntime) {
    let mut reader = Intake::new(FIRST_RUN.as_bytes());
    let mut writer = Pipe::new(Vec::new(rt.alloc()));
    let options = Options {
        mode: Mode::Run,
        limit: 100,
        floor: 0,
    };
    let mut errors = Vec::new(rt.alloc());
    let status = program(rt.alloc(), options, &mut reader, &mut writer, &mut errors);
    assert_eq!(rt; status, 0);
    assert_eq!(rt; errors.len(), 0);
    let mut expected = String::new(rt.alloc());
    let told = write!(expected, "{FIRST_TRACE}closed tally 0\nclosed reaper 0\n").is_ok();
    assert!(rt; told && writer.into_inner().as_slice() == expected.as_bytes());
}

// The advice on the first run when it is checked: its one part has three ops, in no loop.
const FIRST_COSTS: &str = "\
source  part        ops  loops  budget of 0 found  1  100  65,536
hail    do            3      0                  3  3    3       3
";

#[test]
fn program_check(rt: HostRuntime) {
    let mut reader = Intake::new(FIRST_RUN.as_bytes());
    let mut writer = Pipe::new(Vec::new(rt.alloc()));
    let options = Options {
        mode: Mode::Check,
        limit: 100,
        floor: 0,
    };
    let mut errors = Vec::new(rt.alloc());
    let status = program(rt.alloc(), options, &mut reader, &mut writer, &mut errors);
    assert_eq!(rt; status, 0);
    assert!(rt; errors.as_slice() == FIRST_COSTS.as_bytes());
    let checked = b"hail do ops 3 budget 3 3\nchecked 1\n";
    assert!(rt; writer.into_inner().as_slice() == checked.as_slice());
}

#[test]
fn program_units(rt: HostRuntime) {
    let mut reader = Intake::new(FIRST_RUN.as_bytes());
    let mut writer = Pipe::new(Vec::new(rt.alloc()));
    let options = Options {
        mode: Mode::Units,
        limit: 100,
        floor: 0,
    };
    let mut errors = Vec::new(rt.alloc());
    let status = program(rt.alloc(), options, &mut reader, &mut writer, &mut errors);
    assert_eq!(rt; status, 0);
    assert_eq!(rt; errors.len(), 0);
    let left = r#"{"links":[],"spaces":[],"units":[{"class":"note","name":"1","slots":{}}]}"#;
    let mut expected = String::new(rt.alloc());
    let told = writeln!(expected, "{left}").is_ok();
    assert!(rt; told && writer.into_inner().as_slice() == expected.as_bytes());
}

#[test]
fn failing_readers(rt: HostRuntime) {
    let input = FIRST_RUN.as_bytes();
    for length in [0, 1, 8, 60, input.len() - 1, input.len()] {
        for kind in [ErrorKind::Other, ErrorKind::Interrupted] {
            let reader = Pieces {
                bytes: &input[..length],
                piece: 7,
                end: Some(kind),
            };
            assert!(rt;
                serves(&rt, reader, 100, 2, "refused input read\n"),
                "{length}"
            );
        }
    }
}

// A reader whose first read fails, and each after it gives bytes.
#[derive(Drop)]
struct FailsAtFirst<'a> {
    inner: Pieces<'a>,
    kind: ErrorKind,
    failed: bool,
}

impl Read for FailsAtFirst<'_> {
    fn read(&mut self, buf: &mut [u8]) -> io::Result<usize> {
        if !self.failed {
            self.failed = true;
            return Err(Error::from(self.kind));
        }
        self.inner.read(buf)
    }
}

#[test]
fn no_read_after_a_failure(rt: HostRuntime) {
    for kind in [
        ErrorKind::Other,
        ErrorKind::WouldBlock,
        ErrorKind::TimedOut,
        ErrorKind::UnexpectedEof,
    ] {
        let inner = Pieces {
            bytes: FIRST_RUN.as_bytes(),
            piece: 50,
            end: None,
        };
        let reader = FailsAtFirst {
            inner,
            kind,
            failed: false,
        };
        assert!(rt; serves(&rt, reader, 100, 2, "refused input read\n"));
    }
}

#[test]
fn interrupted_readers(rt: HostRuntime) {
    for (times, status, text) in [
        (1, 0, FIRST_TRACE),
        (63, 0, FIRST_TRACE),
        (64, 2, "refused input read\n"),
    ] {
        let inner = Pieces {
            bytes: FIRST_RUN.as_bytes(),
            piece: 50,
            end: None,
        };
        let reader = Interrupted {
            inner,
            times,
            left: times,
        };
        assert!(rt; serves(&rt, reader, 100, status, text), "{times}");
    }
}

#[test]
fn long_segments(rt: HostRuntime) -> Result<(), Fail> {
    let input = long_run(rt.alloc())?;
    let trace = long_trace(rt.alloc())?;
    assert!(rt; serves(&rt, input.as_bytes(), 100, 0, trace.as_str()));
    Ok(())
}
