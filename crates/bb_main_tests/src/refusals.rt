//! Tests of the program's reports on refused inputs, also if standard error accepts only a part or nothing.

use bb_main::program;
use bb_main_input::{Intake, SectionFault};
use bb_main_options::{Mode, Options};
use bb_shell::Pipe;
use std::io;
use std::io::{Error, ErrorKind, Read, Write};
use std::test::Fail;

// Whether the program refuses an input of this reader by that line, and writes that report to standard error, as far
// as there is room for it.
fn refuses<R: Read + Drop>(
    rt: &HostRuntime,
    reader: R,
    room: usize,
    line: &str,
    report: &[u8],
) -> bool {
    let options = Options {
        mode: Mode::Run,
        limit: 100,
        floor: 0,
    };
    let mut reader = Intake::new(reader);
    let mut writer = Pipe::new(Vec::new(rt.alloc()));
    let mut errors = Errors {
        taken: Vec::new(rt.alloc()),
        room,
    };
    let status = program(rt.alloc(), options, &mut reader, &mut writer, &mut errors);
    let told = writer.into_inner();
    status == 2 && told.as_slice() == line.as_bytes() && errors.taken.as_slice() == report
}

// A writer that keeps what it takes, and fails once there is no room.
#[derive(Drop)]
struct Errors {
    taken: Vec<u8>,
    room: usize,
}

impl Write for Errors {
    fn write(&mut self, buf: &[u8]) -> io::Result<usize> {
        let count = buf.len().min(self.room);
        if count == 0 {
            return Err(Error::from(ErrorKind::Other));
        }
        self.taken.extend_from_slice(&buf[..count])?;
        self.room -= count;
        Ok(count)
    }

    fn flush(&mut self) -> io::Result<()> {
        Ok(())
    }
}

// A reader that can't be read.
#[derive(Drop)]
struct Unreadable;

impl Read for Unreadable {
    fn read(&mut self, _buf: &mut [u8]) -> io::Result<usize> {
        Err(Error::from(ErrorKind::Other))
    }
}

#[test]
fn said_refusals(rt: HostRuntime) {
    for (input, line, report) in [
        (
            b"%schema\n{}\n%sources\n?\n".as_slice(),
            "refused lang 1:1 1\n",
            "input:4:1: error[lang 1]: \"?\" begins no token: write if .. { .. } else { .. }\n  | line 1 of %sources\n  | ?\n  | ^\n",
        ),
        (
            b"{}".as_slice(),
            "refused input sections\n",
            "input:1: error[input sections]: its first line is not `%schema`, or a header line is out of order or there twice\n  | line 1: \"%schema\" is due there, not \"{}\"\n",
        ),
        (
            b"%schema\n\xff".as_slice(),
            "refused input utf8\n",
            "input: error[input utf8]: it is not UTF-8\n",
        ),
    ] {
        let report = report.as_bytes();
        let front = &report[..report.len().min(10)];
        assert!(rt; refuses(&rt, input, 1000, line, report), "{line}");
        assert!(rt; refuses(&rt, input, 10, line, front), "{line}");
        assert!(rt; refuses(&rt, input, 0, line, b""), "{line}");
    }
}

#[test]
fn said_of_readers(rt: HostRuntime) -> Result<(), Fail> {
    let report = b"input: error[input read]: it could not be read\n";
    assert!(rt; refuses(&rt, Unreadable, 100, "refused input read\n", report));
    let sentence = SectionFault::Limit.to_string(rt.alloc())?;
    assert_eq!(rt;
        sentence.as_str(),
        "input: it has more than 16,777,216 bytes"
    );
    Ok(())
}
