//! Natives passed in with an input that is refused before its sections are examined.

use crate::natives::recorders;
use bb_main::{Intake, Mode, serve};
use bb_shell::Pipe;
use std::alloc::Global;
use std::cell::Cell;
use std::io;
use std::io::{Error, ErrorKind, Read};
use std::rc::Rc;
use std::test::Fail;

// A reader that can't be read.
#[derive(Drop)]
struct Unreadable;

impl Read for Unreadable {
    fn read(&mut self, _buf: &mut [u8]) -> io::Result<usize> {
        Err(Error::from(ErrorKind::Other))
    }
}

// A reader that never ends.
#[derive(Drop)]
struct Endless;

impl Read for Endless {
    fn read(&mut self, buf: &mut [u8]) -> io::Result<usize> {
        buf.fill(b' ');
        Ok(buf.len())
    }
}

// Whether an input of this reader is refused by that line, and two natives are closed, in order.
fn closes_all<R: Read + Drop>(
    alloc: Global,
    mode: Mode,
    reader: R,
    line: &str,
) -> Result<bool, Fail> {
    let closings = Rc::new(alloc, Cell::new(0u64))?;
    let natives = recorders(alloc, &closings)?;
    let mut reader = Intake::new(reader);
    let mut writer = Pipe::new(Vec::new(alloc));
    let status = serve(alloc, mode, 100, 0, natives, &mut reader, &mut writer);
    let written: Vec<u8> = writer.into_inner();
    Ok(status == 2 && closings.get() == 12 && written.as_slice() == line.as_bytes())
}

#[test]
fn unread_inputs_close_all(rt: HostRuntime) -> Result<(), Fail> {
    let alloc = rt.alloc();
    let damaged = b"%schema\n\xff".as_slice();
    let headless = b"{}".as_slice();
    for mode in [Mode::Run, Mode::Check, Mode::Compile, Mode::Units] {
        assert!(rt; closes_all(alloc, mode, Unreadable, "refused input read\n")?);
        assert!(rt; closes_all(alloc, mode, damaged, "refused input utf8\n")?);
        assert!(rt; closes_all(alloc, mode, headless, "refused input sections\n")?);
    }
    assert!(rt; closes_all(alloc, Mode::Run, Endless, "refused input limit\n")?);
    Ok(())
}
