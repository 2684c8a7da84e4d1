//! Devices: each call is one call of the reader or writer, and tries no error again; signals are waited out around it.

use crate::tests::same;
use fax_program::{Device, Failed, Uninterrupted};
use std::io;
use std::io::{ErrorKind, Read, Write};

/// A reader and writer of one byte a call, whose first calls fail.
#[derive(Drop)]
struct Failing {
    kind: ErrorKind,
    failures: usize,
    calls: usize,
}

impl Failing {
    /// Creates one whose first calls fail in this way.
    fn new(kind: ErrorKind, failures: usize) -> Failing {
        Failing {
            kind,
            failures,
            calls: 0,
        }
    }

    /// Counts a call, and returns its error if it is one of the first.
    fn call(&mut self) -> io::Result<()> {
        let before = self.calls;
        self.calls = before.saturating_add(1);
        if before < self.failures {
            return Err(io::Error::from(self.kind));
        }
        Ok(())
    }
}

impl Read for Failing {
    fn read(&mut self, buf: &mut [u8]) -> io::Result<usize> {
        self.call()?;
        if buf.is_empty() {
            return Ok(0);
        }
        buf[0] = 7;
        Ok(1)
    }
}

impl Write for Failing {
    fn write(&mut self, buf: &[u8]) -> io::Result<usize> {
        self.call()?;
        Ok(buf.len().min(1))
    }

    fn flush(&mut self) -> io::Result<()> {
        self.call()
    }
}

/// What a call of a device returned, and how many calls of its reader or writer were made.
type Answer = (Result<usize, Failed>, usize);

/// Reads from a device with room for one byte, and without room, and writes a byte to one, and none.
fn each_call(kind: ErrorKind, failures: usize) -> [Answer; 4] {
    let mut reader = Device::new(Failing::new(kind, failures));
    let read = reader.read(&mut [0]);
    let mut full = Device::new(Failing::new(kind, failures));
    let read_none = full.read(&mut []);
    let mut writer = Device::new(Failing::new(kind, failures));
    let written = writer.write(&[7]);
    let mut idle = Device::new(Failing::new(kind, failures));
    let written_none = idle.write(&[]);
    [
        (read, reader.into_inner().calls),
        (read_none, full.into_inner().calls),
        (written, writer.into_inner().calls),
        (written_none, idle.into_inner().calls),
    ]
}

#[test]
fn a_call_is_one_call(rt: HostRuntime) {
    same(
        &rt,
        each_call(ErrorKind::Other, 0),
        [(Ok(1), 1), (Ok(0), 1), (Ok(1), 1), (Ok(0), 1)],
    );
}

#[test]
fn no_error_is_tried_again(rt: HostRuntime) {
    for kind in [ErrorKind::Other, ErrorKind::Interrupted] {
        same(&rt, each_call(kind, 1), [(Err(Failed), 1); 4]);
    }
}

/// Reads a byte from a device, and writes one to a device, through a reader and a writer that wait signals out.
fn calls_through(kind: ErrorKind, failures: usize) -> [Answer; 2] {
    let mut reader = Failing::new(kind, failures);
    let read = Device::new(Uninterrupted(&mut reader)).read(&mut [0]);
    let mut writer = Failing::new(kind, failures);
    let written = Device::new(Uninterrupted(&mut writer)).write(&[7]);
    [(read, reader.calls), (written, writer.calls)]
}

#[test]
fn signals_are_waited_out(rt: HostRuntime) {
    let interrupted = ErrorKind::Interrupted;
    same(&rt, calls_through(interrupted, 0), [(Ok(1), 1); 2]);
    same(&rt, calls_through(interrupted, 1), [(Ok(1), 2); 2]);
    same(&rt, calls_through(interrupted, 1000), [(Ok(1), 1001); 2]);
    same(
        &rt,
        calls_through(interrupted, 1001),
        [(Err(Failed), 1001); 2],
    );
    same(
        &rt,
        calls_through(ErrorKind::Other, 1),
        [(Err(Failed), 1); 2],
    );
}
