//! Readers and writers that record whether they have failed.

ghost use Rattle.std.specs.Prelude.{◌≡◌, ◌<◌, OnOk, OnErr, IfOk, true, false, length};
ghost use Rattle.std.specs.Io.KnownBytes.{ReadConsumes, WriteAppends};
ghost use Rattle.std.specs.Io.{ReadsAtMost, WritesAtMost};

use std::io::{Read, Write};
use std::marker::Model;

/// A reader or a writer has failed.
#[derive(Debug, Clone, Copy, PartialEq, Eq)]
pub struct Failed;

/// A reader or a writer, and whether it has failed.
#[derive(Drop)]
pub struct Device<T> {
    inner: T,
    has_failed: bool,
}

impl<T> Model for Device<T> {
    ghost use Rattle.std.specs.Prelude.{Bool};

    ghost Value = { T × Bool };

    ghost view = { λ device. (device.inner, device.has_failed) };
}

impl<T> Device<T> {
    /// Creates a device that hasn't failed.
    pub fn new(inner: T) -> Device<T>
        ensures inner { result.0 ≡ inner }
        ensures flag { result.1 ≡ false }
    {
        Device {
            inner,
            has_failed: false,
        }
    }

    /// Returns the reader or writer.
    pub fn into_inner(self) -> T
        ensures { result ≡ self.0 }
    {
        let Device {
            inner,
            has_failed: _,
        } = self;
        inner
    }

    /// Records that the device has failed.
    fn fail(&mut self) -> Failed
        ensures inner { self.new.0 ≡ self.old.0 }
        ensures flag { self.new.1 ≡ true }
    {
        self.has_failed = true;
        Failed
    }
}

impl<R: Read> Device<R> {
    /// Reads by one call of the reader, and returns the number of bytes read into the buffer's start: 0 only at the end, or if the
    /// buffer is empty. An error is not tried again.
    pub fn read(&mut self, buf: &mut [u8]) -> Result<usize, Failed>
        ensures bound { ReadsAtMost result buf.new }
        ensures bytes { ReadConsumes (R.remaining self.old.0) (R.remaining self.new.0) result buf.new }
        ensures ok { OnOk result (self.new.1 ≡ self.old.1) }
        ensures err { OnErr result (self.new.1 ≡ true) }
    {
        match self.inner.read(buf) {
            Ok(count) => Ok(count),
            Err(_) => Err(self.fail()),
        }
    }
}

impl<W: Write> Device<W> {
    /// Writes by one call of the writer, and returns the number of bytes written from the start. A writer that accepts none, though
    /// there are some, has failed. An error is not tried again.
    pub fn write(&mut self, bytes: &[u8]) -> Result<usize, Failed>
        ensures bound { WritesAtMost result bytes.now }
        ensures bytes { WriteAppends (W.contents self.old.0) (W.contents self.new.0) result bytes.now }
        ensures some { IfOk result (λ count. 0 < length bytes.now → 0 < count) }
        ensures ok { OnOk result (self.new.1 ≡ self.old.1) }
        ensures err { OnErr result (self.new.1 ≡ true) }
    {
        match self.inner.write(bytes) {
            Ok(count) if count > 0 || bytes.is_empty() => Ok(count),
            _ => Err(self.fail()),
        }
    }
}
