//! Readers and writers whose calls are made again if a signal interrupts them.

use std::io::{Error, ErrorKind, Read, Result, Write};

/// A reader or a writer. A read or write that a signal interrupts, and which so did nothing, is made again, up to a thousand times in
/// a row.
#[derive(Drop)]
pub struct Uninterrupted<T>(pub T);

/// How many times in a row a call is made again. There is a bound, since every loop needs one.
const MORE_TRIES: u32 = 1000;

/// Returns whether a signal has interrupted a call.
fn is_interrupted(error: &Error) -> bool {
    error.kind() == ErrorKind::Interrupted
}

impl<R: Read> Read for Uninterrupted<R> {
    ghost remaining = { λ reader. R.remaining reader.0 };

    fn read(&mut self, buf: &mut [u8]) -> Result<usize> {
        'tries: for _ in 0..MORE_TRIES {
            match self.0.read(buf) {
                Err(error) if is_interrupted(&error) => {}
                read => return read,
            }
        }
        self.0.read(buf)
    }
}

impl<W: Write> Write for Uninterrupted<W> {
    ghost contents = { λ writer. W.contents writer.0 };

    fn write(&mut self, bytes: &[u8]) -> Result<usize> {
        'tries: for _ in 0..MORE_TRIES {
            match self.0.write(bytes) {
                Err(error) if is_interrupted(&error) => {}
                written => return written,
            }
        }
        self.0.write(bytes)
    }

    fn flush(&mut self) -> Result<()> {
        self.0.flush()
    }
}
