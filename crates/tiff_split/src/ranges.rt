//! Bytes that are read by ranges, each of which is paid for.

ghost use Rattle.std.specs.Prelude.{◌≡◌, length};

use crate::allowance::Paid;
use std::fs::File;
use std::io;
use std::io::ErrorKind;
use std::os::unix::fs::FileExt;

/// Bytes that are read by ranges.
pub trait Ranges {
    /// Reads the bytes from an offset on, as many as there is room for, which are those that were paid for.
    ///
    /// # Errors
    ///
    /// `UnexpectedEof` if there are fewer, or what the system says.
    fn read_range(&self, paid: Paid, offset: u64, into: &mut [u8]) -> io::Result<()>
        requires { length into.old ≡ paid };
}

impl Ranges for File {
    fn read_range(&self, _paid: Paid, offset: u64, into: &mut [u8]) -> io::Result<()> {
        self.read_exact_at(into, offset)
    }
}

/// Bytes that are in memory.
#[derive(Clone, Copy)]
pub struct Held<'a>(pub &'a [u8]);

impl Ranges for Held<'_> {
    fn read_range(&self, _paid: Paid, offset: u64, into: &mut [u8]) -> io::Result<()> {
        let count = into.len();
        let Some(found) = self
            .0
            .get(offset as usize..)
            .and_then(|rest| rest.get(..count))
        else {
            return Err(io::Error::from(ErrorKind::UnexpectedEof));
        };
        into.copy_from_slice(found);
        Ok(())
    }
}
