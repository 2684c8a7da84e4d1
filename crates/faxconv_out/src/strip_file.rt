//! A strip that is copied from its file as it is.

use crate::picture::Unwritten;
use std::alloc::Global;
use std::fs::File;
use std::io::Write;
use std::os::unix::fs::FileExt;

/// How many bytes are copied at a time.
const PIECE: usize = 1 << 16;

/// A strip in a file that stays open.
#[derive(Drop)]
pub struct StripFile {
    file: File,
    /// How many bytes of the file come before the strip.
    start: u64,
    /// How many bytes it has.
    length: u64,
}

impl StripFile {
    /// Returns the strip of a file that begins after so many bytes, and has so many.
    pub fn new(file: File, start: u64, length: u64) -> StripFile {
        StripFile {
            file,
            start,
            length,
        }
    }

    /// Returns how many bytes the strip has.
    pub(crate) fn len(&self) -> u64 {
        self.length
    }

    /// Writes the strip, and a zero after it if its length is odd.
    pub(crate) fn put<W: Write>(&self, alloc: Global, out: &mut W) -> Result<(), Unwritten> {
        let mut piece = vec![in alloc; 0u8; PIECE]?;
        let mut start = self.start;
        let mut left = self.length;
        for _ in 0..u64::MAX {
            let count = left.min(piece.len() as u64);
            if count == 0 {
                break;
            }
            let bytes = &mut piece[..count as usize];
            if self.file.read_exact_at(bytes, start).is_err() {
                return Err(Unwritten::Read);
            }
            put(out, bytes)?;
            start = start.saturating_add(count);
            left -= count;
        }
        if self.length % 2 == 1 {
            put(out, &[0])?;
        }
        Ok(())
    }
}

/// Writes bytes.
fn put<W: Write>(out: &mut W, bytes: &[u8]) -> Result<(), Unwritten> {
    match out.write_all(bytes) {
        Ok(()) => Ok(()),
        Err(_) => Err(Unwritten::Write),
    }
}
