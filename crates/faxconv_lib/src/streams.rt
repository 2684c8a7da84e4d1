//! The standard streams where they are closed, and the first bytes of a stream.

use crate::kinds::FIRST_BYTES;
use fax_program::Uninterrupted;
use std::fs::File;
use std::io;
use std::io::Read;
use std::os::fd::AsRawFd;

/// Opens `/dev/null` for each standard stream that is closed, so that no file that is opened later gets its number: what is written to a
/// stream that is closed would go into that file. Reading from such a stream and writing to it fails. Returns what has to stay open.
///
/// # Errors
///
/// If that can't be done.
pub fn open_standard_streams(rt: &HostRuntime) -> io::Result<Vec<File>> {
    let mut open = Vec::new(rt.alloc());
    for _ in 0..3 {
        let mut file = File::open(rt, "/dev/null")?;
        if file.as_raw_fd() > 2 {
            break;
        }
        if file.as_raw_fd() == 0 {
            drop(file);
            file = File::options().write(true).open(rt, "/dev/null")?;
        }
        open.push(file)?;
    }
    Ok(open)
}

/// Reads the first bytes of a file, as many as say what it is.
pub fn read_first<R: Read>(source: &mut R, bytes: &mut Vec<u8>) -> io::Result<()> {
    let mut piece = [0u8; FIRST_BYTES];
    'pieces: for _ in 0..FIRST_BYTES {
        if bytes.len() >= FIRST_BYTES {
            break;
        }
        let count = Uninterrupted(&mut *source).read(&mut piece[bytes.len()..])?;
        let Some(read) = piece[bytes.len()..].get(..count) else {
            break;
        };
        if read.is_empty() {
            break;
        }
        bytes.extend_from_slice(read)?;
    }
    Ok(())
}
