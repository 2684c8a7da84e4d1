//! The only strip of a page.

use crate::raw::can_be_piped;
use crate::raw_reading::RawReading;
use fax_pages::{Page, PartKind};
use faxconv_lib::options::RawOptions;
use std::alloc::{AllocError, Global};
use std::io;
use std::io::Read;

/// How many bytes are read at a time.
const PIECE: usize = 1 << 16;

/// Returns how the strip of a page is read as it comes, if its rows are those of the picture as it is stored.
pub fn options_of_strip(page: &Page<'_>) -> Option<RawOptions> {
    let [part] = page.parts.as_slice() else {
        return None;
    };
    if !matches!(page.kind, PartKind::Strip)
        || page.rows_are_words
        || part.settings.rows != page.rows
    {
        return None;
    }
    let mut raw = RawOptions::of_guess(part.settings, page.order);
    raw.has_height = true;
    if can_be_piped(&raw) { Some(raw) } else { None }
}

/// Returns whether a reading by these options takes all bytes of a strip as its rows; or why they can't be read.
///
/// # Errors
///
/// If an allocation fails.
pub fn takes_all<R: Read>(
    alloc: Global,
    raw: &RawOptions,
    source: &mut R,
) -> Result<io::Result<bool>, AllocError> {
    let mut reading = RawReading::strictly(alloc, raw)?;
    reading.keep_no_rows();
    let mut piece = vec![in alloc; 0u8; PIECE]?;
    for _ in 0..u64::MAX {
        let read = match source.read(piece.as_mut_slice()) {
            Ok(read) => read,
            Err(error) => return Ok(Err(error)),
        };
        match piece.get(..read) {
            Some(bytes) if read > 0 => reading.feed(bytes)?,
            _ => break,
        }
    }
    reading.finish()?;
    Ok(Ok(reading.is_whole()))
}
