//! Raw fax data.

ghost use Rattle.std.specs.Prelude.{◌<◌};

use crate::raw_reading::{RawEnd, RawReading};
use crate::texts::too_large;
use fax_decode::damage::Damage;
use fax_pictures::{Bitmap, PictureError};
use faxconv_lib::Status;
use faxconv_lib::options::RawOptions;
use hayro_ccitt::DecodeError;
use std::alloc::{AllocError, Global};

/// Raw data that was read.
#[derive(Drop)]
pub struct RawPage {
    /// Its picture, `None` if that was written as it was read; or why there is none.
    pub picture: Result<Option<Bitmap>, String>,
    /// How many rows the picture has.
    pub rows: u64,
    /// What is damaged.
    pub damage: Damage,
    /// What else there is to say, and how bad it is.
    pub note: Option<(String, Status)>,
}

/// The most bytes of the rows that are kept.
pub const MOST_BYTES: usize = 1 << 30;

/// The most bytes that a row has.
const MOST_OF_A_ROW: u32 = 1 << 21;

/// The most bytes of rows that a piece of the data has.
const MOST_OF_A_PIECE: usize = 1 << 21;

/// The most columns of data that is read as it comes.
const WIDEST: u32 = 1 << 20;

/// Returns whether raw data has a picture that isn't too large, as far as that is known before it is read.
pub fn can_be_piped(raw: &RawOptions) -> bool {
    let rows = if raw.has_height { raw.settings.rows } else { 1 };
    let width = (raw.settings.columns as usize).div_ceil(8);
    raw.settings.columns <= WIDEST && width.saturating_mul(rows as usize) <= MOST_BYTES
}

/// Reads raw data.
pub fn read_raw(alloc: Global, data: &[u8], raw: &RawOptions) -> Result<RawPage, AllocError> {
    let mut reading = RawReading::strictly(alloc, raw)?;
    let mut is_large = feed_whole(&mut reading, data, raw.settings.columns)?;
    if reading.begin_again(raw)? {
        is_large = feed_whole(&mut reading, data, raw.settings.columns)?;
    }
    let rows = reading.take_rows();
    let end = reading.end(raw.height())?;
    page_of(alloc, raw, rows, end, is_large)
}

/// Feeds data to a reading that keeps its rows, of so many columns, until these are too large. Returns whether they are.
fn feed_whole(reading: &mut RawReading, data: &[u8], columns: u32) -> Result<bool, AllocError> {
    let piece = piece_of(columns);
    let mut is_large = columns.div_ceil(8) > MOST_OF_A_ROW;
    let mut rest = data;
    'pieces: while !rest.is_empty() && !is_large {
        let (front, after) = rest.split_at(piece.min(rest.len()));
        reading.feed(front)?;
        rest = after;
        is_large = reading.kept_bytes() > MOST_BYTES;
    }
    reading.finish()?;
    Ok(is_large)
}

/// Returns how many bytes of data are read at a time, for rows of so many columns: at least one, which has at most eight rows.
pub fn piece_of(columns: u32) -> usize
    ensures least { 0 < result }
{
    let width = columns.div_ceil(8).max(1) as usize;
    (MOST_OF_A_PIECE / width).max(1)
}

/// Returns data whose rows were written as they were read.
pub fn written_page(alloc: Global, raw: &RawOptions, end: RawEnd) -> Result<RawPage, AllocError> {
    let RawEnd {
        rows,
        fault,
        damage,
    } = end;
    Ok(RawPage {
        picture: Ok(None),
        rows: raw.height().unwrap_or(rows),
        damage,
        note: note_of(alloc, raw, fault, rows)?,
    })
}

/// Returns data that was read.
pub fn page_of(
    alloc: Global,
    raw: &RawOptions,
    rows: Vec<u8>,
    end: RawEnd,
    is_large: bool,
) -> Result<RawPage, AllocError> {
    let RawEnd {
        rows: count,
        fault,
        damage,
    } = end;
    let height = raw.height().unwrap_or(count);
    let picture = if count == 0 {
        Err(no_row(alloc, fault)?)
    } else if is_large {
        Err(too_large(alloc, raw.settings.columns, height)?)
    } else {
        match picture_of(alloc, raw.settings.columns, height, rows.as_slice())? {
            Ok(picture) => Ok(Some(picture)),
            Err(why) => Err(why),
        }
    };
    Ok(RawPage {
        picture,
        rows: height,
        damage,
        note: note_of(alloc, raw, fault, count)?,
    })
}

/// Returns that no row can be decoded.
fn no_row(alloc: Global, fault: Option<DecodeError>) -> Result<String, AllocError> {
    match fault {
        None => String::from_str(alloc, "no row can be decoded: the data ends"),
        Some(error) => format!(in alloc; "no row can be decoded: {error}"),
    }
}

/// Returns the picture of rows, and white ones up to its height.
fn picture_of(
    alloc: Global,
    columns: u32,
    height: u64,
    rows: &[u8],
) -> Result<Result<Bitmap, String>, AllocError> {
    let Ok(height) = u32::try_from(height) else {
        return Ok(Err(String::from_str(alloc, "it has too many rows")?));
    };
    let mut picture = match Bitmap::white(alloc, columns, height) {
        Ok(picture) => picture,
        Err(PictureError::OutOfMemory) => return Err(AllocError),
        Err(PictureError::Size) => return Ok(Err(too_large(alloc, columns, u64::from(height))?)),
    };
    let width = (columns as usize).div_ceil(8);
    if width > 0 {
        picture.lay_over(0, 0, width, rows);
    }
    Ok(Ok(picture))
}

/// Returns what is said of how data ended after so many rows.
fn note_of(
    alloc: Global,
    raw: &RawOptions,
    fault: Option<DecodeError>,
    count: u64,
) -> Result<Option<(String, Status)>, AllocError> {
    match fault {
        None => Ok(None),
        // Without a row limit, data that isn't closed ends where the next line would begin.
        Some(DecodeError::UnexpectedEof) if raw.settings.rows == 0 => {
            let error = DecodeError::UnexpectedEof;
            let text = format!(in alloc; "{error} after {count} rows, without RTC or EOFB")?;
            Ok(Some((text, Status::Whole)))
        }
        Some(error) => {
            let text = format!(in alloc; "{error} after {count} rows")?;
            Ok(Some((text, Status::Missing)))
        }
    }
}
