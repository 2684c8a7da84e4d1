//! Pictures that are encoded.

ghost use Rattle.std.specs.Prelude.{◌≡◌, true};
ghost use Rattle.fax_encode.specs.Settings.{names_encoding};

use crate::own_texts::OwnTexts;
use crate::strip_page::StripPage;
use fax_documents::Resolution;
use fax_encode::{EncodeError, EncodeSettings, encode_bitmap};
use fax_pictures::Bitmap;
use hayro_ccitt::DecodeSettings;
use std::alloc::Global;
use tiff_read::Texts;

/// Encodes a picture as a page, in strips of so many rows, or if that is 0 as one strip.
///
/// # Errors
///
/// `NoRows` if the picture has none, and `OutOfMemory`.
pub fn encode_picture(
    alloc: Global,
    picture: &Bitmap,
    settings: EncodeSettings,
    rows_each: u32,
    resolution: Option<Resolution>,
    texts: &Texts<'_>,
) -> Result<StripPage, EncodeError>
    requires names { names_encoding settings ≡ true }
{
    if picture.rows() == 0 {
        return Err(EncodeError::NoRows);
    }
    let each = match rows_each {
        0 => picture.rows(),
        each => each.min(picture.rows()),
    };
    let Ok(texts) = OwnTexts::of(alloc, texts) else {
        return Err(EncodeError::OutOfMemory);
    };
    Ok(StripPage {
        settings: DecodeSettings {
            columns: picture.columns(),
            rows: each,
            end_of_block: settings.end_of_block,
            end_of_line: settings.end_of_line,
            rows_are_byte_aligned: settings.rows_are_byte_aligned,
            encoding: settings.encoding,
            strict: false,
        },
        order: settings.order,
        rows: picture.rows(),
        strips: strips_of(alloc, picture, settings, each)?,
        orientation: 1,
        is_inverted: false,
        resolution,
        texts,
    })
}

/// Encodes the strips of a picture, each of so many rows but the last one.
fn strips_of(
    alloc: Global,
    picture: &Bitmap,
    settings: EncodeSettings,
    each: u32,
) -> Result<Vec<Vec<u8>>, EncodeError>
    requires names { names_encoding settings ≡ true }
{
    let columns = picture.columns();
    let size = ((columns as usize).div_ceil(8) * each as usize).max(1);
    let mut strips = Vec::new(alloc);
    let mut rest = picture.bytes();
    'strips: while !rest.is_empty() {
        let (front, below) = rest.split_at(size.min(rest.len()));
        let strip = encode_bitmap(alloc, columns, front, settings)?;
        if strips.push(strip).is_err() {
            return Err(EncodeError::OutOfMemory);
        }
        rest = below;
    }
    Ok(strips)
}
