//! What TIFF's tags say of how a page is encoded.

ghost use Rattle.std.specs.Prelude.{◌≡◌};
ghost use Rattle.fax_pages.specs.Tags.{encoding_of_tags, is_fax_compression, order_of_tags, settings_of_tags};

use fax_bits::bit_reader::BitOrder;
use fax_bits::{DecodeSettings, EncodingMode};
use tiff_read::Picture;

/// Returns whether a Compression is one of fax data.
pub(crate) fn is_fax_compression(compression: u64) -> bool
    ensures { result ≡ is_fax_compression compression }
{
    matches!(compression, 2 | 3 | 4 | 32771)
}

/// Returns how the lines of a picture are encoded, if its Compression is one of fax data.
fn encoding_of_tags(picture: &Picture) -> EncodingMode
    ensures { result ≡ encoding_of_tags picture.now.compression picture.now.t4_options }
{
    match picture.compression {
        4 => EncodingMode::Group4,
        3 if picture.t4_options % 2 == 1 => EncodingMode::Group3_2D,
        _ => EncodingMode::Group3_1D,
    }
}

/// Returns the settings for a strip or tile of so many columns and rows.
pub(crate) fn settings_of_tags(picture: &Picture, columns: u32, rows: u32) -> DecodeSettings
    ensures { result ≡ settings_of_tags picture.now columns rows }
{
    DecodeSettings {
        columns,
        rows,
        end_of_block: picture.compression == 4,
        end_of_line: false,
        rows_are_byte_aligned: picture.compression == 2 || picture.compression == 32771,
        encoding: encoding_of_tags(picture),
        strict: false,
    }
}

/// Returns which bit of a byte comes first.
pub(crate) fn order_of_tags(picture: &Picture) -> BitOrder
    ensures { result ≡ order_of_tags picture.now }
{
    if picture.is_low_first {
        BitOrder::LowestFirst
    } else {
        BitOrder::HighestFirst
    }
}
