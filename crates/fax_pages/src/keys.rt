//! What PDF's keys say of how an image is encoded.

ghost use Rattle.std.specs.Prelude.{◌≡◌};
ghost use Rattle.fax_pages.specs.Keys.{columns_shown, encoding_of_k, is_inverted_by_keys, rows_of_keys, settings_of_keys};

use fax_bits::{DecodeSettings, EncodingMode};
use pdf_read::FaxParameters;

/// Returns how the lines are encoded.
fn encoding_of_k(k: i64) -> EncodingMode
    ensures { result ≡ encoding_of_k k }
{
    if k < 0 {
        EncodingMode::Group4
    } else if k == 0 {
        EncodingMode::Group3_1D
    } else {
        EncodingMode::Group3_2D
    }
}

/// Returns how many rows are decoded of an image of a height, which is 0 if it isn't known.
fn rows_of_keys(keys: &FaxParameters, height: u32) -> u32
    ensures { result ≡ rows_of_keys keys.now height }
{
    if height == 0 || (!keys.end_of_block && keys.rows > 0 && keys.rows < height) {
        keys.rows
    } else {
        height
    }
}

/// Returns the settings for an image of a height, which is 0 if it isn't known.
pub fn settings_of_keys(keys: &FaxParameters, height: u32) -> DecodeSettings
    ensures { result ≡ settings_of_keys keys.now height }
{
    DecodeSettings {
        columns: keys.columns,
        rows: rows_of_keys(keys, height),
        end_of_block: keys.end_of_block,
        end_of_line: keys.end_of_line,
        rows_are_byte_aligned: keys.encoded_byte_align,
        encoding: encoding_of_k(keys.k),
        strict: false,
    }
}

/// Returns how many columns are shown: the width of the image, if it is smaller than Columns and its rows have as many bytes, else Columns.
pub fn columns_shown(keys: &FaxParameters, width: u32) -> u32
    ensures { result ≡ columns_shown keys.now.columns width }
{
    if 0 < width && width < keys.columns && width.div_ceil(8) == keys.columns.div_ceil(8) {
        width
    } else {
        keys.columns
    }
}

/// Returns whether the rows are the negative of the picture, by whether Decode inverts the samples, and whether the colour space has
/// sample 0 lighter than sample 1.
pub fn is_inverted_by_keys(
    keys: &FaxParameters,
    is_decode_inverted: bool,
    is_zero_lighter: bool,
) -> bool
    ensures { result ≡ is_inverted_by_keys keys.now.black_is_1 is_decode_inverted is_zero_lighter }
{
    (keys.black_is_1 != is_decode_inverted) != is_zero_lighter
}
