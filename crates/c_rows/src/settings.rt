//! The settings as C writes them, and the settings that they mean.

ghost use Rattle.std.specs.Prelude.{◌≡◌, ◌≤◌, IfSome};
ghost use Rattle.hayro_ccitt.specs.Bits.{BitsFit};
ghost use Rattle.hayro_ccitt.specs.Settings.{AreSettings};
ghost use Rattle.c_rows.specs.Packing.{bytes_of_row, layout_with};
ghost use Rattle.c_rows.specs.Settings.{settings_of, encoding_of, layout_of, order_of};

use crate::packed_rows::Layout;
use hayro_ccitt::bit_reader::BitOrder;
use hayro_ccitt::{DecodeSettings, EncodingMode, bits_fit};

/// The settings of decoding as C writes them.
#[repr(C)]
#[derive(Copy, Clone)]
pub struct Settings {
    /// The width of the image in pixels.
    pub columns: u32,
    /// The largest number of rows that are decoded; 0 is no limit.
    pub rows: u32,
    /// 0 for Group 4, 1 for Group 3 in one dimension, 2 for Group 3 in two.
    pub encoding: u32,
    /// A sum: 1 if EOFB or RTC may end the data, 2 if an EOL precedes each line, 4 if rows are aligned to whole bytes, 8 for a
    /// strict reading, 16 if each byte's lowest bit comes first, 32 if packed rows have 0 for black.
    pub flags: u32,
    /// The bytes from one packed row's start to the next one's; 0 for the bytes of a row.
    pub stride: u32,
}

/// Returns the encoding of a number, or `None`.
pub fn encoding_of(number: u32) -> Option<EncodingMode>
    ensures { result ≡ encoding_of number }
{
    match number {
        0 => Some(EncodingMode::Group4),
        1 => Some(EncodingMode::Group3_1D),
        2 => Some(EncodingMode::Group3_2D),
        _ => None,
    }
}

/// Returns the order of the bits in each byte that C means.
pub fn order_of(settings: &Settings) -> BitOrder
    ensures { result ≡ order_of settings.now }
{
    if settings.flags / 16 % 2 == 1 {
        BitOrder::LowestFirst
    } else {
        BitOrder::HighestFirst
    }
}

/// Returns a layout of packed rows of a width; a stride of 0 stands for the bytes of a row.
pub fn layout_with(columns: u32, stride: u32, black_is_0: bool) -> Layout
    ensures { result ≡ layout_with columns stride black_is_0 }
{
    Layout {
        stride: if stride == 0 {
            columns.div_ceil(8)
        } else {
            stride
        },
        black_is_0,
    }
}

/// Returns the layout of packed rows that C means.
pub fn layout_of(settings: &Settings) -> Layout
    ensures { result ≡ layout_of settings.now }
{
    layout_with(
        settings.columns,
        settings.stride,
        settings.flags / 32 % 2 == 1,
    )
}

/// Returns the settings that C means, or `None` if they are invalid: an encoding or a flag that isn't known, or a stride that is
/// less than the bytes of a row.
pub fn settings_of(settings: &Settings) -> Option<DecodeSettings>
    ensures meant { result ≡ settings_of settings.now }
    ensures reaches { IfSome result (λ meant. bytes_of_row meant.columns ≤ (layout_of settings.now).stride) }
{
    if settings.flags >= 64 || layout_of(settings).stride < settings.columns.div_ceil(8) {
        return None;
    }
    let encoding = encoding_of(settings.encoding)?;
    Some(DecodeSettings {
        columns: settings.columns,
        rows: settings.rows,
        end_of_block: settings.flags % 2 == 1,
        end_of_line: settings.flags / 2 % 2 == 1,
        rows_are_byte_aligned: settings.flags / 4 % 2 == 1,
        encoding,
        strict: settings.flags / 8 % 2 == 1,
    })
}

/// Returns the settings that C means for data, or `None` if they are invalid or the data is too long.
pub fn settings_for(data: &[u8], settings: &Settings) -> Option<DecodeSettings>
    ensures meant { BitsFit «data».now → result ≡ settings_of settings.now }
    ensures fit { IfSome result (λ _. BitsFit «data».now) }
    ensures reaches { IfSome result (λ meant. bytes_of_row meant.columns ≤ (layout_of settings.now).stride) }
{
    if bits_fit(data) {
        settings_of(settings)
    } else {
        None
    }
}
