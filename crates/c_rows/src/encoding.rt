//! Encoding for callers in C: the settings that they pass, and what is returned. `c/fax_encode.h` declares it.

ghost use Rattle.std.specs.Prelude.{◌≡◌, ◌<◌, ◌≤◌, ◌↔◌, ◌&&◌, false, true, length, nat_le, nat_lt, Err, IfOk, IfSome};
ghost use Rattle.std.specs.Prelude.{IsOk, IsOkUnless, IsTrue, OnOk};
ghost use Rattle.hayro_ccitt.specs.Bits.{bits_in, bits_of};
ghost use Rattle.fax_encode.specs.RowByRow.{with_row, with_rows};
ghost use Rattle.fax_encode.specs.Settings.{names_encoding};
ghost use Rattle.c_rows.specs.Encoding.{EncodesRows, asked, bits_asked, can_encode, encoder_of, layout_asked, of_rows};
ghost use Rattle.c_rows.specs.Encoding.{rows_asked};
ghost use Rattle.c_rows.specs.Packing.{are_whole_rows, bytes_of_row, row_read, rows_read, together};

use crate::packed_rows::Layout;
use crate::settings::{encoding_of, layout_with};
use fax_encode::{Effort, EncodeError, Encoder, encode_bitmap, names_encoding};
use hayro_ccitt::bit_reader::BitOrder;
use std::alloc::Global;

/// The settings of encoding as C writes them.
#[repr(C)]
#[derive(Copy, Clone)]
pub struct EncodeSettings {
    /// The width of the image in pixels.
    pub columns: u32,
    /// 0 for Group 4, 1 for Group 3 in one dimension, 2 for Group 3 in two.
    pub encoding: u32,
    /// A sum: 1 if EOFB or RTC follows the last row, 2 if an EOL precedes each line, 4 if rows are aligned to whole bytes, 16 if
    /// each byte's lowest bit comes first, 32 if EOLs end at whole bytes, 64 if lines have the fewest bits, 128 if packed rows have
    /// 0 for black.
    pub flags: u32,
    /// K of Group 3 in two dimensions, at least 1: at most K - 1 two-dimensional lines follow a one-dimensional one (T.4,
    /// 4.2.1). It has no effect in the other encodings.
    pub k: u32,
    /// The bytes from one packed row's start to the next one's; 0 for the bytes of a row.
    pub stride: u32,
}

/// The result of encoding, for C.
#[repr(C)]
#[derive(Copy, Clone)]
pub struct EncodeOutcome {
    /// The number of rows of the bitmap if the status is `OK` or `REFUSED`, else 0.
    pub rows: u64,
    /// The number of encoded bytes if the status is `OK` or `REFUSED`, else 0.
    pub bytes: u64,
}

/// Why nothing was encoded.
#[derive(Copy, Clone)]
pub enum Unencoded {
    /// The settings name no encoding, or the bitmap has none with them.
    NotTaken,
    /// An allocation failed.
    OutOfMemory,
}

/// Returns the layout of packed rows that C means.
pub fn layout_asked(settings: &EncodeSettings) -> Layout
    ensures { result ≡ layout_asked settings.now }
{
    layout_with(
        settings.columns,
        settings.stride,
        settings.flags / 128 % 2 == 1,
    )
}

/// Returns whether a stride reaches over the bytes of a row.
fn reaches(columns: u32, stride: u32) -> bool
    ensures { result ≡ nat_le (bytes_of_row columns) stride }
{
    columns.div_ceil(8) <= stride
}

/// Returns the settings of the encoder that C means, or `None` if they are invalid: an encoding or a flag that isn't known, or a
/// stride that is less than the bytes of a row.
fn encoder_of(settings: &EncodeSettings) -> Option<fax_encode::EncodeSettings>
    ensures meant { result ≡ encoder_of settings.now }
    ensures reaches { IfSome result (λ _. bytes_of_row settings.now.columns ≤ (layout_asked settings.now).stride) }
{
    if settings.flags >= 256
        || settings.flags / 8 % 2 == 1
        || !reaches(settings.columns, layout_asked(settings).stride)
    {
        return None;
    }
    let encoding = encoding_of(settings.encoding)?;
    Some(fax_encode::EncodeSettings {
        encoding,
        k: settings.k,
        end_of_line: settings.flags / 2 % 2 == 1,
        eols_end_at_bytes: settings.flags / 32 % 2 == 1,
        rows_are_byte_aligned: settings.flags / 4 % 2 == 1,
        end_of_block: settings.flags % 2 == 1,
        order: if settings.flags / 16 % 2 == 1 {
            BitOrder::LowestFirst
        } else {
            BitOrder::HighestFirst
        },
        effort: if settings.flags / 64 % 2 == 1 {
            Effort::Shortest
        } else {
            Effort::Procedure
        },
    })
}

/// Returns the settings of the encoder that C means, or `None` if they are invalid, name no encoding, or there are no columns.
pub fn encoder_of_rows(settings: &EncodeSettings) -> Option<fax_encode::EncodeSettings>
    ensures meant { result ≡ of_rows settings.now }
    ensures names { IfSome result (λ meant. names_encoding meant ≡ true) }
{
    let meant = encoder_of(settings)?;
    if settings.columns > 0 && names_encoding(meant) {
        Some(meant)
    } else {
        None
    }
}

/// Adds a row that is whole to an encoder.
fn push_row(encoder: &mut Encoder, row: &[u8], black_is_0: bool) -> Result<(), EncodeError>
    requires { bytes_of_row encoder.old.columns ≤ length row.now }
    ensures pushed { OnOk result (encoder.new
        ≡ with_row encoder.old (row_read black_is_0 encoder.old.columns (bits_of row.now))) }
    ensures memory { IsOkUnless result EncodeError.OutOfMemory }
    ensures columns { encoder.new.columns ≡ encoder.old.columns }
{
    let Ok(()) = encoder.push_row_by_polarity(row, black_is_0) else {
        return Err(EncodeError::OutOfMemory);
    };
    Ok(())
}

/// Adds the rows of a bitmap to an encoder.
fn push_rows(
    encoder: &mut Encoder,
    columns: u32,
    bitmap: &[u8],
    layout: Layout,
) -> Result<(), EncodeError>
    requires columns { encoder.old.columns ≡ columns }
    requires some { 0 < columns }
    requires reaches { bytes_of_row columns ≤ layout.stride }
    ensures pushed { OnOk result (encoder.new ≡ with_rows encoder.old (rows_read layout columns bitmap.now)) }
    ensures memory { IsOkUnless result EncodeError.OutOfMemory }
    ensures few { length bitmap.now < bytes_of_row columns → IsOk result }
{
    let width = (columns as usize).div_ceil(8);
    let mut rest = bitmap;
    while rest.len() >= width {
        push_row(encoder, &rest[..width], layout.black_is_0)?;
        rest = &rest[(layout.stride as usize).min(rest.len())..];
    }
    Ok(())
}

/// Encodes the rows of a bitmap in any layout. Rows that follow one another, with 1 for black, are encoded faster by
/// [`encode_bitmap`](fax_encode::encode_bitmap).
#[inline(never)]
fn encode_spread(
    alloc: Global,
    columns: u32,
    bitmap: &[u8],
    settings: fax_encode::EncodeSettings,
    layout: Layout,
) -> Result<Vec<u8>, EncodeError>
    requires some { 0 < columns }
    requires reaches { bytes_of_row columns ≤ layout.stride }
    requires names { names_encoding settings ≡ true }
    ensures { EncodesRows settings layout columns bitmap.now result }
{
    let mut encoder = Encoder::new(alloc, columns, settings)?;
    push_rows(&mut encoder, columns, bitmap, layout)?;
    encoder.finish()
}

/// Returns whether rows of a width follow one another, with 1 for black.
fn are_together(columns: u32, layout: Layout) -> bool
    ensures { IsTrue result → layout ≡ together columns }
{
    layout.stride == columns.div_ceil(8) && !layout.black_is_0
}

/// Encodes the rows of a bitmap.
fn encode_rows(
    alloc: Global,
    columns: u32,
    bitmap: &[u8],
    settings: fax_encode::EncodeSettings,
    layout: Layout,
) -> Result<Vec<u8>, EncodeError>
    requires some { 0 < columns }
    requires reaches { bytes_of_row columns ≤ layout.stride }
    requires names { names_encoding settings ≡ true }
    ensures { EncodesRows settings layout columns bitmap.now result }
{
    if are_together(columns, layout) {
        encode_bitmap(alloc, columns, bitmap, settings)
    } else {
        encode_spread(alloc, columns, bitmap, settings, layout)
    }
}

/// Encodes the rows of a bitmap, and says why not.
fn bytes_of(
    alloc: Global,
    columns: u32,
    bitmap: &[u8],
    settings: fax_encode::EncodeSettings,
    layout: Layout,
) -> Result<Vec<u8>, Unencoded>
    requires some { 0 < columns }
    requires reaches { bytes_of_row columns ≤ layout.stride }
    ensures not_taken { (result ≡ Err Unencoded.NotTaken) ↔ (can_encode columns bitmap.now settings ≡ false) }
    ensures encoded { IfOk result (λ bytes. bits_in settings.order bytes.items
        ≡ bits_asked settings columns (rows_read layout columns bitmap.now)) }
{
    if !names_encoding(settings) {
        return Err(Unencoded::NotTaken);
    }
    match encode_rows(alloc, columns, bitmap, settings, layout) {
        Ok(bytes) => Ok(bytes),
        Err(EncodeError::OutOfMemory) => Err(Unencoded::OutOfMemory),
        Err(_) => Err(Unencoded::NotTaken),
    }
}

/// Returns whether this many bytes are whole rows of a width that isn't 0.
fn is_whole(columns: u32, stride: u32, bytes: usize) -> bool
    requires { bytes_of_row columns ≤ stride }
    ensures { result ≡ (nat_lt 0 columns && are_whole_rows stride columns bytes) }
{
    if columns == 0 {
        return false;
    }
    let rest = bytes % stride as usize;
    rest == 0 || rest >= (columns as usize).div_ceil(8)
}

/// Returns the number of rows of a bitmap for C.
pub fn rows_asked(settings: &EncodeSettings, bitmap: &[u8]) -> u64
    requires some { 0 < settings.now.columns }
    requires reaches { bytes_of_row settings.now.columns ≤ (layout_asked settings.now).stride }
    ensures { result ≡ length (rows_asked settings.now bitmap.now) }
{
    let width = (settings.columns as usize).div_ceil(8);
    if bitmap.len() < width {
        return 0;
    }
    ((bitmap.len() - width) / layout_asked(settings).stride as usize) as u64 + 1
}

/// Returns the encoded bytes for C.
pub fn encoded(
    alloc: Global,
    bitmap: &[u8],
    settings: &EncodeSettings,
) -> Result<Vec<u8>, Unencoded>
    ensures not_taken { (result ≡ Err Unencoded.NotTaken) ↔ (asked settings.now bitmap.now ≡ None) }
    ensures encoded { IfOk result (λ bytes. IfSome (asked settings.now bitmap.now) (λ meant.
        bits_in meant.order bytes.items ≡ bits_asked meant settings.now.columns (rows_asked settings.now bitmap.now))) }
    ensures some { IfOk result (λ _. 0 < settings.now.columns) }
    ensures reaches { IfOk result (λ _. bytes_of_row settings.now.columns ≤ (layout_asked settings.now).stride) }
{
    let Some(meant) = encoder_of(settings) else {
        return Err(Unencoded::NotTaken);
    };
    let layout = layout_asked(settings);
    if !is_whole(settings.columns, layout.stride, bitmap.len()) {
        return Err(Unencoded::NotTaken);
    }
    bytes_of(alloc, settings.columns, bitmap, meant, layout)
}
