//! Encoding by settings: pictures of lists of changes, and of a bitmap.

ghost use Rattle.std.specs.Prelude.{◌≡◌, ◌≢◌, ◌<◌, ◌≤◌, ◌↔◌, ℕ, [], true, map, length, Err, IfOk, OnOk};
ghost use Rattle.fax_bits.specs.Bits.{bits_in};
ghost use Rattle.fax_encode.specs.Chosen.{filled_up, rows_of};
ghost use Rattle.fax_encode.specs.Packed.{bytes_of_row, shown};
ghost use Rattle.fax_encode.specs.Chosen.{AreRows};
ghost use Rattle.fax_encode.specs.Refusals.{RefusesFirstUnlawful};
ghost use Rattle.fax_encode.specs.Settings.{chosen, names_encoding, needs_row, with_end};
ghost use Rattle.fax_encode.specs.Writing.{all_bits};

use crate::bit_order::bytes_in_order;
use crate::encoding::{RowBelow, put_end, put_part};
use crate::rows::first_unlawful;
use crate::white_rows::{WhiteRows, lines_for, put_white_lines, white_rows};
use crate::{EncodeError, EncodeSettings};
use fax_bitmap::bitmap_rows::scan_row;
use fax_bits::EncodingMode;
use fax_words::bit_writer::BitWriter;
use std::alloc::{AllocError, Global};
use std::mem;

/// Returns whether a picture of these settings has at least one row.
pub fn needs_row(settings: EncodeSettings) -> bool
    ensures { result ≡ needs_row settings.encoding settings.end_of_block }
{
    match settings.encoding {
        EncodingMode::Group4 => !settings.end_of_block,
        _ => true,
    }
}

/// Writes the lines of a picture, each with what belongs to it.
fn put_rows(
    writer: &mut BitWriter,
    alloc: Global,
    columns: u32,
    rows: &[Vec<u32>],
    settings: EncodeSettings,
) -> Result<(), AllocError>
    requires none { all_bits writer.old ≡ [] }
    requires rows { AreRows columns (map (λ row. row.items) rows.now) }
    ensures { OnOk result (with_end settings (all_bits writer.new)
        ≡ chosen settings columns (rows_of columns (map (λ row. row.items) rows.now))) }
{
    let mut ways = Vec::new(alloc);
    let mut reference: &[u32] = &[];
    let mut left = 0;
    for row in rows {
        let below = RowBelow {
            reference,
            changes: row.as_slice(),
        };
        left = put_part(writer, &mut ways, columns, settings, left, below)?;
        reference = row.as_slice();
    }
    Ok(())
}

/// Returns the bytes of a picture.
fn picture(
    alloc: Global,
    columns: u32,
    rows: &[Vec<u32>],
    settings: EncodeSettings,
) -> Result<Vec<u8>, AllocError>
    requires { AreRows columns (map (λ row. row.items) rows.now) }
    ensures { IfOk result (λ bytes. bits_in settings.order bytes.items
        ≡ filled_up (chosen settings columns (rows_of columns (map (λ row. row.items) rows.now)))) }
{
    let mut writer = BitWriter::new(alloc);
    put_rows(&mut writer, alloc, columns, rows, settings)?;
    put_end(&mut writer, settings)?;
    Ok(bytes_in_order(writer.finish()?, settings.order))
}

/// Encodes rows, given as lists of changes, as the settings say: each line, the EOL before it or the zeros after it, EOFB
/// or RTC after the last, and zeros up to a whole byte. A line of two-dimensional Group 3 is two-dimensional if K allows it
/// and it is no longer than the one-dimensional line (T.4, 4.2.1). The settings must name an encoding, as
/// [`names_encoding`](crate::names_encoding) says.
///
/// # Errors
///
/// - `NoColumns` if `columns` is 0.
/// - `NoRows` if there are no rows, other than in Group 4 with EOFB.
/// - `NotARow` with the index of the first list that is not strictly ascending and below `columns`.
/// - `OutOfMemory` if an allocation fails.
///
/// The first that applies is returned.
pub fn encode(
    alloc: Global,
    columns: u32,
    rows: &[Vec<u32>],
    settings: EncodeSettings,
) -> std::result::Result<Vec<u8>, EncodeError>
    requires names { names_encoding settings ≡ true }
    ensures no_columns { (result ≡ Err EncodeError.NoColumns) ↔ (columns ≡ 0) }
    ensures no_rows { (result ≡ Err EncodeError.NoRows) ↔ ((0 < columns)
        × (needs_row settings.encoding settings.end_of_block ≡ true) × (length rows.now ≡ 0)) }
    ensures not_a_row { RefusesFirstUnlawful columns (map (λ row. row.items) rows.now) result }
    ensures rows { IfOk result (λ _. AreRows columns (map (λ row. row.items) rows.now)) }
    ensures encoded { IfOk result (λ bytes. bits_in settings.order bytes.items
        ≡ filled_up (chosen settings columns (rows_of columns (map (λ row. row.items) rows.now)))) }
{
    if columns == 0 {
        return Err(EncodeError::NoColumns);
    }
    if rows.is_empty() && needs_row(settings) {
        return Err(EncodeError::NoRows);
    }
    if let Some(row) = first_unlawful(columns, rows) {
        return Err(EncodeError::NotARow(row));
    }
    let bytes = picture(alloc, columns, rows, settings)?;
    Ok(bytes)
}

/// Writes the lines of the rows of a bitmap, each with what belongs to it.
fn put_bitmap(
    writer: &mut BitWriter,
    alloc: Global,
    columns: u32,
    bitmap: &[u8],
    settings: EncodeSettings,
) -> Result<(), AllocError>
    requires none { all_bits writer.old ≡ [] }
    requires some { 0 < columns }
    ensures { OnOk result (with_end settings (all_bits writer.new) ≡ chosen settings columns (shown columns bitmap.now)) }
{
    let width = (columns as usize).div_ceil(8);
    let mut reference = Vec::new(alloc);
    let mut row = Vec::new(alloc);
    let mut ways = Vec::new(alloc);
    let mut lines = None;
    let mut left = 0;
    let mut rest = bitmap;
    while rest.len() >= width {
        if reference.is_empty() {
            let count = white_rows(rest, width);
            if count > 0 {
                lines = lines_for(lines, alloc, &mut ways, columns, settings, count)?;
                let white = WhiteRows { columns, count };
                left = put_white_lines(writer, &mut ways, white, settings, left, lines)?;
                rest = &rest[count * width..];
                continue;
            }
        }
        scan_row(&mut row, columns, rest)?;
        let below = RowBelow {
            reference: reference.as_slice(),
            changes: row.as_slice(),
        };
        left = put_part(writer, &mut ways, columns, settings, left, below)?;
        mem::swap(&mut reference, &mut row);
        rest = &rest[width..];
    }
    Ok(())
}

/// Returns the bytes of the picture that a bitmap shows.
fn bitmap_picture(
    alloc: Global,
    columns: u32,
    bitmap: &[u8],
    settings: EncodeSettings,
) -> Result<Vec<u8>, AllocError>
    requires { 0 < columns }
    ensures { IfOk result (λ bytes. bits_in settings.order bytes.items ≡ filled_up (chosen settings columns (shown columns bitmap.now))) }
{
    let mut writer = BitWriter::new(alloc);
    put_bitmap(&mut writer, alloc, columns, bitmap, settings)?;
    put_end(&mut writer, settings)?;
    Ok(bytes_in_order(writer.finish()?, settings.order))
}

/// Encodes the rows of a bitmap as the settings say, which must name an encoding, as [`encode`] encodes lists of changes. Its rows
/// are those of [`encode_bitmap_g4`](crate::encode_bitmap_g4).
///
/// # Errors
///
/// - `NoColumns` if `columns` is 0.
/// - `NoRows` if the bitmap has no whole row, other than in Group 4 with EOFB.
/// - `OutOfMemory` if an allocation fails.
///
/// The first that applies is returned.
pub fn encode_bitmap(
    alloc: Global,
    columns: u32,
    bitmap: &[u8],
    settings: EncodeSettings,
) -> std::result::Result<Vec<u8>, EncodeError>
    requires names { names_encoding settings ≡ true }
    ensures no_columns { (result ≡ Err EncodeError.NoColumns) ↔ (columns ≡ 0) }
    ensures no_rows { (result ≡ Err EncodeError.NoRows) ↔ ((0 < columns)
        × (needs_row settings.encoding settings.end_of_block ≡ true) × (length bitmap.now < bytes_of_row columns)) }
    ensures not_a_row { (k : ℕ) → result ≢ Err (EncodeError.NotARow k) }
    ensures encoded { IfOk result (λ bytes. bits_in settings.order bytes.items
        ≡ filled_up (chosen settings columns (shown columns bitmap.now))) }
{
    if columns == 0 {
        return Err(EncodeError::NoColumns);
    }
    if bitmap.len() < (columns as usize).div_ceil(8) && needs_row(settings) {
        return Err(EncodeError::NoRows);
    }
    let bytes = bitmap_picture(alloc, columns, bitmap, settings)?;
    Ok(bytes)
}
