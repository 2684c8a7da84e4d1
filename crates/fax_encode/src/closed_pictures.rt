//! Pictures that are closed: Group 4 with EOFB, and one-dimensional Group 3 with EOLs and RTC.

ghost use Rattle.std.specs.Prelude.{◌≡◌, ◌≢◌, ◌<◌, ◌↔◌, ℕ, false, true, map, length, Err, IfOk};
ghost use Rattle.fax_bits.specs.Bits.{bits_of};
ghost use Rattle.fax_encode.specs.Chosen.{chosen_t4, chosen_t6, filled_up, rows_of};
ghost use Rattle.fax_encode.specs.Packed.{bytes_of_row, shown};
ghost use Rattle.fax_encode.specs.Chosen.{AreRows};
ghost use Rattle.fax_encode.specs.Refusals.{RefusesFirstUnlawful};
ghost use Rattle.fax_encode.specs.Settings.{group3_settings, group4_settings};

use crate::{Effort, EncodeError, EncodeSettings, encode, encode_bitmap};
use fax_bits::EncodingMode;
use fax_bits::bit_reader::BitOrder;
use std::alloc::Global;

/// Group 4 with EOFB.
fn group4_settings(aligned: bool) -> EncodeSettings
    ensures { result ≡ group4_settings aligned }
{
    EncodeSettings {
        encoding: EncodingMode::Group4,
        k: 1,
        end_of_line: false,
        eols_end_at_bytes: false,
        rows_are_byte_aligned: aligned,
        end_of_block: true,
        order: BitOrder::HighestFirst,
        effort: Effort::Procedure,
    }
}

/// One-dimensional Group 3 with EOLs and RTC.
fn group3_settings() -> EncodeSettings
    ensures { result ≡ group3_settings }
{
    EncodeSettings {
        encoding: EncodingMode::Group3_1D,
        k: 1,
        end_of_line: true,
        eols_end_at_bytes: false,
        rows_are_byte_aligned: false,
        end_of_block: true,
        order: BitOrder::HighestFirst,
        effort: Effort::Procedure,
    }
}

/// Encodes rows, given as lists of changes, as Group 4 (T.6): the modes of each row against the row before it, with zeros
/// up to a whole byte after each row if they are `aligned`, and EOFB after the last, with zeros up to a whole byte. No rows
/// are encoded as EOFB alone. With 8 columns and not aligned the one row `[3, 5]` is 31 C0 04 00 40: horizontal mode, 3
/// white pixels, 2 black ones, a vertical mode, and EOFB (T.6, 2.2 and 2.4.1.1).
///
/// # Errors
///
/// `NoColumns` if `columns` is 0, else `NotARow` with the index of the first list that is not strictly ascending and
/// below `columns`, else `OutOfMemory` if an allocation fails; never `NoRows`.
pub fn encode_g4(
    alloc: Global,
    columns: u32,
    rows: &[Vec<u32>],
    aligned: bool,
) -> std::result::Result<Vec<u8>, EncodeError>
    ensures no_columns { (result ≡ Err EncodeError.NoColumns) ↔ (columns ≡ 0) }
    ensures not_a_row { RefusesFirstUnlawful columns (map (λ row. row.items) rows.now) result }
    ensures no_rows { result ≢ Err EncodeError.NoRows }
    ensures rows { IfOk result (λ _. AreRows columns (map (λ row. row.items) rows.now)) }
    ensures encoded { IfOk result (λ bytes. bits_of bytes.items
        ≡ filled_up (chosen_t6 columns aligned (rows_of columns (map (λ row. row.items) rows.now)))) }
{
    encode(alloc, columns, rows, group4_settings(aligned))
}

/// Encodes rows, given as lists of changes, as one-dimensional Group 3 (T.4, 4.1): an EOL before each row, the
/// runs of the row, and RTC after the last, with zeros up to a whole byte and no other fill.
///
/// # Errors
///
/// `NoColumns` if `columns` is 0, else `NoRows` if there are no rows, else `NotARow` with the index of the first list
/// that is not strictly ascending and below `columns`, else `OutOfMemory` if an allocation fails.
pub fn encode_1d(
    alloc: Global,
    columns: u32,
    rows: &[Vec<u32>],
) -> std::result::Result<Vec<u8>, EncodeError>
    ensures no_columns { (result ≡ Err EncodeError.NoColumns) ↔ (columns ≡ 0) }
    ensures no_rows { (result ≡ Err EncodeError.NoRows) ↔ ((0 < columns) × (length rows.now ≡ 0)) }
    ensures not_a_row { RefusesFirstUnlawful columns (map (λ row. row.items) rows.now) result }
    ensures rows { IfOk result (λ _. AreRows columns (map (λ row. row.items) rows.now)) }
    ensures encoded { IfOk result (λ bytes. bits_of bytes.items
        ≡ filled_up (chosen_t4 (rows_of columns (map (λ row. row.items) rows.now)))) }
{
    encode(alloc, columns, rows, group3_settings())
}

/// Encodes the rows of a bitmap as Group 4 (T.6), as [`encode_g4`](crate::encode_g4) encodes lists of changes. A row occupies
/// (columns + 7) / 8 bytes, one bit a pixel, 1 for black, the leftmost pixel in a byte's highest bit. Bits after the last pixel
/// of a row are ignored, and so are bytes after the last whole row.
///
/// # Errors
///
/// `NoColumns` if `columns` is 0; else `OutOfMemory` if an allocation fails.
pub fn encode_bitmap_g4(
    alloc: Global,
    columns: u32,
    bitmap: &[u8],
    aligned: bool,
) -> std::result::Result<Vec<u8>, EncodeError>
    ensures no_columns { (result ≡ Err EncodeError.NoColumns) ↔ (columns ≡ 0) }
    ensures no_rows { result ≢ Err EncodeError.NoRows }
    ensures not_a_row { (k : ℕ) → result ≢ Err (EncodeError.NotARow k) }
    ensures encoded { IfOk result (λ bytes. bits_of bytes.items ≡ filled_up (chosen_t6 columns aligned (shown columns bitmap.now))) }
{
    encode_bitmap(alloc, columns, bitmap, group4_settings(aligned))
}

/// Encodes the rows of a bitmap as one-dimensional Group 3 (T.4, 4.1), as [`encode_1d`](crate::encode_1d) encodes
/// lists of changes. Its rows are those of [`encode_bitmap_g4`].
///
/// # Errors
///
/// `NoColumns` if `columns` is 0; else `NoRows` if the bitmap has no whole row; else `OutOfMemory` if an allocation fails.
pub fn encode_bitmap_1d(
    alloc: Global,
    columns: u32,
    bitmap: &[u8],
) -> std::result::Result<Vec<u8>, EncodeError>
    ensures no_columns { (result ≡ Err EncodeError.NoColumns) ↔ (columns ≡ 0) }
    ensures no_rows { (result ≡ Err EncodeError.NoRows) ↔ ((0 < columns) × (length bitmap.now < bytes_of_row columns)) }
    ensures not_a_row { (k : ℕ) → result ≢ Err (EncodeError.NotARow k) }
    ensures encoded { IfOk result (λ bytes. bits_of bytes.items ≡ filled_up (chosen_t4 (shown columns bitmap.now))) }
{
    encode_bitmap(alloc, columns, bitmap, group3_settings())
}
