//! What was encoded, decoded into a bitmap.

ghost use Rattle.std.specs.Prelude.{length, ◌≡◌, ◌≢◌, ◌<◌, ◌↔◌, true, List, ℕ, map, Err, IfOk, IsOkUnless};
ghost use Rattle.hayro_ccitt.specs.Bits.{bits_of};
ghost use Rattle.hayro_ccitt.specs.Pictures.{IsClosedPicture};
ghost use Rattle.fax_encode.specs.Chosen.{rows_of};
ghost use Rattle.fax_encode.specs.Packed.{packed};
ghost use Rattle.fax_encode.specs.Chosen.{AreRows};
ghost use Rattle.fax_encode.specs.Refusals.{RefusesFirstUnlawful};

use fax_encode::{BitmapSink, EncodeError, encode_1d, encode_g4};
use hayro_ccitt::{DecodeSettings, DecoderContext, EncodingMode, bits_fit, decode};
use std::alloc::Global;

/// Settings that read what is encoded here, strictly and to its end. In Group 4 `end_of_line` has no effect.
pub fn settings_to_the_end(columns: u32, encoding: EncodingMode, aligned: bool) -> DecodeSettings
    ensures { result ≡ record {
      columns = columns;
      rows = 0;
      end_of_block = true;
      end_of_line = true;
      rows_are_byte_aligned = aligned;
      encoding = encoding;
      strict = true;
    } }
{
    DecodeSettings {
        columns,
        rows: 0,
        end_of_block: true,
        end_of_line: true,
        rows_are_byte_aligned: aligned,
        encoding,
        strict: true,
    }
}

/// Returns the bitmap of an encoding. Its only error is `OutOfMemory`.
fn bitmap_of(
    alloc: Global,
    settings: DecodeSettings,
    encoded: &[u8],
) -> std::result::Result<BitmapSink, EncodeError>
    ensures only_memory { IsOkUnless result EncodeError.OutOfMemory }
    ensures packed { (lists : List (List ℕ)) (count : ℕ) → AreRows settings.columns lists
        → IsClosedPicture settings (rows_of settings.columns lists) count (bits_of encoded.now)
        → IfOk result (λ sink. bits_of sink.bytes ≡ packed (rows_of settings.columns lists)) }
{
    if !bits_fit(encoded) {
        return Err(EncodeError::OutOfMemory);
    }
    let Ok(mut ctx) = DecoderContext::new(alloc, settings) else {
        return Err(EncodeError::OutOfMemory);
    };
    let mut sink = BitmapSink::new(alloc, settings.columns);
    match decode(encoded, &mut sink, &mut ctx) {
        Ok(_) => Ok(sink),
        Err(_) => Err(EncodeError::OutOfMemory),
    }
}

/// Returns the bitmap of rows that are encoded as Group 4 and decoded again.
///
/// # Errors
///
/// Those of [`encode_g4`]; `OutOfMemory` is also returned if an allocation of the decoder fails.
pub fn bitmap_by_group4(
    alloc: Global,
    columns: u32,
    rows: &[Vec<u32>],
    aligned: bool,
) -> std::result::Result<BitmapSink, EncodeError>
    ensures no_columns { (result ≡ Err EncodeError.NoColumns) ↔ (columns ≡ 0) }
    ensures not_a_row { RefusesFirstUnlawful columns (map (λ row. row.items) rows.now) result }
    ensures no_rows { result ≢ Err EncodeError.NoRows }
    ensures packed { IfOk result (λ sink. bits_of sink.bytes ≡ packed (rows_of columns (map (λ row. row.items) rows.now))) }
{
    let encoded = encode_g4(alloc, columns, rows, aligned)?;
    let settings = settings_to_the_end(columns, EncodingMode::Group4, aligned);
    bitmap_of(alloc, settings, encoded.as_slice())
}

/// Returns the bitmap of rows that are encoded as one-dimensional Group 3 and decoded again.
///
/// # Errors
///
/// Those of [`encode_1d`]; `OutOfMemory` is also returned if an allocation of the decoder fails.
pub fn bitmap_by_group3(
    alloc: Global,
    columns: u32,
    rows: &[Vec<u32>],
) -> std::result::Result<BitmapSink, EncodeError>
    ensures packed { IfOk result (λ sink. bits_of sink.bytes
        ≡ packed (rows_of columns (map (λ row. row.items) rows.now))) }
    ensures no_columns { (result ≡ Err EncodeError.NoColumns) ↔ (columns ≡ 0) }
    ensures no_rows { (result ≡ Err EncodeError.NoRows) ↔ ((0 < columns) × (length rows.now ≡ 0)) }
    ensures not_a_row { RefusesFirstUnlawful columns (map (λ row. row.items) rows.now) result }
{
    let encoded = encode_1d(alloc, columns, rows)?;
    let settings = settings_to_the_end(columns, EncodingMode::Group3_1D, false);
    bitmap_of(alloc, settings, encoded.as_slice())
}
