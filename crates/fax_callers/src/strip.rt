//! A strip's bitmap.

ghost use Rattle.std.specs.Prelude.{◌≡◌, ◌<◌, ℕ, List, Err, IfOk, IsOk, length};
ghost use Rattle.hayro_ccitt.specs.Answers.{OnAnswer};
ghost use Rattle.hayro_ccitt.specs.Bits.{BitsFit, bits_of, bits_in};
ghost use Rattle.hayro_ccitt.specs.Pictures.{IsClosedPicture, IsLimitedPicture};
ghost use Rattle.hayro_ccitt.specs.Rows.{Row};
ghost use Rattle.fax_encode.specs.Packed.{packed};
ghost use Rattle.fax_callers.specs.Readings.{reading_of, EndsAs};

use crate::once::decode_once;
use fax_encode::BitmapSink;
use fax_encode::laws::rows_are_packed;
use hayro_ccitt::bit_reader::BitOrder;
use hayro_ccitt::{DecodeError, DecodeSettings, Result};
use std::alloc::Global;

/// Returns the bitmap of a strip, as of a TIFF file: one bit a pixel, 1 for black, the leftmost pixel in each byte's highest
/// bit, and zeros after each row up to a whole byte.
///
/// # Errors
///
/// `UnexpectedEof`, `InvalidCode` and `Overflow` if the data is invalid, `OutOfMemory` if an allocation of the decoder
/// fails, and `Refused` if the allocation for a row of the bitmap fails.
///
/// # Example
///
/// In Group 4 with 8 columns the bytes 31 C0 04 00 40 are a row whose pixels 3 and 4 are black, and EOFB: the bitmap is the
/// one byte 18.
pub fn strip_to_bitmap(
    alloc: Global,
    settings: DecodeSettings,
    order: BitOrder,
    data: &[u8],
) -> Result<Vec<u8>>
    requires fit { BitsFit «data».now }
    ensures packed { IfOk result (λ bytes. bits_of bytes.items ≡ packed (reading_of settings order «data».now).rows) }
    ensures ended { EndsAs result (reading_of settings order «data».now).outcome }
    ensures closed { (rows : List Row) (count : ℕ) → IsClosedPicture settings rows count (bits_in order «data».now)
        → OnAnswer result (IsOk result × IfOk result (λ bytes. bits_of bytes.items ≡ packed rows)) }
    ensures limited { (rows : List Row) → IsLimitedPicture settings rows (bits_in order «data».now)
        → OnAnswer result (IsOk result × IfOk result (λ bytes. bits_of bytes.items ≡ packed rows)) }
    ensures refused { result ≡ Err DecodeError.Refused → 0 < length (reading_of settings order «data».now).rows }
{
    rows_are_packed();
    let mut sink = BitmapSink::new(alloc, settings.columns);
    decode_once(alloc, settings, order, data, &mut sink)?;
    Ok(sink.into_bytes())
}
