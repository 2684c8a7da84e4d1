//! Decoding with a context of its own.

ghost use Rattle.std.specs.Prelude.{◌≡◌, ◌≤◌, IfOk, length};
ghost use Rattle.hayro_ccitt.specs.Bits.{BitsFit, bits_in};
ghost use Rattle.fax_callers.specs.Readings.{reading_of, EndsAs, FlagsRefusal, ReadsPictures, TakesFirst};

use hayro_ccitt::bit_reader::BitOrder;
use hayro_ccitt::{DecodeSettings, Decoder, DecoderContext, Result, decode_in};
use std::alloc::Global;

/// Decodes one image whose bytes have their bits in this order, and returns the number of bytes consumed. It creates a context
/// and drops it; for more than one image, [`decode_in`] with one context avoids that.
///
/// # Errors
///
/// Those of [`decode_in`]. `OutOfMemory` is also returned if the context can't be allocated; the sink has received no row then.
///
/// # Example
///
/// In Group 4 with 8 columns the bytes 31 C0 04 00 40 are a row whose pixels 3 and 4 are black, and EOFB: the sink receives the
/// row with the changes 3 and 5, and the result is `Ok(5)`.
pub fn decode_once<D: Decoder>(
    alloc: Global,
    settings: DecodeSettings,
    order: BitOrder,
    data: &[u8],
    sink: &mut D,
) -> Result<usize>
    requires fit { BitsFit «data».now }
    requires width { settings.columns ≤ D.width sink.old }
    ensures width { D.width sink.new ≡ D.width sink.old }

    // The first rows of the plain reading are accepted, and all of them unless an allocation fails or a row is refused.
    ensures front { TakesFirst settings (bits_in order «data».now) (D.step (D.width sink.old)) (D.meaning sink.old)
        (D.meaning sink.new) (D.refuses sink.new) result }
    ensures count { IfOk result (λ n. ((reading_of settings order «data».now).outcome ≡ Ok n) × (n ≤ length «data».now)) }
    ensures ended { EndsAs result (reading_of settings order «data».now).outcome }
    ensures flag { FlagsRefusal result (D.has_refused sink.old) (D.has_refused sink.new) }

    // A closed picture is read as its rows, and the result is its number of bytes, whatever follows it. So are as many lines as
    // the row limit.
    ensures pictures { ReadsPictures settings (bits_in order «data».now) result }
{
    let mut ctx = DecoderContext::new(alloc, settings)?;
    decode_in(order, data, sink, &mut ctx)
}
