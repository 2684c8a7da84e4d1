//! Whether data is a strip as it is.

ghost use Rattle.std.specs.Prelude.{IfOk, IsTrue, length};
ghost use Rattle.hayro_ccitt.specs.Bits.{BitsFit, bits_in};
ghost use Rattle.fax_strips.specs.Strips.{IsWholeStrip};

use hayro_ccitt::bit_reader::BitOrder;
use hayro_ccitt::{DecodeError, DecodeSettings, Decoder, DecoderContext, Result, decode_in};
use std::alloc::{AllocError, Global};

/// A sink that ignores each row.
#[derive(Drop)]
struct NoRows;

impl Decoder for NoRows {
    ghost use Rattle.std.specs.Prelude.{false};

    ghost Meaning = { Unit {0} };

    ghost meaning = { λ _. tt };

    ghost step = { λ _ _ _. tt };

    ghost width = { λ _. 4294967295 };

    ghost has_refused = { λ _. false };

    fn push_row(&mut self, _changes: &[u32]) -> Result<()> {
        Ok(())
    }
}

/// Returns whether a strict reading takes all of the data as so many rows as the settings have, and nothing is left.
///
/// # Errors
///
/// If an allocation fails.
pub fn is_whole_strip(
    alloc: Global,
    data: &[u8],
    order: BitOrder,
    settings: DecodeSettings,
) -> std::result::Result<bool, AllocError>
    requires fit { BitsFit «data».now }
    ensures { IfOk result (λ whole. IsTrue whole → IsWholeStrip settings (bits_in order «data».now) (length «data».now)) }
{
    let strictly = DecodeSettings {
        strict: true,
        ..settings
    };
    let Ok(mut ctx) = DecoderContext::new(alloc, strictly) else {
        return Err(AllocError);
    };
    match decode_in(order, data, &mut NoRows, &mut ctx) {
        Ok(bytes) => Ok(bytes == data.len() && ctx.decoded_rows() == u64::from(settings.rows)),
        Err(DecodeError::OutOfMemory | DecodeError::Refused) => Err(AllocError),
        Err(_) => Ok(false),
    }
}
