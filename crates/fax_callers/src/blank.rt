//! Whether an image is blank.

ghost use Rattle.std.specs.Prelude.{◌≡◌, ◌≢◌, Ok, Err, IfErr, true, false, length};
ghost use Rattle.hayro_ccitt.specs.Answers.{IsFault};
ghost use Rattle.hayro_ccitt.specs.Bits.{BitsFit};
ghost use Rattle.fax_callers.specs.Blank.{AreWhite, HasBlackRow};
ghost use Rattle.fax_callers.specs.Readings.{reading_of};

use crate::once::decode_once;
use hayro_ccitt::bit_reader::BitOrder;
use hayro_ccitt::{DecodeError, DecodeSettings, Decoder, Result};
use std::alloc::Global;

/// A sink that accepts white rows and refuses the first one with a black pixel, so that decoding ends there.
#[derive(Drop)]
struct WhiteRows {
    columns: u32,
    has_refused: bool,
}

impl Decoder for WhiteRows {
    ghost use Rattle.std.specs.Prelude.{◌≢◌, Bool, true, false, ◌&&◌, []};
    ghost use Rattle.fax_callers.specs.Blank.{is_white_row};

    ghost Meaning = { Bool };

    ghost meaning = { λ _. true };

    ghost step = { λ _ white row. white && is_white_row row };

    ghost width = { λ sink. sink.columns };

    ghost has_refused = { λ sink. sink.has_refused };

    ghost refuses = { λ _ row. row ≢ [] };

    fn push_row(&mut self, changes: &[u32]) -> Result<()> {
        if changes.is_empty() {
            return Ok(());
        }
        self.has_refused = true;
        Err(DecodeError::Refused)
    }
}

/// Returns whether an image is blank: whether no row has a black pixel. Decoding ends at the first row that has one.
///
/// # Errors
///
/// Those of [`decode_once`], if they occur before a black pixel; never `Refused`.
///
/// # Example
///
/// In Group 4 with 8 columns the byte C0 is two white rows: the result is `Ok(true)`. The bytes 31 C0 04 00 40 are a row whose
/// pixels 3 and 4 are black, and EOFB: the result is `Ok(false)`.
pub fn is_blank(
    alloc: Global,
    settings: DecodeSettings,
    order: BitOrder,
    data: &[u8],
) -> Result<bool>
    requires fit { BitsFit «data».now }
    ensures blank { result ≡ Ok true → AreWhite (reading_of settings order «data».now).rows
        (length (reading_of settings order «data».now).rows) }
    ensures not_blank { result ≡ Ok false → HasBlackRow (reading_of settings order «data».now).rows }
    ensures fault { IfErr result (λ e. IsFault e → (reading_of settings order «data».now).outcome ≡ Err e) }
    ensures never_refused { result ≢ Err DecodeError.Refused }
{
    let mut sink = WhiteRows {
        columns: settings.columns,
        has_refused: false,
    };
    match decode_once(alloc, settings, order, data, &mut sink) {
        Ok(_) => Ok(true),
        Err(DecodeError::Refused) => Ok(false),
        Err(error) => Err(error),
    }
}
