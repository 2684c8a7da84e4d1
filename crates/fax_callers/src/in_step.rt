//! From which row on a damaged strip is as it was sent.

ghost use Rattle.std.specs.Prelude.{◌≡◌, ◌≢◌, ◌<◌, ℕ, Ok, Err, Some, None, IfErr, length, get_or};
ghost use Rattle.hayro_ccitt.specs.Bits.{BitsFit, bits_in};
ghost use Rattle.hayro_ccitt.specs.PlainReading.{line_starts, plain};
ghost use Rattle.hayro_ccitt.specs.RowsKept.{IsInStepFrom, RowsFollow};
ghost use Rattle.hayro_ccitt.specs.Answers.{IsFault};
ghost use Rattle.fax_callers.specs.InStep.{NoLineInStep};

use hayro_ccitt::bit_reader::BitOrder;
use hayro_ccitt::{DecodeError, DecodeSettings, DecoderContext, Result, RowReader, in_step_from};
use std::alloc::Global;

/// Returns from which row on, counted from 0, a damaged strip of Group 3 is as it was sent, if the damage lies before the EOL
/// that begins at the bit offset `to`: its line begins where [`in_step_from`] says. It is `Ok(None)` if that says nothing, or no
/// line of the reading begins there. Each byte has its bits in this order.
///
/// # Errors
///
/// Those of [`RowReader::next_row`], if they occur before that row.
///
/// # Example
///
/// In lenient one-dimensional data with EOLs and 8 columns, the highest bit first, 00 19 80 0C 70 00 33 are three rows. If the first line was damaged, up to
/// the EOL at bit 17, the result is `Ok(Some(2))`: the last row is as it was sent.
pub fn row_in_step(
    alloc: Global,
    settings: DecodeSettings,
    order: BitOrder,
    data: &[u8],
    to: usize,
) -> Result<Option<u64>>
    requires fit { BitsFit «data».now }
    ensures row { (row : ℕ) → result ≡ Ok (Some row) → row < length (plain settings (bits_in order «data».now)).rows }
    ensures starts { (row : ℕ) → result ≡ Ok (Some row)
        → IsInStepFrom settings (bits_in order «data».now) to (get_or (line_starts settings (bits_in order «data».now)) row 0) }
    ensures follow { (row : ℕ) → result ≡ Ok (Some row)
        → RowsFollow settings (bits_in order «data».now) to (get_or (line_starts settings (bits_in order «data».now)) row 0) }
    ensures none { result ≡ Ok None → NoLineInStep settings (bits_in order «data».now) to }
    ensures fault { IfErr result (λ e. IsFault e
        → ((plain settings (bits_in order «data».now)).outcome ≡ Err e) × NoLineInStep settings (bits_in order «data».now) to) }
    ensures not_refused { result ≢ Err DecodeError.Refused }
{
    let mut ctx = DecoderContext::new(alloc, settings)?;
    let Some(place) = in_step_from(order, data, &mut ctx, to) else {
        return Ok(None);
    };
    let mut rows = RowReader::new(alloc, data, order, settings)?;
    'rows: loop {
        let row = rows.rows_read();
        if !rows.next_row()? {
            return Ok(None);
        }
        if rows.line_start() == place {
            return Ok(Some(row));
        }
    }
}
