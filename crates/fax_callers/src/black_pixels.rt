//! Counting black pixels.

ghost use Rattle.std.specs.Prelude.{◌≡◌, ◌≢◌, ◌+◌, ℕ, List, IfOk};
ghost use Rattle.hayro_ccitt.specs.Answers.{OnAnswer};
ghost use Rattle.hayro_ccitt.specs.Bits.{BitsFit, bits_in};
ghost use Rattle.hayro_ccitt.specs.Pictures.{IsClosedPicture, IsLimitedPicture};
ghost use Rattle.hayro_ccitt.specs.Rows.{Row, AreChanges, pixels};
ghost use Rattle.fax_callers.specs.Counting.{black_in_row, black_in, in_64_bits};
ghost use Rattle.fax_callers.specs.Readings.{reading_of, EndsAs};

use crate::once::decode_once;
use hayro_ccitt::bit_reader::BitOrder;
use hayro_ccitt::laws::steps_on_rows;
use hayro_ccitt::{DecodeError, DecodeSettings, Decoder, Result};
use std::alloc::Global;
use std::marker::Model;

/// A sink that counts black pixels and keeps nothing else. The count saturates at 2^64 - 1. It refuses no row.
#[derive(Drop)]
pub struct BlackPixels {
    columns: u32,
    black: u64,
}

impl Model for BlackPixels {
    ghost use Rattle.fax_callers.specs.Counting.{Tally};

    ghost Value = { Tally };

    ghost view = { λ sink. record { columns = sink.columns; black = sink.black } };
}

impl BlackPixels {
    /// Creates a sink for rows of `columns` pixels. Nothing is counted yet.
    pub fn new(columns: u32) -> BlackPixels
        ensures { result ≡ record { columns = columns; black = 0 } }
    {
        BlackPixels { columns, black: 0 }
    }

    /// Returns the number of black pixels of the rows so far.
    pub fn black(&self) -> u64
        ensures { result ≡ self.now.black }
    {
        self.black
    }
}

impl Decoder for BlackPixels {
    ghost use Rattle.std.specs.Prelude.{ℕ, ◌+◌, false};
    ghost use Rattle.hayro_ccitt.specs.Rows.{pixels};
    ghost use Rattle.fax_callers.specs.Counting.{black_in_row, in_64_bits};

    ghost Meaning = { ℕ };

    ghost meaning = { λ sink. sink.black };

    ghost step = { λ width black row. in_64_bits (black + black_in_row (pixels width row)) };

    ghost width = { λ sink. sink.columns };

    ghost has_refused = { λ _. false };

    fn push_row(&mut self, changes: &[u32]) -> Result<()> {
        self.black = self
            .black
            .saturating_add(black_in_row(self.columns, changes));
        Ok(())
    }
}

/// Returns the number of black pixels of a row: those between an even change and the next one, or the row's end.
fn black_in_row(columns: u32, changes: &[u32]) -> u64
    requires { AreChanges columns changes.now }
    ensures { result ≡ black_in_row (pixels columns changes.now) }
{
    let mut black = 0u32;
    let mut start = 0;
    let mut is_black = false;
    for change in changes {
        if is_black {
            black += *change - start;
        }
        start = *change;
        is_black = !is_black;
    }
    if is_black {
        black += columns - start;
    }
    u64::from(black)
}

/// Returns the number of black pixels of an image, saturated at 2^64 - 1.
///
/// # Errors
///
/// `UnexpectedEof`, `InvalidCode` and `Overflow` if the data is invalid, and `OutOfMemory` if an allocation fails.
///
/// # Example
///
/// In Group 4 with 8 columns the bytes 31 C0 04 00 40 are a row whose pixels 3 and 4 are black, and EOFB: the result is
/// `Ok(2)`.
pub fn count_black(
    alloc: Global,
    settings: DecodeSettings,
    order: BitOrder,
    data: &[u8],
) -> Result<u64>
    requires fit { BitsFit «data».now }
    ensures counted { IfOk result (λ n. n ≡ in_64_bits (black_in (reading_of settings order «data».now).rows)) }
    ensures ended { EndsAs result (reading_of settings order «data».now).outcome }
    ensures never_refused { result ≢ Err DecodeError.Refused }
    ensures closed { (rows : List Row) (count : ℕ) → IsClosedPicture settings rows count (bits_in order «data».now)
        → OnAnswer result (result ≡ Ok (in_64_bits (black_in rows))) }
    ensures limited { (rows : List Row) → IsLimitedPicture settings rows (bits_in order «data».now)
        → OnAnswer result (result ≡ Ok (in_64_bits (black_in rows))) }
{
    steps_on_rows::<BlackPixels>();
    let mut sink = BlackPixels::new(settings.columns);
    decode_once(alloc, settings, order, data, &mut sink)?;
    Ok(sink.black())
}
