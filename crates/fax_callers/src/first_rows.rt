//! The first rows of an image.

ghost use Rattle.std.specs.Prelude.{◌≡◌, ◌<◌, ◌≤◌, ◌≢◌, length, min, true, false};
ghost use Rattle.hayro_ccitt.specs.Answers.{OnAnswer};
ghost use Rattle.hayro_ccitt.specs.Bits.{BitsFit, bits_in};
ghost use Rattle.hayro_ccitt.specs.Rows.{changes};
ghost use Rattle.fax_callers.specs.FirstRows.{AcceptsFirst, ReadsAll, RefusesNext, TellsIfEnough};
ghost use Rattle.fax_callers.specs.Readings.{reading_of};

use hayro_ccitt::bit_reader::BitOrder;
use hayro_ccitt::{DecodeError, Decoder, DecoderContext, Result, decode_in};

/// A sink that passes the first rows on to another one, up to a number of rows, and refuses the next, so that decoding ends
/// there.
#[derive(Drop)]
pub struct FirstRows<D> {
    /// The sink that the rows are passed to.
    pub sink: D,
    /// How many rows were passed on.
    pub rows: u64,
    /// The most rows that are passed on.
    pub most: u64,
    has_refused: bool,
    ghost within: { rows ≤ most },
    ghost full: { has_refused ≡ true → rows ≡ most },
}

impl<D> FirstRows<D> {
    /// Creates a sink that passes the first `most` rows on to `sink`.
    pub fn new(sink: D, most: u64) -> FirstRows<D>
        ensures sink { result.sink ≡ sink }
        ensures rows { result.rows ≡ 0 }
        ensures most { result.most ≡ most }
        ensures has_refused { result.has_refused ≡ false }
    {
        FirstRows {
            sink,
            rows: 0,
            most,
            has_refused: false,
        }
    }
}

impl<D: Decoder> Decoder for FirstRows<D> {
    ghost use Rattle.std.specs.Prelude.{◌≡◌, ◌+◌, ◌||◌, ◌⊎◌};
    ghost use Rattle.fax_callers.specs.FirstRows.{Firsts};

    ghost Meaning = { Firsts D.Meaning };

    ghost meaning = { λ first. record { meaning = D.meaning first.sink; rows = first.rows; most = first.most } };

    ghost step = { λ width before row. record { meaning = D.step width before.meaning row; rows = before.rows + 1; most = before.most } };

    ghost width = { λ first. D.width first.sink };

    ghost has_refused = { λ first. first.has_refused || D.has_refused first.sink };

    ghost refuses = { λ first row. (first.rows ≡ first.most) ⊎ D.refuses first.sink row };

    fn push_row(&mut self, changes: &[u32]) -> Result<()> {
        if self.rows == self.most {
            self.has_refused = true;
            return Err(DecodeError::Refused);
        }
        self.sink.push_row(changes)?;
        self.rows += 1;
        Ok(())
    }
}

/// Decodes into a sink of first rows that has received none, up to the row that it refuses.
fn take_first<D: Decoder>(
    order: BitOrder,
    data: &[u8],
    first: &mut FirstRows<D>,
    ctx: &mut DecoderContext,
) -> Result<usize>
    requires fit { BitsFit «data».now }
    requires width { ctx.old.held.settings.columns ≤ D.width first.old.sink }
    requires begun { first.old.rows ≡ 0 }
    ensures accepts { AcceptsFirst ctx.old.held.settings (bits_in order «data».now) (D.step (D.width first.old.sink))
        (D.meaning first.old.sink) (D.meaning first.new.sink) first.new.rows result }
    ensures reads { ReadsAll (reading_of ctx.old.held.settings order «data».now) first.new.rows result }
    ensures most { first.new.most ≡ first.old.most }
    ensures refused { result ≡ Err DecodeError.Refused → first.new.rows ≢ first.new.most
        → RefusesNext (reading_of ctx.old.held.settings order «data».now).rows first.new.rows
        (D.has_refused first.new.sink) (D.refuses first.new.sink) }
    ensures settings { ctx.new.held.settings ≡ ctx.old.held.settings }
{
    decode_in(order, data, first, ctx)
}

/// Decodes the first rows of an image, as for a thumbnail, and returns whether it has as many as asked for. At most one further
/// row is read; what follows the rows asked for doesn't matter, not even a fault.
///
/// # Errors
///
/// Those of [`decode`], if they occur before that many rows are decoded; `Refused` comes only from the sink that the
/// rows are passed to.
///
/// # Example
///
/// In Group 4 with 8 columns the bytes 31 F8 00 80 08 are two rows whose pixels 3 and 4 are black, and EOFB: if one row is
/// asked for, it is decoded and the result is `Ok(true)`; if three are, both are decoded and the result is `Ok(false)`.
pub fn decode_first_rows<D: Decoder>(
    order: BitOrder,
    data: &[u8],
    first: &mut FirstRows<D>,
    ctx: &mut DecoderContext,
) -> Result<bool>
    requires fit { BitsFit «data».now }
    requires width { ctx.old.held.settings.columns ≤ D.width first.old.sink }
    requires begun { first.old.rows ≡ 0 }
    ensures accepts { AcceptsFirst ctx.old.held.settings (bits_in order «data».now) (D.step (D.width first.old.sink))
        (D.meaning first.old.sink) (D.meaning first.new.sink) first.new.rows result }
    ensures count { OnAnswer result (first.new.rows
        ≡ min first.old.most (length (reading_of ctx.old.held.settings order «data».now).rows)) }
    ensures tells { TellsIfEnough (reading_of ctx.old.held.settings order «data».now) first.old.most result }
    ensures refused { result ≡ Err DecodeError.Refused
        → RefusesNext (reading_of ctx.old.held.settings order «data».now).rows first.new.rows
        (D.has_refused first.new.sink) (D.refuses first.new.sink) }
    ensures settings { ctx.new.held.settings ≡ ctx.old.held.settings }
{
    let answer = take_first(order, data, first, ctx);
    if first.rows == first.most {
        return Ok(true);
    }
    match answer {
        Ok(_) => Ok(false),
        Err(error) => Err(error),
    }
}
