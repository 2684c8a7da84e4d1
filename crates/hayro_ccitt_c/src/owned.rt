//! What a handle for C owns.

ghost use Rattle.std.specs.Prelude.{◌≡◌, ◌≢◌, ◌<◌, ◌≤◌, IfOk, length, take, true};
ghost use Rattle.hayro_ccitt.specs.Bits.{BitsFit, bits_in, bits_of};
ghost use Rattle.hayro_ccitt.specs.Rows.{AreChanges, changes, pixels};
ghost use Rattle.fax_encode.specs.RowByRow.{no_rows};
ghost use Rattle.fax_encode.specs.Settings.{names_encoding};
ghost use Rattle.c_rows.specs.declared.strip.Strip.TheVariants.{Rows};
ghost use Rattle.hayro_ccitt_c.specs.Owned.{IfReading, IfReadings, IfStrip, IfStrips, is_reading, is_strip};
ghost use Rattle.hayro_ccitt_c.specs.Packing.{bytes_of_row, row_read};
ghost use Rattle.hayro_ccitt_c.specs.RowsGiven.{GivesRow, IsListed, IsOpened, IsPacked, TellsOf};
ghost use Rattle.hayro_ccitt_c.specs.RowsTaken.{Finishes, IfFinished, IsGiven, TakesRow, strip_reported};
ghost use Rattle.c_rows.specs.declared.status.TheConstants.{OK, REFUSED};

use c_rows::encoding::EncodeOutcome;
use c_rows::feeding::Feeding;
use c_rows::reading::Reading;
use c_rows::row_outcome::{RowOutcome, reported_of};
use c_rows::status;
use c_rows::strip::Strip;
use fax_encode::{EncodeError, EncodeSettings, Encoder};
use hayro_ccitt::DecodeSettings;
use hayro_ccitt::bit_reader::BitOrder;
use std::alloc::Global;

/// What a handle owns: a reading of rows, a strip to which rows are added, or a reading of rows of data in pieces.
#[derive(Drop)]
pub enum Owned {
    Reading(Reading),
    Strip(Strip),
    Feeding(Feeding),
}

impl Owned {
    /// Creates a reading of data before the first row. Its only error is `OutOfMemory`.
    pub(crate) fn reading(
        alloc: Global,
        data: &[u8],
        order: BitOrder,
        settings: DecodeSettings,
        black_is_0: bool,
    ) -> hayro_ccitt::Result<Box<Owned>>
        requires fit { BitsFit «data».now }
        ensures opened { IfOk result (λ made.
            IfReading made.value (IsOpened settings (bits_in order «data».now) order black_is_0)) }
        ensures kind { IfOk result (λ made. is_reading made.value ≡ true) }
    {
        let reading = Reading::new(alloc, data, order, settings, black_is_0)?;
        let held = Box::new(alloc, Owned::Reading(reading))?;
        Ok(held)
    }

    /// Creates a strip without rows.
    pub(crate) fn strip(
        alloc: Global,
        columns: u32,
        settings: EncodeSettings,
    ) -> Result<Box<Owned>, EncodeError>
        requires names { names_encoding settings ≡ true }
        ensures opened { IfOk result (λ made. IfStrip made.value (λ strip. strip ≡ Rows (no_rows settings columns))) }
        ensures kind { IfOk result (λ made. is_strip made.value ≡ true) }
    {
        let encoder = Encoder::new(alloc, columns, settings)?;
        let held = Box::new(alloc, Owned::Strip(Strip::Rows(encoder)))?;
        Ok(held)
    }

    /// Writes the next row of a reading as a list of its changes, and returns the status.
    pub(crate) fn list_next(
        &mut self,
        data: &[u8],
        list: &mut [u32],
        outcome: &mut RowOutcome,
    ) -> u32
        requires fit { BitsFit «data».now }
        requires reads { is_reading self.old ≡ true }
        ensures gives { IfReadings self.old self.new (λ old new. GivesRow «data».now old new result) }
        ensures listed { result ≡ OK → IfReading self.new (λ reading.
            IsListed reading.rows.ctx.held.reference list.old list.new) }
        ensures refused { result ≡ REFUSED → IfReading self.new (λ reading.
            length list.new < length (changes reading.rows.ctx.held.reference)) }
        ensures unwritten { result ≢ OK → list.new ≡ list.old }
        ensures reported { IfReading self.new (λ reading. TellsOf reading.rows outcome.new) }
        ensures reads { is_reading self.new ≡ true }
    {
        match self {
            Owned::Reading(reading) => {
                let status = reading.list_next(data, list);
                *outcome = reported_of(reading);
                status
            }
            Owned::Strip(_) | Owned::Feeding(_) => status::NOT_TAKEN,
        }
    }

    /// Writes the next row of a reading packed, and returns the status.
    pub(crate) fn pack_next(
        &mut self,
        data: &[u8],
        bytes: &mut [u8],
        outcome: &mut RowOutcome,
    ) -> u32
        requires fit { BitsFit «data».now }
        requires reads { is_reading self.old ≡ true }
        ensures gives { IfReadings self.old self.new (λ old new. GivesRow «data».now old new result) }
        ensures packed { result ≡ OK → IfReading self.new (λ reading.
            IsPacked reading.black_is_0 reading.rows.ctx.held.settings.columns reading.rows.ctx.held.reference bytes.old bytes.new) }
        ensures refused { result ≡ REFUSED → IfReading self.new (λ reading.
            length bytes.new < bytes_of_row reading.rows.ctx.held.settings.columns) }
        ensures unwritten { result ≢ OK → bytes.new ≡ bytes.old }
        ensures reported { IfReading self.new (λ reading. TellsOf reading.rows outcome.new) }
        ensures reads { is_reading self.new ≡ true }
    {
        match self {
            Owned::Reading(reading) => {
                let status = reading.pack_next(data, bytes);
                *outcome = reported_of(reading);
                status
            }
            Owned::Strip(_) | Owned::Feeding(_) => status::NOT_TAKEN,
        }
    }

    /// Adds a row to a strip, given by its changes, and returns the status.
    pub(crate) fn add_changes(&mut self, changes: &[u32]) -> u32
        requires strip { is_strip self.old ≡ true }
        ensures takes { IfStrips self.old self.new (λ old new. TakesRow old new
            (λ columns. AreChanges columns changes.now) (λ columns. pixels columns changes.now) result) }
        ensures strip { is_strip self.new ≡ true }
    {
        match self {
            Owned::Strip(strip) => strip.add_changes(changes),
            Owned::Reading(_) | Owned::Feeding(_) => status::NOT_TAKEN,
        }
    }

    /// Adds a row of packed pixels to a strip, with 0 for black if it says so, and returns the status.
    pub(crate) fn add_packed(&mut self, row: &[u8], black_is_0: bool) -> u32
        requires strip { is_strip self.old ≡ true }
        ensures takes { IfStrips self.old self.new (λ old new. TakesRow old new
            (λ columns. bytes_of_row columns ≤ length row.now)
            (λ columns. row_read black_is_0 columns (bits_of row.now)) result) }
        ensures strip { is_strip self.new ≡ true }
    {
        match self {
            Owned::Strip(strip) => strip.add_packed(row, black_is_0),
            Owned::Reading(_) | Owned::Feeding(_) => status::NOT_TAKEN,
        }
    }

    /// Finishes a strip, unless it is, writes its bytes if there is room for them, and returns the status.
    pub(crate) fn give_bytes(&mut self, data: &mut [u8], outcome: &mut EncodeOutcome) -> u32
        requires strip { is_strip self.old ≡ true }
        ensures finishes { IfStrips self.old self.new (λ old new. Finishes old new result) }
        ensures given { result ≡ OK → IfStrip self.new (λ strip.
            IfFinished strip (λ bytes. IsGiven bytes «data».old «data».new)) }
        ensures refused { result ≡ REFUSED → IfStrip self.new (λ strip.
            IfFinished strip (λ bytes. length «data».new < length bytes)) }
        ensures unwritten { result ≢ OK → «data».new ≡ «data».old }
        ensures reported { IfStrip self.new (λ strip. outcome.new ≡ strip_reported strip) }
        ensures strip { is_strip self.new ≡ true }
    {
        match self {
            Owned::Strip(strip) => strip.give_bytes(data, outcome),
            Owned::Reading(_) | Owned::Feeding(_) => status::NOT_TAKEN,
        }
    }
}
