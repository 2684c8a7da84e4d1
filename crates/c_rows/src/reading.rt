//! A reading of the rows of an image, one at a time for C.

ghost use Rattle.std.specs.Prelude.{◌≡◌, ◌≢◌, ◌<◌, length, not, false, true, IfOk};
ghost use Rattle.hayro_ccitt.specs.Bits.{BitsFit, bits_in};
ghost use Rattle.hayro_ccitt.specs.Rows.{changes};
ghost use Rattle.c_rows.specs.Packing.{bytes_of_row};
ghost use Rattle.c_rows.specs.RowsGiven.{GivesRow, IsListed, IsOpened, IsPacked, TurnsTo, is_row, status_of_row};
ghost use Rattle.c_rows.specs.declared.status.TheConstants.{OK, REFUSED};

use crate::row_room::{list_over, pack_over};
use crate::status;
use hayro_ccitt::bit_reader::BitOrder;
use hayro_ccitt::{DecodeError, DecodeSettings, Result, RowCursor};
use std::alloc::Global;

/// What a handle owns: a reading, whether its last row is still to be returned, and whether 0 stands for black in packed rows.
#[derive(Drop)]
pub struct Reading {
    pub rows: RowCursor,
    pub is_kept: bool,
    pub black_is_0: bool,
}

/// Returns whether there was a row.
fn is_row(answer: Result<bool>) -> bool
    ensures { result ≡ is_row answer }
{
    match answer {
        Ok(more) => more,
        Err(_) => false,
    }
}

/// Returns the status of a result.
pub fn status_of_row(answer: Result<bool>) -> u32
    ensures status { result ≡ status_of_row answer }
    ensures not_refused { result ≢ REFUSED }
    ensures no_row { is_row answer ≡ false → result ≢ OK }
{
    match answer {
        Ok(true) => status::OK,
        Ok(false) => status::NO_ROW,
        Err(DecodeError::UnexpectedEof) => status::UNEXPECTED_EOF,
        Err(DecodeError::InvalidCode) => status::INVALID_CODE,
        Err(DecodeError::Overflow) => status::OVERFLOW,
        Err(DecodeError::OutOfMemory) => status::OUT_OF_MEMORY,
        // No reading of rows refuses one.
        Err(DecodeError::Refused) => status::NOT_TAKEN,
    }
}

impl Reading {
    /// Creates a reading of data before the first row. Its only error is `OutOfMemory`.
    pub fn new(
        alloc: Global,
        data: &[u8],
        order: BitOrder,
        settings: DecodeSettings,
        black_is_0: bool,
    ) -> Result<Reading>
        requires fit { BitsFit «data».now }
        ensures opened { IfOk result (IsOpened settings (bits_in order «data».now) order black_is_0) }
    {
        let rows = RowCursor::new(alloc, data, order, settings)?;
        Ok(Reading {
            rows,
            is_kept: false,
            black_is_0,
        })
    }

    /// Reads the row that is to be returned next, unless it was read before.
    fn come_to_row(&mut self, data: &[u8]) -> Result<bool>
        requires fit { BitsFit «data».now }
        ensures turns { TurnsTo self.old.is_kept (bits_in self.old.rows.order «data».now) self.old.rows self.new.rows result }
        ensures none_kept { self.new.is_kept ≡ false }
        ensures black { self.new.black_is_0 ≡ self.old.black_is_0 }
    {
        if self.is_kept {
            self.is_kept = false;
            return Ok(true);
        }
        self.rows.next_row(data)
    }

    /// Writes the last row as a list of its changes, or keeps it if there is no room for it. Returns whether there was.
    fn list_row(&mut self, list: &mut [u32]) -> bool
        ensures listed { result ≡ true → IsListed self.old.rows.ctx.held.reference list.old list.new }
        ensures refused { result ≡ false → length list.new < length (changes self.old.rows.ctx.held.reference) }
        ensures unwritten { result ≡ false → list.new ≡ list.old }
        ensures rows { self.new.rows ≡ self.old.rows }
        ensures black { self.new.black_is_0 ≡ self.old.black_is_0 }
        ensures kept { self.new.is_kept ≡ not result }
    {
        let has_room = list_over(list, self.rows.row());
        self.is_kept = !has_room;
        has_room
    }

    /// Writes the last row packed, or keeps it if there is no room for it. Returns whether there was.
    fn pack_row(&mut self, bytes: &mut [u8]) -> bool
        ensures packed { result ≡ true → IsPacked self.old.black_is_0 self.old.rows.ctx.held.settings.columns
            self.old.rows.ctx.held.reference bytes.old bytes.new }
        ensures refused { result ≡ false → length bytes.new < bytes_of_row self.old.rows.ctx.held.settings.columns }
        ensures unwritten { result ≡ false → bytes.new ≡ bytes.old }
        ensures rows { self.new.rows ≡ self.old.rows }
        ensures black { self.new.black_is_0 ≡ self.old.black_is_0 }
        ensures kept { self.new.is_kept ≡ not result }
    {
        let columns = self.rows.settings().columns;
        let has_room = pack_over(bytes, columns, self.rows.row(), self.black_is_0);
        self.is_kept = !has_room;
        has_room
    }

    /// Writes the next row as a list of its changes, and returns the status.
    pub fn list_next(&mut self, data: &[u8], list: &mut [u32]) -> u32
        requires fit { BitsFit «data».now }
        ensures gives { GivesRow «data».now self.old self.new result }
        ensures listed { result ≡ OK → IsListed self.new.rows.ctx.held.reference list.old list.new }
        ensures refused { result ≡ REFUSED → length list.new < length (changes self.new.rows.ctx.held.reference) }
        ensures unwritten { result ≢ OK → list.new ≡ list.old }
    {
        let answer = self.come_to_row(data);
        if !is_row(answer) {
            return status_of_row(answer);
        }
        if self.list_row(list) {
            status::OK
        } else {
            status::REFUSED
        }
    }

    /// Writes the next row packed, and returns the status.
    pub fn pack_next(&mut self, data: &[u8], bytes: &mut [u8]) -> u32
        requires fit { BitsFit «data».now }
        ensures gives { GivesRow «data».now self.old self.new result }
        ensures packed { result ≡ OK → IsPacked self.new.black_is_0 self.new.rows.ctx.held.settings.columns
            self.new.rows.ctx.held.reference bytes.old bytes.new }
        ensures refused { result ≡ REFUSED → length bytes.new < bytes_of_row self.new.rows.ctx.held.settings.columns }
        ensures unwritten { result ≢ OK → bytes.new ≡ bytes.old }
    {
        let answer = self.come_to_row(data);
        if !is_row(answer) {
            return status_of_row(answer);
        }
        if self.pack_row(bytes) {
            status::OK
        } else {
            status::REFUSED
        }
    }
}
