//! A strip that C writes, one row at a time.

ghost use Rattle.std.specs.Prelude.{◌≡◌, ◌≢◌, ◌<◌, ◌≤◌, ◌⊎◌, length, take};
ghost use Rattle.hayro_ccitt.specs.Bits.{bits_of};
ghost use Rattle.hayro_ccitt.specs.Rows.{AreChanges, pixels};
ghost use Rattle.c_rows.specs.Packing.{bytes_of_row, row_read};
ghost use Rattle.c_rows.specs.RowsTaken.{Finishes, IfFinished, IsGiven, TakesRow, status_of_adding, strip_reported};
ghost use Rattle.c_rows.specs.declared.status.TheConstants.{OK, REFUSED};

use crate::encoding::EncodeOutcome;
use crate::status;
use fax_encode::{EncodeError, Encoder};
use std::mem;

/// The bytes of a picture, and the number of its rows.
#[derive(Drop)]
pub struct Finished {
    pub bytes: Vec<u8>,
    pub rows: u64,
}

impl Finished {
    /// Writes the bytes if there is room for them, and returns the status.
    fn give(&self, data: &mut [u8], outcome: &mut EncodeOutcome) -> u32
        ensures statuses { (result ≡ OK) ⊎ (result ≡ REFUSED) }
        ensures given { result ≡ OK → IsGiven self.now.bytes.items «data».old «data».new }
        ensures refused { result ≡ REFUSED → length «data».new < length self.now.bytes.items }
        ensures unwritten { result ≢ OK → «data».new ≡ «data».old }
        ensures reported { outcome.new ≡ record { rows = self.now.rows; bytes = length self.now.bytes.items } }
    {
        let count = self.bytes.len();
        *outcome = EncodeOutcome {
            rows: self.rows,
            bytes: count as u64,
        };
        if count > data.len() {
            return status::REFUSED;
        }
        data[..count].copy_from_slice(self.bytes.as_slice());
        status::OK
    }
}

/// What a handle owns: the rows so far, or the picture once it is finished.
#[derive(Drop)]
pub enum Strip {
    /// Rows may be added.
    Rows(Encoder),
    /// The picture.
    Whole(Finished),
    /// An allocation failed when the picture was finished.
    OutOfMemory,
}

/// Returns the status of adding a row.
fn status_of_adding(answer: Result<(), EncodeError>) -> u32
    ensures { result ≡ status_of_adding answer }
{
    match answer {
        Ok(()) => status::OK,
        Err(EncodeError::OutOfMemory) => status::OUT_OF_MEMORY,
        Err(_) => status::NOT_TAKEN,
    }
}

impl Strip {
    /// Adds a row, given by its changes, and returns the status.
    pub fn add_changes(&mut self, changes: &[u32]) -> u32
        ensures { TakesRow self.old self.new (λ columns. AreChanges columns changes.now)
            (λ columns. pixels columns changes.now) result }
    {
        match self {
            Strip::Rows(encoder) => status_of_adding(encoder.push_changes(changes)),
            Strip::Whole(_) => status::NOT_TAKEN,
            Strip::OutOfMemory => status::OUT_OF_MEMORY,
        }
    }

    /// Adds a row of packed pixels, with 0 for black if it says so, and returns the status.
    pub fn add_packed(&mut self, row: &[u8], black_is_0: bool) -> u32
        ensures { TakesRow self.old self.new (λ columns. bytes_of_row columns ≤ length row.now)
            (λ columns. row_read black_is_0 columns (bits_of row.now)) result }
    {
        match self {
            Strip::Rows(encoder) => {
                if black_is_0 {
                    status_of_adding(encoder.push_row_by_polarity(row, true))
                } else {
                    status_of_adding(encoder.push_packed_row(row))
                }
            }
            Strip::Whole(_) => status::NOT_TAKEN,
            Strip::OutOfMemory => status::OUT_OF_MEMORY,
        }
    }

    /// Finishes the picture, unless it is, and returns the status.
    fn finish(&mut self) -> u32
        ensures { Finishes self.old self.new result }
    {
        if let Strip::Rows(encoder) = self {
            if encoder.needs_row() {
                return status::NOT_TAKEN;
            }
        }
        match mem::replace(self, Strip::OutOfMemory) {
            Strip::Rows(encoder) => {
                let rows = encoder.rows() as u64;
                match encoder.finish() {
                    Ok(bytes) => {
                        *self = Strip::Whole(Finished { bytes, rows });
                        status::OK
                    }
                    Err(_) => status::OUT_OF_MEMORY,
                }
            }
            Strip::Whole(finished) => {
                *self = Strip::Whole(finished);
                status::OK
            }
            Strip::OutOfMemory => status::OUT_OF_MEMORY,
        }
    }

    /// Finishes the picture, unless it is, writes its bytes if there is room for them, and returns the status.
    pub fn give_bytes(&mut self, data: &mut [u8], outcome: &mut EncodeOutcome) -> u32
        ensures finishes { Finishes self.old self.new result }
        ensures given { result ≡ OK → IfFinished self.new (λ bytes. IsGiven bytes «data».old «data».new) }
        ensures refused { result ≡ REFUSED → IfFinished self.new (λ bytes. length «data».new < length bytes) }
        ensures unwritten { result ≢ OK → «data».new ≡ «data».old }
        ensures reported { outcome.new ≡ strip_reported self.new }
    {
        *outcome = EncodeOutcome { rows: 0, bytes: 0 };
        let status = self.finish();
        match self {
            Strip::Whole(finished) => finished.give(data, outcome),
            _ => status,
        }
    }
}
