//! What C gets of a row.

ghost use Rattle.std.specs.Prelude.{◌≡◌, ◌+◌, ◌/◌, length};
ghost use Rattle.hayro_ccitt.specs.Rows.{changes};
ghost use Rattle.c_rows.specs.RowsGiven.{TellsOf, damage_reported, miss_reported, reported_nothing};

use crate::reading::{Reading, status_of_row};
use hayro_ccitt::DecodeError;

/// What a call fills in that reads a row for C.
#[repr(C)]
#[derive(Copy, Clone)]
pub struct RowOutcome {
    /// The number of rows that were read.
    pub rows: u64,
    /// The number of the changes of the last one.
    pub changes: u64,
    /// The offset in bits at which its line begins.
    pub line_start: u64,
    /// The number of bytes consumed so far, the last one rounded up.
    pub bytes_read: u64,
    /// The number of rows read so far that were damaged and repaired.
    pub damaged_rows: u64,
    /// The status of the fault of the last row if it was damaged and repaired, else 0.
    pub damage: u64,
    /// The number of rows read so far after which the EOL was missed: of the last one it is known after the next call.
    pub missed_eols: u64,
    /// The number of rows read so far in which a run was cut at the row's end.
    pub cut_rows: u64,
    /// 1 if a run of the last row was cut, else 0.
    pub is_cut: u64,
    /// The offset in bits at which the last call missed an EOL, after the row before; 0 if it missed none.
    pub missed_eol: u64,
}

/// Returns an outcome of zeros.
pub fn nothing_reported() -> RowOutcome
    ensures { result ≡ reported_nothing }
{
    RowOutcome {
        rows: 0,
        changes: 0,
        line_start: 0,
        bytes_read: 0,
        damaged_rows: 0,
        damage: 0,
        missed_eols: 0,
        cut_rows: 0,
        is_cut: 0,
        missed_eol: 0,
    }
}

/// Returns the status of the fault of a row that was repaired, 0 for one that was whole.
pub fn damage_reported(damage: Option<DecodeError>) -> u64
    ensures { result ≡ damage_reported damage }
{
    match damage {
        None => 0,
        Some(error) => u64::from(status_of_row(Err(error))),
    }
}

/// Returns the offset of an EOL that was missed, 0 if none was.
pub fn miss_reported(missed: Option<usize>) -> u64
    ensures { result ≡ miss_reported missed }
{
    match missed {
        None => 0,
        Some(place) => place as u64,
    }
}

/// Returns the outcome of a reading.
pub fn reported_of(reading: &Reading) -> RowOutcome
    ensures { TellsOf reading.now.rows result }
{
    RowOutcome {
        rows: reading.rows.rows_read(),
        changes: reading.rows.row().len() as u64,
        line_start: reading.rows.line_start() as u64,
        bytes_read: reading.rows.bytes_read() as u64,
        damaged_rows: reading.rows.damaged_rows(),
        damage: damage_reported(reading.rows.damage()),
        missed_eols: reading.rows.missed_eols(),
        cut_rows: reading.rows.cut_rows(),
        is_cut: u64::from(reading.rows.is_cut()),
        missed_eol: miss_reported(reading.rows.missed_eol()),
    }
}
