//! What C gets of a decoding.

ghost use Rattle.std.specs.Prelude.{◌≡◌, ◌≢◌, ◌≤◌, ◌<◌, ℕ, List, take, true, get_or, []};
ghost use Rattle.hayro_ccitt.specs.Rows.{changes};
ghost use Rattle.hayro_ccitt.specs.Answers.{meaning_after};
ghost use Rattle.hayro_ccitt.specs.Bits.{BitsFit, bits_in};
ghost use Rattle.hayro_ccitt.specs.PlainReading.{plain};
ghost use Rattle.c_rows.specs.Reports.{IsReport, TellsDamage, outcome_of, status_of};
ghost use Rattle.c_rows.specs.Reports.{bytes_read_of};
ghost use Rattle.c_rows.specs.declared.status.TheConstants.{REFUSED, NOT_TAKEN};

use crate::status;
use hayro_ccitt::bit_reader::BitOrder;
use hayro_ccitt::{DecodeError, DecodeSettings, Decoder, DecoderContext, Result, decode_in};
use std::alloc::Global;

/// What a call fills in for C.
#[repr(C)]
#[derive(Copy, Clone)]
pub struct Outcome {
    /// The number of rows that were accepted.
    pub rows: u64,
    /// The number of their changes.
    pub changes: u64,
    /// The number of bytes consumed if the status is `OK`, else 0.
    pub bytes_read: u64,
    /// The number of rows that were damaged and repaired.
    pub damaged_rows: u64,
    /// The offset of the fault in bits if the status is `UNEXPECTED_EOF` to `REFUSED`, else 0.
    pub fault_start: u64,
    /// The number of rows after which the EOL was missed.
    pub missed_eols: u64,
    /// The number of rows in which a run was cut at the row's end.
    pub cut_rows: u64,
}

/// How a decoding ended.
#[derive(Copy, Clone)]
pub struct Report {
    /// The result of the call.
    pub status: u32,
    /// The number of rows that the sink accepted.
    pub rows: u64,
    /// The number of bytes consumed if the status is `OK`, else 0.
    pub bytes_read: u64,
    /// The number of rows that were damaged and repaired.
    pub damaged_rows: u64,
    /// The offset of the fault in bits if the status is `UNEXPECTED_EOF` to `REFUSED`, else 0.
    pub fault_start: u64,
    /// The number of rows after which the EOL was missed.
    pub missed_eols: u64,
    /// The number of rows in which a run was cut at the row's end.
    pub cut_rows: u64,
}

/// Returns the status of data that is too long or settings that are invalid, and sets all of `outcome` to zeros.
pub fn untaken(outcome: &mut Outcome) -> u32
    ensures status { result ≡ NOT_TAKEN }
    ensures outcome { outcome.new ≡ outcome_of 0 0 0 0 0 0 0 }
{
    *outcome = Outcome {
        rows: 0,
        changes: 0,
        bytes_read: 0,
        damaged_rows: 0,
        fault_start: 0,
        missed_eols: 0,
        cut_rows: 0,
    };
    status::NOT_TAKEN
}

/// Returns the status of a decoding, and sets `outcome` to what it reports and the number of changes.
pub fn reported(report: &Report, changes: u64, outcome: &mut Outcome) -> u32
    ensures status { result ≡ report.now.status }
    ensures outcome { outcome.new
        ≡ outcome_of report.now.rows changes report.now.bytes_read report.now.damaged_rows report.now.fault_start
        report.now.missed_eols report.now.cut_rows }
{
    *outcome = Outcome {
        rows: report.rows,
        changes,
        bytes_read: report.bytes_read,
        damaged_rows: report.damaged_rows,
        fault_start: report.fault_start,
        missed_eols: report.missed_eols,
        cut_rows: report.cut_rows,
    };
    report.status
}

/// Returns the status of a result.
fn status_of(answer: &Result<usize>) -> u32
    ensures { result ≡ status_of answer.now }
{
    match answer {
        Ok(_) => status::OK,
        Err(DecodeError::UnexpectedEof) => status::UNEXPECTED_EOF,
        Err(DecodeError::InvalidCode) => status::INVALID_CODE,
        Err(DecodeError::Overflow) => status::OVERFLOW,
        Err(DecodeError::OutOfMemory) => status::OUT_OF_MEMORY,
        Err(DecodeError::Refused) => status::REFUSED,
    }
}

/// Returns the number of bytes that a result says were consumed.
fn bytes_read_of(answer: &Result<usize>) -> u64
    ensures { result ≡ bytes_read_of answer.now }
{
    match answer {
        Ok(count) => *count as u64,
        Err(_) => 0,
    }
}

/// Decodes into a sink.
pub fn decoded<D: Decoder>(
    alloc: Global,
    data: &[u8],
    order: BitOrder,
    settings: DecodeSettings,
    sink: &mut D,
) -> Report
    requires fit { BitsFit «data».now }
    requires width { settings.columns ≤ D.width sink.old }
    ensures report { IsReport settings (bits_in order «data».now) result.status result.rows result.bytes_read result.fault_start }
    ensures damage { TellsDamage settings (bits_in order «data».now) result.rows result.damaged_rows result.missed_eols
        result.cut_rows }
    ensures meaning { D.meaning sink.new ≡ meaning_after (D.step (D.width sink.old)) (D.meaning sink.old)
        (take result.rows (plain settings (bits_in order «data».now)).rows) }
    ensures width { D.width sink.new ≡ D.width sink.old }
    ensures flag { result.status ≡ REFUSED → D.has_refused sink.new ≡ true }
    ensures refused_row { result.status ≡ REFUSED → D.refuses sink.new
        (changes (get_or (plain settings (bits_in order «data».now)).rows result.rows [])) }
{
    let Ok(mut ctx) = DecoderContext::new(alloc, settings) else {
        return Report {
            status: status::OUT_OF_MEMORY,
            rows: 0,
            bytes_read: 0,
            damaged_rows: 0,
            fault_start: 0,
            missed_eols: 0,
            cut_rows: 0,
        };
    };
    let answer = decode_in(order, data, sink, &mut ctx);
    Report {
        status: status_of(&answer),
        rows: ctx.decoded_rows(),
        bytes_read: bytes_read_of(&answer),
        damaged_rows: ctx.damaged_rows(),
        fault_start: ctx.fault_start().unwrap_or(0) as u64,
        missed_eols: ctx.missed_eols(),
        cut_rows: ctx.cut_rows(),
    }
}
