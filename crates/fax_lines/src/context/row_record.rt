//! What a context keeps of the rows so far, which only those who read rows change.

ghost use Rattle.std.specs.Prelude.{◌≡◌};
ghost use Rattle.fax_lines.specs.RowRecords.{no_rows, record_of, with_record};

use crate::context::DecoderContext;
use fax_bits::DecodeError;

/// The rows so far: how many there are, what was wrong with them, and whether EOLs are sought after them.
#[derive(Copy, Clone)]
pub struct RowRecord {
    pub decoded_rows: u64,
    pub damaged_rows: u64,
    /// The fault of the last row that was repaired; it means nothing before the first.
    pub last_fault: DecodeError,
    /// The number of rows decoded with the last one that was repaired.
    pub last_damaged: u64,
    pub cut_rows: u64,
    pub missed_eols: u64,
    pub has_eols: bool,
    pub fault_start: Option<usize>,
}

impl RowRecord {
    /// Creates the record of no rows.
    pub(crate) fn new() -> RowRecord
        ensures { result ≡ no_rows }
    {
        RowRecord {
            decoded_rows: 0,
            damaged_rows: 0,
            last_fault: DecodeError::UnexpectedEof,
            last_damaged: 0,
            cut_rows: 0,
            missed_eols: 0,
            has_eols: false,
            fault_start: None,
        }
    }
}

/// Returns the record of the rows so far.
#[inline(always)]
pub fn row_record(ctx: &DecoderContext) -> RowRecord
    ensures { result ≡ record_of ctx.now.held }
{
    ctx.rows
}

/// Sets the record of the rows so far.
#[inline(always)]
pub fn set_row_record(ctx: &mut DecoderContext, rows: RowRecord)
    ensures frame { ctx.new ≡ record ctx.old { held = with_record ctx.old.held rows } }
{
    ctx.rows = rows;
}
