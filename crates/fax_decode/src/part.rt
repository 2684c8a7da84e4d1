//! The rows of a part.

ghost use Rattle.std.specs.Prelude.{◌≡◌, false, Err, IfSome, IsNone, IsOk};
ghost use Rattle.hayro_ccitt.specs.Answers.{OnAnswer};
ghost use Rattle.hayro_ccitt.specs.Bits.{BitsFit, bits_in};
ghost use Rattle.hayro_ccitt.specs.Laws.{strictly};
ghost use Rattle.hayro_ccitt.specs.PlainReading.{plain};
ghost use Rattle.fax_decode.specs.Parts.{FailsAs, FailsStrictly, HasReading};

use fax_encode::BitmapSink;
use fax_encode::laws::rows_are_packed;
use hayro_ccitt::bit_reader::BitOrder;
use hayro_ccitt::laws::strict_then_lenient;
use hayro_ccitt::{DecodeError, DecodeSettings, DecoderContext, decode_in};
use std::alloc::Global;

/// The rows of a part, and how its reading ended.
#[derive(Drop)]
pub struct PartRows {
    /// The rows: one bit a pixel, 1 for black, the leftmost pixel in each byte's highest bit, and zeros after each row up to a whole byte.
    pub bytes: Vec<u8>,
    /// How many rows there are.
    pub rows: u64,
    /// How many bytes were read, or why the reading ended.
    pub end: hayro_ccitt::Result<usize>,
    /// Where the line begins that can't be read, or where an EOL is missing, in bits.
    pub fault_start: Option<usize>,
    /// How many rows were repaired, how many have a run that was cut, and after how many an EOL is missing.
    pub damage: Counts,
}

/// How many rows are damaged, by kind.
#[derive(Clone, Copy, Debug, PartialEq, Eq)]
pub struct Counts {
    /// Rows whose line was damaged, and repaired.
    pub repaired: u64,
    /// Rows in which a run was cut.
    pub cut: u64,
    /// EOLs that are missing.
    pub missed: u64,
}

/// Where a strict reading fails.
#[derive(Clone, Copy, Debug, PartialEq, Eq)]
pub struct Fault {
    /// How many rows of the part come before.
    pub row: u64,
    /// The offset in bits of the part's data.
    pub bit: usize,
    /// Why.
    pub why: DecodeError,
}

/// A part that was decoded.
#[derive(Drop)]
pub struct DecodedPart {
    /// Its rows.
    pub rows: PartRows,
    /// Where a strict reading fails, if it does.
    pub fault: Option<Fault>,
}

/// Reads the rows of a part by its settings, with each byte's bits in this order.
pub(crate) fn read_rows(
    alloc: Global,
    data: &[u8],
    order: BitOrder,
    settings: DecodeSettings,
) -> PartRows
    requires fit { BitsFit «data».now }
    ensures reading { OnAnswer result.end (HasReading settings.columns (plain settings (bits_in order «data».now)) result) }
{
    rows_are_packed();
    let mut sink = BitmapSink::new(alloc, settings.columns);
    let mut ctx = match DecoderContext::new(alloc, settings) {
        Ok(ctx) => ctx,
        Err(error) => return without_rows(alloc, Err(error)),
    };
    let end = decode_in(order, data, &mut sink, &mut ctx);
    PartRows {
        rows: ctx.decoded_rows(),
        fault_start: ctx.fault_start(),
        damage: Counts {
            repaired: ctx.damaged_rows(),
            cut: ctx.cut_rows(),
            missed: ctx.missed_eols(),
        },
        bytes: sink.into_bytes(),
        end,
    }
}

/// Returns no rows, whose reading ended so.
pub(crate) fn without_rows(alloc: Global, end: hayro_ccitt::Result<usize>) -> PartRows
    ensures { result.end ≡ end }
{
    PartRows {
        bytes: Vec::new(alloc),
        rows: 0,
        end,
        fault_start: None,
        damage: Counts {
            repaired: 0,
            cut: 0,
            missed: 0,
        },
    }
}

/// Returns where a reading failed, `None` if it ended without a fault or for want of memory.
pub(crate) fn fault_of(rows: &PartRows) -> Option<Fault>
    ensures none { IsNone result → OnAnswer rows.now.end (IsOk rows.now.end) }
    ensures some { IfSome result (λ fault. FailsAs rows.now fault) }
{
    match rows.end {
        Ok(_) | Err(DecodeError::OutOfMemory | DecodeError::Refused) => None,
        Err(why) => Some(Fault {
            row: rows.rows,
            bit: rows.fault_start.unwrap_or(0),
            why,
        }),
    }
}

/// Decodes a part whose settings are lenient, with each byte's bits in this order: strictly at first, and leniently if that fails. Where
/// its end is `OutOfMemory` or `Refused`, an allocation failed, and rows are missing.
pub fn decode_part(
    alloc: Global,
    data: &[u8],
    order: BitOrder,
    settings: DecodeSettings,
) -> DecodedPart
    requires fit { BitsFit «data».now }
    requires lenient { settings.strict ≡ false }
    ensures rows { OnAnswer result.rows.end (HasReading settings.columns (plain settings (bits_in order «data».now)) result.rows) }
    ensures fault { IfSome result.fault (λ fault. FailsStrictly settings (bits_in order «data».now) fault) }
    ensures no_fault { OnAnswer result.rows.end (IsNone result.fault
        → IsOk (plain (strictly settings) (bits_in order «data».now)).outcome) }
{
    strict_then_lenient();
    let strictly = DecodeSettings {
        strict: true,
        ..settings
    };
    let strict = read_rows(alloc, data, order, strictly);
    let Some(fault) = fault_of(&strict) else {
        return DecodedPart {
            rows: strict,
            fault: None,
        };
    };
    DecodedPart {
        rows: read_rows(alloc, data, order, settings),
        fault: Some(fault),
    }
}
