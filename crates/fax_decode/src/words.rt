//! Rows that each begin at a multiple of 16 bits, as by TIFF's Compression 32771.

ghost use Rattle.std.specs.Prelude.{◌≡◌};
ghost use Rattle.hayro_ccitt.specs.Bits.{BitsFit};

use crate::part::{Counts, DecodedPart, PartRows, fault_of, read_rows, without_rows};
use hayro_ccitt::bit_reader::BitOrder;
use hayro_ccitt::{DecodeError, DecodeSettings, RowReader};
use std::alloc::Global;

/// Decodes a part each of whose rows begins at a multiple of 16 bits: strictly at first, and leniently if that fails. Each row is read
/// alone, as one that begins at a byte: the zeros between two rows may look like an EOL.
pub(crate) fn decode_words(
    alloc: Global,
    data: &[u8],
    order: BitOrder,
    settings: DecodeSettings,
) -> DecodedPart
    requires fit { BitsFit «data».now }
{
    let strictly = DecodeSettings {
        strict: true,
        ..settings
    };
    let strict = read_words(alloc, data, order, strictly);
    let Some(fault) = fault_of(&strict) else {
        return DecodedPart {
            rows: strict,
            fault: None,
        };
    };
    DecodedPart {
        rows: read_words(alloc, data, order, settings),
        fault: Some(fault),
    }
}

/// Reads rows up to the number of the settings, the end of the data or a fault, each at a multiple of 16 bits.
fn read_words(alloc: Global, data: &[u8], order: BitOrder, settings: DecodeSettings) -> PartRows
    requires fit { BitsFit «data».now }
{
    let one_row = DecodeSettings {
        rows: 1,
        ..settings
    };
    let mut made = without_rows(alloc, Ok(0));
    let mut at = 0;
    while made.rows < u64::from(settings.rows) && at < data.len() {
        let row = read_rows(alloc, &data[at..], order, one_row);
        made.fault_start = Some(8 * at);
        if let Err(error) = row.end {
            made.end = Err(error);
            break;
        }
        if row.rows != 1 {
            break;
        }
        let bytes = match bytes_of_first_row(alloc, &data[at..], order, one_row) {
            Ok(bytes) => bytes,
            Err(error) => {
                made.end = Err(error);
                break;
            }
        };
        if !add_bytes(&mut made, &row) {
            break;
        }
        made.rows += 1;
        made.damage = with_counts(made.damage, row.damage);
        let end = at.saturating_add(bytes);
        made.end = Ok(end);
        at = end.saturating_add(end % 2);
    }
    made
}

/// Returns how many bytes the first row of data has, without what follows it: zeros before the next row may look like an EOL.
fn bytes_of_first_row(
    alloc: Global,
    data: &[u8],
    order: BitOrder,
    settings: DecodeSettings,
) -> hayro_ccitt::Result<usize>
    requires fit { BitsFit «data».now }
{
    let mut rows = RowReader::new(alloc, data, order, settings)?;
    rows.next_row()?;
    Ok(rows.bytes_read())
}

/// Adds the bytes of a row, and returns whether there was memory for them.
fn add_bytes(made: &mut PartRows, row: &PartRows) -> bool
    ensures rows { made.new.rows ≡ made.old.rows }
{
    if made.bytes.extend_from_slice(row.bytes.as_slice()).is_err() {
        made.end = Err(DecodeError::OutOfMemory);
        return false;
    }
    true
}

/// Returns the damage of rows and of others after them.
fn with_counts(before: Counts, after: Counts) -> Counts {
    Counts {
        repaired: before.repaired.saturating_add(after.repaired),
        cut: before.cut.saturating_add(after.cut),
        missed: before.missed.saturating_add(after.missed),
    }
}
