//! Which rows of a part are damaged.

ghost use Rattle.hayro_ccitt.specs.Bits.{BitsFit};

use crate::damage::Damage;
use hayro_ccitt::bit_reader::BitOrder;
use hayro_ccitt::{DecodeError, DecodeSettings, RowReader};
use std::alloc::{AllocError, Global};

/// Adds the rows of a part that a lenient reading repairs, in which it cuts a run, or after which it misses an EOL. The part begins at a
/// row of its page.
pub(crate) fn list_damage(
    alloc: Global,
    data: &[u8],
    order: BitOrder,
    settings: DecodeSettings,
    top: u32,
    damage: &mut Damage,
) -> Result<(), AllocError>
    requires fit { BitsFit «data».now }
{
    let Ok(mut rows) = RowReader::new(alloc, data, order, settings) else {
        return Err(AllocError);
    };
    let mut missed = 0;
    for _ in 0..u64::MAX {
        let is_row = read_row(&mut rows)?;
        let next = u64::from(top).saturating_add(rows.rows_read());
        if rows.missed_eols() > missed {
            let before = if is_row { 2 } else { 1 };
            damage.missed.add(next.saturating_sub(before), 1)?;
        }
        missed = rows.missed_eols();
        if !is_row {
            break;
        }
        note_row(&rows, next.saturating_sub(1), damage)?;
    }
    Ok(())
}

/// Reads the next row, and returns whether there is one.
fn read_row(rows: &mut RowReader<'_>) -> Result<bool, AllocError> {
    match rows.next_row() {
        Ok(is_row) => Ok(is_row),
        Err(DecodeError::OutOfMemory) => Err(AllocError),
        Err(_) => Ok(false),
    }
}

/// Adds the last row that was read, if it is repaired, or a run was cut in it.
fn note_row(rows: &RowReader<'_>, row: u64, damage: &mut Damage) -> Result<(), AllocError> {
    if rows.damage().is_some() {
        damage.repaired.add(row, 1)?;
    }
    if rows.is_cut() {
        damage.cut.add(row, 1)?;
    }
    Ok(())
}
