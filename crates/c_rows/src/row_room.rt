//! Rows over the front of the caller's memory, where there is room for them.

ghost use Rattle.std.specs.Prelude.{◌≡◌, ◌<◌, length, false, true};
ghost use Rattle.hayro_ccitt.specs.Rows.{AreChanges, Row, changes};
ghost use Rattle.c_rows.specs.Packing.{bytes_of_row};
ghost use Rattle.c_rows.specs.RowsGiven.{IsListed, IsPacked};

use crate::packed_rows::pack_row;

/// Writes a row as a list of its changes, if there is room for it. Returns whether there was.
pub fn list_over(list: &mut [u32], row: &[u32]) -> bool
    ensures listed { result ≡ true → (whole : Row) → row.now ≡ changes whole → IsListed whole list.old list.new }
    ensures refused { result ≡ false → length list.new < length row.now }
    ensures unwritten { result ≡ false → list.new ≡ list.old }
{
    let count = row.len();
    let has_room = count <= list.len();
    if has_room {
        list[..count].copy_from_slice(row);
    }
    has_room
}

/// Writes a row of a width packed, given by its changes, if there is room for it. Returns whether there was.
pub fn pack_over(bytes: &mut [u8], columns: u32, row: &[u32], black_is_0: bool) -> bool
    requires changes { AreChanges columns row.now }
    ensures packed { result ≡ true → (whole : Row) → length whole ≡ columns → row.now ≡ changes whole
        → IsPacked black_is_0 columns whole bytes.old bytes.new }
    ensures refused { result ≡ false → length bytes.new < bytes_of_row columns }
    ensures unwritten { result ≡ false → bytes.new ≡ bytes.old }
{
    let count = (columns as usize).div_ceil(8);
    if bytes.len() < count {
        return false;
    }
    pack_row(&mut bytes[..count], columns, row, black_is_0);
    true
}
