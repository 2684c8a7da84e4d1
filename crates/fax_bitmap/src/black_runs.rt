//! Painting a row by its black runs: each is turned black in a white row. That is fast where runs are few.

ghost use Rattle.std.specs.Prelude.{◌≡◌, ◌+◌, ◌-◌, ◌*◌, ◌/◌, ◌^◌, ◌≤◌, ◌<◌, ◌++◌, true, drop, get_or, length, replicate, take};
ghost use Rattle.fax_bits.specs.Bits.{Bits, bits_of};
ghost use Rattle.fax_reading.specs.Rows.{AreChanges, pixels};
ghost use Rattle.fax_bitmap.specs.Packed.{AreFirstPixels, IsPackedRow};
ghost use Rattle.fax_bitmap.specs.Painting.{FitsRow, TurnsBlack, then_white};

use crate::pixel_words::{fill_apart, fill_bytes, first_pixels, ones_before, put_pixels};

/// Returns a word whose pixels between two offsets are black.
#[inline(always)]
fn black_between(from: usize, to: usize) -> u64
    requires ascend { from < to }
    requires below { to ≤ 64 }
    ensures { result ≡ 2 ^ (64 - from) - 2 ^ (64 - to) }
{
    u64::MAX << (64 - (to - from)) >> from
}

/// Returns the 64 pixels that begin at a byte. Those of a row of zeros aren't loaded: that would wait until the zeros are stored.
#[inline(always)]
fn pixels_at(row: &[u8], start: usize, is_cleared: bool) -> u64
    requires within { start + 8 ≤ length row.now }
    requires cleared { is_cleared ≡ true → row.now ≡ replicate (length row.now) 0 }
    ensures { AreFirstPixels (drop start row.now) result }
{
    if is_cleared {
        return 0;
    }
    first_pixels(&row[start..])
}

/// Paints the pixels between two offsets of the word that begins at a byte.
#[inline(always)]
fn paint_in_word(row: &mut [u8], start: usize, from: usize, to: usize, is_cleared: bool)
    requires within { start + 8 ≤ length row.old }
    requires cleared { is_cleared ≡ true → row.old ≡ replicate (length row.old) 0 }
    requires ascend { from < to }
    requires below { to ≤ 64 }
    ensures painted { (front : Bits) → length front ≡ 8 * start + from → bits_of row.old ≡ then_white front (length row.old)
        → bits_of row.new ≡ then_white (front ++ replicate (to - from) true) (length row.old) }
    ensures length { length row.new ≡ length row.old }
{
    let word = pixels_at(row, start, is_cleared);
    put_pixels(row, start, word ^ black_between(from, to));
}

/// Paints the bytes between two positions, if the second is after the first.
#[inline(always)]
fn paint_bytes(row: &mut [u8], from: usize, to: usize)
    requires within { to ≤ length row.old }
    ensures painted { bits_of row.new ≡ bits_of (take from row.old)
        ++ (replicate (8 * (to - from)) true ++ bits_of (drop (from + (to - from)) row.old)) }
    ensures length { length row.new ≡ length row.old }
{
    if from < to {
        fill_bytes(&mut row[from..to], u8::MAX);
    }
}

/// Paints a black run that ends within the eight bytes from its first one on.
#[inline(always)]
fn paint_short_run(row: &mut [u8], from: usize, to: usize, is_cleared: bool)
    requires long { 8 ≤ length row.old }
    requires cleared { is_cleared ≡ true → row.old ≡ replicate (length row.old) 0 }
    requires ascend { from < to }
    requires short { to ≤ from / 8 * 8 + 64 }
    requires within { to ≤ 8 * length row.old }
    ensures painted { TurnsBlack from to row.old row.new }
    ensures length { length row.new ≡ length row.old }
{
    let start = (from / 8).min(row.len() - 8);
    paint_in_word(row, start, from - 8 * start, to - 8 * start, is_cleared);
}

/// Paints a black run that ends after the eight bytes from its first one on: the first eight, the last eight, and those between
/// them, which is the last call.
#[inline(always)]
fn paint_long_run(row: &mut [u8], from: usize, to: u32, is_cleared: bool)
    requires long { from / 8 * 8 + 64 < to }
    requires cleared { is_cleared ≡ true → row.old ≡ replicate (length row.old) 0 }
    requires within { to ≤ 8 * length row.old }
    ensures painted { TurnsBlack from to row.old row.new }
    ensures length { length row.new ≡ length row.old }
{
    let first = from / 8;
    let last = (to as usize - 1) / 8 - 7;
    paint_in_word(row, first, from % 8, 64, is_cleared);
    put_pixels(row, last, ones_before(((8 - to % 8) % 8) as usize));
    paint_bytes(row, first + 8, last);
}

/// Paints a black run.
#[inline(always)]
fn paint_black(row: &mut [u8], from: u32, to: u32, is_cleared: bool)
    requires long { 8 ≤ length row.old }
    requires cleared { is_cleared ≡ true → row.old ≡ replicate (length row.old) 0 }
    requires ascend { from < to }
    requires within { to ≤ 8 * length row.old }
    ensures painted { TurnsBlack from to row.old row.new }
    ensures length { length row.new ≡ length row.old }
{
    let start = from as usize;
    if to as usize - start / 8 * 8 > 64 {
        paint_long_run(row, start, to, is_cleared);
    } else {
        paint_short_run(row, start, to as usize, is_cleared);
    }
}

/// Paints a row of zeros by its black runs.
#[inline(always)]
fn paint_runs(row: &mut [u8], columns: u32, changes: &[u32])
    requires fits { FitsRow columns changes.now row.old }
    requires long { 8 ≤ length row.old }
    requires white { row.old ≡ replicate (length row.old) 0 }
    ensures painted { IsPackedRow columns changes.now row.new }
{
    let mut done = 0;
    'runs: while done + 1 < changes.len() {
        paint_black(row, changes[done], changes[done + 1], false);
        done += 2;
    }
    if done < changes.len() {
        paint_black(row, changes[done], columns, false);
    }
}

/// Paints a row of zeros by its black runs. It is a function of its own, so that their loop has all registers.
#[inline(never)]
fn paint_many_runs(row: &mut [u8], columns: u32, changes: &[u32])
    requires fits { FitsRow columns changes.now row.old }
    requires long { 8 ≤ length row.old }
    requires white { row.old ≡ replicate (length row.old) 0 }
    ensures painted { IsPackedRow columns changes.now row.new }
{
    paint_runs(row, columns, changes);
}

/// Returns where a row's first black run ends.
#[inline(always)]
fn end_of_first(columns: u32, changes: &[u32]) -> u32
    ensures change { 1 < length changes.now → result ≡ get_or changes.now 1 0 }
    ensures end { length changes.now ≤ 1 → result ≡ columns }
{
    if changes.len() > 1 {
        changes[1]
    } else {
        columns
    }
}

/// Paints a row of 57 pixels or more that is zeros, and has a change. It takes time in proportion to the black runs. One needs no
/// call but the last, and so no room for what is kept over a call.
#[inline(never)]
pub fn paint_cleared(row: &mut [u8], columns: u32, changes: &[u32])
    requires fits { FitsRow columns changes.now row.old }
    requires some { 0 < length changes.now }
    requires long { 8 ≤ length row.old }
    requires white { row.old ≡ replicate (length row.old) 0 }
    ensures painted { IsPackedRow columns changes.now row.new }
{
    if changes.len() > 2 {
        paint_many_runs(row, columns, changes);
    } else {
        paint_black(row, changes[0], end_of_first(columns, changes), true);
    }
}

/// Paints a row of many bytes or of many runs by its black runs, once it is cleared by one call. It is a function of its own, so that
/// their loop has all registers.
#[inline(never)]
pub fn paint_apart(row: &mut [u8], columns: u32, changes: &[u32])
    requires fits { FitsRow columns changes.now row.old }
    requires long { 8 ≤ length row.old }
    ensures painted { IsPackedRow columns changes.now row.new }
{
    fill_apart(row, 0);
    paint_runs(row, columns, changes);
}
