//! Painting rows: a row's changes become packed pixels, 64 at a time.

ghost use Rattle.std.specs.Prelude.{◌≡◌, ◌+◌, ◌-◌, ◌*◌, ◌/◌, ◌%◌, ◌<◌, ◌≤◌, ◌++◌, not, length, replicate, take};
ghost use Rattle.fax_bits.specs.declared.bit_reader.BitOrder.TheVariants.{HighestFirst};
ghost use Rattle.fax_bits.specs.Bits.{Bits, bits_of, bits_of_byte, low_bits};
ghost use Rattle.fax_reading.specs.Rows.{AreChanges, pixels};
ghost use Rattle.fax_bitmap.specs.Packed.{IsPackedRow};
ghost use Rattle.fax_bitmap.specs.Painting.{FitsRow, under, MovesTo, StandsAt};

use crate::black_runs::{paint_apart, paint_cleared};
use crate::pixel_words::{
    MOST_FILLED, fill_apart, fill_bytes, ones_from, plain_byte, plain_word, put_pixels,
};
use crate::turned_words::{MOST_TURNED, paint_by_words};

/// The most changes of a row that is cleared first.
const FEW: usize = 24;

/// The most changes of a wide row of which each byte is written once, if it has a long black run.
const FEW_FAR: usize = 6;

/// The least pixels of a long black run: one that is written faster alone than over cleared bytes.
const LONG: u32 = 6144;

/// How far a row is painted.
#[derive(Copy, Clone)]
struct Brush {
    /// The byte of the row at which the word begins, a multiple of eight. Those before it are painted.
    start: usize,
    /// The 64 pixels from there on, the leftmost in the highest bit. All after the last change have its colour.
    word: u64,
    /// Whether that colour is black.
    is_black: bool,
}

/// Writes the word, and begins the next one.
#[inline(always)]
fn next_word(row: &mut [u8], brush: Brush) -> Brush
    requires within { brush.start + 8 ≤ length row.old }
    ensures start { result.start ≡ brush.start + 8 }
    ensures color { result.is_black ≡ brush.is_black }
    ensures painted { under result row.new ≡ under brush row.old ++ replicate 64 brush.is_black }
    ensures length { length row.new ≡ length row.old }
{
    let after = brush.start + 8;
    row[brush.start..after].copy_from_slice(&brush.word.to_be_bytes());
    Brush {
        start: after,
        word: plain_word(brush.is_black),
        is_black: brush.is_black,
    }
}

/// Moves to the word of a position, and writes the words before it.
#[inline(always)]
fn move_by_words(row: &mut [u8], brush: Brush, place: u32) -> Brush
    requires begun { brush.start % 8 ≡ 0 }
    requires right { 8 * brush.start ≤ place }
    requires within { place ≤ 8 * length row.old }
    ensures { MovesTo brush result place row.old row.new }
{
    let start = place as usize / 64 * 8;
    let mut at = brush;
    'words: while at.start < start {
        at = next_word(row, at);
    }
    at
}

/// Moves to the word of a position, and writes the present word and fills those between them.
#[inline(always)]
fn move_by_filling(row: &mut [u8], brush: Brush, place: u32) -> Brush
    requires begun { brush.start % 8 ≡ 0 }
    requires right { 8 * brush.start ≤ place }
    requires within { place ≤ 8 * length row.old }
    ensures { MovesTo brush result place row.old row.new }
{
    let start = place as usize / 64 * 8;
    if start <= brush.start {
        return brush;
    }
    put_pixels(row, brush.start, brush.word);
    fill_apart(&mut row[brush.start + 8..start], plain_byte(brush.is_black));
    Brush {
        start,
        word: plain_word(brush.is_black),
        is_black: brush.is_black,
    }
}

/// Moves to the word of a position, which is far if most are. All before it is written.
#[inline(always)]
fn move_to(row: &mut [u8], brush: Brush, place: u32, is_far: bool) -> Brush
    requires begun { brush.start % 8 ≡ 0 }
    requires right { 8 * brush.start ≤ place }
    requires within { place ≤ 8 * length row.old }
    ensures { MovesTo brush result place row.old row.new }
{
    if is_far {
        move_by_filling(row, brush, place)
    } else {
        move_by_words(row, brush, place)
    }
}

/// Turns the colour from a position of the word on.
#[inline(always)]
fn turned(brush: Brush, place: u32) -> Brush
    requires stands { StandsAt brush place }
    ensures start { result.start ≡ brush.start }
    ensures color { result.is_black ≡ not brush.is_black }
    ensures word { (front : Bits) → length front ≡ place - 8 * brush.start
        → low_bits 64 brush.word ≡ front ++ replicate (64 - length front) brush.is_black
        → low_bits 64 result.word ≡ front ++ replicate (64 - length front) (not brush.is_black) }
{
    Brush {
        start: brush.start,
        word: brush.word ^ ones_from((place % 64) as usize),
        is_black: !brush.is_black,
    }
}

/// Writes as much of the word as the row has room for.
fn finish(row: &mut [u8], brush: Brush)
    requires begun { brush.start ≤ length row.old }
    requires last { length row.old ≤ brush.start + 8 }
    ensures { bits_of row.new ≡ take (8 * length row.old) (under brush row.old) }
{
    let length = row.len() - brush.start;
    row[brush.start..].copy_from_slice(&brush.word.to_be_bytes()[..length]);
}

/// Paints a row by its changes, from the left to the right, so that each byte is written once.
#[inline(always)]
fn paint_from_left(row: &mut [u8], columns: u32, changes: &[u32], are_far: bool)
    requires fits { FitsRow columns changes.now row.old }
    ensures painted { IsPackedRow columns changes.now row.new }
{
    let mut brush = Brush {
        start: 0,
        word: 0,
        is_black: false,
    };
    let mut done = 0;
    'runs: while done + 1 < changes.len() {
        let first = changes[done];
        let after = changes[done + 1];
        brush = turned(move_to(row, brush, first, are_far), first);
        brush = turned(move_to(row, brush, after, are_far), after);
        done += 2;
        // The black runs that lie within the word.
        'word: while done + 1 < changes.len()
            && (changes[done + 1] as u64) < 8 * brush.start as u64 + 64
        {
            brush = turned(turned(brush, changes[done]), changes[done + 1]);
            done += 2;
        }
    }
    if done < changes.len() {
        let last = changes[done];
        brush = turned(move_to(row, brush, last, are_far), last);
    }
    let mut at = move_to(row, brush, columns, are_far);
    if at.is_black {
        at = turned(at, columns);
    }
    finish(row, at);
}

/// Paints a row by its changes, a word at a time. That is fast where changes are many.
#[inline(never)]
fn paint_changes(row: &mut [u8], columns: u32, changes: &[u32])
    requires fits { FitsRow columns changes.now row.old }
    ensures painted { IsPackedRow columns changes.now row.new }
{
    paint_from_left(row, columns, changes, false);
}

/// Paints a row by its changes, and fills the words between them. That is fast where a wide row has few changes.
#[inline(never)]
fn paint_wide(row: &mut [u8], columns: u32, changes: &[u32])
    requires fits { FitsRow columns changes.now row.old }
    ensures painted { IsPackedRow columns changes.now row.new }
{
    paint_from_left(row, columns, changes, true);
}

/// Writes the first bytes of a word over as many bytes.
#[inline(always)]
fn put_bytes(row: &mut [u8], word: u64, count: usize)
    requires all { length row.old ≡ count }
    requires few { count ≤ 8 }
    ensures { bits_of row.new ≡ take (8 * length row.old) (low_bits 64 word) }
{
    row.copy_from_slice(&word.to_be_bytes()[..count]);
}

/// Writes the first bytes of a word over all bytes of a row. Each number of them has a copy of its own, which is no call.
#[inline(always)]
pub fn put_first(row: &mut [u8], word: u64)
    requires { length row.old < 8 }
    ensures { bits_of row.new ≡ take (8 * length row.old) (low_bits 64 word) }
{
    match row.len() {
        1 => put_bytes(row, word, 1),
        2 => put_bytes(row, word, 2),
        3 => put_bytes(row, word, 3),
        4 => put_bytes(row, word, 4),
        5 => put_bytes(row, word, 5),
        6 => put_bytes(row, word, 6),
        count => put_bytes(row, word, count),
    }
}

/// Writes the first bytes of a word over all bytes of a row of so many columns: one byte without a jump by their number.
#[inline(always)]
fn put_narrow(row: &mut [u8], columns: u32, word: u64)
    requires narrow { length row.old < 8 }
    requires whole { length row.old ≡ (columns + 7) / 8 }
    ensures { bits_of row.new ≡ take (8 * length row.old) (low_bits 64 word) }
{
    if columns > 0 && columns <= 8 {
        put_bytes(row, word, 1);
    } else {
        put_first(row, word);
    }
}

/// Paints a row of less than eight bytes: it is the first part of a word.
#[inline(always)]
fn paint_narrow(row: &mut [u8], columns: u32, changes: &[u32])
    requires fits { FitsRow columns changes.now row.old }
    requires narrow { length row.old < 8 }
    ensures painted { IsPackedRow columns changes.now row.new }
{
    let mut brush = Brush {
        start: 0,
        word: 0,
        is_black: false,
    };
    let mut done = 0;
    'pairs: while done + 1 < changes.len() {
        brush = turned(turned(brush, changes[done]), changes[done + 1]);
        done += 2;
    }
    if done < changes.len() {
        brush = turned(turned(brush, changes[done]), columns);
    }
    put_narrow(row, columns, brush.word);
}

/// Returns the most changes of a row of so many bytes that is best cleared, by one call of the library's, and then painted by its
/// black runs. It is 0 if none is.
#[inline(always)]
pub fn most_cleared_first(bytes: usize) -> usize
    ensures { 0 < result → 8 ≤ bytes }
{
    if bytes >= 8 && bytes <= MOST_FILLED {
        FEW
    } else {
        0
    }
}

/// Returns whether a row has a long black run.
#[inline(always)]
fn has_long_run(columns: u32, changes: &[u32]) -> bool {
    let mut done = 0;
    'runs: while done + 1 < changes.len() {
        if changes[done + 1].saturating_sub(changes[done]) >= LONG {
            return true;
        }
        done += 2;
    }
    done < changes.len() && columns.saturating_sub(changes[done]) >= LONG
}

/// Paints a row that has too many bytes to be painted by words that are turned apart.
#[inline(never)]
fn paint_long(row: &mut [u8], columns: u32, changes: &[u32])
    requires fits { FitsRow columns changes.now row.old }
    requires long { 8 ≤ length row.old }
    ensures painted { IsPackedRow columns changes.now row.new }
{
    if row.len() > MOST_FILLED && changes.len() <= FEW_FAR && has_long_run(columns, changes) {
        paint_wide(row, columns, changes);
    } else {
        paint_apart(row, columns, changes);
    }
}

/// Paints a row that isn't best cleared first.
#[inline(never)]
pub fn paint_over(row: &mut [u8], columns: u32, changes: &[u32])
    requires fits { FitsRow columns changes.now row.old }
    ensures painted { IsPackedRow columns changes.now row.new }
{
    if row.len() < 8 {
        paint_narrow(row, columns, changes);
    } else if changes.is_empty() {
        fill_apart(row, 0);
    } else if row.len() + row.len() / 2 <= changes.len() {
        paint_changes(row, columns, changes);
    } else if row.len() <= MOST_TURNED {
        paint_by_words(row, columns, changes);
    } else {
        paint_long(row, columns, changes);
    }
}

/// Paints a row: one bit a pixel, 1 for black, the leftmost pixel in each byte's highest bit, and zeros up to the end of
/// the last byte. It takes time in proportion to the bytes and the changes.
#[inline(always)]
pub fn paint_row(row: &mut [u8], columns: u32, changes: &[u32])
    requires fits { FitsRow columns changes.now row.old }
    ensures painted { IsPackedRow columns changes.now row.new }
{
    if changes.is_empty() || changes.len() > most_cleared_first(row.len()) {
        paint_over(row, columns, changes);
    } else {
        fill_bytes(row, 0);
        paint_cleared(row, columns, changes);
    }
}
