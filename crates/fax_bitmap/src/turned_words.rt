//! Painting a row by words that are turned apart. At each change the colour turns up to the end of its word of 64 pixels, and at
//! last all of a word turns if the one before it ends black. No branch depends on where the changes are. That is fast where they
//! are neither few nor dense.

ghost use Rattle.std.specs.Prelude.{◌≡◌, ◌+◌, ◌-◌, ◌*◌, ◌/◌, ◌%◌, ◌<◌, ◌≤◌, ◌++◌, false, drop, length, map, replicate, take};
ghost use Rattle.fax_bits.specs.Bits.{bit_of, bits_of, low_bits};
ghost use Rattle.fax_reading.specs.Rows.{AreChanges, pixels};
ghost use Rattle.fax_bitmap.specs.Packed.{IsPackedRow};
ghost use Rattle.fax_bitmap.specs.Painting.{FitsRow, joined_pixels, plain_pixels, turned_after, turned_at_all, turned_from};

use crate::painting::put_first;
use crate::pixel_words::{ones_from, put_pixels};

/// The words of the widest row.
const WORDS: usize = 64;

/// The most bytes of a row that is painted by words that are turned apart.
pub const MOST_TURNED: usize = 511;

/// Turns the colour from a position to the end of its word.
#[inline(always)]
fn turn_following(words: &mut [u64], place: usize)
    requires { place / 64 < length words.old }
    ensures turned { joined_pixels false words.new ≡ turned_from place (joined_pixels false words.old) }
    ensures length { length words.new ≡ length words.old }
{
    words[place / 64] ^= ones_from(place % 64);
}

/// Turns the colour at the changes of four parts in turn, so that seldom a word is turned right after it was. Up to three of the last
/// changes are left.
#[inline(always)]
fn turn_quarters(words: &mut [u64], _columns: u32, changes: &[u32])
    requires changes { AreChanges _columns changes.now }
    requires room { _columns < 64 * length words.old }
    ensures turned { turned_at_all (drop (4 * (length changes.now / 4)) changes.now) (joined_pixels false words.new)
        ≡ turned_at_all changes.now (joined_pixels false words.old) }
    ensures length { length words.new ≡ length words.old }
{
    let part = changes.len() / 4;
    let mut done = 0;
    'quarters: while done < part {
        turn_following(words, changes[done] as usize);
        turn_following(words, changes[part + done] as usize);
        turn_following(words, changes[2 * part + done] as usize);
        turn_following(words, changes[3 * part + done] as usize);
        done += 1;
    }
}

/// Turns the colour of white words at each change, and at the row's end if it would be black there.
#[inline(always)]
fn turn_at_changes(words: &mut [u64], columns: u32, changes: &[u32])
    requires changes { AreChanges columns changes.now }
    requires room { columns < 64 * length words.old }
    requires white { words.old ≡ replicate (length words.old) 0 }
    ensures painted { joined_pixels false words.new
        ≡ pixels columns changes.now ++ replicate (64 * length words.old - columns) false }
    ensures length { length words.new ≡ length words.old }
{
    turn_quarters(words, columns, changes);
    let mut done = 4 * (changes.len() / 4);
    'changes: while done < changes.len() {
        turn_following(words, changes[done] as usize);
        done += 1;
    }
    if changes.len() % 2 == 1 {
        turn_following(words, columns as usize);
    }
}

/// Turns all pixels of a word after a black one. Takes a word of the colour of the pixel before it.
#[inline(always)]
fn after(color: u64, word: u64) -> u64
    requires { color ≡ plain_pixels (bit_of color 0) }
    ensures pixels { low_bits 64 result ≡ map (turned_after (bit_of color 0)) (low_bits 64 word) }
    ensures last { bit_of result 0 ≡ turned_after (bit_of color 0) (bit_of word 0) }
{
    word ^ color
}

/// Returns a word of the colour of a word's last pixel.
#[inline(always)]
fn color_following(word: u64) -> u64
    ensures plain { result ≡ plain_pixels (bit_of result 0) }
    ensures same { bit_of result 0 ≡ bit_of word 0 }
{
    word % 2 * u64::MAX
}

/// Writes the words, each turned if the one before it ends black.
#[inline(always)]
fn put_words(row: &mut [u8], words: &[u64])
    requires { length row.old < 8 * length words.now }
    ensures { bits_of row.new ≡ take (8 * length row.old) (joined_pixels false words.now) }
{
    let mut color = 0;
    let mut at = 0;
    'words: while 8 * at + 8 <= row.len() {
        let word = after(color, words[at]);
        put_pixels(row, 8 * at, word);
        color = color_following(word);
        at += 1;
    }
    let start = 8 * at;
    put_first(&mut row[start..], after(color, words[at]));
}

/// Paints a row of less than 512 bytes by words that are turned apart.
#[inline(never)]
pub fn paint_by_words(row: &mut [u8], columns: u32, changes: &[u32])
    requires fits { FitsRow columns changes.now row.old }
    requires few { length row.old ≤ 511 }
    ensures painted { IsPackedRow columns changes.now row.new }
{
    let mut words = [0; WORDS];
    turn_at_changes(&mut words, columns, changes);
    put_words(row, &words);
}
