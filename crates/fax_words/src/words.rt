//! The code words of runs and of modes, as numbers with a number of bits.

ghost use Rattle.std.specs.Prelude.{◌≡◌, ◌+◌, ◌-◌, ◌*◌, ◌^◌, ◌<◌, ◌≤◌, ◌++◌, MatchOption, true, false, pos, length, get_or};
ghost use Rattle.fax_bits.specs.Bits.{low_bits};
ghost use Rattle.fax_bits.specs.declared.codes.Mode.TheVariants.{Pass, Horizontal, Vertical};
ghost use Rattle.fax_words.specs.Chosen.{word_of_length, word_of_mode, vertical_mode, is_near};
ghost use Rattle.fax_words.specs.Writing.{IsWord};

use fax_bits::codes::Color;
use fax_bits::tables::{
    BLACK_MAKEUP, BLACK_TERMINATING, COMMON_MAKEUP, WHITE_MAKEUP, WHITE_TERMINATING,
};

/// A code word: the lowest `count` bits of a number.
#[derive(Clone, Copy)]
pub struct Word {
    pub count: u8,
    pub bits: u16,
}

/// Code words one after another: the lowest `count` bits of a number.
#[derive(Clone, Copy)]
pub struct Joined {
    pub count: u32,
    pub bits: u64,
}

/// Returns a code word alone.
#[inline(always)]
pub fn one_word(word: Word) -> Joined
    ensures count { result.count ≡ word.count }
    ensures bits { result.bits ≡ word.bits }
{
    Joined {
        count: u32::from(word.count),
        bits: u64::from(word.bits),
    }
}

/// Returns code words with one more after them.
#[inline(always)]
pub fn with_word(before: Joined, word: Word) -> Joined
    requires room { before.count + word.count ≤ 63 }
    requires fits { (before.bits < 2 ^ before.count) × (word.bits < 2 ^ word.count) }
    ensures count { result.count ≡ before.count + word.count }
    ensures fits { result.bits < 2 ^ result.count }
    ensures spells { low_bits result.count result.bits ≡ low_bits before.count before.bits ++ low_bits word.count word.bits }
{
    Joined {
        count: before.count + u32::from(word.count),
        bits: before.bits << word.count | u64::from(word.bits),
    }
}

/// Returns a code word of a table of (run length, number of bits, code word).
#[inline(always)]
fn word_of_table(table: &[(u16, u8, u16)], index: usize) -> Word
    requires { index < length table.now }
    ensures count { result.count ≡ (get_or table.now index (0, 0, 0)).1 }
    ensures bits { result.bits ≡ (get_or table.now index (0, 0, 0)).2 }
{
    let (_, count, bits) = table[index];
    Word { count, bits }
}

/// Returns the terminating word of a colour for less than 64 pixels (T.4, table 2).
#[inline(always)]
pub fn terminating_word(color: Color, pixels: u32) -> Word
    requires { pixels < 64 }
    ensures { IsWord (word_of_length color pixels) result }
{
    match color {
        Color::White => word_of_table(&WHITE_TERMINATING, pixels as usize),
        Color::Black => word_of_table(&BLACK_TERMINATING, pixels as usize),
    }
}

/// Returns the make-up word of a colour for a multiple of 64 pixels (T.4, table 3).
#[inline(always)]
pub fn makeup_word(color: Color, times: u32) -> Word
    requires some { 0 < times }
    requires few { times ≤ 40 }
    ensures { IsWord (word_of_length color (64 * times)) result }
{
    if times > 27 {
        return word_of_table(&COMMON_MAKEUP, times as usize - 28);
    }
    match color {
        Color::White => word_of_table(&WHITE_MAKEUP, times as usize - 1),
        Color::Black => word_of_table(&BLACK_MAKEUP, times as usize - 1),
    }
}

/// Returns the code word of pass mode (T.4, table 4; T.6, table 1).
pub fn pass_word() -> Word
    ensures { IsWord (word_of_mode Pass) result }
{
    Word {
        count: 4,
        bits: 0b0001,
    }
}

/// Returns the code word of horizontal mode.
pub fn horizontal_word() -> Word
    ensures { IsWord (word_of_mode Horizontal) result }
{
    Word {
        count: 3,
        bits: 0b001,
    }
}

/// Returns the code word of the vertical mode V0, of a1 below b1.
#[inline(always)]
pub fn below_word() -> Word
    ensures { IsWord (word_of_mode (Vertical (pos 0))) result }
{
    Word {
        count: 1,
        bits: 0b1,
    }
}

/// The words of the vertical modes, as (position of a1, number of bits, word), for b1 at position 3.
const VERTICAL_WORDS: [(u16, u8, u16); 7] = [
    (0, 7, 0b0000010),
    (1, 6, 0b000010),
    (2, 3, 0b010),
    (3, 1, 0b1),
    (4, 3, 0b011),
    (5, 6, 0b000011),
    (6, 7, 0b0000011),
];

/// Returns the word of the vertical mode from b1 to a1, which is at most three positions from it.
#[inline(always)]
pub fn vertical_word(b1: u32, a1: u32) -> Option<Word>
    ensures { MatchOption result (is_near b1 a1 ≡ false)
        (λ word. (is_near b1 a1 ≡ true) × IsWord (word_of_mode (vertical_mode b1 a1)) word) }
{
    let least = u64::from(b1);
    let place = u64::from(a1) + 3;
    if place < least || place - least > 6 {
        return None;
    }
    Some(word_of_table(&VERTICAL_WORDS, (place - least) as usize))
}
