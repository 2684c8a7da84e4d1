//! The rows of a bitmap, as lists of changes: found 64 pixels at a time.

ghost use Rattle.std.specs.Prelude.{IsTrue, ◌≡◌, ◌+◌, ◌*◌, ◌^◌, ◌<◌, ◌≤◌, ◌++◌, false, map, length, replicate, take};
ghost use Rattle.std.specs.Prelude.{IfOk, OnOk, get_or, slice_index, vec_capacity, vec_len};
ghost use Rattle.fax_bits.specs.Bits.{bits_of, bit_of, low_bits};
ghost use Rattle.fax_reading.specs.Rows.{AreChanges, pixels};
ghost use Rattle.fax_words.specs.Chosen.{rows_of};
ghost use Rattle.fax_bitmap.specs.Packed.{AreFirstPixels, bytes_of_row, in_black, shown};
ghost use Rattle.fax_words.specs.Chosen.{AreRows};
ghost use Rattle.fax_bitmap.specs.Scanning.{differences, ones_from};

use crate::pixel_words::{first_pixels, plain_word};
use std::alloc::{AllocError, Global};

/// Returns the byte at an index, 0 past the end.
fn byte_or_white(bytes: &[u8], index: usize) -> u8
    ensures { result ≡ slice_index bytes.now index }
{
    bytes.get(index).copied().unwrap_or(0)
}

/// Returns the first 64 pixels of bytes, the leftmost in the highest bit, and white ones if there are fewer.
fn pixels_or_white(bytes: &[u8]) -> u64
    ensures { AreFirstPixels bytes.now result }
{
    let mut first = [0; 8];
    for index in 0..8usize {
        first[index] = byte_or_white(bytes, index);
    }
    u64::from_be_bytes(first)
}

/// Returns a one for each pixel that differs from the one left of it; the one left of the first is the last pixel of the word
/// before.
#[inline(always)]
fn turns(before: u64, word: u64) -> u64
    ensures { low_bits 64 result ≡ differences (bit_of before 0) (low_bits 64 word) }
{
    word ^ (before << 63 | word >> 1)
}

/// Appends the positions of the ones among the first bits of a word, counted from a first position on. The list has room for 64
/// more.
#[inline(always)]
fn push_ones_reserved(list: &mut Vec<u32>, first: u32, count: u32, word: u64)
    requires few { count ≤ 64 }
    requires within { first + count < 2 ^ 32 }
    requires room { vec_len list.old + 64 ≤ vec_capacity list.old }
    ensures { list.new.items ≡ list.old.items ++ ones_from first (take count (low_bits 64 word)) }
{
    let last = u64::from(first) + 63;
    let mut ones = word;
    while ones != 0 {
        let ahead = ones.leading_zeros();
        if ahead >= count {
            return;
        }
        list.push_reserved((last - u64::from(63 - ahead)) as u32);
        ones = !(1 << (63 - ahead)) & ones;
    }
}

/// Appends the positions of the ones among the first bits of a word, counted from a first position on. The list grows.
#[inline(never)]
fn push_ones_growing(
    list: &mut Vec<u32>,
    first: u32,
    count: u32,
    word: u64,
) -> Result<(), AllocError>
    requires few { count ≤ 64 }
    requires within { first + count < 2 ^ 32 }
    ensures { OnOk result (list.new.items ≡ list.old.items ++ ones_from first (take count (low_bits 64 word))) }
{
    list.reserve(64)?;
    push_ones_reserved(list, first, count, word);
    Ok(())
}

/// Appends the positions of the ones among the first bits of a word, counted from a first position on. The list grows if it
/// has no room for 64 more.
#[inline(always)]
fn push_ones(list: &mut Vec<u32>, first: u32, count: u32, word: u64) -> Result<(), AllocError>
    requires few { count ≤ 64 }
    requires within { first + count < 2 ^ 32 }
    ensures { OnOk result (list.new.items ≡ list.old.items ++ ones_from first (take count (low_bits 64 word))) }
{
    if word == 0 {
        return Ok(());
    }
    if list.capacity() - list.len() < 64 {
        return push_ones_growing(list, first, count, word);
    }
    push_ones_reserved(list, first, count, word);
    Ok(())
}

/// Returns the first 64 pixels of bytes, the leftmost in the highest bit, and white ones if there are fewer.
#[inline(always)]
fn word_of(bytes: &[u8]) -> u64
    ensures { AreFirstPixels bytes.now result }
{
    if bytes.len() >= 8 {
        first_pixels(bytes)
    } else {
        pixels_or_white(bytes)
    }
}

/// Returns whether the first two words of pixels have this colour only.
#[inline(always)]
fn two_are_plain(bytes: &[u8], is_black: bool) -> bool
    requires { 16 ≤ length bytes.now }
    ensures { IsTrue result → bits_of (take 16 bytes.now) ≡ replicate 128 is_black }
{
    let first = first_pixels(bytes) == plain_word(is_black);
    let second = first_pixels(&bytes[8..]) == plain_word(is_black);
    first & second
}

/// Returns whether the first four words of pixels have this colour only.
#[inline(always)]
fn four_are_plain(bytes: &[u8], is_black: bool) -> bool
    requires { 32 ≤ length bytes.now }
    ensures { IsTrue result → bits_of (take 32 bytes.now) ≡ replicate 256 is_black }
{
    two_are_plain(bytes, is_black) & two_are_plain(&bytes[16..], is_black)
}

/// Returns whether the first eight words of pixels have this colour only. All are looked at, by one test.
#[inline(always)]
fn eight_are_plain(bytes: &[u8], is_black: bool) -> bool
    requires { 64 ≤ length bytes.now }
    ensures { IsTrue result → bits_of (take 64 bytes.now) ≡ replicate 512 is_black }
{
    four_are_plain(bytes, is_black) & four_are_plain(&bytes[32..], is_black)
}

/// Returns how many words of pixels at the start have this colour only, up to a maximum; eight at a time, then four, and then one by
/// one.
#[inline(always)]
fn count_plain(bytes: &[u8], most: usize, is_black: bool) -> usize
    requires { 8 * most ≤ length bytes.now }
    ensures within { result ≤ most }
    ensures plain { bits_of (take (8 * result) bytes.now) ≡ replicate (64 * result) is_black }
{
    let mut count = 0;
    'eights: while most - count >= 8 && eight_are_plain(&bytes[8 * count..], is_black) {
        count += 8;
    }
    'fours: while most - count >= 4 && four_are_plain(&bytes[8 * count..], is_black) {
        count += 4;
    }
    let plain = plain_word(is_black);
    'ones: while count < most && first_pixels(&bytes[8 * count..]) == plain {
        count += 1;
    }
    count
}

/// Returns whether the first sixteen words of pixels have this colour only.
#[inline(always)]
fn sixteen_are_plain(bytes: &[u8], is_black: bool) -> bool
    requires { 128 ≤ length bytes.now }
    ensures { IsTrue result → bits_of (take 128 bytes.now) ≡ replicate 1024 is_black }
{
    eight_are_plain(bytes, is_black) & eight_are_plain(&bytes[64..], is_black)
}

/// Returns whether the first 32 words of pixels are white. All are looked at, by one test.
#[inline(always)]
fn many_are_white(bytes: &[u8]) -> bool
    requires { 256 ≤ length bytes.now }
    ensures { IsTrue result → bits_of (take 256 bytes.now) ≡ replicate 2048 false }
{
    sixteen_are_plain(bytes, false) & sixteen_are_plain(&bytes[128..], false)
}

/// Returns how many bytes at the start are zero.
#[inline(always)]
pub fn zero_bytes(bytes: &[u8]) -> usize
    ensures within { result ≤ length bytes.now }
    ensures white { bits_of (take result bytes.now) ≡ replicate (8 * result) false }
    ensures all { result < length bytes.now → 0 < get_or bytes.now result 0 }
{
    let mut count = 0;
    'many: while bytes.len() - count >= 256 && many_are_white(&bytes[count..]) {
        count += 256;
    }
    count += 8 * count_plain(&bytes[count..], (bytes.len() - count) / 8, false);
    'bytes: while count < bytes.len() && bytes[count] == 0 {
        count += 1;
    }
    count
}

/// Returns how many words of pixels at the start have this colour only, up to a maximum.
#[inline(always)]
fn plain_words(bytes: &[u8], most: usize, is_black: bool) -> usize
    requires { 8 * most ≤ length bytes.now }
    ensures within { result ≤ most }
    ensures plain { bits_of (take (8 * result) bytes.now) ≡ replicate (64 * result) is_black }
{
    if is_black {
        count_plain(bytes, most, true)
    } else {
        count_plain(bytes, most, false)
    }
}

/// Replaces a list by the changes of the first row of a bitmap, in which 0 stands for black if it says so. Words of one colour are
/// skipped at once at the row's start and after each word without a change.
#[inline(always)]
pub fn scan_in_black(
    list: &mut Vec<u32>,
    columns: u32,
    bitmap: &[u8],
    black_is_0: bool,
) -> Result<(), AllocError>
    requires { bytes_of_row columns ≤ length bitmap.now }
    ensures lawful { OnOk result (AreChanges columns list.new.items) }
    ensures pixels { OnOk result (pixels columns list.new.items ≡ in_black black_is_0 (take columns (bits_of bitmap.now))) }
{
    list.clear();
    let mut rest = bitmap;
    let mut start = 0;
    let mut before = u64::from(black_is_0);
    let mut is_plain = true;
    while columns - start >= 64 {
        if is_plain {
            is_plain = false;
            let plain = plain_words(rest, (columns - start) as usize / 64, before % 2 == 1);
            start += 64 * plain as u32;
            rest = &rest[8 * plain..];
            continue;
        }
        let word = first_pixels(rest);
        let ones = turns(before, word);
        push_ones(list, start, 64, ones)?;
        is_plain = ones == 0;
        before = word;
        start += 64;
        rest = &rest[8..];
    }
    push_ones(list, start, columns - start, turns(before, word_of(rest)))
}

/// Replaces a list by the changes of the first row of a bitmap, in which 1 stands for black.
#[inline(always)]
pub fn scan_row(list: &mut Vec<u32>, columns: u32, bitmap: &[u8]) -> Result<(), AllocError>
    requires { bytes_of_row columns ≤ length bitmap.now }
    ensures lawful { OnOk result (AreChanges columns list.new.items) }
    ensures pixels { OnOk result (pixels columns list.new.items ≡ take columns (bits_of bitmap.now)) }
{
    scan_in_black(list, columns, bitmap, false)
}

/// Returns the rows of a bitmap, as lists of changes. A row occupies (columns + 7) / 8 bytes, one bit a pixel, 1 for black,
/// the leftmost pixel in a byte's highest bit; bits after the last pixel are ignored. Bytes after the last whole row are
/// ignored, and without columns there are no rows.
pub fn rows_of_bitmap(
    alloc: Global,
    columns: u32,
    bitmap: &[u8],
) -> Result<Vec<Vec<u32>>, AllocError>
    ensures lawful { IfOk result (λ rows. AreRows columns (map (λ row. row.items) rows.items)) }
    ensures pixels { IfOk result (λ rows. rows_of columns (map (λ row. row.items) rows.items) ≡ shown columns bitmap.now) }
{
    let mut rows = Vec::new(alloc);
    let width = (columns as usize).div_ceil(8);
    if width == 0 {
        return Ok(rows);
    }
    let mut rest = bitmap;
    let mut row = Vec::new(alloc);
    while rest.len() >= width {
        scan_row(&mut row, columns, rest)?;
        rows.push(row.as_slice().to_vec(alloc)?)?;
        rest = &rest[width..];
    }
    Ok(rows)
}
