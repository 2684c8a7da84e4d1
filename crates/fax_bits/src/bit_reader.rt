//! The bits of a slice of bytes, read from the start.

ghost use Rattle.std.specs.Prelude.{◌≡◌, ◌+◌, ◌-◌, ◌*◌, ◌/◌, ◌%◌, ◌^◌, ◌<◌, ◌≤◌, ◌==◌, ◌↔◌, ◌∷◌, ℕ, length, min, false};
ghost use Rattle.std.specs.Prelude.{◌++◌, slice_get, slice_index, get_or, Some, IfSome, true, IfOk, OnOk, OnErr, IsErr};
ghost use Rattle.std.specs.Prelude.{IsOkUnless, ◌⊎◌};
ghost use Rattle.fax_bits.specs.Bits.{AreWholeBytes, BitsAt, BitsFit, bits_of, low_first_bits_of, bits_in, bit_of, here};
ghost use Rattle.fax_bits.specs.Bits.{at_end, aligned, low_bits};
ghost use Rattle.fax_bits.specs.Window.{place_in_word, ArePlaced, AtHand, HoldsNext, PassesPlaced, WordsAt, moved};
ghost use Rattle.fax_bits.specs.LookUps.{index_bits, lookup_bits, padded, seven_bits, twelve_bits};
ghost use Rattle.fax_bits.specs.ModeGroups.{ten_bits};
ghost use Rattle.fax_bits.specs.ReaderSteps.{AreThere, HasBitsFrom, HasFirstBits, at_offset};

use crate::codes::Color;
use crate::{DecodeError, Result};
use std::marker::Model;
use std::simd::prelude::*;

/// Which bit of a byte comes first. T.4 and T.6 speak of bits alone; PDF has the highest first, TIFF's tag FillOrder says
/// it, and raw fax files have either.
#[derive(Copy, Clone, Debug, PartialEq, Eq)]
pub enum BitOrder {
    /// From the highest bit to the lowest (FillOrder 1).
    HighestFirst,
    /// From the lowest bit to the highest (FillOrder 2).
    LowestFirst,
}

/// The bits of some bytes, in either order, and an offset among them, counted in bits from 0. No call allocates.
#[derive(Clone, Drop)]
pub struct BitReader<'a> {
    data: &'a [u8],
    place: usize,
    /// The offset never exceeds the limit, so the window has at least the next 32 bits.
    limit: usize,
    /// The next bits, the first in the highest position, zeros past the end: all that are at most 33 after the limit,
    /// and zeros after them.
    window: u64,
    /// The 64 bits from the edge on, the first in the highest position, zeros past the end. Each word is loaded once and
    /// put in order once; the windows are made of two neighbouring words.
    ahead: u64,
    /// The byte at which the bits ahead begin: the window reaches it.
    edge: usize,
    order: BitOrder,
}

impl<'a> Model for BitReader<'a> {
    ghost use Rattle.fax_bits.specs.Bits.{BitsAt, bits_in};

    ghost Value = { BitsAt };

    ghost use Rattle.fax_bits.specs.Window.{IsFilled};

    ghost view = { λ r. record { bits = bits_in r.order r.data.now; place = r.place } };

    ghost invariant = { IsFilled };
}

/// The four bits of an index in the other order, as the upper half of a byte.
const TURNED_UP: [u8; 16] = [
    0x00, 0x80, 0x40, 0xC0, 0x20, 0xA0, 0x60, 0xE0, 0x10, 0x90, 0x50, 0xD0, 0x30, 0xB0, 0x70, 0xF0,
];

/// The four bits of an index in the other order, as the lower half of a byte.
const TURNED_DOWN: [u8; 16] = [
    0x0, 0x8, 0x4, 0xC, 0x2, 0xA, 0x6, 0xE, 0x1, 0x9, 0x5, 0xD, 0x3, 0xB, 0x7, 0xF,
];

/// Returns a word with the bits of each byte in the other order: the halves of all bytes are looked up at once.
#[inline(always)]
fn bytes_turned(word: u64) -> u64
    ensures { (k : ℕ) → k < 64 → bit_of result k ≡ bit_of word (8 * (k / 8) + (7 - k % 8)) }
{
    let bytes = u64x2::from_array([word, 0]).to_le_bytes();
    let upper = u8x16::from_array(TURNED_UP).swizzle_dyn(bytes & u8x16::splat(15));
    let lower = u8x16::from_array(TURNED_DOWN).swizzle_dyn(bytes >> u8x16::splat(4));
    u64x2::from_le_bytes(upper | lower).to_array()[0]
}

/// Returns the bits of a word of eight bytes, the first in the highest position.
#[inline(always)]
fn in_order(word: u64, order: BitOrder) -> u64
    ensures { (k : ℕ) → k < 64 → bit_of result (63 - k) ≡ bit_of word (63 - place_in_word order k) }
{
    match order {
        BitOrder::HighestFirst => word,
        BitOrder::LowestFirst => bytes_turned(word),
    }
}

/// Returns the bits of the first eight bytes, the first in the highest position.
#[inline(always)]
fn whole_word(bytes: &[u8], order: BitOrder) -> u64
    requires { 8 ≤ length bytes.now }
    ensures { HasFirstBits (bits_in order bytes.now) result }
{
    let bytes = &bytes[..8];
    let word = u64::from_be_bytes([
        bytes[0], bytes[1], bytes[2], bytes[3], bytes[4], bytes[5], bytes[6], bytes[7],
    ]);
    in_order(word, order)
}

/// Returns the byte at an index, 0 past the end.
fn byte_or_zero(bytes: &[u8], index: usize) -> u8
    ensures { result ≡ slice_index bytes.now index }
{
    bytes.get(index).copied().unwrap_or(0)
}

/// Returns the bits of the first eight bytes, the first in the highest position, with zeros after the last one.
#[inline(always)]
fn few_bytes(bytes: &[u8], order: BitOrder) -> u64
    ensures { HasFirstBits (bits_in order bytes.now) result }
{
    let last = u64::from_be_bytes([
        byte_or_zero(bytes, 0),
        byte_or_zero(bytes, 1),
        byte_or_zero(bytes, 2),
        byte_or_zero(bytes, 3),
        byte_or_zero(bytes, 4),
        byte_or_zero(bytes, 5),
        byte_or_zero(bytes, 6),
        byte_or_zero(bytes, 7),
    ]);
    in_order(last, order)
}

/// Returns the bits of the last bytes, fewer than eight, as `few_bytes` does, by a call.
#[cold]
#[inline(never)]
fn last_word(bytes: &[u8], order: BitOrder) -> u64
    ensures { HasFirstBits (bits_in order bytes.now) result }
{
    few_bytes(bytes, order)
}

/// Returns the 64 bits from one of the last eight bytes on, or from the end, the first in the highest position, with zeros past the
/// end.
#[inline(always)]
fn near_end(data: &[u8], order: BitOrder, byte: usize) -> u64
    requires whole { 8 ≤ length «data».now }
    requires within { byte ≤ length «data».now }
    requires near { length «data».now < byte + 8 }
    ensures { HasBitsFrom (bits_in order «data».now) (8 * byte) result }
{
    let start = data.len() - 8;
    // How many of the last eight bytes come before them: one at least.
    let before = byte - start;
    whole_word(&data[start..], order) << (8 * (before - 1)) << 8
}

/// Returns the 64 bits from a byte on, the first in the highest position, with zeros past the end.
fn word_at(data: &[u8], order: BitOrder, byte: usize) -> u64
    requires { byte ≤ length «data».now }
    ensures { HasBitsFrom (bits_in order «data».now) (8 * byte) result }
{
    let rest = &data[byte..];
    if rest.len() >= 8 {
        return whole_word(rest, order);
    }
    if data.len() >= 8 {
        return near_end(data, order, byte);
    }
    last_word(rest, order)
}

impl<'a> BitReader<'a> {
    /// Creates a reader at the first bit, with each byte's highest bit first.
    pub fn new(data: &'a [u8]) -> BitReader<'a>
        requires { BitsFit «data».now }
        ensures { result ≡ record { bits = bits_of «data».now; place = 0 } }
    {
        starting_at(data, 0)
    }

    /// Creates a reader at the first bit, with each byte's lowest bit first.
    pub fn new_low_first(data: &'a [u8]) -> BitReader<'a>
        requires { BitsFit «data».now }
        ensures { result ≡ record { bits = low_first_bits_of «data».now; place = 0 } }
    {
        at_place(data, BitOrder::LowestFirst, 0)
    }

    /// Reads the next bit.
    ///
    /// # Errors
    ///
    /// `UnexpectedEof` at the end of the data; the offset then doesn't change.
    #[inline(always)]
    pub fn read_bit(&mut self) -> Result<u32>
        ensures bit { IfOk result (λ bit. (bit ≤ 1) × (slice_get self.old.bits self.old.place ≡ Some (bit == 1))) }
        ensures next { OnOk result (self.new ≡ record self.old { place = self.old.place + 1 }) }
        ensures front { IfOk result (λ bit. here self.old ≡ (bit == 1) ∷ here self.new) }
        ensures end { IsErr result ↔ (length self.old.bits ≤ self.old.place) }
        ensures unchanged { OnErr result (self.new ≡ self.old) }
        ensures only_end { IsOkUnless result DecodeError.UnexpectedEof }
    {
        let bit = (self.window >> 63) as u32;
        self.consume(1)?;
        Ok(bit)
    }

    /// Returns the next 32 bits, padded with zeros, the first in the highest position, without consuming them.
    #[inline(always)]
    pub fn peek_u32(&self) -> u32
        ensures { (k : ℕ) → k < 32 → bit_of result (31 - k) ≡ get_or self.now.bits (self.now.place + k) false }
    {
        (self.window >> 32) as u32
    }

    /// Returns the bits after the next `skip` by which a run of a colour is looked up, padded with zeros, as a number.
    #[inline(always)]
    pub(crate) fn run_index(&self, skip: usize, color: Color) -> usize
        requires near { skip ≤ 20 }
        ensures few { result < 2 ^ lookup_bits color }
        ensures bits { index_bits (lookup_bits color) result ≡ padded (lookup_bits color) (here (moved skip self.now)) }
    {
        (self.window << skip >> (64 - color.lookup_bits())) as usize
    }

    /// Consumes `n` bits, at most 32.
    ///
    /// # Errors
    ///
    /// `UnexpectedEof` if fewer are left; these are consumed.
    #[inline(always)]
    pub fn consume(&mut self, n: usize) -> Result<()>
        requires { n ≤ 32 }
        ensures moved { self.new ≡ record self.old { place = min (self.old.place + n) (length self.old.bits) } }
        ensures forward { self.old.place ≤ self.new.place }
        ensures end { IsErr result ↔ (length self.old.bits < self.old.place + n) }
        ensures only_end { IsOkUnless result DecodeError.UnexpectedEof }
    {
        let next = self.place + n;
        let mut window = self.window << n;
        if next > self.limit {
            let edge = self.edge * 8;
            let byte = self.edge + 8;
            if next <= edge {
                // The word ahead has what the window lacks.
                window |= self.ahead >> (edge - next);
                self.limit = (next + 31).min(self.data.len() * 8);
            } else if byte + 8 <= self.data.len() {
                // The word ahead begins before the offset, and the one after it has the rest.
                let word = whole_word(&self.data[byte..], self.order);
                window = self.ahead << (next - edge) | word >> (64 - (next - edge));
                self.ahead = word;
                self.edge = byte;
                self.limit = next + 31;
            } else {
                return self.refill_near_end(next);
            }
        }
        self.place = next;
        self.window = window;
        Ok(())
    }

    /// Moves to an offset beyond the words loaded so far, at most to the end of the data, and fills the window there.
    #[cold]
    #[inline(never)]
    fn refill_near_end(&mut self, next: usize) -> Result<()>
        requires { self.old.place ≤ next }
        ensures moved { self.new ≡ record self.old { place = min next (length self.old.bits) } }
        ensures forward { self.old.place ≤ self.new.place }
        ensures end { IsErr result ↔ (length self.old.bits < next) }
        ensures only_end { IsOkUnless result DecodeError.UnexpectedEof }
    {
        let end = self.data.len() * 8;
        let edge = self.edge * 8;
        if next > edge && next < end && end <= edge + 64 {
            // The word ahead has all bits that are left.
            self.place = next;
            self.limit = (next + 31).min(end);
            self.window = self.ahead << (next - edge);
            self.ahead = 0;
            self.edge = self.data.len();
            return Ok(());
        }
        if next > end {
            // No bit is left.
            self.place = end;
            self.limit = end;
            self.window = 0;
            self.ahead = 0;
            self.edge = self.data.len();
            return Err(DecodeError::UnexpectedEof);
        }
        *self = at_place(self.data, self.order, next);
        Ok(())
    }

    /// Moves to an offset that may be far from here, and fills the window there.
    #[inline(never)]
    fn move_far(&mut self, place: usize)
        requires { place ≤ length self.old.bits }
        ensures { self.new ≡ record self.old { place = place } }
    {
        let edge = place / 8;
        if edge + 8 > self.data.len() {
            self.move_near_end(place);
            return;
        }
        let ahead = whole_word(&self.data[edge..], self.order);
        self.place = place;
        self.limit = edge * 8 + 31;
        self.window = ahead << (place % 8);
        self.ahead = ahead;
        self.edge = edge;
    }

    /// Moves to an offset near the end of the data, where no whole word is left to load, and fills the window there.
    #[cold]
    #[inline(never)]
    fn move_near_end(&mut self, place: usize)
        requires { place ≤ length self.old.bits }
        ensures { self.new ≡ record self.old { place = place } }
    {
        *self = at_bit(self, place);
    }

    /// Moves to the start of the next whole byte, unless the offset is at one: by at most seven bits.
    pub fn align(&mut self)
        ensures moved { self.new ≡ record self.old { place = (self.old.place + 7) / 8 * 8 } }
        ensures rest { here self.new ≡ aligned (here self.old) }
        ensures within { self.new.place ≤ length self.new.bits }
    {
        let left = self.place.div_ceil(8) * 8 - self.place;
        // The data is whole bytes, so that the next one begins at its end at the latest.
        let _ = self.consume(left);
    }

    /// Returns whether no bit is left.
    pub fn at_end(&self) -> bool
        ensures end { result ≡ at_end (here self.now) }
        ensures within { self.now.place ≤ length self.now.bits }
        ensures whole_bytes { AreWholeBytes self.now.bits }
        ensures fit { length self.now.bits + 64 < 2 ^ 64 }
    {
        self.byte_pos() >= self.data.len()
    }

    /// Returns the number of whole bytes before the offset.
    pub fn byte_pos(&self) -> usize
        ensures { result ≡ self.now.place / 8 }
    {
        self.place / 8
    }

    /// Returns the number of bits before the offset.
    pub fn bit_pos(&self) -> usize
        ensures place { result ≡ self.now.place }
        ensures within { result ≤ length self.now.bits }
        ensures fit { length self.now.bits + 64 < 2 ^ 64 }
    {
        self.place
    }
}

// What other modules and crates do with a reader's inside. These are functions and not methods, so that a crate that passes the type
// on decides which of them go with it.

/// Creates a reader at a bit offset, with each byte's highest bit first.
pub fn starting_at<'a>(data: &'a [u8], place: usize) -> BitReader<'a>
    requires fit { BitsFit «data».now }
    requires within { place ≤ 8 * length «data».now }
    ensures { result ≡ record { bits = bits_of «data».now; place = place } }
{
    at_place(data, BitOrder::HighestFirst, place)
}

/// Creates a reader at a bit offset, as `at_place` does, without a call.
#[inline(always)]
pub fn placed_at<'a>(data: &'a [u8], order: BitOrder, place: usize) -> BitReader<'a>
    requires fit { BitsFit «data».now }
    requires within { place ≤ 8 * length «data».now }
    ensures { result ≡ at_offset order «data».now place }
{
    let edge = place / 8;
    let ahead = word_at(data, order, edge);
    BitReader {
        data,
        place,
        limit: (edge * 8 + 31).min(data.len() * 8),
        window: ahead << (place % 8),
        ahead,
        edge,
        order,
    }
}

/// Creates a reader at a bit offset.
#[inline(never)]
pub fn at_place<'a>(data: &'a [u8], order: BitOrder, place: usize) -> BitReader<'a>
    requires fit { BitsFit «data».now }
    requires within { place ≤ 8 * length «data».now }
    ensures { result ≡ at_offset order «data».now place }
{
    placed_at(data, order, place)
}

/// Returns a reader of the same bits at another offset.
pub fn at_bit<'a>(reader: &BitReader<'a>, place: usize) -> BitReader<'a>
    requires { place ≤ length reader.now.bits }
    ensures { result ≡ record reader.now { place = place } }
{
    at_place(reader.data, reader.order, place)
}

/// Returns a reader of the same bits at the same offset.
pub fn copy<'a>(reader: &BitReader<'a>) -> BitReader<'a>
    ensures value { result ≡ reader.now }
    ensures fit { length reader.now.bits + 64 < 2 ^ 64 }
{
    BitReader {
        data: reader.data,
        place: reader.place,
        limit: reader.limit,
        window: reader.window,
        ahead: reader.ahead,
        edge: reader.edge,
        order: reader.order,
    }
}

/// Returns the number of bits, those before the offset too.
pub fn bit_len(reader: &BitReader<'_>) -> usize
    ensures length { result ≡ length reader.now.bits }
    ensures fit { length reader.now.bits + 64 < 2 ^ 64 }
{
    reader.data.len() * 8
}

/// Returns the first eight bytes as a word, the lowest bit of the first one in the lowest position.
#[inline(always)]
fn low_word(bytes: &[u8]) -> u64
    requires { 8 ≤ length bytes.now }
    ensures { (k : ℕ) → k < 64 → bit_of result k ≡ get_or (bits_in BitOrder.LowestFirst bytes.now) k false }
{
    let bytes = &bytes[..8];
    u64::from_be_bytes([
        bytes[7], bytes[6], bytes[5], bytes[4], bytes[3], bytes[2], bytes[1], bytes[0],
    ])
}

/// A few bits as they stand in a word of eight bytes, from its first bit on.
#[derive(Copy, Clone)]
pub struct PlacedBits {
    /// How many there are.
    pub(crate) count: usize,
    /// A one for each of them.
    pub(crate) mask: u64,
    /// They, where the mask has its ones.
    pub(crate) word: u64,
}

/// The bits of some bytes and an offset among them, from which bits are compared with words of eight bytes as they stand.
#[derive(Drop)]
pub struct WordsAhead<'a> {
    data: &'a [u8],
    place: usize,
    order: BitOrder,
}

impl<'a> Model for WordsAhead<'a> {
    ghost use Rattle.fax_bits.specs.Window.{WordsAt, IsAhead};
    ghost use Rattle.fax_bits.specs.Bits.{bits_in};

    ghost Value = { WordsAt };

    ghost view = { λ r. record { at = record { bits = bits_in r.order r.«data».now; place = r.place }; order = r.order } };

    ghost invariant = { IsAhead };
}

/// Returns the same bits at the same offset, or `None` if the bits are in another order.
#[inline(always)]
pub fn words_ahead<'a>(reader: &BitReader<'a>, order: BitOrder) -> Option<WordsAhead<'a>>
    ensures same { IfSome result (λ words. words ≡ record { at = reader.now; order = order }) }
{
    if reader.order == order {
        Some(WordsAhead {
            data: reader.data,
            place: reader.place,
            order,
        })
    } else {
        None
    }
}

/// Moves to where the same bits are compared.
#[inline(always)]
pub fn go_on_at(reader: &mut BitReader<'_>, words: &WordsAhead<'_>)
    requires { words.now.at.bits ≡ reader.old.bits }
    ensures { reader.new ≡ words.now.at }
{
    *reader = at_place(reader.data, reader.order, words.place);
}

/// Returns whether the lowest `count` bits of a number may be next: they are, if these aren't beyond the end.
#[inline(always)]
pub fn may_be_next(reader: &BitReader<'_>, bits: u64, count: usize) -> bool
    requires some { 0 < count }
    requires few { count ≤ 64 }
{
    reader.window >> (64 - count) == bits
}

impl<'a> WordsAhead<'a> {
    /// Returns the number of bits before the offset.
    #[inline(always)]
    pub fn passed(&self) -> usize
        ensures place { result ≡ self.now.at.place }
        ensures within { result ≤ length self.now.at.bits }
    {
        self.place
    }

    /// Returns the lowest `count` bits of a number as they stand in these bytes.
    #[inline(always)]
    pub fn placed(&self, bits: u64, count: usize) -> PlacedBits
        requires some { 0 < count }
        requires few { count ≤ 57 }
        ensures { ArePlaced self.now.order count bits result }
    {
        let top = bits << (64 - count);
        match self.order {
            BitOrder::HighestFirst => PlacedBits {
                count,
                mask: u64::MAX << (64 - count),
                word: top,
            },
            BitOrder::LowestFirst => PlacedBits {
                count,
                mask: u64::MAX >> (64 - count),
                word: low_word(&bytes_turned(top).to_be_bytes()),
            },
        }
    }

    /// Returns the next bits, 57 at least, in a word, or `None` if fewer than eight bytes begin at the offset's.
    #[inline(always)]
    fn next_word(&self) -> Option<u64>
        ensures { IfSome result (HoldsNext self.now) }
    {
        let place = self.place;
        let byte = place / 8;
        if byte >= self.data.len().saturating_sub(7) {
            return None;
        }
        let bytes = &self.data[byte..];
        let shift = place % 8;
        let word = match self.order {
            BitOrder::HighestFirst => whole_word(bytes, BitOrder::HighestFirst) << shift,
            BitOrder::LowestFirst => low_word(bytes) >> shift,
        };
        Some(word)
    }

    /// Passes the first of these bits or else the second if they are next and eight bytes are left, and returns whether it did;
    /// otherwise nothing changes.
    #[inline(always)]
    pub fn pass_either(&mut self, first: &PlacedBits, second: &PlacedBits) -> bool
        requires first { first.now.count ≤ 57 }
        requires second { second.now.count ≤ 57 }
        ensures order { self.new.order ≡ self.old.order }
        ensures passed { result ≡ true
            → PassesPlaced first.now self.old self.new.at ⊎ PassesPlaced second.now self.old self.new.at }
        ensures unchanged { result ≡ false → self.new ≡ self.old }
    {
        let Some(word) = self.next_word() else {
            return false;
        };
        if word & first.mask == first.word {
            self.place += first.count;
            return true;
        }
        if word & second.mask == second.word {
            self.place += second.count;
            return true;
        }
        false
    }
}

/// The bits of some bytes and an offset among them, as the drawing of a line keeps them for itself: the next ones are
/// in a window.
#[derive(Drop)]
pub struct Window<'a> {
    data: &'a [u8],
    /// The next bits, the first in the highest position.
    window: u64,
    /// How many of them there are.
    left: usize,
    /// The offset where they end.
    limit: usize,
    order: BitOrder,
}

impl<'a> Model for Window<'a> {
    ghost use Rattle.fax_bits.specs.Window.{AtHand, IsAtHand};
    ghost use Rattle.fax_bits.specs.Bits.{bits_in};
    ghost use Rattle.std.specs.Prelude.{◌-◌};

    ghost Value = { AtHand };

    ghost view = { λ r. record { at = record { bits = bits_in r.order r.«data».now; place = r.limit - r.left }; left = r.left } };

    ghost invariant = { IsAtHand };
}

/// Returns the same bits at the same offset, none of them at hand yet.
#[inline(always)]
pub(crate) fn none_at_hand<'a>(reader: &BitReader<'a>) -> Window<'a>
    ensures { result ≡ record { at = reader.now; left = 0 } }
{
    Window {
        data: reader.data,
        window: 0,
        left: 0,
        limit: reader.place,
        order: reader.order,
    }
}

/// Returns the same bits at the same offset with those of the reader's window at hand, 33 at least; or none of them near the end of
/// the data.
#[inline(always)]
pub fn window_at_hand<'a>(reader: &BitReader<'a>) -> Window<'a>
    ensures same { result.at ≡ reader.now }
    ensures few { result.left ≤ 64 }
{
    let limit = reader.limit + 33;
    if limit > reader.data.len() * 8 {
        return none_at_hand(reader);
    }
    Window {
        data: reader.data,
        window: reader.window,
        left: limit - reader.place,
        limit,
        order: reader.order,
    }
}

/// Returns the same bits at the same offset, with an empty window, or `None` if the bits are in another order.
#[inline(always)]
pub fn at_hand<'a>(reader: &BitReader<'a>, order: BitOrder) -> Option<Window<'a>>
    ensures same { IfSome result (λ window. window ≡ record { at = reader.now; left = 0 }) }
{
    if reader.order == order {
        Some(Window {
            data: reader.data,
            window: 0,
            left: 0,
            limit: reader.place,
            order,
        })
    } else {
        None
    }
}

/// Consumes a one if it is next, and returns whether it is; otherwise nothing changes.
#[inline(always)]
pub fn pass_one(reader: &mut BitReader<'_>) -> bool
    ensures one { result ≡ true → slice_get reader.old.bits reader.old.place ≡ Some true }
    ensures moved { result ≡ true → reader.new ≡ moved 1 reader.old }
    ensures unchanged { result ≡ false → reader.new ≡ reader.old }
{
    if reader.window >> 63 == 0 {
        return false;
    }
    // The bit is there to be consumed.
    let _ = reader.consume(1);
    true
}

/// Consumes the lowest `count` bits of a number if they are next, the highest of them first, and returns whether they are;
/// otherwise nothing changes.
#[inline(always)]
pub fn pass_bits(reader: &mut BitReader<'_>, bits: u64, count: usize) -> bool
    requires some { 0 < count }
    requires few { count ≤ 32 }
    ensures there { result ≡ true → here reader.old ≡ low_bits count bits ++ here (moved count reader.old) }
    ensures within { result ≡ true → reader.old.place + count ≤ length reader.old.bits }
    ensures moved { result ≡ true → reader.new ≡ moved count reader.old }
    ensures unchanged { result ≡ false → reader.new ≡ reader.old }
{
    if reader.window >> (64 - count) != bits {
        return false;
    }
    let place = reader.bit_pos();
    if reader.consume(count).is_err() {
        // The window has zeros past the end.
        *reader = at_bit(reader, place);
        return false;
    }
    true
}

/// Consumes the lowest `count` bits of a number, two to 33, if they are next, and returns whether they are; otherwise nothing
/// changes.
#[inline(always)]
pub fn pass_more_bits(reader: &mut BitReader<'_>, bits: u64, count: usize) -> bool
    requires some { 1 < count }
    requires few { count ≤ 33 }
    ensures there { result ≡ true → here reader.old ≡ low_bits count bits ++ here (moved count reader.old) }
    ensures within { result ≡ true → reader.old.place + count ≤ length reader.old.bits }
    ensures moved { result ≡ true → reader.new ≡ moved count reader.old }
    ensures unchanged { result ≡ false → reader.new ≡ reader.old }
{
    let others = 64 - count;
    if reader.window >> others != bits {
        return false;
    }
    let place = reader.bit_pos();
    let _ = reader.consume(1);
    if reader.consume(count - 1).is_err() {
        *reader = at_bit(reader, place);
        return false;
    }
    true
}

/// Moves to where the same bits at hand are.
#[inline(always)]
pub fn go_to(reader: &mut BitReader<'_>, window: &Window<'_>)
    requires { window.now.at.bits ≡ reader.old.bits }
    ensures { reader.new ≡ window.now.at }
{
    let place = window.bit_pos();
    if place >= reader.place && place - reader.place <= 32 {
        // The offset is within the data.
        let _ = reader.consume(place - reader.place);
        return;
    }
    reader.move_far(place);
}

/// Moves to where the same bits at hand are, as `go_to` does, with their window, if it has 33 bits at least. The next line then begins
/// with bits that are in a register, where `go_to` has it wait for a load at an offset that it just stored.
#[inline(always)]
pub fn go_on_with(reader: &mut BitReader<'_>, window: &Window<'_>)
    requires { window.now.at.bits ≡ reader.old.bits }
    ensures { reader.new ≡ window.now.at }
{
    if window.left >= 33 && window.limit >= 64 {
        let edge = (window.limit + 7) / 8 - 8;
        if edge + 8 <= reader.data.len() {
            reader.ahead = whole_word(&reader.data[edge..], reader.order);
            reader.edge = edge;
            reader.place = window.bit_pos();
            reader.limit = window.limit - 33;
            reader.window = window.window;
            return;
        }
    }
    go_to(reader, window);
}

impl<'a> Window<'a> {
    /// Fills the window if eight bytes are left; otherwise nothing changes.
    #[inline(always)]
    pub fn refill(&mut self) -> bool
        ensures same { self.new.at ≡ self.old.at }
        ensures enough { result ≡ true → 57 ≤ self.new.left }
        ensures most { result ≡ true → self.new.left ≤ 64 }
        ensures unchanged { result ≡ false → self.new ≡ self.old }
    {
        let place = self.limit - self.left;
        let byte = place / 8;
        if byte + 8 > self.data.len() {
            return false;
        }
        let word = whole_word(&self.data[byte..], self.order);
        self.window = word << (place % 8);
        self.limit = byte * 8 + 64;
        self.left = 64 - place % 8;
        true
    }

    /// Consumes `n` bits of the window.
    #[inline(always)]
    pub fn pass(&mut self, n: usize)
        requires few { n < 64 }
        requires within { n ≤ self.old.left }
        ensures moved { self.new.at ≡ moved n self.old.at }
        ensures left { self.new.left + n ≡ self.old.left }
    {
        self.window <<= n;
        self.left -= n;
    }

    /// Returns the bits after the next `skip` by which a run of a colour is looked up, as a number.
    #[inline(always)]
    pub(crate) fn run_index(&self, skip: usize, color: Color) -> usize
        requires within { skip + 13 ≤ self.now.left }
        ensures few { result < 2 ^ lookup_bits color }
        ensures there { AreThere self.now }
        ensures bits { index_bits (lookup_bits color) result ≡ padded (lookup_bits color) (here (moved skip self.now.at)) }
    {
        (self.window << skip >> (64 - color.lookup_bits())) as usize
    }

    /// Returns the twelve bits after the next `skip`, as a number.
    #[inline(always)]
    pub fn peek_12(&self, skip: usize) -> usize
        requires within { skip + 12 ≤ self.now.left }
        ensures few { result < 4096 }
        ensures there { AreThere self.now }
        ensures bits { twelve_bits result ≡ padded 12 (here (moved skip self.now.at)) }
    {
        (self.window << skip >> 52) as usize
    }

    /// Returns the next ten bits, as a number.
    #[inline(always)]
    pub fn peek_10(&self) -> usize
        requires within { 10 ≤ self.now.left }
        ensures few { result < 1024 }
        ensures there { AreThere self.now }
        ensures bits { ten_bits result ≡ padded 10 (here self.now.at) }
    {
        (self.window >> 54) as usize
    }

    /// Returns a copy.
    #[inline(always)]
    pub fn copy(&self) -> Window<'a>
        ensures { result ≡ self.now }
    {
        Window {
            data: self.data,
            window: self.window,
            left: self.left,
            limit: self.limit,
            order: self.order,
        }
    }

    /// Returns the next seven bits, as a number.
    #[inline(always)]
    pub fn peek_7(&self) -> u32
        requires within { 7 ≤ self.now.left }
        ensures few { result < 128 }
        ensures there { AreThere self.now }
        ensures bits { seven_bits result ≡ padded 7 (here self.now.at) }
    {
        (self.window >> 57) as u32
    }

    /// Returns how many bits are in the window.
    #[inline(always)]
    pub fn left(&self) -> usize
        ensures { result ≡ self.now.left }
    {
        self.left
    }

    /// Returns the number of bits before the offset.
    #[inline(always)]
    pub(crate) fn bit_pos(&self) -> usize
        ensures place { result ≡ self.now.at.place }
        ensures within { result ≤ length self.now.at.bits }
    {
        self.limit - self.left
    }
}

/// The bits of some bytes and an offset among them, from which words are read that aren't drawn. At least the next sixteen bits are
/// in a window, or all that are left.
#[derive(Drop)]
pub struct BitScanner<'a> {
    data: &'a [u8],
    /// The next bits, the first in the highest position, and zeros after them if all that are left are there.
    window: u64,
    /// How many of them there are.
    left: usize,
    /// The offset where they end.
    limit: usize,
    /// Whether they are all that are left.
    are_all: bool,
    order: BitOrder,
}

impl<'a> Model for BitScanner<'a> {
    ghost use Rattle.fax_bits.specs.Window.{IsScanned};
    ghost use Rattle.fax_bits.specs.Bits.{BitsAt, bits_in};
    ghost use Rattle.std.specs.Prelude.{◌-◌};

    ghost Value = { BitsAt };

    ghost view = { λ r. record { bits = bits_in r.order r.«data».now; place = r.limit - r.left } };

    ghost invariant = { IsScanned };
}

/// Creates a scanner at a bit offset, given the 64 bits from its byte on.
#[inline(always)]
fn scanner_over<'a>(data: &'a [u8], order: BitOrder, place: usize, word: u64) -> BitScanner<'a>
    requires fit { BitsFit «data».now }
    requires within { place ≤ 8 * length «data».now }
    requires word { HasBitsFrom (bits_in order «data».now) (8 * (place / 8)) word }
    ensures { result ≡ at_offset order «data».now place }
{
    let end = data.len() * 8;
    let limit = (place / 8 * 8 + 64).min(end);
    BitScanner {
        data,
        window: word << (place % 8),
        left: limit - place,
        limit,
        are_all: limit == end,
        order,
    }
}

/// Returns the last `left` bits, the first in the highest position, with zeros after them.
#[inline(always)]
fn last_bits(data: &[u8], order: BitOrder, left: usize) -> u64
    requires some { 0 < left }
    requires few { left ≤ 64 }
    requires within { left ≤ 8 * length «data».now }
    requires fit { BitsFit «data».now }
    ensures { HasBitsFrom (bits_in order «data».now) (8 * length «data».now - left) result }
{
    if data.len() < 8 {
        return later_word(data, order, 0) << (data.len() * 8 - left);
    }
    whole_word(&data[data.len() - 8..], order) << (64 - left)
}

/// Creates a scanner at one of the last 64 bits, or returns `None` if it is none of them. All bits that are left are in its window.
#[inline(always)]
pub fn scanner_near_end<'a>(data: &'a [u8], order: BitOrder, place: usize) -> Option<BitScanner<'a>>
    requires fit { BitsFit «data».now }
    requires within { place ≤ 8 * length «data».now }
    ensures same { IfSome result (λ scanner. scanner ≡ at_offset order «data».now place) }
{
    let end = data.len() * 8;
    let left = end - place;
    if left == 0 || left > 64 {
        return None;
    }
    Some(BitScanner {
        data,
        window: last_bits(data, order, left),
        left,
        limit: end,
        are_all: true,
        order,
    })
}

/// Returns the last `left` bits, as `last_bits` does, without a call. There may be none.
#[inline(always)]
fn last_bits_here(data: &[u8], order: BitOrder, left: usize) -> u64
    requires few { left ≤ 63 }
    requires within { left ≤ 8 * length «data».now }
    requires fit { BitsFit «data».now }
    ensures { HasBitsFrom (bits_in order «data».now) (8 * length «data».now - left) result }
{
    if data.len() < 8 {
        return few_bytes(data, order) << (data.len() * 8 - left);
    }
    whole_word(&data[data.len() - 8..], order) << 1 << (63 - left)
}

/// Creates a scanner of the last `left` bits, or returns `None` if they are more than 63. No call is made, so that a caller that
/// makes none saves no registers.
#[inline(always)]
pub fn scanner_of_last<'a>(data: &'a [u8], order: BitOrder, left: usize) -> Option<BitScanner<'a>>
    requires fit { BitsFit «data».now }
    requires within { left ≤ 8 * length «data».now }
    ensures same { IfSome result (λ scanner. scanner ≡ at_offset order «data».now (8 * length «data».now - left)) }
{
    if left > 63 {
        return None;
    }
    Some(BitScanner {
        data,
        window: last_bits_here(data, order, left),
        left,
        limit: data.len() * 8,
        are_all: true,
        order,
    })
}

/// Creates a scanner at a bit offset.
#[inline(always)]
pub fn scanner_at<'a>(data: &'a [u8], order: BitOrder, place: usize) -> BitScanner<'a>
    requires fit { BitsFit «data».now }
    requires within { place ≤ 8 * length «data».now }
    ensures { result ≡ at_offset order «data».now place }
{
    if let Some(scanner) = scanner_near_end(data, order, place) {
        return scanner;
    }
    let word = later_word(data, order, place / 8);
    scanner_over(data, order, place, word)
}

/// Returns the 64 bits from a byte on, as `word_at` does, by a call: a scanner rarely needs more bits.
#[cold]
#[inline(never)]
fn later_word(data: &[u8], order: BitOrder, byte: usize) -> u64
    requires { byte ≤ length «data».now }
    ensures { HasBitsFrom (bits_in order «data».now) (8 * byte) result }
{
    word_at(data, order, byte)
}

impl<'a> BitScanner<'a> {
    /// Returns the next bits, by which a run of a colour is looked up, padded with zeros, as a number.
    #[inline(always)]
    pub(crate) fn run_index(&self, color: Color) -> usize
        ensures few { result < 2 ^ lookup_bits color }
        ensures bits { index_bits (lookup_bits color) result ≡ padded (lookup_bits color) (here self.now) }
    {
        (self.window >> (64 - color.lookup_bits())) as usize
    }

    /// Returns the next seven bits, padded with zeros, as a number.
    #[inline(always)]
    pub(crate) fn peek_7(&self) -> u32
        ensures few { result < 128 }
        ensures bits { seven_bits result ≡ padded 7 (here self.now) }
    {
        (self.window >> 57) as u32
    }

    /// Consumes `n` bits, at most sixteen.
    ///
    /// # Errors
    ///
    /// `UnexpectedEof` if fewer are left; then nothing changes.
    #[inline(always)]
    pub(crate) fn consume(&mut self, n: usize) -> Result<()>
        requires { n ≤ 16 }
        ensures moved { OnOk result (self.new ≡ record self.old { place = self.old.place + n }) }
        ensures unchanged { OnErr result (self.new ≡ self.old) }
        ensures end { IsErr result ↔ (length self.old.bits < self.old.place + n) }
        ensures only_end { IsOkUnless result DecodeError.UnexpectedEof }
    {
        let ended = Err(DecodeError::UnexpectedEof);
        if n > self.left {
            return ended;
        }
        let window = self.window << n;
        let left = self.left - n;
        if left < 16 && !self.are_all {
            let place = self.limit - left;
            let word = later_word(self.data, self.order, place / 8);
            *self = scanner_over(self.data, self.order, place, word);
            return Ok(());
        }
        self.window = window;
        self.left = left;
        Ok(())
    }

    /// Returns the number of bits that are left.
    #[inline(always)]
    pub fn bits_left(&self) -> usize
        ensures left { result + self.now.place ≡ length self.now.bits }
    {
        self.data.len() * 8 - self.limit + self.left
    }

    /// Returns the number of bits before the offset.
    #[inline(always)]
    pub fn offset(&self) -> usize
        ensures place { result ≡ self.now.place }
        ensures within { result ≤ length self.now.bits }
        ensures fit { length self.now.bits + 64 < 2 ^ 64 }
    {
        self.limit - self.left
    }
}
