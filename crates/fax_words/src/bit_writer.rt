//! Bits written one after another into bytes, each byte's highest bit first.

ghost use Rattle.std.specs.Prelude.{◌≡◌, ◌+◌, ◌-◌, ◌*◌, ◌%◌, ◌^◌, ◌<◌, ◌≤◌, ◌++◌, [], None, OnOk, IfOk, IfSome, length, take};
ghost use Rattle.std.specs.Int.{to_be_bytes, w64};
ghost use Rattle.fax_bits.specs.Bits.{bits_of, low_bits};
ghost use Rattle.fax_words.specs.Writing.{all_bits};
ghost use Rattle.fax_words.specs.Chosen.{filled_up};

use crate::words::Joined;
use std::alloc::{AllocError, Global};
use std::marker::Model;

/// Whole bytes, and the fewer than 64 bits after them: the lowest bits of `pending`. There is room for `room` more before
/// eight bytes are stored; the bits of `pending` above those are ignored.
#[derive(Drop)]
pub struct BitWriter {
    bytes: Vec<u8>,
    pending: u64,
    room: u32,
}

impl Model for BitWriter {
    ghost use Rattle.std.specs.Prelude.{◌≡◌, ◌<◌, ◌≤◌, ◌-◌, ◌%◌, length};
    ghost use Rattle.fax_bits.specs.Bits.{low_bits};
    ghost use Rattle.fax_words.specs.Writing.{Written};

    ghost Value = { Written };

    ghost view = { λ w. record { bytes = w.bytes.items; rest = low_bits (64 - w.room) w.pending } };

    ghost invariant = { λ w. (length w.bytes.items % 8 ≡ 0) × (0 < w.room) × (w.room ≤ 64) };
}

/// What a writer had written: the number of bytes, and the bits after them.
#[derive(Drop)]
pub struct Mark {
    count: usize,
    pending: u64,
    room: u32,
}

impl Model for Mark {
    ghost use Rattle.std.specs.Prelude.{◌≡◌, ◌<◌, ◌≤◌, ◌-◌, ◌%◌};
    ghost use Rattle.fax_bits.specs.Bits.{low_bits};
    ghost use Rattle.fax_words.specs.Writing.{Marked};

    ghost Value = { Marked };

    ghost view = { λ m. record { count = m.count; rest = low_bits (64 - m.room) m.pending } };

    ghost invariant = { λ m. (m.count % 8 ≡ 0) × (0 < m.room) × (m.room ≤ 64) };
}

/// Stores the whole bytes among the lowest bits of a number, and returns how many bits are left.
fn push_whole_bytes(bytes: &mut Vec<u8>, bits: u64, count: u32) -> Result<u32, AllocError>
    requires { count ≤ 64 }
    ensures written { IfOk result (λ left. bits_of bytes.new.items ++ low_bits left bits
        ≡ bits_of bytes.old.items ++ low_bits count bits) }
    ensures few { IfOk result (λ left. left < 8) }
    ensures whole { IfOk result (λ left. left % 8 ≡ count % 8) }
{
    let mut left = count;
    while left >= 8 {
        left -= 8;
        bytes.push(((bits >> left) % 256) as u8)?;
    }
    Ok(left)
}

/// Stores a word as eight bytes, the highest first.
#[inline(never)]
fn store_word(bytes: &mut Vec<u8>, word: u64) -> Result<(), AllocError>
    ensures stored { OnOk result (bytes.new.items ≡ bytes.old.items ++ to_be_bytes w64 word) }
    ensures whole { length bytes.old.items % 8 ≡ 0 → length bytes.new.items % 8 ≡ 0 }
{
    bytes.extend_from_slice(&word.to_be_bytes())
}

impl BitWriter {
    /// Creates a writer that has written nothing. It allocates nothing.
    pub fn new(alloc: Global) -> BitWriter
        ensures { result ≡ record { bytes = []; rest = [] } }
    {
        BitWriter {
            bytes: Vec::new(alloc),
            pending: 0,
            room: 64,
        }
    }

    /// Writes the lowest `count` bits of a number, the highest first.
    #[inline(always)]
    pub fn put(&mut self, word: u64, count: u32) -> Result<(), AllocError>
        requires count { count ≤ 63 }
        requires word { word < 2 ^ count }
        ensures { OnOk result (all_bits self.new ≡ all_bits self.old ++ low_bits count word) }
    {
        if count >= self.room {
            return self.put_over(word, count);
        }
        self.pending = self.pending << count | word;
        self.room -= count;
        Ok(())
    }

    /// Writes bits that complete the 64 that are pending, and stores these.
    #[inline(never)]
    fn put_over(&mut self, word: u64, count: u32) -> Result<(), AllocError>
        requires count { count ≤ 63 }
        requires word { word < 2 ^ count }
        requires full { 64 ≤ length self.old.rest + count }
        ensures { OnOk result (all_bits self.new ≡ all_bits self.old ++ low_bits count word) }
    {
        let over = count - self.room;
        let full = self.pending << self.room | word >> over;
        self.pending = word;
        self.room = 64 - over;
        store_word(&mut self.bytes, full)?;
        Ok(())
    }

    /// Writes zeros up to a whole byte.
    pub fn fill_up(&mut self) -> Result<(), AllocError>
        ensures { OnOk result (all_bits self.new ≡ filled_up (all_bits self.old)) }
    {
        self.put(0, self.room % 8)
    }

    /// Returns the number of zeros of fill before an EOL of twelve bits that is to end at a whole byte.
    pub fn eol_fill(&self) -> u32
        ensures { result ≡ (8 - (length (all_bits self.now) + 12) % 8) % 8 }
    {
        (self.room + 4) % 8
    }

    /// Returns the number of bits that were written.
    pub fn bit_count(&self) -> u128
        ensures { result ≡ length (all_bits self.now) }
    {
        self.bytes.len() as u128 * 8 + u128::from(64 - self.room)
    }

    /// Returns all that was written as one number, if that is fewer than 64 bits.
    pub fn as_joined(&self) -> Option<Joined>
        ensures joined { IfSome result (λ joined. (joined.count ≤ 63) × ((joined.bits < 2 ^ joined.count)
            × (low_bits joined.count joined.bits ≡ all_bits self.now))) }
        ensures many { result ≡ None → 64 ≤ length (all_bits self.now) }
    {
        if self.bytes.is_empty() {
            let count = 64 - self.room;
            return Some(Joined {
                count,
                bits: self.pending % (1 << count),
            });
        }
        None
    }

    /// Returns what was written so far, for [`BitWriter::cut_back`].
    pub fn mark(&self) -> Mark
        ensures { result ≡ record { count = length self.now.bytes; rest = self.now.rest } }
    {
        Mark {
            count: self.bytes.len(),
            pending: self.pending,
            room: self.room,
        }
    }

    /// Drops what was written after the mark.
    pub fn cut_back(&mut self, mark: Mark)
        requires { 8 * mark.count + length mark.rest ≤ length (all_bits self.old) }
        ensures { all_bits self.new ≡ take (8 * mark.count) (all_bits self.old) ++ mark.rest }
    {
        self.bytes.truncate(mark.count);
        self.pending = mark.pending;
        self.room = mark.room;
    }

    /// Returns all that was written, with zeros up to a whole byte.
    pub fn finish(self) -> Result<Vec<u8>, AllocError>
        ensures { IfOk result (λ bytes. bits_of bytes.items ≡ filled_up (all_bits self)) }
    {
        let padding = self.room % 8;
        let mut bytes = self.bytes;
        push_whole_bytes(
            &mut bytes,
            self.pending << padding,
            64 - self.room + padding,
        )?;
        Ok(bytes)
    }
}
