//! Words of 64 pixels, the leftmost in the highest bit.

ghost use Rattle.std.specs.Prelude.{◌≡◌, ◌+◌, ◌-◌, ◌^◌, ◌<◌, ◌≤◌, ◌++◌, true, false, length, get_or, replicate, take, drop};
ghost use Rattle.fax_bits.specs.declared.bit_reader.BitOrder.TheVariants.{HighestFirst};
ghost use Rattle.fax_bits.specs.Bits.{bits_of, bits_of_byte, low_bits};
ghost use Rattle.fax_bitmap.specs.Packed.{AreFirstPixels};

/// Returns a word of pixels of one colour.
#[inline(always)]
pub fn plain_word(is_black: bool) -> u64
    ensures { low_bits 64 result ≡ replicate 64 is_black }
{
    if is_black { u64::MAX } else { 0 }
}

/// Returns a byte of pixels of one colour.
#[inline(always)]
pub fn plain_byte(is_black: bool) -> u8
    ensures { bits_of_byte HighestFirst result ≡ replicate 8 is_black }
{
    if is_black { u8::MAX } else { 0 }
}

/// For each offset a word of 64 bits that are zeros left of it, and ones from there on.
#[rattlefmt::skip]
const ONES_FROM: [u64; 64] = [
    0xFFFFFFFFFFFFFFFF, 0x7FFFFFFFFFFFFFFF, 0x3FFFFFFFFFFFFFFF, 0x1FFFFFFFFFFFFFFF,
    0x0FFFFFFFFFFFFFFF, 0x07FFFFFFFFFFFFFF, 0x03FFFFFFFFFFFFFF, 0x01FFFFFFFFFFFFFF,
    0x00FFFFFFFFFFFFFF, 0x007FFFFFFFFFFFFF, 0x003FFFFFFFFFFFFF, 0x001FFFFFFFFFFFFF,
    0x000FFFFFFFFFFFFF, 0x0007FFFFFFFFFFFF, 0x0003FFFFFFFFFFFF, 0x0001FFFFFFFFFFFF,
    0x0000FFFFFFFFFFFF, 0x00007FFFFFFFFFFF, 0x00003FFFFFFFFFFF, 0x00001FFFFFFFFFFF,
    0x00000FFFFFFFFFFF, 0x000007FFFFFFFFFF, 0x000003FFFFFFFFFF, 0x000001FFFFFFFFFF,
    0x000000FFFFFFFFFF, 0x0000007FFFFFFFFF, 0x0000003FFFFFFFFF, 0x0000001FFFFFFFFF,
    0x0000000FFFFFFFFF, 0x00000007FFFFFFFF, 0x00000003FFFFFFFF, 0x00000001FFFFFFFF,
    0x00000000FFFFFFFF, 0x000000007FFFFFFF, 0x000000003FFFFFFF, 0x000000001FFFFFFF,
    0x000000000FFFFFFF, 0x0000000007FFFFFF, 0x0000000003FFFFFF, 0x0000000001FFFFFF,
    0x0000000000FFFFFF, 0x00000000007FFFFF, 0x00000000003FFFFF, 0x00000000001FFFFF,
    0x00000000000FFFFF, 0x000000000007FFFF, 0x000000000003FFFF, 0x000000000001FFFF,
    0x000000000000FFFF, 0x0000000000007FFF, 0x0000000000003FFF, 0x0000000000001FFF,
    0x0000000000000FFF, 0x00000000000007FF, 0x00000000000003FF, 0x00000000000001FF,
    0x00000000000000FF, 0x000000000000007F, 0x000000000000003F, 0x000000000000001F,
    0x000000000000000F, 0x0000000000000007, 0x0000000000000003, 0x0000000000000001,
];

/// Returns the word at an index of a table.
#[inline(always)]
fn word_of(table: &[u64], index: usize) -> u64
    requires { index < length table.now }
    ensures { result ≡ get_or table.now index 0 }
{
    table[index]
}

/// Returns a word whose bits are zeros left of an offset, and ones from there on: a look-up is faster than a shift.
#[inline(always)]
pub fn ones_from(offset: usize) -> u64
    requires { offset < 64 }
    ensures { result ≡ 2 ^ (64 - offset) - 1 }
{
    word_of(&ONES_FROM, offset)
}

/// For each number of bits below eight a word of ones, of which the last ones, as many, are zeros.
#[rattlefmt::skip]
const ONES_BEFORE: [u64; 8] = [
    0xFFFFFFFFFFFFFFFF, 0xFFFFFFFFFFFFFFFE, 0xFFFFFFFFFFFFFFFC, 0xFFFFFFFFFFFFFFF8,
    0xFFFFFFFFFFFFFFF0, 0xFFFFFFFFFFFFFFE0, 0xFFFFFFFFFFFFFFC0, 0xFFFFFFFFFFFFFF80,
];

/// Returns a word of ones, of which the last bits, less than eight, are zeros: the bytes of a word that is looked up are turned
/// by one instruction.
#[inline(always)]
pub fn ones_before(zeros: usize) -> u64
    requires { zeros < 8 }
    ensures { low_bits 64 result ≡ replicate (64 - zeros) true ++ replicate zeros false }
{
    word_of(&ONES_BEFORE, zeros)
}

/// Returns the first 64 pixels of eight bytes or more.
#[inline(always)]
pub fn first_pixels(bytes: &[u8]) -> u64
    requires { 8 ≤ length bytes.now }
    ensures { AreFirstPixels bytes.now result }
{
    u64::from_be_bytes([
        bytes[0], bytes[1], bytes[2], bytes[3], bytes[4], bytes[5], bytes[6], bytes[7],
    ])
}

/// Writes 64 pixels into the eight bytes from an index on.
#[inline(always)]
pub fn put_pixels(bytes: &mut [u8], start: usize, word: u64)
    requires { start + 8 ≤ length bytes.old }
    ensures written { bits_of bytes.new
        ≡ bits_of (take start bytes.old) ++ (low_bits 64 word ++ bits_of (drop (start + 8) bytes.old)) }
    ensures length { length bytes.new ≡ length bytes.old }
{
    let after = start + 8;
    bytes[start..after].copy_from_slice(&word.to_be_bytes());
}

/// The most bytes of white rows that one call fills. Rows of more bytes are painted as wide ones.
pub const MOST_FILLED: usize = 2047;

/// Fills all bytes, by one call of the library's: `fill` writes the last byte apart.
#[inline(always)]
pub fn fill_bytes(bytes: &mut [u8], byte: u8)
    ensures { bytes.new ≡ replicate (length bytes.old) byte }
{
    let mut at = 0;
    'bytes: while at != bytes.len() {
        bytes[at] = byte;
        at += 1;
    }
}

/// Fills all bytes by one call of its own: inlined into a loop, all its calls would become one. It is how a row is filled.
#[inline(never)]
pub fn fill_apart(bytes: &mut [u8], byte: u8)
    ensures { bytes.new ≡ replicate (length bytes.old) byte }
{
    fill_bytes(bytes, byte);
}

/// Fills all bytes, as many at a time as are filled fast, the last ones first: of those that were written before, they are the
/// likeliest to be in the cache still, and those after them come to be read first.
#[inline(never)]
fn fill_by_pieces(bytes: &mut [u8], byte: u8)
    ensures { bytes.new ≡ replicate (length bytes.old) byte }
{
    let mut left = bytes.len();
    'pieces: while left > MOST_FILLED {
        let from = left - MOST_FILLED;
        fill_apart(&mut bytes[from..left], byte);
        left = from;
    }
    fill_apart(&mut bytes[..left], byte);
}

/// Fills all bytes of rows: many by pieces, and few by one call.
#[inline(always)]
pub fn fill_all(bytes: &mut [u8], byte: u8)
    ensures { bytes.new ≡ replicate (length bytes.old) byte }
{
    if bytes.len() > MOST_FILLED {
        fill_by_pieces(bytes, byte);
    } else {
        fill_apart(bytes, byte);
    }
}
