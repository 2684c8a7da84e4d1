//! The reader's calls on data of each length from 0 to 40 bytes, in either order of bits, beside a plain list of its bits.

ghost use Rattle.std.specs.Prelude.{◌≤◌};

use super::calls::zeros_of;
use super::same;
use hayro_ccitt::DecodeError::UnexpectedEof;
use hayro_ccitt::bit_reader::BitReader;
use hayro_ccitt::{Result, bits_fit};
use std::process::Abort;

const DATA: [u8; 40] = [
    0xC9, 0x0F, 0xDA, 0xA2, 0x21, 0x68, 0xC2, 0x34, 0xC4, 0xC6, 0x62, 0x8B, 0x80, 0xDC, 0x1C, 0xD1,
    0x29, 0x02, 0x4E, 0x08, 0x8A, 0x67, 0xCC, 0x74, 0x02, 0x0B, 0xBE, 0xA6, 0x3B, 0x13, 0x9B, 0x22,
    0x51, 0x4A, 0x08, 0x79, 0x8E, 0x34, 0x04, 0xDD,
];

/// The bits of the data, each byte's highest first.
const HIGH_FIRST: &str = "1100100100001111110110101010001000100001011010001100001000110100\
    1100010011000110011000101000101110000000110111000001110011010001\
    0010100100000010010011100000100010001010011001111100110001110100\
    0000001000001011101111101010011000111011000100111001101100100010\
    0101000101001010000010000111100110001110001101000000010011011101";

/// The bits of the data, each byte's lowest first.
const LOW_FIRST: &str = "1001001111110000010110110100010110000100000101100100001100101100\
    0010001101100011010001101101000100000001001110110011100010001011\
    1001010001000000011100100001000001010001111001100011001100101110\
    0100000011010000011111010110010111011100110010001101100101000100\
    1000101001010010000100001001111001110001001011000010000010111011";

/// Returns 32 bits from an offset on, of bits that are written as digits, as a number; zeros where there are fewer.
fn word_at(bits: &[u8], from: usize) -> u32 {
    let mut number = 0;
    let mut rest = bits.get(from..).unwrap_or(&[]);
    for _ in 0..32usize {
        number <<= 1;
        if let [digit, others @ ..] = rest {
            number |= u32::from(*digit == b'1');
            rest = others;
        }
    }
    number
}

/// Returns the bit at an offset.
fn bit_at(bits: &[u8], place: usize) -> Result<u32> {
    match bits.get(place) {
        Some(b'1') => Ok(1),
        Some(_) => Ok(0),
        None => Err(UnexpectedEof),
    }
}

/// Returns how many zeros follow an offset.
fn zeros_at(bits: &[u8], place: usize) -> usize {
    let from = bits.get(place..).unwrap_or(&[]);
    let mut rest = from;
    for _ in 0..from.len() {
        if let [b'0', others @ ..] = rest {
            rest = others;
        }
    }
    from.len().saturating_sub(rest.len())
}

/// Makes a reader in an order of bits.
fn ordered_reader<'a>(rt: &impl Abort, data: &'a [u8], is_low_first: bool) -> BitReader<'a> {
    assert!(rt; bits_fit(data));
    if is_low_first {
        return BitReader::new_low_first(data);
    }
    BitReader::new(data)
}

/// Consumes a number of bits to the end, and twice past it.
fn consumes_by(rt: &impl Abort, reader: &mut BitReader, bits: &[u8], n: usize)
    requires { n ≤ 32 }
{
    let mut place = 0usize;
    for _ in 0..(bits.len() / n.max(1)).saturating_add(2) {
        let peeked = reader.peek_u32();
        same(rt, (n, place, peeked), (n, place, word_at(bits, place)));
        let next = place.saturating_add(n);
        let is_within = next <= bits.len();
        same(rt, reader.consume(n).is_ok(), is_within);
        place = next.min(bits.len());
        same(rt, reader.bit_pos(), place);
    }
}

/// At an offset a clone reads a bit, and one moves to a whole byte; the zeros are counted, and then a bit is consumed.
fn reads_on_from(rt: &impl Abort, reader: &mut BitReader, bits: &[u8], place: usize)
    requires { place ≤ 320 }
{
    let mut next = reader.clone().expect(rt, "memory");
    same(rt, (place, next.read_bit()), (place, bit_at(bits, place)));
    same(
        rt,
        (place, next.peek_u32()),
        (place, word_at(bits, place + 1)),
    );
    let mut whole = reader.clone().expect(rt, "memory");
    whole.align();
    let edge = place.div_ceil(8) * 8;
    same(
        rt,
        (whole.bit_pos(), whole.peek_u32()),
        (edge, word_at(bits, edge)),
    );
    same(
        rt,
        (place, zeros_of(reader).0),
        (place, zeros_at(bits, place)),
    );
    same(rt, reader.consume(1).is_ok(), place < bits.len());
}

/// By each number of bits, and then from each offset.
#[test]
fn reads_as_a_list_of_bits(rt: HostRuntime) {
    for (digits, is_low_first) in [(HIGH_FIRST, false), (LOW_FIRST, true)] {
        for length in 0..=40usize {
            let data = &DATA[..length];
            let bits = digits.as_bytes().get(..8 * length).unwrap_or(&[]);
            for n in 0..=32usize {
                consumes_by(&rt, &mut ordered_reader(&rt, data, is_low_first), bits, n);
            }
            let mut reader = ordered_reader(&rt, data, is_low_first);
            for place in 0..=8 * length {
                reads_on_from(&rt, &mut reader, bits, place);
            }
        }
    }
}

/// Zeros of each number in 17 bytes, with a one after them, and without.
#[test]
fn counts_zeros(rt: HostRuntime) {
    for zeros in 0..136usize {
        let mut data = [0; 17];
        data[zeros / 8] = 0x80 >> (zeros % 8);
        let found = zeros_of(&ordered_reader(&rt, &data, false));
        same(&rt, found, (zeros, Some(zeros + 1)));
    }
    for length in 0..=17usize {
        let found = zeros_of(&ordered_reader(&rt, &[0; 17][..length], false));
        same(&rt, found, (8 * length, None));
    }
}
